// Refusals, and the names by which their lines tell a node.
ghost use Rattle.std.specs.Prelude.{◌≡◌};
ghost use Rattle.flow_types.specs.Words.{names_of, name_at};
ghost use Rattle.commands.specs.Words.{names_in, fault_name};

use crate::Reason;
use flow_types::NodeId;
use workflow_file::RawFlow;

/// Why a command wasn't done, and the flow, where one was read: it has the names that the line tells.
#[derive(Debug, Drop)]
pub struct Refusal {
    pub reason: Reason,
    pub flow: Option<RawFlow>,
}

impl Refusal {
    /// The name of a node, which is empty where there is no such node.
    pub fn name(&self, id: NodeId) -> &str
        ensures { result.now ≡ name_at (names_in self.now.flow) id.0 }
    {
        match &self.flow {
            Some(raw) => name_at(raw, id.0 as usize),
            None => "",
        }
    }

    /// The name of the node that a fault is of, or `table`.
    pub fn fault_name(&self, node: Option<NodeId>) -> &str
        ensures { result.now ≡ fault_name (names_in self.now.flow) node }
    {
        match node {
            Some(id) => self.name(id),
            None => "table",
        }
    }
}

// The name of the node at a place, sources first.
#[tactic(auto, using(crate::proofs::Names::of_source, crate::proofs::Names::of_node, crate::proofs::Names::no_node))]
fn name_at(raw: &RawFlow, place: usize) -> &str
    ensures { result.now ≡ name_at (names_of raw.now) place }
{
    let sources = raw.sources.items();
    if let Some(source) = sources.get(place) {
        return source.name.as_str();
    }
    match raw.nodes.items().get(place - sources.len()) {
        Some(node) => node.name.as_str(),
        None => "",
    }
}
