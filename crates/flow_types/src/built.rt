// Which flows are built at this stage.
ghost use Rattle.std.specs.Prelude.{◌≡◌, is_some};
ghost use Rattle.std.specs.List.{list_all};
ghost use Rattle.flow_types.specs.Words.{is_built, is_built_node, is_built_source, is_csv, text_of};

use crate::node_text::is_append;
use tuple_schema::Text;
use workflow_file::{RawFlow, RawNode, RawSource};

/// Whether the flow is one that can be typed at this stage: a table without a key, sources of promise `seq` in CSV
/// files, and nodes that declare nothing, of each kind but numberings and unions in any order.
#[tactic(auto, unfolding(crate::specs::Built::is_built))]
pub fn is_built(raw: &RawFlow) -> bool
    ensures { result ≡ is_built raw.now }
{
    raw.table.key.is_none()
        && are_built_sources(raw.sources.items())
        && are_built_nodes(raw.nodes.items())
}

fn are_built_sources(sources: &[RawSource]) -> bool
    ensures { result ≡ list_all is_built_source sources.now }
{
    sources.iter().all(|source| is_built_source(source))
}

fn are_built_nodes(nodes: &[RawNode]) -> bool
    ensures { result ≡ list_all is_built_node nodes.now }
{
    nodes.iter().all(|node| is_built_node(node))
}

fn is_csv(format: &Option<Text>) -> bool
    ensures { result ≡ is_csv format.now }
{
    match format {
        None => true,
        Some(word) => word.as_str() == "csv",
    }
}

fn is_built_source(source: &RawSource) -> bool
    ensures { result ≡ is_built_source source.now }
{
    is_csv(&source.format) && source.promise.as_str() == "seq"
}

fn is_built_node(node: &RawNode) -> bool
    ensures { result ≡ is_built_node node.now }
{
    node.declare.is_none() && has_text(node)
}

// Whether the node's kind is built, and it has the key that this needs.
fn has_text(node: &RawNode) -> bool
    ensures { result ≡ is_some (text_of node.now) }
{
    match node.kind.as_str() {
        "select" => node.test.is_some(),
        "project" => node.columns.is_some(),
        "map" => node.set.is_some(),
        "join" | "lookup" => node.on.is_some(),
        "aggregate" => node.by.is_some() && node.make.is_some() && node.order.is_some(),
        "sort" => node.by.is_some(),
        "distinct" => true,
        "union" => is_append(&node.order) && node.inputs.is_some(),
        _ => false,
    }
}
