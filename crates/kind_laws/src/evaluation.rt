// The meaning of a flow.
ghost use Rattle.std.specs.Prelude.{◌≡◌, ◌-◌, [], Some, IfOk, OnOk, IfSome, get_or, map, slice_set, length};
ghost use Rattle.flow_types.specs.Words.{root_in};
ghost use Rattle.kind_laws.specs.Words.{by_number, whole_of, SourcesHaveColumns};

use crate::transform::{Law, Transform};
use flow_types::{Flow, Kind, NodeId, tree_laws};
use row_batch::Batch;
use std::alloc::Global;
use std::mem::replace;
use tuple_schema::{Memory, Schema};

/// The meaning of a flow whose sources have these lists, one for each in the order of the file, by plain
/// evaluation: each node takes the lists of its inputs, which are the last ones that were made. A source for which
/// there is no list has no rows.
pub fn whole(alloc: Global, flow: &Flow, mut sources: Vec<Batch>) -> Result<Batch, Memory>
    requires { SourcesHaveColumns flow.now.nodes sources.items }
    ensures whole { IfOk result
        (λ b. whole_of flow.now.nodes (by_number (map (λ l. l.rows) sources.items)) ≡ Some b.rows) }
    ensures columns { IfOk result (λ b. IfSome (root_in flow.now.nodes) (λ root. b.columns ≡ root.schema)) }
{
    tree_laws();
    let mut inputs = Vec::new(alloc);
    let mut lists = Vec::new(alloc);
    for node in flow.nodes() {
        let rows = match &node.kind {
            Kind::Source(_) => take_list(alloc, &mut sources, node.id, &node.schema)?,
            _ => {
                let at = lists.len() - node.inputs.nodes().len();
                let law = Law {
                    node,
                    inputs: inputs.split_off(at)?,
                };
                law.out(alloc, lists.split_off(at)?)?
            }
        };
        inputs.push(node)?;
        lists.push(rows)?;
    }
    match lists.pop() {
        Some(rows) => Ok(rows),
        None => unreachable!(),
    }
}

// The list of the source, which is no longer kept here.
fn take_list(
    alloc: Global,
    sources: &mut Vec<Batch>,
    source: NodeId,
    schema: &Schema,
) -> Result<Batch, Memory>
    ensures list { IfOk result
        (λ b. b ≡ get_or sources.old.items source.0 (record { columns = schema.now; rows = [] })) }
    ensures others { OnOk result
        (sources.new.items ≡ slice_set sources.old.items source.0 (record { columns = schema.now; rows = [] })) }
{
    let none = Batch::new(alloc, schema)?;
    let place = source.0 as usize;
    if place >= sources.len() {
        return Ok(none);
    }
    Ok(replace(&mut sources[place], none))
}
