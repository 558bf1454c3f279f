// The rows that a flow means, from the files of its sources.
ghost use Rattle.std.specs.Prelude.{◌≡◌, ◌≢◌, ◌<◌, ◌≤◌, ◌+◌, ℕ, Some, map, IfOk, IfSome, Ok, Err, option_copied, find};
ghost use Rattle.outside.specs.Words.{Rose, Files, file_at, Consults, found_in, size_of};
ghost use Rattle.tuple_schema.specs.Words.{IfFault};
ghost use Rattle.tuple_schema.specs.declared.memory.Stop.TheVariants as stop;
ghost use Rattle.extractors.specs.Words.{source_content};
ghost use Rattle.flow_types.specs.Words.{root_in};
ghost use Rattle.kind_laws.specs.Words.{HasOwnColumns, SourcesHaveColumns};
ghost use Rattle.load_runner.specs.declared.fault.SourceFault.{SourceFault};
ghost use Rattle.load_runner.specs.Words.{by_depot, of_source, content_of, numbered, contents_in, asked_of};
ghost use Rattle.load_runner.specs.Words.{asked_bytes, IsMade};

use crate::fault::{SourceFault, SourceWhat};
use extractors::read_content;
use flow_types::{Flow, Kind, Node, NodeId, Source, tree_laws};
use kind_laws::whole;
use outside::Depot;
use row_batch::Batch;
use std::alloc::Global;
use tuple_schema::{Memory, Schema, Stop};

/// The rows that the flow makes of the contents of the depot's files.
pub fn whole_rows<D: Depot>(
    alloc: Global,
    flow: &Flow,
    depot: &mut D,
) -> Result<Batch, Stop<SourceFault>>
    ensures made { IfOk result (λ whole. IsMade flow.now (D.state depot.old).files whole.rows) }
    ensures columns { IfOk result (λ whole. IfSome (root_in flow.now.nodes) (λ root. whole.columns ≡ root.schema)) }
    ensures refused { (f : SourceFault) → result ≡ Err (stop.Fault f) → f.what ≢ by_depot
        → (files : Files) → (D.state depot.old).files ≡ Some files → contents_in flow.now.nodes files ≡ Err f }
    ensures cause { IfFault result (λ f. f.what ≡ by_depot
        → Rose (D.state depot.old).faults (D.state depot.new).faults) }
    ensures consults { Consults (D.state depot.old) (D.state depot.new) }
    ensures served { (files : Files) → (D.state depot.old).files ≡ Some files
        → (D.state depot.new).served ≤ (D.state depot.old).served + asked_bytes flow.now.nodes files }
{
    let sources = source_lists(alloc, flow, depot)?;
    match whole(alloc, flow, sources) {
        Ok(rows) => Ok(rows),
        Err(Memory) => Err(Stop::Memory),
    }
}

// The contents of the flow's sources by number, in the order of the file, or the first fault.
fn source_lists<D: Depot>(
    alloc: Global,
    flow: &Flow,
    depot: &mut D,
) -> Result<Vec<Batch>, Stop<SourceFault>>
    ensures contents { IfOk result (λ lists. (files : Files) → (D.state depot.old).files ≡ Some files
        → contents_in flow.now.nodes files ≡ Ok (map (λ list. list.rows) lists.items)) }
    ensures refused { (f : SourceFault) → result ≡ Err (stop.Fault f) → f.what ≢ by_depot
        → (files : Files) → (D.state depot.old).files ≡ Some files → contents_in flow.now.nodes files ≡ Err f }
    ensures columns { IfOk result (λ lists. SourcesHaveColumns flow.now.nodes lists.items) }
    ensures cause { IfFault result (λ f. f.what ≡ by_depot
        → Rose (D.state depot.old).faults (D.state depot.new).faults) }
    ensures consults { Consults (D.state depot.old) (D.state depot.new) }
    ensures served { (files : Files) → (D.state depot.old).files ≡ Some files
        → (D.state depot.new).served ≤ (D.state depot.old).served + asked_bytes flow.now.nodes files }
{
    tree_laws();
    let nodes = flow.nodes();
    let root = flow.root_node();
    let mut lists = Vec::new(alloc);
    for number in 0..nodes.len() {
        let rows = source_rows(alloc, numbered(nodes, number), &root.schema, depot)?;
        lists.push(rows)?;
    }
    Ok(lists)
}

// The node of this number.
fn numbered(nodes: &[Node], number: usize) -> Option<&Node>
    ensures { option_copied result ≡ numbered nodes.now number }
{
    nodes.iter().find(|node| node.id.0 as usize == number)
}

// The content of the source, or its fault; of any other node the empty list, with any columns.
fn source_rows<D: Depot>(
    alloc: Global,
    node: Option<&Node>,
    any: &Schema,
    depot: &mut D,
) -> Result<Batch, Stop<SourceFault>>
    ensures content { IfOk result (λ list. (files : Files) → (D.state depot.old).files ≡ Some files
        → content_of files (option_copied node.entry) ≡ Ok list.rows) }
    ensures refused { (f : SourceFault) → result ≡ Err (stop.Fault f) → f.what ≢ by_depot
        → (files : Files) → (D.state depot.old).files ≡ Some files
        → content_of files (option_copied node.entry) ≡ Err f }
    ensures columns { IfOk result (λ list. IfSome (option_copied node.entry)
        (λ n. HasOwnColumns n.kind n.schema (Some list))) }
    ensures cause { IfFault result (λ f. f.what ≡ by_depot
        → Rose (D.state depot.old).faults (D.state depot.new).faults) }
    ensures consults { Consults (D.state depot.old) (D.state depot.new) }
    ensures served { (files : Files) → (D.state depot.old).files ≡ Some files
        → (D.state depot.new).served ≤ (D.state depot.old).served + asked_of files (option_copied node.entry) }
{
    let Some(node) = node else {
        return Ok(Batch::new(alloc, any)?);
    };
    match &node.kind {
        Kind::Source(source) => read_rows(alloc, depot, node.id, source, &node.schema),
        _ => Ok(Batch::new(alloc, any)?),
    }
}

// The content of the source's file, or its fault.
fn read_rows<D: Depot>(
    alloc: Global,
    depot: &mut D,
    id: NodeId,
    source: &Source,
    schema: &Schema,
) -> Result<Batch, Stop<SourceFault>>
    ensures content { IfOk result (λ list. (files : Files) → (D.state depot.old).files ≡ Some files
        → of_source id (source_content source.now.any_header schema.now
        (found_in 268435456 (file_at files source.now.file))) ≡ Ok list.rows) }
    ensures refused { (f : SourceFault) → result ≡ Err (stop.Fault f) → f.what ≢ by_depot
        → (files : Files) → (D.state depot.old).files ≡ Some files
        → of_source id (source_content source.now.any_header schema.now
        (found_in 268435456 (file_at files source.now.file))) ≡ Err f }
    ensures columns { IfOk result (λ list. list.columns ≡ schema.now) }
    ensures cause { IfFault result (λ f. f.what ≡ by_depot
        → Rose (D.state depot.old).faults (D.state depot.new).faults) }
    ensures consults { Consults (D.state depot.old) (D.state depot.new) }
    ensures served { (files : Files) → (D.state depot.old).files ≡ Some files
        → (D.state depot.new).served ≤ (D.state depot.old).served + size_of (file_at files source.now.file) }
{
    match read_content(
        alloc,
        depot,
        source.file.as_str(),
        schema,
        source.any_header,
    ) {
        Ok(list) => Ok(list),
        Err(Stop::Memory) => Err(Stop::Memory),
        Err(Stop::Fault(fault)) => Err(Stop::Fault(SourceFault {
            source: id,
            what: SourceWhat::Csv(fault),
        })),
    }
}
