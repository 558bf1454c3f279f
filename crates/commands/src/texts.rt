// What the program writes.
ghost use Rattle.std.specs.Prelude.{◌≡◌, ◌++◌, IfOk, OnOk, OnErr, codes, string_bytes};
ghost use Rattle.std.specs.List.{flat_map};
ghost use Rattle.commands.specs.Words.{report_text, edge_line, name_of, place_text, shape_text, fault_text};
ghost use Rattle.commands.specs.Words.{cause_text, source_text, csv_text, field_text, IsMade, line_text, line_in};

use crate::Reason;
use crate::refusal::Refusal;
use extractors::CsvFault;
use flow_types::{Flow, Node, NodeId, SchemaCause};
use load_runner::{EdgeCount, Report, SourceWhat};
use row_codec::FieldFault;
use std::alloc::{AllocError, Global};
use workflow_file::{FlowFault, Lack, Place};

/// The report of a load that is complete.
pub fn report_text(alloc: Global, flow: &Flow, report: &Report) -> Result<String, AllocError>
    ensures { IfOk result (λ text. string_bytes text ≡ report_text flow.now.nodes report.now) }
{
    let before = report.committed_before;
    let added = report.added;
    let mut text = format!(in alloc; "complete\nbefore {before}\nadded {added}\n")?;
    add_edges(alloc, flow, report.edges.items(), &mut text)?;
    Ok(text)
}

// A line for each edge, behind the text.
fn add_edges(
    alloc: Global,
    flow: &Flow,
    edges: &[EdgeCount],
    text: &mut String,
) -> Result<(), AllocError>
    ensures { OnOk result (string_bytes text.new
        ≡ string_bytes text.old ++ flat_map (edge_line flow.now.nodes) edges.now) }
{
    match edges {
        [] => Ok(()),
        [edge, others @ ..] => {
            let line = edge_line(alloc, flow, edge)?;
            text.push_str(line.as_str())?;
            add_edges(alloc, flow, others, text)
        }
    }
}

// What passed the filter on an edge, and what was dropped there.
fn edge_line(alloc: Global, flow: &Flow, edge: &EdgeCount) -> Result<String, AllocError>
    ensures { IfOk result (λ text. string_bytes text ≡ edge_line flow.now.nodes edge.now) }
{
    let name = name_of(flow.nodes(), edge.edge);
    let passed = edge.passed;
    let dropped = edge.dropped;
    format!(in alloc; "edge {name} passed {passed} dropped {dropped}\n")
}

// The name of the first node of this number.
fn name_of(nodes: &[Node], id: NodeId) -> &str
    ensures { result.now ≡ name_of nodes.now id }
{
    match nodes {
        [] => "",
        [node, others @ ..] => {
            if node.id.0 == id.0 {
                node.name.as_str()
            } else {
                name_of(others, id)
            }
        }
    }
}

/// The line that tells why a command wasn't done.
#[derive(Drop)]
pub enum Line {
    Fixed(&'static str),
    Made(String),
}

impl Line {
    pub fn as_bytes(&self) -> &[u8]
        ensures { result.now ≡ line_text self.now }
    {
        match self {
            Line::Fixed(text) => text.as_bytes(),
            Line::Made(text) => text.as_bytes(),
        }
    }
}

/// The line of the refusal. Only those that tell a place, a size or a name take memory.
pub fn line_of(alloc: Global, refusal: &Refusal) -> Result<Line, AllocError>
    ensures text { IfOk result (λ line. line_text line ≡ line_in refusal.now) }
    ensures made { OnErr result (IsMade refusal.now.reason) }
{
    let text = match &refusal.reason {
        Reason::Usage => USAGE,
        Reason::FlowMissing => "whload: flow.toml is missing\n",
        Reason::FlowTooLong { size } => {
            let text = format!(in alloc; "whload: flow.toml has {size} bytes\n")?;
            return Ok(Line::Made(text));
        }
        Reason::Flow(fault) => return fault_line(alloc, fault),
        Reason::Schema(fault) => {
            let name = refusal.fault_name(fault.node);
            return Ok(Line::Made(schema_line(alloc, name, &fault.cause)?));
        }
        Reason::NotBuilt => "whload: flow.toml is not built yet\n",
        Reason::Source(fault) => {
            let name = refusal.name(fault.source);
            return Ok(Line::Made(source_line(alloc, name, fault.what)?));
        }
        Reason::NotATable { at } => {
            let text = format!(in alloc; "whload: table.whl is not a table at {at}\n")?;
            return Ok(Line::Made(text));
        }
        Reason::NotMade => "whload: table.whl is not made\n",
        Reason::WorkflowDiffers => "whload: table.whl was made by another workflow\n",
        Reason::Full => "whload: table.whl is full\n",
        Reason::Depot => "whload: a source file failed\n",
        Reason::Disk => "whload: the table file failed\n",
        Reason::Sink => "whload: the output failed\n",
        Reason::Memory => NO_MEMORY,
    };
    Ok(Line::Fixed(text))
}

/// The line for want of memory.
pub const NO_MEMORY: &str = "whload: out of memory\n";

const USAGE: &str =
    "whload: usage: whload load DIR [--batch N], explain DIR, check DIR, dump DIR, pack DIR SOURCE, drill N\n";

fn fault_line(alloc: Global, fault: &FlowFault) -> Result<Line, AllocError>
    ensures { IfOk result (λ line. line_text line ≡ codes "whload: " ++ fault_text fault.now ++ codes "\n") }
{
    match fault {
        FlowFault::NotToml => Ok(Line::Fixed("whload: flow.toml is not TOML\n")),
        FlowFault::Shape { place, what } => Ok(Line::Made(shape_line(alloc, place, *what)?)),
    }
}

fn schema_line(alloc: Global, name: &str, cause: &SchemaCause) -> Result<String, AllocError>
    ensures { IfOk result (λ text. string_bytes text
        ≡ codes "whload: " ++ (name.now ++ (codes ": " ++ cause_text cause.now)) ++ codes "\n") }
{
    let text = node_text(alloc, name, cause)?;
    format!(in alloc; "whload: {text}\n")
}

fn node_text(alloc: Global, name: &str, cause: &SchemaCause) -> Result<String, AllocError>
    ensures { IfOk result (λ text. string_bytes text ≡ name.now ++ (codes ": " ++ cause_text cause.now)) }
{
    let cause = cause_of(alloc, cause)?;
    format!(in alloc; "{name}: {cause}")
}

fn cause_of(alloc: Global, cause: &SchemaCause) -> Result<String, AllocError>
    ensures { IfOk result (λ text. string_bytes text ≡ cause_text cause.now) }
{
    match cause {
        SchemaCause::NameTwice => String::from_str(alloc, "name is used twice"),
        SchemaCause::NoInput { name } => {
            let input = name.as_str();
            format!(in alloc; "no input {input}")
        }
        SchemaCause::UsedTwice => String::from_str(alloc, "is used twice"),
        SchemaCause::NotReached => String::from_str(alloc, "is not reached from the table"),
        SchemaCause::UnknownColumn { column } => {
            let column = column.as_str();
            format!(in alloc; "unknown column {column}")
        }
        SchemaCause::DoubleColumn { column } => {
            let column = column.as_str();
            format!(in alloc; "column {column} comes twice")
        }
        SchemaCause::KindDiffers => String::from_str(alloc, "kinds differ"),
        SchemaCause::BadExpr { at, .. } => format!(in alloc; "expression is wrong at {at}"),
        SchemaCause::BadType => String::from_str(alloc, "expression has the wrong kinds"),
        SchemaCause::TooManyColumns => String::from_str(alloc, "more than 64 columns"),
    }
}

fn source_line(alloc: Global, name: &str, what: SourceWhat) -> Result<String, AllocError>
    ensures { IfOk result (λ text. string_bytes text
        ≡ codes "whload: " ++ (codes "source " ++ (name.now ++ source_text what)) ++ codes "\n") }
{
    let text = source_of(alloc, name, what)?;
    format!(in alloc; "whload: {text}\n")
}

fn source_of(alloc: Global, name: &str, what: SourceWhat) -> Result<String, AllocError>
    ensures { IfOk result (λ text. string_bytes text ≡ codes "source " ++ (name.now ++ source_text what)) }
{
    let what = what_text(alloc, what)?;
    format!(in alloc; "source {name}{what}")
}

fn what_text(alloc: Global, what: SourceWhat) -> Result<String, AllocError>
    ensures { IfOk result (λ text. string_bytes text ≡ source_text what) }
{
    match what {
        SourceWhat::Csv(fault) => csv_text(alloc, fault),
    }
}

fn csv_text(alloc: Global, fault: CsvFault) -> Result<String, AllocError>
    ensures { IfOk result (λ text. string_bytes text ≡ csv_text fault) }
{
    match fault {
        CsvFault::Depot => String::from_str(alloc, ": a source file failed"),
        CsvFault::Missing => String::from_str(alloc, ": file is missing"),
        CsvFault::TooLarge { size } => format!(in alloc; ": file has {size} bytes"),
        CsvFault::BadHeader { at } => format!(in alloc; ": header differs at column {at}"),
        CsvFault::BadCsv { row } => {
            format!(in alloc; ": row {row} has another number of fields")
        }
        CsvFault::BadRow { row, column, cause } => {
            let cause = field_text(cause);
            format!(in alloc; " row {row} column {column}: {cause}")
        }
    }
}

fn field_text(cause: FieldFault) -> &'static str
    ensures { result.now ≡ field_text cause }
{
    match cause {
        FieldFault::Empty => "empty field",
        FieldFault::NotNumber => "not a number",
        FieldFault::TooManyDigits => "too many digits after the point",
        FieldFault::OutOfRange => "number out of range",
        FieldFault::NotUtf8 => "not UTF-8",
        FieldFault::TooLong => "text too long",
    }
}

fn shape_line(alloc: Global, place: &Place, what: Lack) -> Result<String, AllocError>
    ensures { IfOk result (λ text. string_bytes text ≡ codes "whload: " ++ shape_text place.now what ++ codes "\n") }
{
    let place = place_of(alloc, place)?;
    let what = what.text();
    format!(in alloc; "whload: flow.toml {place}: {what}\n")
}

fn place_of(alloc: Global, place: &Place) -> Result<String, AllocError>
    ensures { IfOk result (λ text. string_bytes text ≡ place_text place.now) }
{
    let section = place.section.text();
    let index = place.index;
    let key = place.key.as_str();
    let item = place.item;
    let part = format!(in alloc; "{section} {index}")?;
    let key = format!(in alloc; "{key} {item}")?;
    format!(in alloc; "{part} {key}")
}
