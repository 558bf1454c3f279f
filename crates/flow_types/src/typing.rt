// The columns and kinds of nodes.
ghost use Rattle.std.specs.Prelude.{◌≡◌, ◌<◌, ◌≤◌, ◌+◌, [], ◌∷◌, Some, None, Ok, Err, map, length, vec_len, filter_map, slice_get, IsTrue, IfOk, IfSome, OnOk, All};
ghost use Rattle.tuple_schema.specs.Words.{Gives, GivesView, IfFault, head_of, rest_of};
ghost use Rattle.workflow_file.specs.Words.{KeepsRules, KeepsSource};
ghost use Rattle.flow_types.specs.Words.{names_in, no_double, no_unknown, place_of, tree_below, IsWhole, id_of};
ghost use Rattle.flow_types.specs.Words.{names_of};
ghost use Rattle.flow_types.specs.Words.{needs_of, links_of, inputs_exist, AreWithin, is_built, is_built_source};
ghost use Rattle.flow_types.specs.Words.{text_at, text_seen, inputs_needed, ids_of, columns_of, last_name, renamed};
ghost use Rattle.flow_types.specs.Words.{output_columns, source_cols, is_word, source_of, projection, typed_source};
ghost use Rattle.flow_types.specs.Words.{typed_select, typed_project, typed_text, typed_node, at_node, typed_tree};
ghost use Rattle.flow_types.specs.Words.{IsBuiltSource, Takes, KeepsText, IsOver, IsLinked, HasTree};

use crate::column_texts::stated_columns;
use crate::expressions::test_of;
use crate::fault::{NodeId, SchemaCause, SchemaFault};
use crate::graph::{Link, fault_at, inputs_below};
use crate::grouped::type_aggregate;
use crate::joined::{type_join, type_lookup};
use crate::mapped::type_map;
use crate::names::{cols_if, names_in, no_double, place_of};
use crate::node::{Cols, Inputs, Kind, Node, Source};
use crate::node_text::{NodeText, name_at, text_at};
use crate::ordered::{type_distinct, type_sort};
use crate::typed::Typed;
use crate::united::type_union;
use std::alloc::Global;
use tuple_schema::{Column, Memory, Names, Schema, Stop, Text, rest_of};
use workflow_file::{RawFlow, RawSource};

/// Puts the typed nodes of a tree behind the nodes, inputs first, and tells where its root stands; or the first fault.
pub fn type_tree(
    alloc: Global,
    raw: &RawFlow,
    links: &[Link],
    depth: usize,
    place: usize,
    nodes: &mut Vec<Node>,
) -> Result<usize, Stop<SchemaFault>>
    requires kept { KeepsRules raw.now }
    requires built { IsTrue (is_built raw.now) }
    requires there { inputs_exist (names_of raw.now) (needs_of raw.now) ≡ Ok tt }
    requires links { links.now ≡ links_of raw.now }
    requires within { AreWithin links.now }
    requires place { place < length links.now }
    requires whole { IsWhole links.now depth place }
    ensures tree { IfOk result (HasTree raw.now (tree_below links.now depth place) nodes.old.items nodes.new.items) }
    ensures fault { IfFault result (λ fault. typed_tree raw.now (tree_below links.now depth place) ≡ Err fault) }
{
    let mut roots = Vec::new(alloc);
    for input in inputs_below(links, depth, place) {
        let root = type_tree(alloc, raw, links, depth - 1, *input, nodes)?;
        roots.push(root)?;
    }
    let node = type_over(alloc, raw, place, nodes, &roots)?;
    let root = nodes.len();
    nodes.push(node)?;
    Ok(root)
}

// The node at a place, over those that stand at these places among the nodes.
fn type_over(
    alloc: Global,
    raw: &RawFlow,
    place: usize,
    nodes: &[Node],
    roots: &[usize],
) -> Result<Node, Stop<SchemaFault>>
    requires kept { KeepsRules raw.now }
    requires built { IsTrue (is_built raw.now) }
    requires place { place < length raw.now.sources + length raw.now.nodes }
    requires within { All (λ root. root < length nodes.now) roots.now }
    requires count { IfSome (text_at raw.now place) (λ text. length roots.now ≡ inputs_needed text) }
    ensures node { Gives result (at_node place (typed_node raw.now place
        (filter_map (slice_get nodes.now) roots.now))) }
    ensures linked { IfOk result (λ n. IsLinked n (filter_map (slice_get nodes.now) roots.now)) }
{
    let inputs = nodes_at(alloc, nodes, roots)?;
    match type_node(alloc, raw, place, &inputs) {
        Ok(node) => Ok(node),
        Err(Stop::Memory) => Err(Stop::Memory),
        Err(Stop::Fault(cause)) => Err(Stop::Fault(fault_at(place, cause))),
    }
}

// The nodes at these places.
fn nodes_at<'n>(alloc: Global, nodes: &'n [Node], places: &[usize]) -> Result<Vec<&'n Node>, Memory>
    requires within { All (λ place. place < length nodes.now) places.now }
    ensures nodes { IfOk result (λ v. map (λ n. n.now) v.items ≡ filter_map (slice_get nodes.now) places.now) }
    ensures len { IfOk result (λ v. vec_len v ≡ length places.now) }
{
    let mut found = Vec::new(alloc);
    for place in places {
        found.push(&nodes[*place])?;
    }
    Ok(found)
}

// The node at a place, over its inputs.
fn type_node(
    alloc: Global,
    raw: &RawFlow,
    place: usize,
    inputs: &[&Node],
) -> Result<Node, Stop<SchemaCause>>
    requires kept { KeepsRules raw.now }
    requires built { IsTrue (is_built raw.now) }
    requires place { place < length raw.now.sources + length raw.now.nodes }
    requires count { IfSome (text_at raw.now place) (λ text. length inputs.now ≡ inputs_needed text) }
    ensures node { Gives result (typed_node raw.now place (map (λ n. n.now) inputs.now)) }
    ensures linked { IfOk result (λ n. IsLinked n (map (λ n. n.now) inputs.now)) }
{
    let text = text_at(raw, place);
    let typed = type_text(alloc, text, inputs)?;
    Ok(Node {
        id: id_of(place),
        name: name_at(raw, place).copy()?,
        kind: typed.kind,
        inputs: ids_of(alloc, inputs)?,
        schema: typed.schema,
        declared: Names::new(alloc),
    })
}

// The node's number.
fn id_of(place: usize) -> NodeId
    requires { place < 256 }
    ensures { result ≡ id_of place }
{
    NodeId(place as u8)
}

// The numbers of nodes.
fn ids_of(alloc: Global, nodes: &[&Node]) -> Result<Inputs, Memory>
    ensures { IfOk result (λ i. i ≡ ids_of (map (λ n. n.now) nodes.now)) }
{
    let mut ids = Vec::new(alloc);
    for node in nodes {
        ids.push(node.id)?;
    }
    Ok(Inputs::of(ids))
}

// What a node is that says this, over these inputs.
fn type_text(
    alloc: Global,
    text: NodeText<'_>,
    inputs: &[&Node],
) -> Result<Typed, Stop<SchemaCause>>
    requires kept { KeepsText (text_seen text) }
    requires count { length inputs.now ≡ inputs_needed (text_seen text) }
    ensures typed { GivesView (λ t. (t.kind, t.schema)) result (typed_text (text_seen text.entry)
        (columns_of (map (λ n. n.now) inputs.now))) }
    ensures over { IfOk result (λ t. IsOver t.kind (columns_of (map (λ n. n.now) inputs.now)) t.schema) }
{
    match text {
        NodeText::Source(source) => type_source(alloc, source),
        NodeText::Select(text) => type_select(alloc, text, &inputs[0].schema),
        NodeText::Project(texts) => type_project(alloc, texts, &inputs[0].schema),
        NodeText::Map(texts) => type_map(alloc, texts, &inputs[0].schema),
        NodeText::Join(texts) => type_join(alloc, texts, &inputs[0].schema, &inputs[1].schema),
        NodeText::Lookup(texts) => type_lookup(alloc, texts, &inputs[0].schema, &inputs[1].schema),
        NodeText::Aggregate(by, makes, order) => {
            type_aggregate(alloc, by, makes, order, &inputs[0].schema)
        }
        NodeText::Sort(names) => type_sort(alloc, names, &inputs[0].schema),
        NodeText::Distinct => type_distinct(&inputs[0].schema),
        NodeText::Union(_) => type_union(alloc, inputs),
    }
}

fn type_source(alloc: Global, source: &RawSource) -> Result<Typed, Stop<SchemaCause>>
    requires kept { KeepsSource source.now }
    requires built { IsTrue (is_built_source source.now) }
    ensures typed { GivesView (λ t. (t.kind, t.schema)) result (typed_source source.now) }
    ensures over { IfOk result (λ t. IsOver t.kind [] t.schema) }
{
    let columns = stated_columns(alloc, source.columns.items())?;
    let (key, grouped) = source_cols(alloc, &columns, source)?;
    Ok(Typed {
        kind: Kind::Source(source_of(source, key, grouped)?),
        schema: Schema::of(columns),
    })
}

// How a source lists its rows.
fn source_of(source: &RawSource, key: Option<Cols>, grouped: Option<Cols>) -> Result<Source, Memory>
    requires { IsTrue (is_built_source source.now) }
    ensures is { IfOk result (λ s. s ≡ source_of source.now key grouped) }
    ensures built { IfOk result (λ s. IsBuiltSource s) }
{
    Ok(Source {
        file: source.file.copy()?,
        packed: is_word(&source.format, "packed"),
        any_header: is_word(&source.header, "any"),
        seq: source.promise.as_str() == "seq",
        key,
        grouped,
    })
}

fn is_word(text: &Option<Text>, word: &str) -> bool
    ensures { result ≡ is_word word.now text.now }
{
    match text {
        None => false,
        Some(text) => text.as_str() == word,
    }
}

/// What stands before the first space, or the whole text where it has none.
#[tactic(auto, unfolding(tuple_schema::specs::Texts::head_of))]
pub fn head_of(alloc: Global, text: &Text) -> Result<Text, Memory>
    ensures { IfOk result (λ t. t ≡ head_of text.now) }
{
    match text.as_str().split_once(' ') {
        None => text.copy(),
        Some((head, _)) => text_of(alloc, head),
    }
}

// A copy of a text that isn't too long.
fn text_of(alloc: Global, text: &str) -> Result<Text, Memory>
    requires { length text.now ≤ 4096 }
    ensures { IfOk result (λ t. t ≡ text.now) }
{
    match Text::of(alloc, text) {
        Ok(text) => Ok(text),
        Err(_) => Err(Memory),
    }
}

// No column twice, then the columns of the key, and those by which the source is grouped.
fn source_cols(
    alloc: Global,
    columns: &[Column],
    source: &RawSource,
) -> Result<(Option<Cols>, Option<Cols>), Stop<SchemaCause>>
    ensures cols { Gives result (source_cols (names_in columns.now) source.now) }
    ensures distinct { OnOk result (no_double (names_in columns.now) ≡ Ok tt) }
{
    let names = names_in(alloc, columns)?;
    no_double(&names)?;
    let key = cols_if(alloc, &names, &source.key)?;
    let grouped = cols_if(alloc, &names, &source.grouped)?;
    Ok((key, grouped))
}

fn type_select(alloc: Global, text: &Text, input: &Schema) -> Result<Typed, Stop<SchemaCause>>
    ensures typed { GivesView (λ t. (t.kind, t.schema)) result (typed_select text.now input.now) }
    ensures over { IfOk result (λ t. IsOver t.kind (input.now ∷ []) t.schema) }
{
    let test = test_of(alloc, input, text.as_str())?;
    Ok(Typed {
        kind: Kind::Select { test },
        schema: input.copy()?,
    })
}

fn type_project(alloc: Global, texts: &[Text], input: &Schema) -> Result<Typed, Stop<SchemaCause>>
    requires some { 1 ≤ length texts.now }
    requires few { length texts.now ≤ 64 }
    ensures typed { GivesView (λ t. (t.kind, t.schema)) result (typed_project texts.now input.now) }
    ensures over { IfOk result (λ t. IsOver t.kind (input.now ∷ []) t.schema) }
{
    let taken = projection(alloc, input.columns(), texts)?;
    Ok(Typed {
        kind: Kind::Project {
            from: Cols::of(taken.places),
        },
        schema: Schema::of(taken.columns),
    })
}

// The places of the columns that are taken, and the columns that come of them.
fn projection(alloc: Global, columns: &[Column], texts: &[Text]) -> Result<Taken, Stop<SchemaCause>>
    ensures taken { GivesView (λ t. (t.places.items, t.columns.items)) result (projection columns.now texts.now) }
    ensures distinct { IfOk result (λ t. no_double (names_in t.columns.items) ≡ Ok tt) }
    ensures takes { IfOk result (λ t. Takes columns.now t.places.items t.columns.items) }
    ensures len { IfOk result (λ t. length t.columns.items ≡ length texts.now) }
{
    let taken = take_columns(alloc, columns, texts)?;
    differ(alloc, &taken.columns)?;
    Ok(taken)
}

// Refuses the first name that two columns have.
pub fn differ(alloc: Global, columns: &[Column]) -> Result<(), Stop<SchemaCause>>
    ensures { Gives result (no_double (names_in columns.now)) }
{
    let names = names_in(alloc, columns)?;
    no_double(&names)
}

// Places of columns, and the columns that come of them.
#[derive(Drop)]
struct Taken {
    places: Vec<usize>,
    columns: Vec<Column>,
}

// What the texts take of the columns, or the first that isn't there.
fn take_columns(
    alloc: Global,
    columns: &[Column],
    texts: &[Text],
) -> Result<Taken, Stop<SchemaCause>>
    ensures unknown { GivesView (λ _. tt) result (no_unknown (names_in columns.now) (map head_of texts.now)) }
    ensures places { IfOk result (λ t. t.places.items ≡ filter_map (place_of (names_in columns.now))
        (map head_of texts.now)) }
    ensures columns { IfOk result (λ t. t.columns.items ≡ output_columns columns.now texts.now) }
    ensures takes { IfOk result (λ t. Takes columns.now t.places.items t.columns.items) }
    ensures len { IfOk result (λ t. length t.columns.items ≡ length texts.now) }
{
    let names = names_in(alloc, columns)?;
    let mut places = Vec::new(alloc);
    let mut outputs = Vec::new(alloc);
    for text in texts {
        let place = taken_place(alloc, &names, text)?;
        outputs.push(output(alloc, &columns[place], text)?)?;
        places.push(place)?;
    }
    Ok(Taken {
        places,
        columns: outputs,
    })
}

// The place of the column that a text takes.
fn taken_place(alloc: Global, names: &[&Text], text: &Text) -> Result<usize, Stop<SchemaCause>>
    ensures there { IfOk result (λ place. Some place ≡ place_of (map (λ n. n.now) names.now) (head_of text.now)) }
    ensures within { IfOk result (λ place. place < length names.now) }
    ensures missing { IfFault result (λ cause. (place_of (map (λ n. n.now) names.now) (head_of text.now) ≡ None)
        × (cause ≡ SchemaCause.UnknownColumn (head_of text.now))) }
{
    let column = head_of(alloc, text)?;
    match place_of(names, &column) {
        Some(place) => Ok(place),
        None => Err(Stop::Fault(SchemaCause::UnknownColumn { column })),
    }
}

// The column under the name that the text gives it.
fn output(alloc: Global, column: &Column, text: &Text) -> Result<Column, Memory>
    ensures { IfOk result (λ c. c ≡ renamed (last_name text.now) column.now) }
{
    Ok(Column {
        name: last_name(alloc, text)?,
        kind: column.kind,
        nullable: column.nullable,
    })
}

/// The last name of `NAME`, `NAME as NAME` or `NAME = NAME`.
pub fn last_name(alloc: Global, text: &Text) -> Result<Text, Memory>
    ensures { IfOk result (λ t. t ≡ last_name text.now) }
{
    let Some(rest) = rest_of(text.as_str()) else {
        return head_of(alloc, text);
    };
    match rest_of(rest) {
        None => text_of(alloc, rest),
        Some(name) => text_of(alloc, name),
    }
}
