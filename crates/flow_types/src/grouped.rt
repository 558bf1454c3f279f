// Aggregates: the columns by which rows are grouped, and those that are made of each group.
ghost use Rattle.std.specs.Prelude.{◌≡◌, ◌<◌, ◌≤◌, ◌++◌, [], ◌∷◌, length, map, filter_map, slice_get, option_to_list, option_copied, true, IfOk, IfSome, OnOk};
ghost use Rattle.std.specs.List.{list_all};
ghost use Rattle.tuple_schema.specs.Words.{Gives, GivesView, IsSchema, head_of};
ghost use Rattle.workflow_file.specs.Kept.{AllKeep};
ghost use Rattle.workflow_file.specs.Texts.{make_lack};
ghost use Rattle.flow_types.specs.Words.{IsGrouped, IsOver, agg_of, group_output, group_places, grouped, is_number, made_column};
ghost use Rattle.flow_types.specs.Words.{made_columns, made_from, made_kind, made_nullable, make_in, makes_of, may_be_made};
ghost use Rattle.flow_types.specs.Words.{may_be_of, only_summable, place_if, typed_aggregate, value_text};

use crate::fault::SchemaCause;
use crate::joined::only_schema;
use crate::mapped::value_text;
use crate::names::names_in;
use crate::node::{Agg, Cols, GroupOrder, Kind, Make, Makes};
use crate::paired::known_place;
use crate::typed::Typed;
use crate::typing;
use std::alloc::Global;
use tuple_schema::{Column, ColumnKind, Memory, Schema, Stop, Text, head_of, rest_of};

/// What an aggregate is by these names, that makes what the texts say and gives its groups in this order, over an input.
pub fn type_aggregate(
    alloc: Global,
    by: &[Text],
    makes: &[Text],
    order: GroupOrder,
    input: &Schema,
) -> Result<Typed, Stop<SchemaCause>>
    requires kept { AllKeep 1 64 make_lack makes.now }
    ensures typed { GivesView (λ t. (t.kind, t.schema)) result
        (typed_aggregate by.now makes.now order input.now) }
    ensures over { IfOk result (λ t. IsOver t.kind (input.now ∷ []) t.schema) }
{
    let found = group_columns(alloc, by, makes, input)?;
    Ok(Typed {
        kind: Kind::Aggregate {
            by: Cols::of(found.by),
            makes: found.makes,
            order,
        },
        schema: Schema::of(found.columns),
    })
}

// The places of the columns by which rows are grouped, what is made of each group, and the columns of the output.
#[derive(Drop)]
struct Grouped {
    by: Vec<usize>,
    makes: Makes,
    columns: Vec<Column>,
}

// The places, what is made, and the output; or the first cause by which it is refused.
fn group_columns(
    alloc: Global,
    by: &[Text],
    makes: &[Text],
    input: &Schema,
) -> Result<Grouped, Stop<SchemaCause>>
    requires kept { AllKeep 1 64 make_lack makes.now }
    ensures grouped { GivesView (λ g. ((g.by.items, g.makes), g.columns.items)) result
        (grouped by.now makes.now input.now) }
    ensures is { IfOk result (λ g. IsGrouped input.now g.by.items g.makes g.columns.items) }
    ensures schema { IfOk result (λ g. IsSchema g.columns.items) }
{
    let places = group_places(alloc, input.columns(), by)?;
    let made = makes_of(alloc, input.columns(), makes)?;
    only_summable(input.columns(), made.items())?;
    let columns = group_output(alloc, input.columns(), &places, makes, made.items())?;
    let columns = only_schema(alloc, columns)?;
    Ok(Grouped {
        by: places,
        makes: made,
        columns,
    })
}

// The places of the columns of these names, or the first that isn't there.
fn group_places(
    alloc: Global,
    columns: &[Column],
    by: &[Text],
) -> Result<Vec<usize>, Stop<SchemaCause>>
    ensures { GivesView (λ v. v.items) result (group_places columns.now by.now) }
{
    let names = names_in(alloc, columns)?;
    let mut places = Vec::new(alloc);
    for name in by {
        let place = known_place(&names, name.copy()?)?;
        places.push(place)?;
    }
    Ok(places)
}

// What the texts make, or the first column that isn't there.
fn makes_of(alloc: Global, columns: &[Column], texts: &[Text]) -> Result<Makes, Stop<SchemaCause>>
    ensures { Gives result (makes_of columns.now texts.now) }
{
    let names = names_in(alloc, columns)?;
    let mut makes = Makes::new(alloc);
    for text in texts {
        let make = make_in(alloc, &names, value_text(text.as_str()))?;
        makes.push(make)?;
    }
    Ok(makes)
}

// What a word makes, with a column behind it or without.
fn make_in(alloc: Global, names: &[&Text], value: &str) -> Result<Make, Stop<SchemaCause>>
    requires { length value.now ≤ 4096 }
    ensures { Gives result (make_in (map (λ n. n.now) names.now) value.now) }
{
    let name = rest_of(value);
    let column = place_if(alloc, names, name)?;
    Ok(Make {
        what: agg_of(head_of(value), name.is_some()),
        column,
    })
}

// The place of the column that is named, which has to be there, or 0.
fn place_if(alloc: Global, names: &[&Text], name: Option<&str>) -> Result<usize, Stop<SchemaCause>>
    requires { IfSome name (λ n. length n.now ≤ 4096) }
    ensures { Gives result (place_if (map (λ n. n.now) names.now) (option_copied name.entry)) }
{
    match name {
        None => Ok(0),
        Some(name) => known_place(names, text_of(alloc, name)?),
    }
}

// A copy of a text that isn't too long.
fn text_of(alloc: Global, text: &str) -> Result<Text, Memory>
    requires { length text.now ≤ 4096 }
    ensures { IfOk result (λ t. t ≡ text.now) }
{
    match Text::of(alloc, text) {
        Ok(text) => Ok(text),
        Err(_) => Err(Memory),
    }
}

// What a word makes: `count` alone counts the rows.
fn agg_of(word: &str, of_column: bool) -> Agg
    ensures { result ≡ agg_of word.now of_column }
{
    if !of_column {
        return Agg::Count;
    }
    if word == "count" {
        return Agg::CountOf;
    }
    if word == "sum" {
        return Agg::Sum;
    }
    if word == "min" {
        return Agg::Min;
    }
    Agg::Max
}

// Refuses the sum of a text.
fn only_summable(columns: &[Column], makes: &[Make]) -> Result<(), Stop<SchemaCause>>
    ensures only { Gives result (only_summable columns.now makes.now) }
    ensures may { OnOk result (list_all (may_be_made columns.now) makes.now ≡ true) }
{
    if are_summable(columns, makes) {
        return Ok(());
    }
    Err(Stop::Fault(SchemaCause::KindDiffers))
}

fn are_summable(columns: &[Column], makes: &[Make]) -> bool
    ensures { result ≡ list_all (may_be_made columns.now) makes.now }
{
    makes.iter().all(|make| may_be_made(columns, make))
}

// Whether the column is there, and may be made so.
fn may_be_made(columns: &[Column], make: &Make) -> bool
    ensures { result ≡ may_be_made columns.now make.now }
{
    match column_at(columns, make.column) {
        None => false,
        Some(column) => may_be_of(make.what, column.kind),
    }
}

fn column_at(columns: &[Column], place: usize) -> Option<&Column>
    ensures { option_copied result ≡ slice_get columns.now place }
{
    columns.get(place)
}

// Whether this may be made of a column of the kind.
fn may_be_of(what: Agg, kind: ColumnKind) -> bool
    ensures { result ≡ may_be_of what kind }
{
    match what {
        Agg::Count => true,
        Agg::CountOf => true,
        Agg::Sum => is_number(kind),
        Agg::Min => true,
        Agg::Max => true,
    }
}

fn is_number(kind: ColumnKind) -> bool
    ensures { result ≡ is_number kind }
{
    match kind {
        ColumnKind::Int => true,
        ColumnKind::Dec(_) => true,
        ColumnKind::Text => false,
    }
}

// The columns at these places, and behind them those that the texts make.
fn group_output(
    alloc: Global,
    input: &[Column],
    places: &[usize],
    texts: &[Text],
    makes: &[Make],
) -> Result<Vec<Column>, Memory>
    requires { length texts.now ≡ length makes.now }
    ensures { IfOk result (λ v. v.items ≡ group_output input.now places.now texts.now makes.now) }
{
    let mut columns = Vec::new(alloc);
    push_taken(input, places, &mut columns)?;
    push_made(alloc, input, texts, makes, &mut columns)?;
    Ok(columns)
}

// Adds the columns at these places.
fn push_taken(input: &[Column], places: &[usize], columns: &mut Vec<Column>) -> Result<(), Memory>
    ensures { OnOk result (columns.new.items ≡ columns.old.items ++ filter_map (slice_get input.now) places.now) }
{
    for place in places {
        push_column(input, *place, columns)?;
    }
    Ok(())
}

fn push_column(input: &[Column], place: usize, columns: &mut Vec<Column>) -> Result<(), Memory>
    ensures { OnOk result (columns.new.items ≡ columns.old.items ++ option_to_list (slice_get input.now place)) }
{
    match column_at(input, place) {
        None => Ok(()),
        Some(column) => {
            columns.push(column.copy()?)?;
            Ok(())
        }
    }
}

// Adds the columns that the texts make.
fn push_made(
    alloc: Global,
    input: &[Column],
    texts: &[Text],
    makes: &[Make],
    columns: &mut Vec<Column>,
) -> Result<(), Memory>
    requires { length texts.now ≡ length makes.now }
    ensures { OnOk result (columns.new.items ≡ columns.old.items ++ made_columns input.now texts.now makes.now) }
{
    for place in 0..makes.len() {
        push_make(alloc, input, &texts[place], make_at(makes, place), columns)?;
    }
    Ok(())
}

fn make_at(makes: &[Make], place: usize) -> &Make
    requires { place < length makes.now }
    ensures { slice_get makes.now place ≡ Some result.now }
{
    &makes[place]
}

// Adds the column that a text makes.
fn push_make(
    alloc: Global,
    input: &[Column],
    text: &Text,
    make: &Make,
    columns: &mut Vec<Column>,
) -> Result<(), Memory>
    ensures { OnOk result (columns.new.items ≡ columns.old.items
        ++ option_to_list (made_column input.now (head_of text.now) make.now)) }
{
    match column_at(input, make.column) {
        None => Ok(()),
        Some(of) => {
            let name = typing::head_of(alloc, text)?;
            columns.push(made_from(name, make.what, of))?;
            Ok(())
        }
    }
}

// The column that is made of another.
fn made_from(name: Text, what: Agg, of: &Column) -> Column
    ensures { result ≡ made_from name what of.now }
{
    Column {
        name,
        kind: made_kind(what, of.kind),
        nullable: made_nullable(what, of.nullable),
    }
}

// The kind of what is made of a column.
fn made_kind(what: Agg, kind: ColumnKind) -> ColumnKind
    ensures { result ≡ made_kind what kind }
{
    match what {
        Agg::Count => ColumnKind::Int,
        Agg::CountOf => ColumnKind::Int,
        Agg::Sum => kind,
        Agg::Min => kind,
        Agg::Max => kind,
    }
}

// Whether what is made may be Null.
fn made_nullable(what: Agg, nullable: bool) -> bool
    ensures { result ≡ made_nullable what nullable }
{
    match what {
        Agg::Count => false,
        Agg::CountOf => false,
        Agg::Sum => true,
        Agg::Min => nullable,
        Agg::Max => nullable,
    }
}
