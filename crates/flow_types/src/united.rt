// Unions: the columns that come of inputs which hold the same kinds.
ghost use Rattle.std.specs.Prelude.{◌≡◌, ◌≤◌, map, length, true, IfOk, OnOk};
ghost use Rattle.std.specs.List.{list_all, list_any};
ghost use Rattle.tuple_schema.specs.Words.{Gives, GivesView};
ghost use Rattle.expr_lang.specs.Words.{is_same_kind};
ghost use Rattle.flow_types.specs.Words.{IsOver, any_nullable, are_alike, columns_of, may_be_null, only_alike};
ghost use Rattle.flow_types.specs.Words.{typed_union, united_column, united_from};

use crate::fault::SchemaCause;
use crate::node::{Kind, Node};
use crate::typed::Typed;
use std::alloc::Global;
use tuple_schema::{Column, Memory, Schema, Stop};

/// What a union is of these inputs, one after the other.
pub fn type_union(alloc: Global, inputs: &[&Node]) -> Result<Typed, Stop<SchemaCause>>
    requires some { 1 ≤ length inputs.now }
    ensures typed { GivesView (λ t. (t.kind, t.schema)) result
        (typed_union (columns_of (map (λ n. n.now) inputs.now))) }
    ensures over { IfOk result (λ t. IsOver t.kind (columns_of (map (λ n. n.now) inputs.now)) t.schema) }
{
    let first = inputs[0].schema.columns();
    only_alike(first, inputs)?;
    let columns = united_columns(alloc, first, inputs)?;
    Ok(Typed {
        kind: Kind::Union { any: false },
        schema: Schema::of(columns),
    })
}

// Refuses an input that doesn't hold the kinds of the first.
fn only_alike(first: &[Column], inputs: &[&Node]) -> Result<(), Stop<SchemaCause>>
    ensures only { Gives result (only_alike first.now (columns_of (map (λ n. n.now) inputs.now))) }
    ensures alike { OnOk result (list_all (are_alike first.now) (columns_of (map (λ n. n.now) inputs.now)) ≡ true) }
{
    if all_alike(first, inputs) {
        return Ok(());
    }
    Err(Stop::Fault(SchemaCause::KindDiffers))
}

#[tactic(auto, using(crate::proofs::Lists::list_all_mapped))]
fn all_alike(first: &[Column], inputs: &[&Node]) -> bool
    ensures { result ≡ list_all (are_alike first.now) (columns_of (map (λ n. n.now) inputs.now)) }
{
    each_alike(first, inputs)
}

fn each_alike(first: &[Column], inputs: &[&Node]) -> bool
    ensures { result ≡ list_all (λ n. are_alike first.now n.now.schema) inputs.now }
{
    inputs
        .iter()
        .all(|input| are_alike(first, input.schema.columns()))
}

// Whether both hold the same kinds, place by place.
fn are_alike(first: &[Column], other: &[Column]) -> bool
    ensures { result ≡ are_alike first.now other.now }
{
    if first.len() != other.len() {
        return false;
    }
    for place in 0..first.len() {
        if !is_same_kind(&first[place], &other[place]) {
            return false;
        }
    }
    true
}

fn is_same_kind(one: &Column, other: &Column) -> bool
    ensures { result ≡ is_same_kind one.now.kind other.now.kind }
{
    one.kind == other.kind
}

// The columns of the first input, each nullable where that of any input is.
fn united_columns(alloc: Global, first: &[Column], inputs: &[&Node]) -> Result<Vec<Column>, Memory>
    ensures { IfOk result (λ v. v.items ≡ united_from (columns_of (map (λ n. n.now) inputs.now)) 0 first.now) }
{
    let mut columns = Vec::new(alloc);
    for place in 0..first.len() {
        columns.push(united_column(&first[place], place, inputs)?)?;
    }
    Ok(columns)
}

// The column at a place, nullable where that of any input is.
fn united_column(column: &Column, place: usize, inputs: &[&Node]) -> Result<Column, Memory>
    ensures { IfOk result (λ c. c ≡ united_column (columns_of (map (λ n. n.now) inputs.now)) place column.now) }
{
    Ok(Column {
        name: column.name.copy()?,
        kind: column.kind,
        nullable: any_nullable(inputs, place),
    })
}

#[tactic(auto, using(crate::proofs::Lists::list_any_mapped))]
fn any_nullable(inputs: &[&Node], place: usize) -> bool
    ensures { result ≡ any_nullable (columns_of (map (λ n. n.now) inputs.now)) place }
{
    some_nullable(inputs, place)
}

fn some_nullable(inputs: &[&Node], place: usize) -> bool
    ensures { result ≡ list_any (λ n. may_be_null place n.now.schema) inputs.now }
{
    inputs
        .iter()
        .any(|input| may_be_null(input.schema.columns(), place))
}

// Whether the column at the place may be Null.
fn may_be_null(columns: &[Column], place: usize) -> bool
    ensures { result ≡ may_be_null place columns.now }
{
    match columns.get(place) {
        None => false,
        Some(column) => column.nullable,
    }
}
