// Joins and lookups: the columns that come of two inputs.
ghost use Rattle.std.specs.Prelude.{◌≡◌, ◌≤◌, ◌<◌, ◌++◌, [], ◌∷◌, length, map, filter_map, slice_get, not, ◌==◌, Ok, IfOk, OnOk};
ghost use Rattle.std.specs.List.{filter, list_any};
ghost use Rattle.tuple_schema.specs.Words.{GivesView};
ghost use Rattle.flow_types.specs.Words.{IsOver, as_nullable, join_columns, lookup_columns, names_in, no_double};
ghost use Rattle.flow_types.specs.Words.{only_schema, other_columns, typed_join, typed_lookup};

use crate::fault::SchemaCause;
use crate::mapped::only_few;
use crate::node::{Cols, Kind};
use crate::paired::{lefts, pairs_of, rights};
use crate::typed::Typed;
use crate::typing::differ;
use std::alloc::Global;
use tuple_schema::{Column, Memory, Schema, Stop, Text};

/// What a join is of these pairs, over two inputs.
pub fn type_join(
    alloc: Global,
    texts: &[Text],
    left: &Schema,
    right: &Schema,
) -> Result<Typed, Stop<SchemaCause>>
    ensures typed { GivesView (λ t. (t.kind, t.schema)) result (typed_join texts.now left.now right.now) }
    ensures over { IfOk result (λ t. IsOver t.kind (left.now ∷ right.now ∷ []) t.schema) }
{
    let pairs = pairs_of(alloc, left.columns(), right.columns(), texts)?;
    let lefts = lefts(alloc, &pairs)?;
    let rights = rights(alloc, &pairs)?;
    let columns = join_columns(alloc, left.columns(), right.columns(), &rights)?;
    let columns = only_schema(alloc, columns)?;
    Ok(Typed {
        kind: Kind::Join {
            left: Cols::of(lefts),
            right: Cols::of(rights),
        },
        schema: Schema::of(columns),
    })
}

/// What a lookup is of these pairs, over two inputs.
pub fn type_lookup(
    alloc: Global,
    texts: &[Text],
    left: &Schema,
    right: &Schema,
) -> Result<Typed, Stop<SchemaCause>>
    ensures typed { GivesView (λ t. (t.kind, t.schema)) result (typed_lookup texts.now left.now right.now) }
    ensures over { IfOk result (λ t. IsOver t.kind (left.now ∷ right.now ∷ []) t.schema) }
{
    let pairs = pairs_of(alloc, left.columns(), right.columns(), texts)?;
    let lefts = lefts(alloc, &pairs)?;
    let rights = rights(alloc, &pairs)?;
    let columns = lookup_columns(alloc, left.columns(), right.columns(), &rights)?;
    let columns = only_schema(alloc, columns)?;
    Ok(Typed {
        kind: Kind::Lookup {
            left: Cols::of(lefts),
            right: Cols::of(rights),
        },
        schema: Schema::of(columns),
    })
}

/// Refuses a name that comes twice, and then more columns than a schema may have.
pub fn only_schema(alloc: Global, columns: Vec<Column>) -> Result<Vec<Column>, Stop<SchemaCause>>
    ensures only { GivesView (λ v. v.items) result (only_schema columns.items) }
    ensures same { IfOk result (λ v. v.items ≡ columns.items) }
    ensures distinct { IfOk result (λ v. no_double (names_in v.items) ≡ Ok tt) }
    ensures few { IfOk result (λ v. length v.items ≤ 64) }
{
    differ(alloc, &columns)?;
    only_few(columns)
}

// The left columns, and behind them the right ones that are none of these.
fn join_columns(
    alloc: Global,
    left: &[Column],
    right: &[Column],
    cols: &[usize],
) -> Result<Vec<Column>, Memory>
    ensures { IfOk result (λ v. v.items ≡ join_columns left.now right.now cols.now) }
{
    let others = other_columns(alloc, right, cols)?;
    behind(alloc, left, &others)
}

// The same, and the right ones may be Null.
fn lookup_columns(
    alloc: Global,
    left: &[Column],
    right: &[Column],
    cols: &[usize],
) -> Result<Vec<Column>, Memory>
    ensures { IfOk result (λ v. v.items ≡ lookup_columns left.now right.now cols.now) }
{
    let others = other_columns(alloc, right, cols)?;
    let nullable = as_nullable(alloc, &others)?;
    behind(alloc, left, &nullable)
}

// The columns of the right input that are none of these.
fn other_columns(alloc: Global, right: &[Column], cols: &[usize]) -> Result<Vec<Column>, Memory>
    ensures { IfOk result (λ v. v.items ≡ other_columns right.now cols.now) }
{
    let mut columns = Vec::new(alloc);
    for place in 0..right.len() {
        push_other(right, cols, place, &mut columns)?;
    }
    Ok(columns)
}

// Adds the column at the place, where that is none of these.
fn push_other(
    right: &[Column],
    cols: &[usize],
    place: usize,
    columns: &mut Vec<Column>,
) -> Result<(), Memory>
    requires { place < length right.now }
    ensures { OnOk result (columns.new.items ≡ columns.old.items
        ++ filter_map (slice_get right.now) (filter (λ p. not (list_any (λ c. c == p) cols.now)) (place ∷ []))) }
{
    if !is_col(cols, place) {
        columns.push(right[place].copy()?)?;
    }
    Ok(())
}

fn is_col(cols: &[usize], place: usize) -> bool
    ensures { result ≡ list_any (λ c. c == place) cols.now }
{
    cols.iter().any(|c| *c == place)
}

// The columns, each nullable.
fn as_nullable(alloc: Global, columns: &[Column]) -> Result<Vec<Column>, Memory>
    ensures { IfOk result (λ v. v.items ≡ map as_nullable columns.now) }
{
    let mut all = Vec::new(alloc);
    for column in columns {
        all.push(nullable(column)?)?;
    }
    Ok(all)
}

// The column, which may be Null.
fn nullable(column: &Column) -> Result<Column, Memory>
    ensures { IfOk result (λ c. c ≡ as_nullable column.now) }
{
    Ok(Column {
        name: column.name.copy()?,
        kind: column.kind,
        nullable: true,
    })
}

// The left columns, and these behind them.
fn behind(alloc: Global, left: &[Column], others: &[Column]) -> Result<Vec<Column>, Memory>
    ensures { IfOk result (λ v. v.items ≡ left.now ++ others.now) }
{
    let mut columns = Vec::new(alloc);
    push_columns(left, &mut columns)?;
    push_columns(others, &mut columns)?;
    Ok(columns)
}

/// Adds copies of these columns.
pub fn push_columns(more: &[Column], columns: &mut Vec<Column>) -> Result<(), Memory>
    ensures { OnOk result (columns.new.items ≡ columns.old.items ++ more.now) }
{
    for column in more {
        columns.push(column.copy()?)?;
    }
    Ok(())
}
