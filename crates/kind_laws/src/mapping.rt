// The rows of a list with new values in some of their columns.
ghost use Rattle.std.specs.Prelude.{◌≡◌, ◌<◌, ◌∷◌, ◌++◌, ℕ, [], length, map, slice_get, option_map, Some, None, IfOk, OnOk};
ghost use Rattle.tuple_schema.specs.Words.{Fits};
ghost use Rattle.list_algebra.specs.Joins.{below};
ghost use Rattle.flow_types.specs.Words.{IsAssigned, set_at};
ghost use Rattle.row_batch.specs.Words.{FitsNext};
ghost use Rattle.kind_laws.specs.Words.{cell, cells, mapped};

use expr_grammar::Expr;
use expr_lang::{evaluate, value_laws};
use flow_types::Assign;
use row_batch::{Batch, BatchBuilder, RowView};
use std::alloc::Global;
use tuple_schema::{Column, Fields, Memory, Schema};

/// Of each row the new tuple, as a row of these columns: what is set, of the row as it was, and else its own values.
pub fn map(alloc: Global, sets: &[Assign], columns: &Schema, rows: &Batch) -> Result<Batch, Memory>
    requires { IsAssigned rows.now.columns sets.now columns.now }
    ensures columns { IfOk result (λ b. b.columns ≡ columns.now) }
    ensures rows { IfOk result (λ b. b.rows ≡ mapped sets.now rows.now.columns rows.now.rows) }
{
    value_laws();
    let input = rows.schema().columns();
    let values = values_set(alloc, sets, columns.columns().len())?;
    let mut made = BatchBuilder::new(alloc, columns)?;
    for number in 0..rows.len() {
        add_cells(alloc, &values, input, &rows.row(number), &mut made)?;
        made.end_row()?;
    }
    Ok(made.finish())
}

// For each of so many places the value that is set there.
fn values_set<'a>(
    alloc: Global,
    sets: &'a [Assign],
    width: usize,
) -> Result<Vec<Option<&'a Expr>>, Memory>
    ensures { IfOk result
        (λ values. map (option_map (λ x. x.now)) values.items ≡ map (set_at sets.now) (below width)) }
{
    let mut values = Vec::with_capacity(alloc, width)?;
    for place in 0..width {
        values.push(value_set(sets, place))?;
    }
    Ok(values)
}

// The value that is set at the place.
fn value_set(sets: &[Assign], place: usize) -> Option<&Expr>
    ensures { option_map (λ x. x.now) result ≡ set_at sets.now place }
{
    let set = sets.iter().find(|set| set.place == place)?;
    Some(&set.value)
}

// Adds the new tuple of the row, in which these values are set, to the row that is begun.
fn add_cells(
    alloc: Global,
    values: &[Option<&Expr>],
    input: &[Column],
    row: &RowView<'_>,
    made: &mut BatchBuilder,
) -> Result<(), Memory>
    requires own { (place : ℕ) → slice_get values.now place ≡ Some None → place < length row.now }
    requires fits { Fits made.old.columns (cells input.now row.now (map (option_map (λ x. x.now)) values.now)) }
    requires begins { made.old.begun ≡ [] }
    ensures begun { OnOk result
        (made.new.begun ≡ cells input.now row.now (map (option_map (λ x. x.now)) values.now)) }
    ensures rows { OnOk result (made.new.rows ≡ made.old.rows) }
    ensures columns { OnOk result (made.new.columns ≡ made.old.columns) }
{
    for place in 0..values.len() {
        add_cell(alloc, values[place], place, input, row, made)?;
    }
    Ok(())
}

// Adds what stands at the place of the new tuple to the row that is begun.
fn add_cell(
    alloc: Global,
    set: Option<&Expr>,
    place: usize,
    input: &[Column],
    row: &RowView<'_>,
    made: &mut BatchBuilder,
) -> Result<(), Memory>
    requires own { set ≡ None → place < length row.now }
    requires next { length made.old.begun < length made.old.columns }
    requires fits { FitsNext made.old.columns made.old.begun
        (cell input.now row.now (option_map (λ x. x.now) set) place) }
    ensures begun { OnOk result (made.new.begun ≡
        made.old.begun ++ cell input.now row.now (option_map (λ x. x.now) set.entry) place ∷ []) }
    ensures rows { OnOk result (made.new.rows ≡ made.old.rows) }
    ensures columns { OnOk result (made.new.columns ≡ made.old.columns) }
{
    match set {
        Some(value) => {
            let held = evaluate(alloc, value, input, row)?;
            made.add(held.field())
        }
        None => made.add(row.field(place)),
    }
}
