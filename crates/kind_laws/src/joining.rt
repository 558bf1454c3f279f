// What a join and a lookup make of the rows of their inputs.
ghost use Rattle.std.specs.Prelude.{◌≡◌, length, map, [], IfOk, OnOk, ◌++◌, ◌<◌, All};
ghost use Rattle.tuple_schema.specs.Words.{Fits};
ghost use Rattle.list_algebra.specs.Words.{join, lookup, nulls, or_nulls, others, together};
ghost use Rattle.flow_types.specs.Words.{ArePairs, join_columns, lookup_columns};
ghost use Rattle.kind_laws.specs.Words.{PairsFit, row_at};

use crate::adding::{add_alone, add_pairs};
use crate::matching::matching;
use crate::others::others;
use crate::sorted::index_of;
use row_batch::{Batch, BatchBuilder, RowView};
use std::alloc::Global;
use tuple_schema::{Memory, Schema};

/// For each left row in order, for each right row in order that agrees with it in the join columns, both together.
/// Null agrees with nothing.
pub fn join(
    alloc: Global,
    cols_left: &[usize],
    cols_right: &[usize],
    columns: &Schema,
    left: &Batch,
    right: &Batch,
) -> Result<Batch, Memory>
    requires pairs { ArePairs left.now.columns right.now.columns cols_left.now cols_right.now }
    requires gives { columns.now ≡ join_columns left.now.columns right.now.columns cols_right.now }
    ensures columns { IfOk result (λ b. b.columns ≡ columns.now) }
    ensures rows { IfOk result (λ b. b.rows ≡ join cols_left.now cols_right.now
        (others (length right.now.columns) cols_right.now) right.now.rows left.now.rows) }
{
    let index = index_of(alloc, right, cols_right)?;
    let rest = others(alloc, right.schema().columns().len(), cols_right)?;
    let mut made = BatchBuilder::new(alloc, columns)?;
    for number in 0..left.len() {
        let row = left.row(number);
        let found = matching(&index, right, cols_right, &row, cols_left);
        add_pairs(&row, right, found, &rest, &mut made)?;
    }
    Ok(made.finish())
}

/// The same as a join, and a left row with which no right row agrees comes once, with Null behind it.
pub fn lookup(
    alloc: Global,
    cols_left: &[usize],
    cols_right: &[usize],
    columns: &Schema,
    left: &Batch,
    right: &Batch,
) -> Result<Batch, Memory>
    requires pairs { ArePairs left.now.columns right.now.columns cols_left.now cols_right.now }
    requires gives { columns.now ≡ lookup_columns left.now.columns right.now.columns cols_right.now }
    ensures columns { IfOk result (λ b. b.columns ≡ columns.now) }
    ensures rows { IfOk result (λ b. b.rows ≡ lookup cols_left.now cols_right.now
        (others (length right.now.columns) cols_right.now) right.now.rows left.now.rows) }
{
    let index = index_of(alloc, right, cols_right)?;
    let rest = others(alloc, right.schema().columns().len(), cols_right)?;
    let mut made = BatchBuilder::new(alloc, columns)?;
    for number in 0..left.len() {
        let row = left.row(number);
        let found = matching(&index, right, cols_right, &row, cols_left);
        add_found(&row, right, found, &rest, &mut made)?;
    }
    Ok(made.finish())
}

// Adds the left row with each right row of these numbers, and with Null behind it where there is none.
fn add_found(
    left: &RowView<'_>,
    rights: &Batch,
    numbers: &[usize],
    rest: &[usize],
    made: &mut BatchBuilder,
) -> Result<(), Memory>
    requires numbers { All (λ n. n < length rights.now.rows) numbers.now }
    requires rest { All (λ place. place < length rights.now.columns) rest.now }
    requires fits { PairsFit rights.now.columns rest.now left.now made.old.columns }
    requires alone { Fits made.old.columns (left.now ++ nulls (length rest.now)) }
    requires begins { made.old.begun ≡ [] }
    ensures rows { OnOk result (made.new.rows ≡ made.old.rows
        ++ or_nulls rest.now left.now (map (together rest.now left.now) (map (row_at rights.now.rows) numbers.now))) }
    ensures next { OnOk result (made.new.begun ≡ []) }
    ensures columns { OnOk result (made.new.columns ≡ made.old.columns) }
{
    if numbers.is_empty() {
        add_alone(left, rest.len(), made)
    } else {
        add_pairs(left, rights, numbers, rest, made)
    }
}
