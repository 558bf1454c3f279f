// What an aggregate makes of its rows: one row of each group.
ghost use Rattle.std.specs.Prelude.{◌≡◌, ◌<◌, ◌++◌, ℕ, [], length, map, take, All, IfOk, OnOk};
ghost use Rattle.tuple_schema.specs.Words.{Fits, part};
ghost use Rattle.list_algebra.specs.Words.{ascending, below, groups};
ghost use Rattle.flow_types.specs.Words.{IsGrouped};
ghost use Rattle.kind_laws.specs.Words.{AreHeld, IsGrouping, ReadsWithin, aggregated, group_at, group_row, ordered, row_at};

use crate::adding::add_places;
use crate::grouping::{Grouping, group};
use crate::making::{Accumulator, add_value, make_each};
use crate::sorted::{all_numbers, in_order};
use crate::sorting::rows_at;
use flow_types::{GroupOrder, Make};
use row_batch::{Batch, BatchBuilder};
use std::alloc::Global;
use tuple_schema::{Memory, Schema};

/// The groups of the rows by these columns, with what is made of each, in this order.
pub(crate) fn aggregate(
    alloc: Global,
    by: &[usize],
    makes: &[Make],
    order: GroupOrder,
    columns: &Schema,
    rows: &Batch,
) -> Result<Batch, Memory>
    requires grouped { IsGrouped rows.now.columns by.now makes.now columns.now }
    ensures rows { IfOk result (λ b. b.rows ≡ aggregated by.now makes.now order rows.now.rows) }
    ensures columns { IfOk result (λ b. b.columns ≡ columns.now) }
{
    rows_fit(rows);
    let groups = group(alloc, rows, by)?;
    let held = make_all(alloc, makes, rows, &groups)?;
    let numbers = in_turn(alloc, order, by, rows, &groups.firsts)?;
    let mut made = BatchBuilder::new(alloc, columns)?;
    for number in &numbers {
        add_group(by, makes, rows, &groups, &held, *number, &mut made)?;
        made.end_row()?;
    }
    Ok(made.finish())
}

// For each make the accumulators of the groups.
fn make_all(
    alloc: Global,
    makes: &[Make],
    rows: &Batch,
    groups: &Grouping,
) -> Result<Vec<Vec<Accumulator>>, Memory>
    requires columns { All (λ make. ReadsWithin (length rows.now.columns) make.what make.column) makes.now }
    requires pairs { length groups.now.group_of.items ≡ length rows.now.rows }
    requires groups { All (λ g. g < length groups.now.firsts.items) groups.now.group_of.items }
    ensures { IfOk result (λ held. AreHeld rows.now.rows groups.now.group_of.items (length groups.now.firsts.items)
        makes.now (map (λ each. each.items) held.items)) }
{
    let mut held = Vec::new(alloc);
    for make in makes {
        held.push(make_each(alloc, make, rows, &groups.group_of, groups.firsts.len())?)?;
    }
    Ok(held)
}

// The numbers of the groups in this order, of which these are the first rows.
fn in_turn(
    alloc: Global,
    order: GroupOrder,
    by: &[usize],
    rows: &Batch,
    firsts: &[usize],
) -> Result<Vec<usize>, Memory>
    requires within { All (λ c. c < length rows.now.columns) by.now }
    requires firsts { All (λ n. n < length rows.now.rows) firsts.now }
    requires groups { map (λ n. part (row_at rows.now.rows n) by.now) firsts.now ≡ groups by.now rows.now.rows }
    ensures order { IfOk result (λ numbers. map (group_at by.now rows.now.rows) numbers.items
        ≡ ordered order (length by.now) (groups by.now rows.now.rows)) }
    ensures within { IfOk result (λ numbers. All (λ g. g < length firsts.now) numbers.items) }
{
    match order {
        GroupOrder::First => all_numbers(alloc, firsts.len()),
        GroupOrder::Key => by_key(alloc, by, rows, firsts),
    }
}

// The numbers of the groups, ascending by the groups' values.
fn by_key(alloc: Global, by: &[usize], rows: &Batch, firsts: &[usize]) -> Result<Vec<usize>, Memory>
    requires within { All (λ c. c < length rows.now.columns) by.now }
    requires firsts { All (λ n. n < length rows.now.rows) firsts.now }
    requires groups { map (λ n. part (row_at rows.now.rows n) by.now) firsts.now ≡ groups by.now rows.now.rows }
    ensures order { IfOk result (λ numbers. map (group_at by.now rows.now.rows) numbers.items
        ≡ ascending (below (length by.now)) (groups by.now rows.now.rows)) }
    ensures within { IfOk result (λ numbers. All (λ g. g < length firsts.now) numbers.items) }
{
    let first_rows = rows_at(alloc, rows, firsts)?;
    rows_fit(&first_rows);
    in_order(alloc, &first_rows, by)
}

// The rows of a batch fit its columns. It does nothing.
fn rows_fit(rows: &Batch)
    ensures { All (Fits rows.now.columns) rows.now.rows }
{
    rows.len();
}

// Adds the values of the group, and behind them what is made of its rows.
fn add_group(
    by: &[usize],
    makes: &[Make],
    rows: &Batch,
    groups: &Grouping,
    held: &[Vec<Accumulator>],
    number: usize,
    made: &mut BatchBuilder,
) -> Result<(), Memory>
    requires within { All (λ c. c < length rows.now.columns) by.now }
    requires columns { All (λ make. ReadsWithin (length rows.now.columns) make.what make.column) makes.now }
    requires groups { IsGrouping by.now rows.now.rows groups.now.group_of.items groups.now.firsts.items }
    requires held { AreHeld rows.now.rows groups.now.group_of.items (length groups.now.firsts.items)
        makes.now (map (λ each. each.items) held.now) }
    requires number { number < length groups.now.firsts.items }
    requires fits { Fits made.old.columns (group_row by.now makes.now rows.now.rows number) }
    requires begins { made.old.begun ≡ [] }
    ensures begun { OnOk result (made.new.begun ≡ group_row by.now makes.now rows.now.rows number) }
    ensures rows { OnOk result (made.new.rows ≡ made.old.rows) }
    ensures columns { OnOk result (made.new.columns ≡ made.old.columns) }
{
    add_places(&rows.row(groups.firsts[number]), by, made)?;
    for place in 0..makes.len() {
        add_value(held[place][number], makes[place].column, rows, made)?;
    }
    Ok(())
}
