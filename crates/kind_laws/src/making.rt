// What an aggregate makes of the rows of each group, in one pass over the rows.
ghost use Rattle.std.specs.Prelude.{◌≡◌, ◌<◌, ◌+◌, ◌-◌, ◌^◌, ◌∷◌, ◌++◌, ℕ, List, [], length, min, All, IfOk, OnOk, OnErr};
ghost use Rattle.std.specs.List.{filter};
ghost use Rattle.tuple_schema.specs.Words.{lent};
ghost use Rattle.tuple_schema.specs.declared.value.Value.{Value};
ghost use Rattle.tuple_schema.specs.declared.value.Value.TheVariants as value;
ghost use Rattle.list_algebra.specs.Bags.{Tuple};
ghost use Rattle.list_algebra.specs.Words.{is_given};
ghost use Rattle.row_batch.specs.Words.{FitsNext};
ghost use Rattle.kind_laws.specs.Words.{GiveEach, HoldsWithin, ReadsWithin, IsTotal, IsWithin, StandEach, Stands, counted, row_at, value_at, value_held, value_of_best, what_of};

use crate::picking::{Better, best_of, is_given};
use crate::summing::Total;
use flow_types::{Agg, Make};
use row_batch::{Batch, BatchBuilder};
use std::alloc::Global;
use tuple_schema::{FieldRef, Fields, Memory};

/// What is held of the rows of a group, of which its value is made.
#[derive(Clone, Copy, Debug)]
pub(crate) enum Accumulator {
    /// How many rows there are.
    Rows(u64),
    /// In how many of them the column isn't Null.
    Given(u64),
    /// The column's values, added up.
    Sum(Total),
    /// The number of the first row with the least value.
    Least(Option<usize>),
    /// The number of the first row with the greatest value.
    Greatest(Option<usize>),
}

impl Accumulator {
    /// That of no rows.
    pub(crate) fn new(what: Agg) -> Accumulator
        ensures { (column : ℕ) (all : List Tuple) → Stands what column all result [] }
    {
        match what {
            Agg::Count => Accumulator::Rows(0),
            Agg::CountOf => Accumulator::Given(0),
            Agg::Sum => Accumulator::Sum(Total::none()),
            Agg::Min => Accumulator::Least(None),
            Agg::Max => Accumulator::Greatest(None),
        }
    }

    /// The accumulator with one row more.
    pub(crate) fn with(self, column: usize, rows: &Batch, number: usize) -> Accumulator
        requires column { ReadsWithin (length rows.now.columns) (what_of self) column }
        requires number { number < length rows.now.rows }
        requires within { HoldsWithin (length rows.now.rows) self }
        ensures { (what : Agg) (before : List Tuple) → Stands what column rows.now.rows self before
            → Stands what column rows.now.rows result (before ++ row_at rows.now.rows number ∷ []) }
    {
        match self {
            Accumulator::Rows(count) => Accumulator::Rows(count.saturating_add(1)),
            Accumulator::Given(count) => {
                Accumulator::Given(with_given(count, rows, column, number))
            }
            Accumulator::Sum(total) => Accumulator::Sum(with_field(total, rows, column, number)),
            Accumulator::Least(best) => {
                Accumulator::Least(best_of(Better::Lesser, rows, column, best, number))
            }
            Accumulator::Greatest(best) => {
                Accumulator::Greatest(best_of(Better::Greater, rows, column, best, number))
            }
        }
    }
}

// The count, and one more where the row's column isn't Null.
fn with_given(count: u64, rows: &Batch, column: usize, number: usize) -> u64
    requires column { column < length rows.now.columns }
    requires number { number < length rows.now.rows }
    ensures { result ≡ min (count + length (filter is_given (value_at column rows.now.rows number ∷ [])))
        (2 ^ 64 - 1) }
{
    if is_given(rows.row(number).field(column)) {
        count.saturating_add(1)
    } else {
        count
    }
}

// The total with the row's value in the column.
fn with_field(total: Total, rows: &Batch, column: usize, number: usize) -> Total
    requires column { column < length rows.now.columns }
    requires number { number < length rows.now.rows }
    ensures { (values : List Value) → IsTotal total values
        → IsTotal result (values ++ filter is_given (value_at column rows.now.rows number ∷ [])) }
{
    total.with(rows.row(number).field(column))
}

/// What is made of the rows of each group: an accumulator for each, in the order of the groups' numbers. For each row
/// the list has the number of its group.
pub(crate) fn make_each(
    alloc: Global,
    make: &Make,
    rows: &Batch,
    group_of: &[usize],
    count: usize,
) -> Result<Vec<Accumulator>, Memory>
    requires column { ReadsWithin (length rows.now.columns) make.now.what make.now.column }
    requires pairs { length group_of.now ≡ length rows.now.rows }
    requires groups { All (λ g. g < count) group_of.now }
    ensures count { IfOk result (λ each. length each.items ≡ count) }
    ensures each { IfOk result
        (λ each. StandEach make.now.what make.now.column rows.now.rows group_of.now each.items) }
    ensures values { IfOk result
        (λ each. GiveEach make.now.what make.now.column rows.now.rows group_of.now each.items) }
{
    let mut each = begin(alloc, make.what, count)?;
    for number in 0..rows.len() {
        let group = group_of[number];
        each[group] = each[group].with(make.column, rows, number);
    }
    Ok(each)
}

// So many accumulators of no rows.
fn begin(alloc: Global, what: Agg, count: usize) -> Result<Vec<Accumulator>, Memory>
    ensures count { IfOk result (λ each. length each.items ≡ count) }
    ensures each { IfOk result (λ each. (column : ℕ) (all : List Tuple)
        → All (λ held. Stands what column all held []) each.items) }
{
    let mut each = Vec::with_capacity(alloc, count)?;
    for _ in 0..count {
        each.push(Accumulator::new(what))?;
    }
    Ok(each)
}

/// Adds the value that the accumulator gives to the row that is begun.
pub(crate) fn add_value(
    held: Accumulator,
    column: usize,
    rows: &Batch,
    made: &mut BatchBuilder,
) -> Result<(), Memory>
    requires column { ReadsWithin (length rows.now.columns) (what_of held) column }
    requires within { HoldsWithin (length rows.now.rows) held }
    requires next { length made.old.begun < length made.old.columns }
    requires fits { FitsNext made.old.columns made.old.begun (value_held column rows.now.rows held) }
    ensures ok { OnOk result (made.new.begun ≡ made.old.begun ++ value_held column rows.now.rows held ∷ []) }
    ensures err { OnErr result (made.new.begun ≡ made.old.begun) }
    ensures rows { made.new.rows ≡ made.old.rows }
    ensures columns { made.new.columns ≡ made.old.columns }
{
    match held {
        Accumulator::Rows(count) | Accumulator::Given(count) => {
            made.add(FieldRef::Int(counted(count)))
        }
        Accumulator::Sum(total) => made.add(total.value()),
        Accumulator::Least(best) | Accumulator::Greatest(best) => {
            add_field(best, column, rows, made)
        }
    }
}

// Adds the row's value in the column to the row that is begun, or Null of no row.
fn add_field(
    best: Option<usize>,
    column: usize,
    rows: &Batch,
    made: &mut BatchBuilder,
) -> Result<(), Memory>
    requires column { column < length rows.now.columns }
    requires best { IsWithin (length rows.now.rows) best }
    requires next { length made.old.begun < length made.old.columns }
    requires fits { FitsNext made.old.columns made.old.begun (value_of_best column rows.now.rows best) }
    ensures ok { OnOk result (made.new.begun ≡ made.old.begun ++ value_of_best column rows.now.rows best ∷ []) }
    ensures err { OnErr result (made.new.begun ≡ made.old.begun) }
    ensures rows { made.new.rows ≡ made.old.rows }
    ensures columns { made.new.columns ≡ made.old.columns }
{
    match best {
        Some(number) => made.add(rows.row(number).field(column)),
        None => made.add(FieldRef::Null),
    }
}

// A count, which stops at the greatest number of 64 bits.
fn counted(count: u64) -> i64
    ensures { value.Int result ≡ counted count }
{
    count.min(i64::MAX as u64) as i64
}
