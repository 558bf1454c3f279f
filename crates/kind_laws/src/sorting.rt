// Rows in ascending order.
ghost use Rattle.std.specs.Prelude.{◌≡◌, ◌<◌, ◌++◌, length, map, All, IfOk};
ghost use Rattle.list_algebra.specs.Words.{others, sort};
ghost use Rattle.kind_laws.specs.Words.{row_at};

use crate::others::others;
use crate::sorted::in_order;
use row_batch::Batch;
use std::alloc::Global;
use tuple_schema::Memory;

/// The rows ascending by these columns, then by the others in their order.
pub(crate) fn sort(alloc: Global, by: &[usize], rows: &Batch) -> Result<Batch, Memory>
    requires within { All (λ c. c < length rows.now.columns) by.now }
    ensures columns { IfOk result (λ b. b.columns ≡ rows.now.columns) }
    ensures rows { IfOk result (λ b. b.rows ≡ sort (length rows.now.columns) by.now rows.now.rows) }
{
    let cols = sort_columns(alloc, rows.schema().columns().len(), by)?;
    let numbers = in_order(alloc, rows, &cols)?;
    rows_at(alloc, rows, &numbers)
}

// These columns, and behind them the others of so many.
fn sort_columns(alloc: Global, count: usize, by: &[usize]) -> Result<Vec<usize>, Memory>
    ensures { IfOk result (λ cols. cols.items ≡ by.now ++ others count by.now) }
{
    let mut cols = Vec::new(alloc);
    cols.extend_from_slice(by)?;
    cols.extend_from_slice(&others(alloc, count, by)?)?;
    Ok(cols)
}

/// The batch of the rows of these numbers, in the numbers' order. The bytes of each are copied as they are.
pub(crate) fn rows_at(alloc: Global, rows: &Batch, numbers: &[usize]) -> Result<Batch, Memory>
    requires within { All (λ n. n < length rows.now.rows) numbers.now }
    ensures columns { IfOk result (λ b. b.columns ≡ rows.now.columns) }
    ensures rows { IfOk result (λ b. b.rows ≡ map (row_at rows.now.rows) numbers.now) }
{
    let mut made = Batch::new(alloc, rows.schema())?;
    for number in numbers {
        made.push_view(&rows.row(*number))?;
    }
    Ok(made)
}
