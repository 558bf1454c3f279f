// Rows in the order of given columns: the right rows of a join, and all rows.
ghost use Rattle.std.specs.Prelude.{◌≡◌, ◌<◌, not, length, map, All, IfOk};
ghost use Rattle.std.specs.List.{list_all};
ghost use Rattle.tuple_schema.specs.Words.{lent, part};
ghost use Rattle.list_algebra.specs.Words.{ascending, below, is_given};
ghost use Rattle.kind_laws.specs.Words.{IsIndex, compare_keys, compare_tuples, compare_values, given_rows, key_at, row_at};

use list_algebra::sort_laws;
use row_batch::{Batch, RowView};
use std::alloc::Global;
use std::cmp::Ordering;
use tuple_schema::{FieldRef, Fields, Memory};

/// The numbers of the rows with no Null in these columns, in the order of these columns. Rows that have the same
/// values there stay in their order.
pub(crate) fn index_of(alloc: Global, rows: &Batch, cols: &[usize]) -> Result<Vec<usize>, Memory>
    requires { All (λ c. c < length rows.now.columns) cols.now }
    ensures { IfOk result (λ numbers. IsIndex cols.now rows.now.rows numbers.items) }
{
    let mut numbers = given_rows(alloc, rows, cols)?;
    numbers.sort_by(|one, other| compare_rows(rows, cols, *one, *other))?;
    Ok(numbers)
}

/// The numbers of all rows, in the order of these columns. Rows that have the same values there stay in their order.
pub(crate) fn in_order(alloc: Global, rows: &Batch, cols: &[usize]) -> Result<Vec<usize>, Memory>
    requires { All (λ c. c < length rows.now.columns) cols.now }
    ensures order { IfOk result (λ numbers. map (row_at rows.now.rows) numbers.items ≡ ascending cols.now rows.now.rows) }
    ensures within { IfOk result (λ numbers. All (λ n. n < length rows.now.rows) numbers.items) }
{
    sort_laws();
    let mut numbers = all_numbers(alloc, rows.len())?;
    numbers.sort_by(|one, other| compare_rows(rows, cols, *one, *other))?;
    Ok(numbers)
}

/// The numbers below this one, ascending.
pub(crate) fn all_numbers(alloc: Global, count: usize) -> Result<Vec<usize>, Memory>
    ensures { IfOk result (λ numbers. numbers.items ≡ below count) }
{
    let mut numbers = Vec::new(alloc);
    for number in 0..count {
        numbers.push(number)?;
    }
    Ok(numbers)
}

// The numbers of the rows with no Null in these columns.
fn given_rows(alloc: Global, rows: &Batch, cols: &[usize]) -> Result<Vec<usize>, Memory>
    requires { All (λ c. c < length rows.now.columns) cols.now }
    ensures { IfOk result (λ numbers. numbers.items ≡ given_rows cols.now rows.now.rows) }
{
    let mut numbers = Vec::new(alloc);
    for number in 0..rows.len() {
        if is_given(&rows.row(number), cols) {
            numbers.push(number)?;
        }
    }
    Ok(numbers)
}

// Whether none of the values in these columns is Null.
fn is_given(row: &RowView<'_>, cols: &[usize]) -> bool
    requires { All (λ c. c < length row.now) cols.now }
    ensures { result ≡ list_all is_given (part row.now cols.now) }
{
    for col in cols {
        if is_null(row.field(*col)) {
            return false;
        }
    }
    true
}

fn is_null(field: FieldRef<'_>) -> bool
    ensures { not result ≡ is_given (lent field.entry) }
{
    matches!(field, FieldRef::Null)
}

// Two rows of a batch by these columns. A number past the last row comes before all others.
fn compare_rows(rows: &Batch, cols: &[usize], one: usize, other: usize) -> Ordering
    requires { All (λ c. c < length rows.now.columns) cols.now }
    ensures { result ≡ compare_keys (key_at cols.now rows.now.rows one) (key_at cols.now rows.now.rows other) }
{
    if one < rows.len() && other < rows.len() {
        compare_parts(&rows.row(one), cols, &rows.row(other), cols)
    } else {
        (one < rows.len()).cmp(&(other < rows.len()))
    }
}

// Two rows by these columns of each.
pub(crate) fn compare_parts(
    left: &RowView<'_>,
    cols_left: &[usize],
    right: &RowView<'_>,
    cols_right: &[usize],
) -> Ordering
    requires left { All (λ c. c < length left.now) cols_left.now }
    requires right { All (λ c. c < length right.now) cols_right.now }
    requires pairs { length cols_left.now ≡ length cols_right.now }
    ensures { result ≡ compare_tuples (part left.now cols_left.now) (part right.now cols_right.now) }
{
    for i in 0..cols_left.len() {
        let order = compare_fields(left.field(cols_left[i]), right.field(cols_right[i]));
        if order.is_ne() {
            return order;
        }
    }
    Ordering::Equal
}

fn compare_fields(left: FieldRef<'_>, right: FieldRef<'_>) -> Ordering
    ensures { result ≡ compare_values (lent left.entry) (lent right.entry) }
{
    left.cmp(&right)
}
