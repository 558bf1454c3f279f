// The right rows of a join that agree with a left one, found in the index.
ghost use Rattle.std.specs.Prelude.{◌≡◌, ◌<◌, Some, length, map, All};
ghost use Rattle.std.specs.List.{prefix_len};
ghost use Rattle.std.specs.Ordering.{is_le};
ghost use Rattle.tuple_schema.specs.Words.{part};
ghost use Rattle.list_algebra.specs.Words.{matches};
ghost use Rattle.kind_laws.specs.Words.{IsIndex, compare_keys, key_at, row_at};

use crate::sorted::compare_parts;
use row_batch::{Batch, RowView};
use std::cmp::Ordering;

/// The numbers of the right rows that agree with the left one, in the order of the rows: a run of the index. With a
/// Null in a join column there are none, since the index has no row with a Null there.
pub(crate) fn matching<'a>(
    index: &'a [usize],
    rights: &Batch,
    cols_right: &[usize],
    left: &RowView<'_>,
    cols_left: &[usize],
) -> &'a [usize]
    requires index { IsIndex cols_right.now rights.now.rows index.now }
    requires right { All (λ c. c < length rights.now.columns) cols_right.now }
    requires left { All (λ c. c < length left.now) cols_left.now }
    requires pairs { length cols_right.now ≡ length cols_left.now }
    ensures rows { map (row_at rights.now.rows) result.now
        ≡ matches cols_left.now cols_right.now rights.now.rows left.now }
    ensures within { All (λ n. n < length rights.now.rows) result.now }
{
    let first = index.partition_point(|n| {
        compare_to(rights, cols_right, *n, left, cols_left).is_lt()
    });
    let rest = &index[first..];
    let count = run_length(rest, rights, cols_right, left, cols_left);
    &rest[..count]
}

// How many numbers stand before the first one whose row comes after the left row by the join columns. They are walked
// and not searched, since each of them makes a row.
fn run_length(
    numbers: &[usize],
    rights: &Batch,
    cols_right: &[usize],
    left: &RowView<'_>,
    cols_left: &[usize],
) -> usize
    requires right { All (λ c. c < length rights.now.columns) cols_right.now }
    requires left { All (λ c. c < length left.now) cols_left.now }
    requires pairs { length cols_right.now ≡ length cols_left.now }
    ensures { result ≡ prefix_len (λ n. is_le (compare_keys (key_at cols_right.now rights.now.rows n)
        (Some (part left.now cols_left.now)))) numbers.now }
{
    for i in 0..numbers.len() {
        if compare_to(rights, cols_right, numbers[i], left, cols_left).is_gt() {
            return i;
        }
    }
    numbers.len()
}

// The row of a number and the left row by the join columns. A number past the last row comes first.
fn compare_to(
    rights: &Batch,
    cols_right: &[usize],
    number: usize,
    left: &RowView<'_>,
    cols_left: &[usize],
) -> Ordering
    requires right { All (λ c. c < length rights.now.columns) cols_right.now }
    requires left { All (λ c. c < length left.now) cols_left.now }
    requires pairs { length cols_right.now ≡ length cols_left.now }
    ensures { result ≡ compare_keys (key_at cols_right.now rights.now.rows number)
        (Some (part left.now cols_left.now)) }
{
    if number < rights.len() {
        compare_parts(&rights.row(number), cols_right, left, cols_left)
    } else {
        Ordering::Less
    }
}
