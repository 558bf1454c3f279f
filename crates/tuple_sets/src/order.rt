// The order of a tuple and a row.
ghost use Rattle.std.specs.Prelude.{◌≡◌, ◌<◌, length};
ghost use Rattle.tuple_schema.specs.Words.{lent};
ghost use Rattle.tuple_sets.specs.Words.{tuple_cmp, value_cmp};

use std::cmp::Ordering;
use tuple_schema::{FieldRef, Fields, Tuple};

fn compare_fields(mine: FieldRef<'_>, other: FieldRef<'_>) -> Ordering
    ensures { result ≡ value_cmp (lent mine.entry) (lent other.entry) }
{
    mine.cmp(&other)
}

/// The tuple beside the row, by values from the left.
pub(crate) fn compare<F: Fields>(tuple: &Tuple, row: &F) -> Ordering
    ensures { result ≡ tuple_cmp tuple.now (F.tuple row.now) }
{
    let (mine, others) = (tuple.count(), row.count());
    for i in 0..mine.min(others) {
        let found = compare_fields(tuple.field(i), row.field(i));
        if !found.is_eq() {
            return found;
        }
    }
    mine.cmp(&others)
}
