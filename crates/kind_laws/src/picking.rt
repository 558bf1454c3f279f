// The row with the least or the greatest value of a column.
ghost use Rattle.std.specs.Prelude.{◌≡◌, ◌<◌, ◌++◌, ◌∷◌, List, [], length, if◌then◌else◌};
ghost use Rattle.std.specs.List.{filter};
ghost use Rattle.tuple_schema.specs.Words.{lent};
ghost use Rattle.tuple_schema.specs.declared.value.Value.{Value};
ghost use Rattle.list_algebra.specs.Words.{is_given};
ghost use Rattle.kind_laws.specs.Words.{IsBest, IsWithin, pick, value_at};

use row_batch::Batch;
use tuple_schema::{FieldRef, Fields};

/// Which of two values is the better one.
#[derive(Clone, Copy, Debug)]
pub(crate) enum Better {
    Lesser,
    Greater,
}

/// The number of the row with the better value in the column: of the best one so far, and of one row more, which is no
/// better where it is Null or only as good.
pub(crate) fn best_of(
    by: Better,
    rows: &Batch,
    column: usize,
    best: Option<usize>,
    number: usize,
) -> Option<usize>
    requires column { column < length rows.now.columns }
    requires number { number < length rows.now.rows }
    requires best { IsWithin (length rows.now.rows) best }
    ensures within { IsWithin (length rows.now.rows) result }
    ensures best { (values : List Value) → IsBest by column rows.now.rows best values
        → IsBest by column rows.now.rows result
        (values ++ filter is_given (value_at column rows.now.rows number ∷ [])) }
{
    let row = rows.row(number);
    let field = row.field(column);
    if !is_given(field) {
        return best;
    }
    match best {
        None => Some(number),
        Some(former) => {
            let before = rows.row(former);
            if is_better(by, before.field(column), field) {
                Some(number)
            } else {
                best
            }
        }
    }
}

/// Whether the value isn't Null.
pub(crate) fn is_given(field: FieldRef<'_>) -> bool
    ensures { result ≡ is_given (lent field.entry) }
{
    !matches!(field, FieldRef::Null)
}

// Whether the second value is better than the first.
fn is_better(by: Better, first: FieldRef<'_>, second: FieldRef<'_>) -> bool
    ensures { pick by (lent first.entry) (lent second.entry)
        ≡ (if result then lent second.entry else lent first.entry) }
{
    match by {
        Better::Lesser => second.cmp(&first).is_lt(),
        Better::Greater => first.cmp(&second).is_lt(),
    }
}
