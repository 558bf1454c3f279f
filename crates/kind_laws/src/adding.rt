// The rows of a join, added field by field.
ghost use Rattle.std.specs.Prelude.{◌≡◌, ◌<◌, ◌∷◌, ◌++◌, [], length, map, All, OnOk};
ghost use Rattle.tuple_schema.specs.Words.{Fits, part};
ghost use Rattle.list_algebra.specs.Words.{nulls, together};
ghost use Rattle.kind_laws.specs.Words.{FitBehind, PairsFit, row_at};

use row_batch::{Batch, BatchBuilder, RowView};
use tuple_schema::{FieldRef, Fields, Memory};

/// Adds the left row with each right row of these numbers: the left row's values, then the right one's at the places.
pub(crate) fn add_pairs(
    left: &RowView<'_>,
    rights: &Batch,
    numbers: &[usize],
    rest: &[usize],
    made: &mut BatchBuilder,
) -> Result<(), Memory>
    requires numbers { All (λ n. n < length rights.now.rows) numbers.now }
    requires rest { All (λ place. place < length rights.now.columns) rest.now }
    requires fits { PairsFit rights.now.columns rest.now left.now made.old.columns }
    requires begins { made.old.begun ≡ [] }
    ensures rows { OnOk result (made.new.rows
        ≡ made.old.rows ++ map (together rest.now left.now) (map (row_at rights.now.rows) numbers.now)) }
    ensures next { OnOk result (made.new.begun ≡ []) }
    ensures columns { OnOk result (made.new.columns ≡ made.old.columns) }
{
    for number in numbers {
        let right = rights.row(*number);
        add_row(left, made)?;
        add_places(&right, rest, made)?;
        made.end_row()?;
    }
    Ok(())
}

/// Adds the left row with so many Nulls behind it.
pub(crate) fn add_alone(
    left: &RowView<'_>,
    count: usize,
    made: &mut BatchBuilder,
) -> Result<(), Memory>
    requires fits { Fits made.old.columns (left.now ++ nulls count) }
    requires begins { made.old.begun ≡ [] }
    ensures rows { OnOk result (made.new.rows ≡ made.old.rows ++ (left.now ++ nulls count) ∷ []) }
    ensures next { OnOk result (made.new.begun ≡ []) }
    ensures columns { OnOk result (made.new.columns ≡ made.old.columns) }
{
    add_row(left, made)?;
    add_nulls(count, made)?;
    made.end_row()?;
    Ok(())
}

// Adds the row's values to the row that is begun.
fn add_row(row: &RowView<'_>, made: &mut BatchBuilder) -> Result<(), Memory>
    requires fits { FitBehind made.old.columns made.old.begun row.now }
    ensures begun { OnOk result (made.new.begun ≡ made.old.begun ++ row.now) }
    ensures rows { OnOk result (made.new.rows ≡ made.old.rows) }
    ensures columns { OnOk result (made.new.columns ≡ made.old.columns) }
{
    for place in 0..row.count() {
        made.add(row.field(place))?;
    }
    Ok(())
}

/// Adds the row's values at these places to the row that is begun.
pub(crate) fn add_places(
    row: &RowView<'_>,
    places: &[usize],
    made: &mut BatchBuilder,
) -> Result<(), Memory>
    requires within { All (λ place. place < length row.now) places.now }
    requires fits { FitBehind made.old.columns made.old.begun (part row.now places.now) }
    ensures begun { OnOk result (made.new.begun ≡ made.old.begun ++ part row.now places.now) }
    ensures rows { OnOk result (made.new.rows ≡ made.old.rows) }
    ensures columns { OnOk result (made.new.columns ≡ made.old.columns) }
{
    for place in places {
        made.add(row.field(*place))?;
    }
    Ok(())
}

// Adds so many Nulls to the row that is begun.
fn add_nulls(count: usize, made: &mut BatchBuilder) -> Result<(), Memory>
    requires fits { FitBehind made.old.columns made.old.begun (nulls count) }
    ensures begun { OnOk result (made.new.begun ≡ made.old.begun ++ nulls count) }
    ensures rows { OnOk result (made.new.rows ≡ made.old.rows) }
    ensures columns { OnOk result (made.new.columns ≡ made.old.columns) }
{
    for _ in 0..count {
        made.add(FieldRef::Null)?;
    }
    Ok(())
}
