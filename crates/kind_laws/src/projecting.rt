// What a projection makes of the rows of its input.
ghost use Rattle.std.specs.Prelude.{◌≡◌, ◌<◌, [], length, All, IfOk, OnOk};
ghost use Rattle.tuple_schema.specs.Words.{Fits, part};
ghost use Rattle.flow_types.specs.Words.{Takes};
ghost use Rattle.kind_laws.specs.Words.{projected};

use row_batch::{Batch, BatchBuilder, RowView};
use std::alloc::Global;
use tuple_schema::{Fields, Memory, Schema};

/// Of each row the part at these places, as a row of these columns.
pub fn project(
    alloc: Global,
    from: &[usize],
    columns: &Schema,
    rows: &Batch,
) -> Result<Batch, Memory>
    requires { Takes rows.now.columns from.now columns.now }
    ensures columns { IfOk result (λ b. b.columns ≡ columns.now) }
    ensures rows { IfOk result (λ b. b.rows ≡ projected from.now rows.now.rows) }
{
    let mut parts = BatchBuilder::new(alloc, columns)?;
    for number in 0..rows.len() {
        add_part(&rows.row(number), from, &mut parts)?;
        parts.end_row()?;
    }
    Ok(parts.finish())
}

// Adds the row's values at these places to the row that is begun.
fn add_part(row: &RowView<'_>, from: &[usize], parts: &mut BatchBuilder) -> Result<(), Memory>
    requires within { All (λ place. place < length row.now) from.now }
    requires fits { Fits parts.old.columns (part row.now from.now) }
    requires begins { parts.old.begun ≡ [] }
    ensures begun { OnOk result (parts.new.begun ≡ part row.now from.now) }
    ensures rows { OnOk result (parts.new.rows ≡ parts.old.rows) }
    ensures columns { OnOk result (parts.new.columns ≡ parts.old.columns) }
{
    for place in from {
        parts.add(row.field(*place))?;
    }
    Ok(())
}
