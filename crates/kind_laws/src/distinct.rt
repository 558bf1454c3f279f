// The first of each equal row.
ghost use Rattle.std.specs.Prelude.{◌≡◌, IfOk};
ghost use Rattle.list_algebra.specs.Words.{distinct};

use crate::keys::{ByteKeys, rows_by_bytes};
use row_batch::Batch;
use std::alloc::Global;
use tuple_schema::Memory;

/// The first of each equal row, in their order. The bytes of each are copied as they are.
pub(crate) fn distinct(alloc: Global, rows: &Batch) -> Result<Batch, Memory>
    ensures columns { IfOk result (λ b. b.columns ≡ rows.now.columns) }
    ensures rows { IfOk result (λ b. b.rows ≡ distinct rows.now.rows) }
{
    rows_by_bytes();
    let mut seen = ByteKeys::new(alloc);
    let mut kept = Batch::new(alloc, rows.schema())?;
    for number in 0..rows.len() {
        let row = rows.row(number);
        // A row is new where it has the next number.
        if seen.number(row.bytes())? == kept.len() {
            kept.push_view(&row)?;
        }
    }
    Ok(kept)
}
