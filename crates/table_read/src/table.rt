// Verifying that the rows of a table decode.
ghost use Rattle.std.specs.Prelude.{◌≡◌, ◌≤◌, ◌<◌, ◌^◌, ℕ, List, IsTrue};
ghost use Rattle.outside.specs.Words.{OnlyReads};
ghost use Rattle.tuple_schema.specs.Words.{IfFault};
ghost use Rattle.commit_disk.specs.Words.{row_blocks, TellsOf};
ghost use Rattle.table_read.specs.Words.{table_rows, Verifies, wrong_place, IsCaused};

use crate::blocks::verify_block;
use commit_disk::{Journal, TableFault};
use outside::Disk;
use std::alloc::Global;
use tuple_schema::{Schema, Stop};

/// Whether the rows of the table that the journal tells of decode, by the schema.
///
/// NotATable names the place in the file of the first row of a block that doesn't decode within the
/// block's rows, or of the first byte that is left behind as many rows as the block counts. On a disk
/// that isn't honest it comes only where bytes that were read are so, or where no block stands at an
/// open gate and ends by the journal's; then it names that gate.
///
/// One block at a time is held in memory.
pub fn verify<K: Disk>(
    alloc: Global,
    disk: &mut K,
    journal: &Journal,
    schema: &Schema,
) -> Result<(), Stop<TableFault>>
    requires place { journal.now.gate < (K.state disk.old).size }

    // Of the table that the journal tells of.
    ensures rows { IsTrue (K.state disk.old).honest → (text : List ℕ)
        → (table : TellsOf journal.now (K.state disk.old).file text)
        → Verifies result (wrong_place (table_rows schema.now journal.now.first (row_blocks table.blocks))) }
    ensures cause { IfFault result (IsCaused (K.state disk.old).faults (K.state disk.new).faults) }
    ensures only_read { OnlyReads (K.state disk.old) (K.state disk.new) }
{
    let mut buffer = Vec::new(alloc);
    let mut gate = journal.first();
    while gate < journal.gate() {
        gate = verify_block(disk, journal, gate, schema, &mut buffer)?;
    }
    Ok(())
}
