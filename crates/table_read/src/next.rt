// Reading a table block by block.
ghost use Rattle.std.specs.Prelude.{◌≡◌, ◌≤◌, ◌<◌, ◌+◌, ◌^◌, ◌↔◌, [], length, IsTrue, IfOk, IfSome, Ok, None};
ghost use Rattle.outside.specs.Words.{OnlyReads};
ghost use Rattle.tuple_schema.specs.Words.{IfFault};
ghost use Rattle.commit_disk.specs.Words.{TableBlock, content_of, IsBlockAt};
ghost use Rattle.table_read.specs.Words.{rows_at, block_rows, next_gate, IsCaused, NoDisk, ReadsBlock, TakesRows};
ghost use Rattle.table_read.specs.Words.{TakesRow};

use crate::blocks::{HEAD, read_block};
use commit_disk::{Journal, TableFault};
use outside::Disk;
use row_batch::Batch;
use std::alloc::Global;
use tuple_schema::Stop;

/// Reads the rows of the block whose gate is at that place into an empty batch, and answers where the next gate is; or
/// None at the table's first closed gate. An end block has no rows.
///
/// NotATable names the first place of the block that is wrong, as `verify` does: of a table that was verified it
/// doesn't come, unless the disk isn't honest.
pub fn next_block<K: Disk>(
    alloc: Global,
    disk: &mut K,
    journal: &Journal,
    at: u64,
    into: &mut Batch,
) -> Result<Option<u64>, Stop<TableFault>>
    requires place { journal.now.gate < (K.state disk.old).size }
    requires before { at ≤ journal.now.gate }
    requires empty { into.old.rows ≡ [] }

    ensures none { (result ≡ Ok None) ↔ (at ≡ journal.now.gate) }
    ensures rows { IsTrue (K.state disk.old).honest → (block : TableBlock)
        → IsBlockAt at journal.now.gate (K.state disk.old).file block
        → ReadsBlock result into.new.rows (next_gate at (content_of block))
        (block_rows into.old.columns at (content_of block)) }
    ensures onward { IfOk result (λ next. IfSome next (λ gate. (at < gate) × (gate ≤ journal.now.gate))) }
    ensures columns { into.new.columns ≡ into.old.columns }
    ensures only_read { OnlyReads (K.state disk.old) (K.state disk.new) }
    ensures cause { IfFault result (IsCaused (K.state disk.old).faults (K.state disk.new).faults) }
{
    if at == journal.gate() {
        return Ok(None);
    }
    Ok(Some(read_rows(alloc, disk, journal, at, into)?))
}

// Reads the rows of the block at a gate into an empty batch. Answers the next gate.
fn read_rows<K: Disk>(
    alloc: Global,
    disk: &mut K,
    journal: &Journal,
    at: u64,
    into: &mut Batch,
) -> Result<u64, Stop<TableFault>>
    requires place { journal.now.gate < (K.state disk.old).size }
    requires before { at < journal.now.gate }
    requires empty { into.old.rows ≡ [] }

    ensures rows { IsTrue (K.state disk.old).honest → (block : TableBlock)
        → IsBlockAt at journal.now.gate (K.state disk.old).file block
        → TakesRows result into.new.rows (block_rows into.old.columns at (content_of block)) }
    ensures next { IsTrue (K.state disk.old).honest → (block : TableBlock)
        → IsBlockAt at journal.now.gate (K.state disk.old).file block
        → IfOk result (λ next. next ≡ next_gate at (content_of block)) }
    ensures onward { IfOk result (λ next. (at < next) × (next ≤ journal.now.gate)) }
    ensures columns { into.new.columns ≡ into.old.columns }
    ensures only_read { OnlyReads (K.state disk.old) (K.state disk.new) }
    ensures cause { IfFault result (IsCaused (K.state disk.old).faults (K.state disk.new).faults) }
{
    let mut buffer = Vec::new(alloc);
    let head = read_block(disk, journal, at, &mut buffer)?;
    take_rows(&buffer, head.count(), at + HEAD, into)?;
    Ok(at + HEAD + head.len() as u64)
}

// Takes the bytes from that place on into an empty batch, as exactly so many rows.
fn take_rows(bytes: &[u8], count: u32, place: u64, into: &mut Batch) -> Result<(), Stop<TableFault>>
    requires place { place + length bytes.now < 2 ^ 64 }
    requires empty { into.old.rows ≡ [] }
    ensures rows { TakesRows result into.new.rows (rows_at into.old.columns count place bytes.now) }
    ensures columns { into.new.columns ≡ into.old.columns }
    ensures no_disk { IfFault result NoDisk }
{
    let mut rest = bytes;
    let mut at = place;
    for _ in 0..count {
        let len = take_row(rest, at, into)?;
        rest = rest.split_at(len).1;
        at += len as u64;
    }
    if !rest.is_empty() {
        return Err(Stop::Fault(TableFault::NotATable { at }));
    }
    Ok(())
}

// Takes the row at the front into the batch, and answers how many bytes it has. The bytes begin at that place.
fn take_row(bytes: &[u8], place: u64, into: &mut Batch) -> Result<usize, Stop<TableFault>>
    ensures row { TakesRow into.old.columns place bytes.now into.old.rows into.new.rows result }
    ensures columns { into.new.columns ≡ into.old.columns }
{
    match into.push_bytes(bytes) {
        Ok(len) => Ok(len),
        Err(Stop::Memory) => Err(Stop::Memory),
        Err(Stop::Fault(_)) => Err(Stop::Fault(TableFault::NotATable { at: place })),
    }
}
