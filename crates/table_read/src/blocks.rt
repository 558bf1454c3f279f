// One block of a table.
ghost use Rattle.std.specs.Prelude.{◌≡◌, ◌≤◌, ◌<◌, ◌+◌, ◌^◌, length, IsTrue, IfOk, IfErr, OnOk};
ghost use Rattle.outside.specs.Words.{Reads, OnlyReads};
ghost use Rattle.tuple_schema.specs.Words.{IfFault};
ghost use Rattle.commit_disk.specs.Words.{TableBlock, content_of, count_in, len_in, IsBlockAt};
ghost use Rattle.table_read.specs.Words.{block_rows, next_gate, Verifies, wrong_place, IsCaused, IsDisk};
ghost use Rattle.table_read.specs.Words.{StopsOutside, IsRead};

use crate::rows::verify_rows;
use commit_disk::{BlockHead, Journal, TableFault};
use outside::Disk;
use tuple_schema::{Schema, Stop};

// The bytes of a gate and of the head of a block, before its rows.
pub const HEAD: u64 = 10;

// Reads the bytes at that place.
fn read<K: Disk>(disk: &mut K, at: u64, into: &mut [u8]) -> Result<(), TableFault>
    requires { at + length into.old ≤ (K.state disk.old).size }
    ensures bytes { OnOk result (Reads (K.state disk.old) at into.new) }
    ensures only_read { OnlyReads (K.state disk.old) (K.state disk.new) }
    ensures cause { IfErr result (IsDisk (K.state disk.old).faults (K.state disk.new).faults) }
{
    disk.read_at(at, into)?;
    Ok(())
}

// Reads the block at a gate: its head, and the bytes of its rows over the buffer.
pub fn read_block<K: Disk>(
    disk: &mut K,
    journal: &Journal,
    gate: u64,
    buffer: &mut Vec<u8>,
) -> Result<BlockHead, Stop<TableFault>>
    requires before { gate < journal.now.gate }
    requires place { journal.now.gate < (K.state disk.old).size }
    ensures block { IfOk result (λ head. IsTrue (K.state disk.old).honest → (block : TableBlock)
        → IsBlockAt gate journal.now.gate (K.state disk.old).file block
        → IsRead head buffer.new.items (content_of block)) }
    ensures stops { IfErr result (λ stop. IsTrue (K.state disk.old).honest → (block : TableBlock)
        → IsBlockAt gate journal.now.gate (K.state disk.old).file block → StopsOutside stop) }
    ensures len { IfOk result (λ head. length buffer.new.items ≡ len_in head) }
    ensures few { IfOk result (λ head. count_in head ≤ 4096) }
    ensures within { IfOk result (λ head. gate + 10 + len_in head ≤ journal.now.gate) }
    ensures room { journal.now.gate < 2 ^ 48 }
    ensures only_read { OnlyReads (K.state disk.old) (K.state disk.new) }
    ensures cause { IfFault result (IsCaused (K.state disk.old).faults (K.state disk.new).faults) }
{
    let head = journal.block_at(disk, gate)?;
    buffer.resize(head.len() as usize, 0)?;
    read(disk, gate + HEAD, buffer)?;
    Ok(head)
}

// Verifies the rows of the block at a gate, in a buffer that is read over. Answers the next gate.
pub fn verify_block<K: Disk>(
    disk: &mut K,
    journal: &Journal,
    gate: u64,
    schema: &Schema,
    buffer: &mut Vec<u8>,
) -> Result<u64, Stop<TableFault>>
    requires before { gate < journal.now.gate }
    requires place { journal.now.gate < (K.state disk.old).size }
    ensures rows { IsTrue (K.state disk.old).honest → (block : TableBlock)
        → IsBlockAt gate journal.now.gate (K.state disk.old).file block
        → Verifies result (wrong_place (block_rows schema.now gate (content_of block))) }
    ensures next { IsTrue (K.state disk.old).honest → (block : TableBlock)
        → IsBlockAt gate journal.now.gate (K.state disk.old).file block
        → IfOk result (λ next. next ≡ next_gate gate (content_of block)) }
    ensures onward { IfOk result (λ next. gate < next) }
    ensures within { IfOk result (λ next. next ≤ journal.now.gate) }
    ensures only_read { OnlyReads (K.state disk.old) (K.state disk.new) }
    ensures cause { IfFault result (IsCaused (K.state disk.old).faults (K.state disk.new).faults) }
{
    let head = read_block(disk, journal, gate, buffer)?;
    verify_rows(buffer, head.count(), gate + HEAD, schema)?;
    Ok(gate + HEAD + head.len() as u64)
}
