// The head of a block, which is read here alone.
ghost use Rattle.std.specs.Prelude.{◌≡◌, ◌≤◌, ◌<◌, ◌+◌, List, length, slice_index, take, drop, IsTrue, IfOk, IfErr};
ghost use Rattle.std.specs.Int.{w32, to_be_bytes, from_be_bytes};
ghost use Rattle.outside.specs.Words.{HasCause, OnlyReads};
ghost use Rattle.commit_disk.specs.Words.{TableBlock, content_of, count_in, len_in, IsBlockAt, BlockHeadTells};
ghost use Rattle.commit_disk.specs.Words.{IsHeadFault, BlockTells};

use crate::gate::{CLOSED, OPEN};
use crate::{FULL_BYTES, Journal, MAX_ROW_BYTES, MAX_ROWS, TableFault};
use outside::{Disk, Failed, MAX_SIZE};

/// What the head of a block tells.
#[derive(Clone, Copy, Debug, PartialEq, Eq, Drop)]
pub enum BlockHead {
    /// A block of so many rows, in so many bytes behind the head.
    Rows { count: u32, len: u32 },
    /// The end block.
    End,
}

impl BlockHead {
    /// How many rows the block has.
    pub fn count(&self) -> u32
        ensures { result ≡ count_in self.now }
    {
        match self {
            BlockHead::Rows { count, .. } => *count,
            BlockHead::End => 0,
        }
    }

    /// In how many bytes they stand.
    pub fn len(&self) -> u32
        ensures { result ≡ len_in self.now }
    {
        match self {
            BlockHead::Rows { len, .. } => *len,
            BlockHead::End => 0,
        }
    }
}

impl Journal {
    /// Reads the head of the block whose gate is at that place, before the table's first closed gate. The block's rows
    /// stand ten bytes behind its gate, and the next gate behind the rows.
    ///
    /// NotATable names the gate. It comes only on a disk that isn't honest, or where no block of the table has its gate
    /// there.
    pub fn block_at<K: Disk>(&self, disk: &mut K, gate: u64) -> Result<BlockHead, TableFault>
        requires before { gate < self.now.gate }
        requires place { self.now.gate < (K.state disk.old).size }
        ensures head { IsTrue (K.state disk.old).honest → (block : TableBlock)
            → IsBlockAt gate self.now.gate (K.state disk.old).file block → BlockHeadTells result block }
        ensures rows { IfOk result (λ _. (block : TableBlock)
            → IsBlockAt gate self.now.gate (K.state disk.old).file block
            → take (length (content_of block).bytes) (drop (gate + 10) (K.state disk.old).file)
            ≡ (content_of block).bytes) }
        ensures within { IfOk result (λ head. gate + 10 + len_in head ≤ self.now.gate) }
        ensures few { IfOk result (λ head. count_in head ≤ MAX_ROWS) }
        ensures room { self.now.gate < MAX_SIZE }
        ensures read { OnlyReads (K.state disk.old) (K.state disk.new) }
        ensures cause { IfErr result (IsHeadFault gate (K.state disk.old).faults (K.state disk.new).faults) }
    {
        let end = self.gate() + 1;
        let head = read_block_head(disk, gate, end)?;
        if head[0] != OPEN {
            return Err(TableFault::NotATable { at: gate });
        }
        match block_of(&head, end - gate) {
            Some(block) => Ok(block),
            None => Err(TableFault::NotATable { at: gate }),
        }
    }
}

// The number that stands at that place.
pub fn number_at(bytes: &[u8], at: usize) -> u32
    requires { at + 4 ≤ length bytes.now }
    ensures value { result ≡ from_be_bytes w32 (take 4 (drop at bytes.now)) }
    ensures bytes { to_be_bytes w32 result ≡ take 4 (drop at bytes.now) }
{
    let mut number = [0; 4];
    number.copy_from_slice(&bytes[at..at + 4]);
    u32::from_be_bytes(number)
}

// Which block begins with these bytes, where so many bytes are left for it and the next gate.
pub fn block_of(head: &[u8; 10], room: u64) -> Option<BlockHead>
    ensures { BlockTells result room (drop 1 head.now) }
{
    let count = number_at(head, 2);
    let len = number_at(head, 6);
    if room < 11 || room - 11 < len as u64 {
        return None;
    }
    match head[1] {
        0 if 1 <= count && count <= MAX_ROWS && len < FULL_BYTES + MAX_ROW_BYTES => {
            Some(BlockHead::Rows { count, len })
        }
        1 if count == 0 && len == 0 => Some(BlockHead::End),
        _ => None,
    }
}

// Reads the first bytes of a block, as many as there are.
pub fn read_block_head<K: Disk>(disk: &mut K, gate: u64, size: u64) -> Result<[u8; 10], Failed>
    requires within { gate < size }
    requires size { size ≤ (K.state disk.old).size }
    ensures gate { IfOk result (λ head. IsTrue (K.state disk.old).honest → size ≤ length (K.state disk.old).file
        → slice_index head 0 ≡ slice_index (K.state disk.old).file gate) }
    ensures bytes { IfOk result (λ head. IsTrue (K.state disk.old).honest → size ≤ length (K.state disk.old).file
        → gate + 10 ≤ size → head ≡ take 10 (drop gate (K.state disk.old).file)) }
    ensures read { OnlyReads (K.state disk.old) (K.state disk.new) }
    ensures cause { HasCause (K.state disk.old).faults (K.state disk.new).faults result }
{
    let mut head = [CLOSED; 10];
    let len = (size - gate).min(10) as usize;
    disk.read_at(gate, &mut head[..len])?;
    Ok(head)
}
