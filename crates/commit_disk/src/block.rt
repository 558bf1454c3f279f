// A block of rows that waits for its commit.
ghost use Rattle.std.specs.Prelude.{◌≡◌, ◌≤◌, ◌<◌, ◌+◌, ◌++◌, ◌-◌, ◌∷◌, [], length, take, drop, vec_len, vec_capacity, IfOk};
ghost use Rattle.std.specs.Int.{w32, to_be_bytes};
ghost use Rattle.commit_disk.specs.Words.{no_rows, with_row, behind_gate, rows_block};

use crate::gate::CLOSED;
use std::alloc::Global;
use std::marker::Model;
use tuple_schema::Memory;

/// The most rows of a block.
pub const MAX_ROWS: u32 = 4096;

/// A block takes no more rows once its rows have this many bytes.
pub const FULL_BYTES: u32 = 4_194_304;

/// The most bytes of a row.
pub const MAX_ROW_BYTES: u32 = 262_336;

// Behind a gate stand the kind, the count of rows, their length, the rows, and the next gate.
const EMPTY: [u8; 10] = [0; 10];

const LONGEST: usize = 4_456_649;

/// Rows that wait for their commit, seen as their count and their bytes.
///
/// The buffer is kept as it will be written behind the block's gate, so that a commit copies nothing.
#[derive(Drop)]
pub struct Block {
    count: u32,
    buffer: Vec<u8>,
}

impl Model for Block {
    ghost use Rattle.std.specs.Prelude.{vec_capacity};
    ghost use Rattle.commit_disk.specs.Table.{Stored};
    ghost use Rattle.commit_disk.specs.Buffer.{stored_in, IsBuffer};

    ghost Value = { Stored };

    ghost view = { λ b. stored_in b.count b.buffer.items };

    ghost invariant = { λ b. IsBuffer b.count b.buffer.items (vec_capacity b.buffer) };
}

impl Block {
    /// A block with no rows, and with memory for the largest.
    pub fn new(alloc: Global) -> Result<Block, Memory>
        ensures { IfOk result (λ block. block ≡ no_rows) }
    {
        let mut buffer = Vec::with_capacity(alloc, LONGEST)?;
        buffer.extend_from_slice(&EMPTY)?;
        Ok(Block { count: 0, buffer })
    }

    /// How many rows it has.
    pub fn rows(&self) -> u32
        ensures rows { result ≡ self.now.count }
        ensures few { result ≤ MAX_ROWS }
    {
        self.count
    }

    /// How many bytes its rows have.
    pub fn len(&self) -> u32
        ensures len { result ≡ length self.now.bytes }
        ensures short { result < FULL_BYTES + MAX_ROW_BYTES }
    {
        (self.buffer.len() - EMPTY.len()) as u32
    }

    // What is written behind its gate.
    pub(crate) fn behind_gate(&self) -> &[u8]
        ensures behind { result.now ≡ behind_gate (rows_block self.now) }
        ensures len { length result.now ≡ 10 + length self.now.bytes }
        ensures few { self.now.count ≤ MAX_ROWS }
        ensures short { length self.now.bytes < FULL_BYTES + MAX_ROW_BYTES }
    {
        &self.buffer
    }

    /// Takes a row behind the others.
    pub fn add(&mut self, row: &[u8])
        requires few { self.old.count < MAX_ROWS }
        requires short { length self.old.bytes < FULL_BYTES }
        requires row { length row.now ≤ MAX_ROW_BYTES }
        ensures { self.new ≡ with_row self.old row.now }
    {
        push_row(&mut self.buffer, row);
        self.count += 1;
        let len = (self.buffer.len() - EMPTY.len()) as u32;
        write_numbers(&mut self.buffer, self.count, len);
    }

    /// Takes all rows out, and keeps the memory.
    pub fn clear(&mut self)
        ensures { self.new ≡ no_rows }
    {
        self.buffer.truncate(EMPTY.len());
        self.buffer.copy_from_slice(&EMPTY);
        self.count = 0;
    }
}

// Puts a row in the place of the next gate, and the next gate behind it.
fn push_row(buffer: &mut Vec<u8>, row: &[u8])
    requires some { 1 ≤ vec_len buffer.old }
    requires room { vec_len buffer.old + length row.now ≤ vec_capacity buffer.old }
    ensures items { buffer.new.items ≡ take (vec_len buffer.old - 1) buffer.old.items ++ row.now ++ 0 ∷ [] }
    ensures len { vec_len buffer.new ≡ vec_len buffer.old + length row.now }
    ensures capacity { vec_capacity buffer.old ≤ vec_capacity buffer.new }
{
    buffer.truncate(buffer.len() - 1);
    buffer.extend_from_slice(row).unwrap();
    buffer.push(CLOSED).unwrap();
}

// Writes the count of rows and their length.
fn write_numbers(buffer: &mut Vec<u8>, count: u32, len: u32)
    requires { 9 ≤ vec_len buffer.old }
    ensures items { buffer.new.items ≡ take 1 buffer.old.items ++ to_be_bytes w32 count ++ to_be_bytes w32 len
        ++ drop 9 buffer.old.items }
    ensures len { vec_len buffer.new ≡ vec_len buffer.old }
    ensures capacity { vec_capacity buffer.new ≡ vec_capacity buffer.old }
{
    buffer[1..5].copy_from_slice(&count.to_be_bytes());
    buffer[5..9].copy_from_slice(&len.to_be_bytes());
}
