// The journal of a table: where its gates are, and the calls that add to it.
ghost use Rattle.std.specs.Prelude.{◌≡◌, ◌≤◌, ◌<◌, ◌+◌, ◌^◌, ◌↔◌, [], ◌∷◌, ◌++◌, ℕ, List, length, vec_len, IsTrue, IsErrOf, IfOk, OnOk, OnErr, true, false};
ghost use Rattle.outside.specs.Words.{HasCause, Rose, Each, Elapses, IsSettled, LeftBetween, PassesOver};
ghost use Rattle.tuple_schema.specs.Words.{IfFault};
ghost use Rattle.tuple_schema.specs.declared.memory.Stop.TheVariants as stop;
ghost use Rattle.commit_disk.specs.Words.{TableBlock, rows_block, end_block, Holds, HoldsUpTo, IsNotMade, head};
ghost use Rattle.commit_disk.specs.Words.{new_journal, after, Commits, IsEmptyOrNotMade, LeavesWhole, Grows, GrowsBy};
ghost use Rattle.commit_disk.specs.Words.{count_in, len_in, passed, IsWritten};

use crate::gate::{CLOSED, MADE_GATE, close_made_gate, open_gate};
use crate::{Block, BlockHead, MAX_ROWS};
use outside::{Disk, Failed, MAX_SIZE};
use std::alloc::Global;
use std::marker::Model;
use tuple_schema::{Memory, Stop};

/// The most bytes of a flow text.
pub const MAX_FLOW_BYTES: u32 = 65_536;

pub(crate) const VERSION: u32 = 1;

// Behind its gate stand the kind, the count of rows and their length, and the next gate.
const END: [u8; 10] = [1, 0, 0, 0, 0, 0, 0, 0, 0, 0];

/// Where the gates of a table are, and how many rows it has.
///
/// After a failed call it isn't sound: the table has to be attached again.
#[derive(Debug, Drop)]
pub struct Journal {
    first: u64,
    gate: u64,
    count: u64,
    ended: bool,
    sound: bool,
}

impl Model for Journal {
    ghost use Rattle.commit_disk.specs.Journal.{JournalState, IsInOrder};

    ghost Value = { JournalState };

    ghost view = { λ j. record { first = j.first; gate = j.gate; count = j.count; ended = j.ended; sound = j.sound } };

    ghost invariant = { λ j. IsInOrder j.first j.gate j.count };
}

impl Journal {
    /// The place of the first block's gate.
    pub fn first(&self) -> u64
        ensures first { result ≡ self.now.first }
        ensures ordered { result ≤ self.now.gate }
    {
        self.first
    }

    /// The place of the first closed gate, behind which the next block is written.
    pub fn gate(&self) -> u64
        ensures gate { result ≡ self.now.gate }
        ensures room { result < MAX_SIZE }
    {
        self.gate
    }

    /// How many rows the table has.
    pub fn count(&self) -> u64
        ensures count { result ≡ self.now.count }
        ensures small { result ≤ 2 ^ 60 }
    {
        self.count
    }

    /// Whether the table has its end block, behind which nothing is written.
    pub fn ended(&self) -> bool
        ensures { result ≡ self.now.ended }
    {
        self.ended
    }

    /// Whether no call has failed.
    pub fn sound(&self) -> bool
        ensures { result ≡ self.now.sound }
    {
        self.sound
    }

    // The journal of a table whose first gate is at this place, before its blocks are read.
    pub(crate) fn new(first: u64) -> Journal
        requires { first < 2 ^ 48 }
        ensures { result ≡ record { first = first; gate = first; count = 0; ended = false; sound = true } }
    {
        Journal {
            first,
            gate: first,
            count: 0,
            ended: false,
            sound: true,
        }
    }

    // Goes on behind a block with this head.
    pub(crate) fn pass(&mut self, head: BlockHead)
        requires few { count_in head ≤ MAX_ROWS }
        requires room { self.old.gate + 10 + len_in head < 2 ^ 48 }
        ensures { self.new ≡ passed self.old head }
    {
        match head {
            BlockHead::Rows { count, len } => {
                self.gate += END.len() as u64 + len as u64;
                self.count += count as u64;
            }
            BlockHead::End => {
                self.gate += END.len() as u64;
                self.ended = true;
            }
        }
    }

    /// Commits a block: at Ok the table has it behind the others. At Err attach the table again.
    pub fn commit<K: Disk>(&mut self, disk: &mut K, block: &Block) -> Result<(), Failed>
        requires sound { IsTrue self.old.sound }
        requires unended { self.old.ended ≡ false }
        requires some { 1 ≤ block.now.count }
        requires fits { self.old.gate + 11 + length block.now.bytes ≤ MAX_SIZE }
        requires place { self.old.gate < (K.state disk.old).size }

        ensures moved { OnOk result (self.new ≡ after self.old (rows_block block.now)) }
        ensures done { OnOk result (IsTrue (K.state disk.old).honest
            → Commits self.old.gate self.new.gate (rows_block block.now) (K.state disk.old).file
            (K.state disk.new).file) }
        ensures size { OnOk result (self.new.gate < (K.state disk.new).size) }

        ensures settled { OnOk result (IsTrue (K.state disk.old).honest → IsSettled (K.state disk.new)) }
        // A crash at any moment of the call leaves the blocks from before it, or those and this one whole.
        ensures any_moment { IsTrue (K.state disk.old).honest → IsSettled (K.state disk.old)
            → LeavesWhole self.old.gate (rows_block block.now) (K.state disk.old).file
            (LeftBetween (K.state disk.old) (K.state disk.new)) }
        ensures grows { IsTrue (K.state disk.old).honest → IsSettled (K.state disk.old)
            → GrowsBy self.old.gate (rows_block block.now) (K.state disk.old) (K.state disk.new) }
        ensures elapses { Elapses (K.state disk.old) (K.state disk.new) }

        ensures unsound { OnErr result (self.new ≡ record self.old { sound = false }) }
        ensures cause { HasCause (K.state disk.old).faults (K.state disk.new).faults result }
    {
        let head = BlockHead::Rows {
            count: block.rows(),
            len: block.len(),
        };
        self.add(disk, head, block.behind_gate())
    }

    /// Commits the end block: at Ok the table is ended. At Err attach the table again.
    pub fn end<K: Disk>(&mut self, disk: &mut K) -> Result<(), Failed>
        requires sound { IsTrue self.old.sound }
        requires unended { self.old.ended ≡ false }
        requires fits { self.old.gate + 11 ≤ MAX_SIZE }
        requires place { self.old.gate < (K.state disk.old).size }

        ensures moved { OnOk result (self.new ≡ after self.old end_block) }
        ensures done { OnOk result (IsTrue (K.state disk.old).honest
            → Commits self.old.gate self.new.gate end_block (K.state disk.old).file (K.state disk.new).file) }
        ensures size { OnOk result (self.new.gate < (K.state disk.new).size) }

        ensures settled { OnOk result (IsTrue (K.state disk.old).honest → IsSettled (K.state disk.new)) }
        // A crash at any moment of the call leaves the blocks from before it, or those and the end block.
        ensures any_moment { IsTrue (K.state disk.old).honest → IsSettled (K.state disk.old)
            → LeavesWhole self.old.gate end_block (K.state disk.old).file
            (LeftBetween (K.state disk.old) (K.state disk.new)) }
        ensures grows { IsTrue (K.state disk.old).honest → IsSettled (K.state disk.old)
            → GrowsBy self.old.gate end_block (K.state disk.old) (K.state disk.new) }
        ensures elapses { Elapses (K.state disk.old) (K.state disk.new) }

        ensures unsound { OnErr result (self.new ≡ record self.old { sound = false }) }
        ensures cause { HasCause (K.state disk.old).faults (K.state disk.new).faults result }
    {
        self.add(disk, BlockHead::End, &END)
    }

    // Commits the block with this head, of which these bytes stand behind the gate.
    fn add<K: Disk>(&mut self, disk: &mut K, head: BlockHead, behind: &[u8]) -> Result<(), Failed>
        requires sound { IsTrue self.old.sound }
        requires few { count_in head ≤ MAX_ROWS }
        requires len { length behind.now ≡ 10 + len_in head }
        requires fits { self.old.gate + 11 + len_in head ≤ MAX_SIZE }
        requires place { self.old.gate < (K.state disk.old).size }

        ensures moved { OnOk result (self.new ≡ passed self.old head) }
        ensures done { OnOk result (IsTrue (K.state disk.old).honest → (block : TableBlock)
            → IsWritten block head behind.now
            → Commits self.old.gate self.new.gate block (K.state disk.old).file (K.state disk.new).file) }
        ensures size { OnOk result (self.new.gate < (K.state disk.new).size) }

        ensures settled { OnOk result (IsTrue (K.state disk.old).honest → IsSettled (K.state disk.new)) }
        ensures any_moment { IsTrue (K.state disk.old).honest → IsSettled (K.state disk.old) → (block : TableBlock)
            → IsWritten block head behind.now
            → LeavesWhole self.old.gate block (K.state disk.old).file
            (LeftBetween (K.state disk.old) (K.state disk.new)) }
        ensures grows { IsTrue (K.state disk.old).honest → IsSettled (K.state disk.old) → (block : TableBlock)
            → IsWritten block head behind.now
            → GrowsBy self.old.gate block (K.state disk.old) (K.state disk.new) }
        ensures elapses { Elapses (K.state disk.old) (K.state disk.new) }

        ensures unsound { OnErr result (self.new ≡ record self.old { sound = false }) }
        ensures cause { HasCause (K.state disk.old).faults (K.state disk.new).faults result }
    {
        self.sound = false;
        open_gate(disk, self.gate, behind)?;
        self.sound = true;
        self.pass(head);
        Ok(())
    }
}

/// Whether a block of so many bytes of rows may stand behind the gate, within the longest file.
pub fn fits(gate: u64, rows_len: u32) -> bool
    ensures { IsTrue result ↔ (gate + 11 + rows_len ≤ MAX_SIZE) }
{
    gate <= MAX_SIZE - 11 - rows_len as u64
}

/// Makes a table of this flow text with no rows. Where no memory is found, nothing is done.
pub fn make<K: Disk>(alloc: Global, disk: &mut K, text: &[u8]) -> Result<Journal, Stop<Failed>>
    requires short { length text.now ≤ MAX_FLOW_BYTES }
    requires not_made { IsTrue (K.state disk.old).honest → IsNotMade (K.state disk.old).file }

    ensures journal { IfOk result (λ journal. journal ≡ new_journal text.now) }
    ensures done { IfOk result (λ journal. IsTrue (K.state disk.old).honest
        → HoldsUpTo journal.gate (K.state disk.new).file text.now [] false) }
    ensures size { IfOk result (λ journal. journal.gate < (K.state disk.new).size) }

    ensures settled { OnOk result (IsTrue (K.state disk.old).honest → IsSettled (K.state disk.new)) }
    // A crash at any moment of the call leaves no table yet, or this one.
    ensures any_moment { IsTrue (K.state disk.old).honest → IsSettled (K.state disk.old)
        → Each (LeftBetween (K.state disk.old) (K.state disk.new)) (IsEmptyOrNotMade text.now) }
    ensures grows { IsTrue (K.state disk.old).honest → IsSettled (K.state disk.old)
        → Grows text.now (K.state disk.old) (K.state disk.new) }
    ensures elapses { Elapses (K.state disk.old) (K.state disk.new) }

    ensures memory { IsErrOf result stop.Memory → disk.new ≡ disk.old }
    ensures cause { IfFault result (λ _. Rose (K.state disk.old).faults (K.state disk.new).faults) }
{
    let behind = head_bytes(alloc, text)?;
    write_head(disk, &behind)?;
    Ok(Journal::new(behind.len() as u64))
}

// Writes a table whose head is behind the made gate, over a file that is no table.
fn write_head<K: Disk>(disk: &mut K, behind: &[u8]) -> Result<(), Failed>
    requires { 1 + length behind.now ≤ 2 ^ 48 }
    ensures done { OnOk result (IsTrue (K.state disk.old).honest → (text : List ℕ) → length text ≤ 65536
        → behind.now ≡ head text ++ 0 ∷ []
        → HoldsUpTo (16 + length text) (K.state disk.new).file text [] false) }
    ensures size { OnOk result (length behind.now < (K.state disk.new).size) }
    ensures settled { OnOk result (IsTrue (K.state disk.old).honest → IsSettled (K.state disk.new)) }
    ensures passes { IsTrue (K.state disk.old).honest → IsSettled (K.state disk.old) → IsNotMade (K.state disk.old).file
        → (text : List ℕ) → length text ≤ 65536 → behind.now ≡ head text ++ 0 ∷ []
        → PassesOver IsNotMade (λ image. Holds image text [] false) (K.state disk.old) (K.state disk.new) }
    ensures elapses { Elapses (K.state disk.old) (K.state disk.new) }
    ensures cause { HasCause (K.state disk.old).faults (K.state disk.new).faults result }
{
    close_made_gate(disk)?;
    open_gate(disk, MADE_GATE, behind)
}

// What stands behind the made gate, and the first block's gate, closed.
#[tactic(auto, unfolding(crate::specs::Table::head))]
fn head_bytes(alloc: Global, text: &[u8]) -> Result<Vec<u8>, Memory>
    requires { length text.now ≤ MAX_FLOW_BYTES }
    ensures bytes { IfOk result (λ behind. behind.items ≡ head text.now ++ 0 ∷ []) }
    ensures size { IfOk result (λ behind. vec_len behind ≡ 16 + length text.now) }
{
    let mut behind = b"WHTABLE".to_vec(alloc)?;
    behind.extend_from_slice(&VERSION.to_be_bytes())?;
    behind.extend_from_slice(&(text.len() as u32).to_be_bytes())?;
    behind.extend_from_slice(text)?;
    behind.push(CLOSED)?;
    Ok(behind)
}
