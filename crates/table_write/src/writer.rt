// Writing rows to a table.
ghost use Rattle.std.specs.Prelude.{◌≡◌, ◌≤◌, ◌<◌, ◌+◌, ◌^◌, ℕ, List, length, drop, IsTrue, IsErrOf, OnOk, All, true, false};
ghost use Rattle.outside.specs.Words.{Rose, Elapses, IsSettled, LeftBetween};
ghost use Rattle.row_codec.specs.Words.{IsRowOf};
ghost use Rattle.commit_disk.specs.Words.{Stored, HoldsUpTo, rows_block, end_block, after, Commits, LeavesWhole};
ghost use Rattle.commit_disk.specs.Words.{GrowsBy};
ghost use Rattle.table_write.specs.declared.writer.WriteFault.TheVariants as fault;
ghost use Rattle.table_write.specs.Words.{cut, with_blocks, LeavesFronts, StopsBetween, behind, HasRoom, AllHaveRoom};
ghost use Rattle.table_write.specs.Words.{HasAdded, IsFilled};

use crate::fill::fill;
use commit_disk::{Block, Journal, MAX_ROWS, fits};
use outside::{Disk, Failed, MAX_SIZE};
use row_batch::Batch;
use std::alloc::Global;
use std::marker::Model;
use thiserror::Error;
use tuple_schema::Memory;

/// Why rows can't be written.
#[derive(Clone, Copy, Debug, PartialEq, Eq, Error)]
pub enum WriteFault {
    /// A call on the disk failed.
    #[error("the disk failed")]
    Disk,
    /// The next block, or the end block, would end past the longest file.
    #[error("the table is full")]
    Full,
}

impl From<Failed> for WriteFault {
    ghost from_gives = { λ _ e. e ≡ fault.Disk };

    fn from(_: Failed) -> Self {
        WriteFault::Disk
    }
}

/// The memory for writing: a block that waits for its commit. A contract sees nothing of it.
#[derive(Drop)]
pub struct Writer {
    block: Block,
}

impl Model for Writer {
    ghost use Rattle.std.specs.Prelude.{⊤};

    ghost Value = { ⊤ };

    ghost view = { λ w. tt };
}

impl Writer {
    /// A writer for the rows of any schema. It takes all the memory that writing takes.
    pub fn new(alloc: Global) -> Result<Writer, Memory> {
        Ok(Writer {
            block: Block::new(alloc)?,
        })
    }

    /// Commits the rows from that place on behind those of the table, in blocks of `batch` rows or
    /// 4,194,304 bytes, and ends the table. At Disk attach the table again. At Full it holds the blocks
    /// that have room.
    pub fn append<K: Disk>(
        &mut self,
        journal: &mut Journal,
        disk: &mut K,
        rows: &Batch,
        from: usize,
        batch: u32,
    ) -> Result<(), WriteFault>
        requires sound { IsTrue journal.old.sound }
        requires unended { journal.old.ended ≡ false }
        requires place { journal.old.gate < (K.state disk.old).size }
        requires within { from ≤ length rows.now.rows }
        requires some { 1 ≤ batch }
        requires few { batch ≤ MAX_ROWS }

        ensures of_columns { OnOk result (All (IsRowOf rows.now.columns) (drop from rows.now.rows)) }
        ensures moved { OnOk result
            (journal.new ≡ after (behind journal.old (cut batch (drop from rows.now.rows))) end_block) }
        ensures count { OnOk result (journal.new.count ≡ journal.old.count + length (drop from rows.now.rows)) }
        ensures done { OnOk result (IsTrue (K.state disk.old).honest → (text : List ℕ) (olds : List Stored)
            → HoldsUpTo journal.old.gate (K.state disk.old).file text olds false
            → HoldsUpTo journal.new.gate (K.state disk.new).file text
            (with_blocks olds (cut batch (drop from rows.now.rows))) true) }
        ensures settled { OnOk result (IsTrue (K.state disk.old).honest → IsSettled (K.state disk.new)) }
        ensures size { OnOk result (journal.new.gate < (K.state disk.new).size) }

        // A crash at any moment of the call leaves the old blocks and the first of the new ones.
        ensures any_moment { IsTrue (K.state disk.old).honest → IsSettled (K.state disk.old)
            → (text : List ℕ) (olds : List Stored) → HoldsUpTo journal.old.gate (K.state disk.old).file text olds false
            → LeavesFronts text rows.now.columns olds (cut batch (drop from rows.now.rows)) (K.state disk.old)
            (K.state disk.new) }
        // Where the disk failed, each image holds the old blocks and so many of the new ones, or one step more.
        ensures stops { IsErrOf result fault.Disk → IsTrue (K.state disk.old).honest → IsSettled (K.state disk.old)
            → (text : List ℕ) (olds : List Stored) → HoldsUpTo journal.old.gate (K.state disk.old).file text olds false
            → StopsBetween text olds (cut batch (drop from rows.now.rows)) (K.state disk.new).may_leave }
        ensures elapses { Elapses (K.state disk.old) (K.state disk.new) }

        // Unless the disk fails, Ok comes exactly where all blocks have room, and else Full.
        ensures all_fit { OnOk result (AllHaveRoom journal.old.gate (cut batch (drop from rows.now.rows))) }
        ensures full { IsErrOf result fault.Full
            → IsFilled rows.now.columns (cut batch (drop from rows.now.rows)) journal.old journal.new (K.state disk.old)
            (K.state disk.new) }

        ensures unsound { IsErrOf result fault.Disk → journal.new.sound ≡ false }
        ensures cause { IsErrOf result fault.Disk → Rose (K.state disk.old).faults (K.state disk.new).faults }
    {
        self.append_blocks(journal, disk, rows, from, batch)?;
        if !fits(journal.gate(), 0) {
            return Err(WriteFault::Full);
        }
        journal.end(disk)?;
        Ok(())
    }

    // Commits the rows from that place on in blocks.
    fn append_blocks<K: Disk>(
        &mut self,
        journal: &mut Journal,
        disk: &mut K,
        rows: &Batch,
        from: usize,
        batch: u32,
    ) -> Result<(), WriteFault>
        requires sound { IsTrue journal.old.sound }
        requires unended { journal.old.ended ≡ false }
        requires place { journal.old.gate < (K.state disk.old).size }
        requires within { from ≤ length rows.now.rows }
        requires some { 1 ≤ batch }
        requires few { batch ≤ MAX_ROWS }

        ensures added { OnOk result (HasAdded rows.now.columns (cut batch (drop from rows.now.rows)) journal.old
            journal.new (K.state disk.old) (K.state disk.new)) }
        ensures any_moment { IsTrue (K.state disk.old).honest → IsSettled (K.state disk.old)
            → (text : List ℕ) (olds : List Stored) → HoldsUpTo journal.old.gate (K.state disk.old).file text olds false
            → LeavesFronts text rows.now.columns olds (cut batch (drop from rows.now.rows)) (K.state disk.old)
            (K.state disk.new) }
        ensures stops { IsErrOf result fault.Disk → IsTrue (K.state disk.old).honest → IsSettled (K.state disk.old)
            → (text : List ℕ) (olds : List Stored) → HoldsUpTo journal.old.gate (K.state disk.old).file text olds false
            → StopsBetween text olds (cut batch (drop from rows.now.rows)) (K.state disk.new).may_leave }
        ensures elapses { Elapses (K.state disk.old) (K.state disk.new) }

        ensures each_fits { OnOk result ((count : ℕ) → count < length (cut batch (drop from rows.now.rows))
            → HasRoom journal.old.gate (cut batch (drop from rows.now.rows)) count) }
        ensures full { IsErrOf result fault.Full
            → IsFilled rows.now.columns (cut batch (drop from rows.now.rows)) journal.old journal.new (K.state disk.old)
            (K.state disk.new) }

        ensures unsound { IsErrOf result fault.Disk → journal.new.sound ≡ false }
        ensures cause { IsErrOf result fault.Disk → Rose (K.state disk.old).faults (K.state disk.new).faults }
    {
        let mut at = from;
        while at < rows.len() {
            let count = fill(&mut self.block, rows, at, batch);
            commit_block(journal, disk, &self.block)?;
            at += count;
        }
        Ok(())
    }
}

// Commits a block, where it has room.
fn commit_block<K: Disk>(
    journal: &mut Journal,
    disk: &mut K,
    block: &Block,
) -> Result<(), WriteFault>
    requires sound { IsTrue journal.old.sound }
    requires unended { journal.old.ended ≡ false }
    requires some { 1 ≤ block.now.count }
    requires place { journal.old.gate < (K.state disk.old).size }

    ensures moved { OnOk result (journal.new ≡ after journal.old (rows_block block.now)) }
    ensures done { OnOk result (IsTrue (K.state disk.old).honest
        → Commits journal.old.gate journal.new.gate (rows_block block.now) (K.state disk.old).file
        (K.state disk.new).file) }
    ensures size { OnOk result (journal.new.gate < (K.state disk.new).size) }
    ensures settled { OnOk result (IsTrue (K.state disk.old).honest → IsSettled (K.state disk.new)) }

    ensures any_moment { IsTrue (K.state disk.old).honest → IsSettled (K.state disk.old)
        → LeavesWhole journal.old.gate (rows_block block.now) (K.state disk.old).file
        (LeftBetween (K.state disk.old) (K.state disk.new)) }
    ensures grows { IsTrue (K.state disk.old).honest → IsSettled (K.state disk.old)
        → GrowsBy journal.old.gate (rows_block block.now) (K.state disk.old) (K.state disk.new) }
    ensures elapses { Elapses (K.state disk.old) (K.state disk.new) }

    ensures fits { OnOk result (journal.old.gate + 11 + length block.now.bytes ≤ MAX_SIZE) }
    ensures full { IsErrOf result fault.Full → MAX_SIZE < journal.old.gate + 11 + length block.now.bytes }
    ensures still { IsErrOf result fault.Full → (journal.new ≡ journal.old) × (disk.new ≡ disk.old) }

    ensures unsound { IsErrOf result fault.Disk → journal.new.sound ≡ false }
    ensures cause { IsErrOf result fault.Disk → Rose (K.state disk.old).faults (K.state disk.new).faults }
{
    if !fits(journal.gate(), block.len()) {
        return Err(WriteFault::Full);
    }
    journal.commit(disk, block)?;
    Ok(())
}
