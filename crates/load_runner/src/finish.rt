// The end of a load, which makes the table where it isn't made, and commits rows to it.
ghost use Rattle.std.specs.Prelude.{◌≡◌, ◌≢◌, ◌≤◌, ◌<◌, ℕ, List, IsTrue, Err, length, drop, true, false};
ghost use Rattle.outside.specs.Words.{Elapses, IsSettled};
ghost use Rattle.tuple_schema.specs.declared.memory.Stop.TheVariants as stop;
ghost use Rattle.commit_disk.specs.declared.attaching.Attached.TheVariants as attached;
ghost use Rattle.commit_disk.specs.Words.{Stored, HoldsUpTo, IsWithin, IsSound};
ghost use Rattle.table_write.specs.Words.{cut, LeavesFronts};
ghost use Rattle.load_runner.specs.Words.{IsAt, is_ended, addition, Finishes, OfOlds, LeavesGrown};

use commit_disk::{Attached, Journal, MAX_FLOW_BYTES, MAX_ROWS, make};
use outside::{Disk, Failed};
use row_batch::Batch;
use std::alloc::Global;
use table_write::{WriteFault, Writer};
use tuple_schema::Stop;

/// Makes the table where it isn't made, commits the rows from this place on behind those that it has, and ends it.
#[tactic(auto, using(outside::specs::Moments::no_read))]
pub fn finish<K: Disk>(
    alloc: Global,
    disk: &mut K,
    found: Attached,
    text: &[u8],
    rows: &Batch,
    from: usize,
    batch: u32,
    writer: &mut Writer,
) -> Result<(), Stop<WriteFault>>
    requires short { length text.now ≤ MAX_FLOW_BYTES }
    requires sound { IsSound found }
    requires unended { is_ended found ≡ false }
    requires within { IsWithin found (K.state disk.old).size }
    requires start { IsTrue (K.state disk.old).honest → (olds : List Stored)
        × IsAt found (K.state disk.old).file text.now olds }
    requires place { from ≤ length rows.now.rows }
    requires some { 1 ≤ batch }
    requires few { batch ≤ MAX_ROWS }

    ensures finishes { Finishes (addition found text.now batch rows.now from)
        (K.state disk.old) (K.state disk.new) result }
    ensures any_moment { IsSettled (K.state disk.old)
        → OfOlds (addition found text.now batch rows.now from) (K.state disk.old)
        (λ olds. LeavesGrown (addition found text.now batch rows.now from) olds (K.state disk.old) (K.state disk.new)) }
    ensures elapses { Elapses (K.state disk.old) (K.state disk.new) }
{
    match found {
        Attached::Made(journal) => append(disk, journal, rows, from, batch, writer),
        Attached::NotMade => match make(alloc, disk, text) {
            Ok(journal) => append(disk, journal, rows, from, batch, writer),
            Err(Stop::Memory) => Err(Stop::Memory),
            Err(Stop::Fault(Failed)) => Err(Stop::Fault(WriteFault::Disk)),
        },
    }
}

// Commits the rows to the table of the journal, and ends it.
fn append<K: Disk>(
    disk: &mut K,
    mut journal: Journal,
    rows: &Batch,
    from: usize,
    batch: u32,
    writer: &mut Writer,
) -> Result<(), Stop<WriteFault>>
    requires sound { journal.sound ≡ true }
    requires unended { journal.ended ≡ false }
    requires within { journal.gate < (K.state disk.old).size }
    requires place { from ≤ length rows.now.rows }
    requires some { 1 ≤ batch }
    requires few { batch ≤ MAX_ROWS }

    ensures finishes { (text : List ℕ) → Finishes (addition (attached.Made journal) text batch rows.now from)
        (K.state disk.old) (K.state disk.new) result }
    ensures no_memory { result ≢ Err stop.Memory }
    ensures any_moment { IsTrue (K.state disk.old).honest → IsSettled (K.state disk.old)
        → (text : List ℕ) (olds : List Stored) → HoldsUpTo journal.gate (K.state disk.old).file text olds false
        → LeavesFronts text rows.now.columns olds (cut batch (drop from rows.now.rows))
        (K.state disk.old) (K.state disk.new) }
    ensures elapses { Elapses (K.state disk.old) (K.state disk.new) }
{
    match writer.append(&mut journal, disk, rows, from, batch) {
        Ok(()) => Ok(()),
        Err(fault) => Err(Stop::Fault(fault)),
    }
}
