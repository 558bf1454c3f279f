// The top call.
ghost use Rattle.std.specs.Prelude.{◌≡◌, Option, Some, map, string_bytes};
ghost use Rattle.outside.specs.Words.{Files};
ghost use Rattle.commit_disk.specs.Words.{LosesNothing};
ghost use Rattle.commands.specs.Words.{ending_status, GainsLine, Notes, devices, Ends, KeepsOn, IsTold, HasLineOver};

use crate::carry::carry_out;
use crate::refusal::Refusal;
use crate::texts::{NO_MEMORY, line_of};
use crate::words::command_in;
use crate::{Ending, Reason, Status};
use outside::{Depot, Disk, Sink, put_all};
use std::alloc::Global;

/// Carries out the command that the words are, over these devices. Whatever it answers, and wherever it is
/// stopped, no row that was committed is lost or doubled.
///
/// A command that isn't done writes one line to `notes`, and nothing to `out` unless `out` failed.
pub fn run<D: Depot, K: Disk, S: Sink, N: Sink>(
    alloc: Global,
    words: &[String],
    depot: &mut D,
    disk: &mut K,
    out: &mut S,
    notes: &mut N,
) -> Ending
    // What stays true for the next call.
    ensures keeps { KeepsOn (devices (D.state depot.old) (K.state disk.old) (S.state out.old))
        (devices (D.state depot.new) (K.state disk.new) (S.state out.new)) }

    // No table is lost, of whatever flow: on an honest disk, a crash at any moment leaves all blocks that every crash
    // just before the call would have left.
    ensures never_lost { LosesNothing (K.state disk.old) (K.state disk.new) }

    // What the words ask for is done, or refused, and answered.
    ensures ends { Ends (map string_bytes words.now)
        (devices (D.state depot.old) (K.state disk.old) (S.state out.old))
        (devices (D.state depot.new) (K.state disk.new) (S.state out.new)) result.reason }
    ensures status { result.status ≡ ending_status result.reason }
    ensures notes { Notes (D.state depot.old).files result.reason (N.state notes.old) (N.state notes.new) }
{
    let command = match command_in(words) {
        Some(command) => command,
        None => {
            let refusal = Refusal {
                reason: Reason::Usage,
                flow: None,
            };
            return tell(alloc, refusal, notes);
        }
    };
    match carry_out(alloc, command, depot, disk, out) {
        Ok(()) => Ending {
            status: Status::Done,
            reason: None,
        },
        Err(refusal) => tell(alloc, refusal, notes),
    }
}

// Tells why the command isn't done. A line that finds no memory gives way to that of want of memory,
// which takes none.
fn tell<N: Sink>(alloc: Global, refusal: Refusal, notes: &mut N) -> Ending
    ensures told { IsTold (Some refusal.reason) result.reason }
    ensures status { result.status ≡ ending_status result.reason }
    ensures notes { (told : Option Files) → HasLineOver told refusal
        → Notes told result.reason (N.state notes.old) (N.state notes.new) }
{
    match line_of(alloc, &refusal) {
        Ok(line) => note(refusal.reason, line.as_bytes(), notes),
        Err(_) => note(Reason::Memory, NO_MEMORY.as_bytes(), notes),
    }
}

// A note that can't be written changes no answer.
fn note<N: Sink>(reason: Reason, line: &[u8], notes: &mut N) -> Ending
    ensures reason { result.reason ≡ Some reason }
    ensures status { result.status ≡ ending_status result.reason }
    ensures gains { GainsLine line.now (N.state notes.old) (N.state notes.new) }
{
    let _ = put_all(notes, line);
    Ending {
        status: reason.status(),
        reason: Some(reason),
    }
}
