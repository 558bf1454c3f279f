// Carrying out a command.
ghost use Rattle.std.specs.Prelude.{◌≤◌, length, IfErr};
ghost use Rattle.commands.specs.Words.{answer_of, IsWithin, job_for, devices, asked_of, flow_text_of, Begins, Does};
ghost use Rattle.commands.specs.Words.{in_reasons, HasLineOver};

use crate::Reason;
use crate::dump::dump;
use crate::find::{Found, find};
use crate::load::load;
use crate::refusal::Refusal;
use crate::words::Command;
use outside::{Depot, Disk, Sink};
use std::alloc::Global;

/// Carries out the command, and says why where it isn't done.
pub fn carry_out<D: Depot, K: Disk, S: Sink>(
    alloc: Global,
    command: Command,
    depot: &mut D,
    disk: &mut K,
    out: &mut S,
) -> Result<(), Refusal>
    requires within { IsWithin (asked_of command) }
    ensures begins { Begins (asked_of command)
        (devices (D.state depot.old) (K.state disk.old) (S.state out.old))
        (devices (D.state depot.new) (K.state disk.new) (S.state out.new)) (answer_of (in_reasons result)) }
    ensures line { IfErr result (HasLineOver (D.state depot.old).files) }
{
    let found = match find(alloc, depot) {
        Ok(found) => found,
        Err(refusal) => return Err(refusal),
    };
    match carry_on(alloc, command, &found, depot, disk, out) {
        Ok(()) => Ok(()),
        Err(reason) => Err(Refusal {
            reason,
            flow: Some(found.raw),
        }),
    }
}

// Does what the command has to do with the flow that was found.
fn carry_on<D: Depot, K: Disk, S: Sink>(
    alloc: Global,
    command: Command,
    found: &Found,
    depot: &mut D,
    disk: &mut K,
    out: &mut S,
) -> Result<(), Reason>
    requires short { length found.now.text.items ≤ 65536 }
    requires within { IsWithin (asked_of command) }
    ensures { Does (job_for (asked_of command) (flow_text_of found.now))
        (devices (D.state depot.old) (K.state disk.old) (S.state out.old))
        (devices (D.state depot.new) (K.state disk.new) (S.state out.new)) (answer_of result) }
{
    match command {
        Command::Load { batch } => load(alloc, found, batch, depot, disk, out),
        Command::Dump => dump(alloc, found, disk, out),
    }
}
