// A load, and its report.
ghost use Rattle.std.specs.Prelude.{◌≡◌, ◌≤◌, length};
ghost use Rattle.commands.specs.Words.{answer_of, IsWithin, devices, LoadsAndTells, reason_of_stop};
ghost use Rattle.commands.specs.Commands.{load as asks_load};

use crate::Reason;
use crate::find::Found;
use crate::texts::report_text;
use load_runner::LoadFault;
use outside::{Depot, Disk, Sink, put_all};
use std::alloc::Global;
use tuple_schema::Stop;

/// Loads what the table still lacks of the flow, and puts the report.
pub fn load<D: Depot, K: Disk, S: Sink>(
    alloc: Global,
    found: &Found,
    batch: u32,
    depot: &mut D,
    disk: &mut K,
    out: &mut S,
) -> Result<(), Reason>
    requires short { length found.now.text.items ≤ 65536 }
    requires within { IsWithin (asks_load batch) }
    ensures { LoadsAndTells (record { flow = found.now.flow; text = found.now.text.items; batch = batch })
        (devices (D.state depot.old) (K.state disk.old) (S.state out.old))
        (devices (D.state depot.new) (K.state disk.new) (S.state out.new)) (answer_of result) }
{
    let report = match load_runner::load(alloc, &found.flow, &found.text, batch, depot, disk) {
        Ok(report) => report,
        Err(stop) => return Err(reason_of(stop)),
    };
    let text = report_text(alloc, &found.flow, &report)?;
    match put_all(out, text.as_bytes()) {
        Ok(()) => Ok(()),
        Err(_) => Err(Reason::Sink),
    }
}

// The reason that a stop of the load is.
fn reason_of(stop: Stop<LoadFault>) -> Reason
    ensures { result ≡ reason_of_stop stop }
{
    match stop {
        Stop::Memory => Reason::Memory,
        Stop::Fault(LoadFault::Depot) => Reason::Depot,
        Stop::Fault(LoadFault::Disk) => Reason::Disk,
        Stop::Fault(LoadFault::NotATable { at }) => Reason::NotATable { at },
        Stop::Fault(LoadFault::WorkflowDiffers) => Reason::WorkflowDiffers,
        Stop::Fault(LoadFault::Full) => Reason::Full,
        Stop::Fault(LoadFault::Source(fault)) => Reason::Source(fault),
    }
}
