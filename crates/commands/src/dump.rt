// The rows of a table, as they are asked for.
ghost use Rattle.std.specs.Prelude.{◌≡◌};
ghost use Rattle.outside.specs.Words.{DepotState};
ghost use Rattle.commands.specs.Words.{answer_of, devices, Dumps, flow_text_of, reason_of_table, reason_of_dump};

use crate::Reason;
use crate::find::Found;
use commit_disk::{Attached, TableFault};
use load_runner::{found_once, open_table};
use outside::{Disk, Sink};
use std::alloc::Global;
use table_dump::DumpFault;
use tuple_schema::Stop;

/// Writes the rows of the flow's table to the output, once all of them were read and found to be good.
pub fn dump<K: Disk, S: Sink>(
    alloc: Global,
    found: &Found,
    disk: &mut K,
    out: &mut S,
) -> Result<(), Reason>
    ensures { (depot : DepotState) → Dumps (flow_text_of found.now)
        (devices depot (K.state disk.old) (S.state out.old))
        (devices depot (K.state disk.new) (S.state out.new)) (answer_of result) }
{
    found_once();
    let schema = &found.flow.root_node().schema;
    let journal = match open_table(alloc, disk, &found.text, schema) {
        Ok(Attached::Made(journal)) => journal,
        Ok(Attached::NotMade) => return Err(Reason::NotMade),
        Err(stop) => return Err(reason_of_table(stop)),
    };
    match table_dump::dump(alloc, disk, &journal, schema, out) {
        Ok(()) => Ok(()),
        Err(stop) => Err(reason_of_dump(stop)),
    }
}

// The reason that a stop of opening the table is.
fn reason_of_table(stop: Stop<TableFault>) -> Reason
    ensures { result ≡ reason_of_table stop }
{
    match stop {
        Stop::Memory => Reason::Memory,
        Stop::Fault(TableFault::Disk) => Reason::Disk,
        Stop::Fault(TableFault::NotATable { at }) => Reason::NotATable { at },
        Stop::Fault(TableFault::WorkflowDiffers) => Reason::WorkflowDiffers,
    }
}

// The reason that a stop of writing the rows is.
fn reason_of_dump(stop: Stop<DumpFault>) -> Reason
    ensures { result ≡ reason_of_dump stop }
{
    match stop {
        Stop::Memory => Reason::Memory,
        Stop::Fault(DumpFault::Disk) => Reason::Disk,
        Stop::Fault(DumpFault::Sink) => Reason::Sink,
        Stop::Fault(DumpFault::NotATable { at }) => Reason::NotATable { at },
    }
}
