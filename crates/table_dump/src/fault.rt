// Why a dump stopped.
ghost use Rattle.table_dump.specs.Words.{IsOfReading, IsStopOf};

use commit_disk::TableFault;
use thiserror::Error;
use tuple_schema::Stop;

/// Why a dump stopped. Want of memory is none of these.
#[derive(Clone, Copy, Debug, PartialEq, Eq, Error)]
pub enum DumpFault {
    /// A call on the table's file failed.
    #[error("the table file failed")]
    Disk,
    /// The output failed.
    #[error("the output failed")]
    Sink,
    /// A row or a block doesn't decode: this is the first wrong place of the file.
    #[error("not a table at {at}")]
    NotATable { at: u64 },
}

/// The stop of a dump that a stop of reading blocks is.
pub(crate) fn of_reading(stop: Stop<TableFault>) -> Stop<DumpFault>
    requires { IsOfReading stop }
    ensures { IsStopOf stop result }
{
    match stop {
        Stop::Memory => Stop::Memory,
        Stop::Fault(TableFault::Disk) => Stop::Fault(DumpFault::Disk),
        Stop::Fault(TableFault::NotATable { at }) => Stop::Fault(DumpFault::NotATable { at }),
        Stop::Fault(TableFault::WorkflowDiffers) => unreachable!(),
    }
}
