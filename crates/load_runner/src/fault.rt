// Why a load stopped.
ghost use Rattle.std.specs.Prelude.{◌≡◌};
ghost use Rattle.load_runner.specs.Words.{of_table, of_source_fault, of_sources, of_write};

use commit_disk::TableFault;
use extractors::CsvFault;
use flow_types::NodeId;
use table_write::WriteFault;
use thiserror::Error;
use tuple_schema::Stop;

/// The first source in the order of the flow file that has no content, and why.
#[derive(Clone, Copy, Debug, PartialEq, Eq)]
pub struct SourceFault {
    pub source: NodeId,
    pub what: SourceWhat,
}

/// Why a source has no content.
#[derive(Clone, Copy, Debug, PartialEq, Eq)]
pub enum SourceWhat {
    Csv(CsvFault),
}

/// Why a load stopped. Want of memory is none of these.
#[derive(Clone, Copy, Debug, PartialEq, Eq, Error)]
pub enum LoadFault {
    /// A call on the source files failed.
    #[error("a source file failed")]
    Depot,
    /// A call on the table's file failed. Load again: what was committed stays.
    #[error("the table file failed")]
    Disk,
    /// The file is made and isn't a table: this is the first wrong place. Nothing was changed.
    #[error("not a table at {at}")]
    NotATable { at: u64 },
    /// The file is a table of another flow text. Nothing was changed.
    #[error("the table was made by another workflow")]
    WorkflowDiffers,
    /// A source has no content. Nothing was changed.
    #[error("a source has no content")]
    Source(SourceFault),
    /// The next block would end past the longest file. The blocks that have room are committed.
    #[error("the table is full")]
    Full,
}

/// The stop of a load that a stop of reading the table is.
pub fn of_table(stop: Stop<TableFault>) -> Stop<LoadFault>
    ensures { result ≡ of_table stop }
{
    match stop {
        Stop::Memory => Stop::Memory,
        Stop::Fault(TableFault::Disk) => Stop::Fault(LoadFault::Disk),
        Stop::Fault(TableFault::NotATable { at }) => Stop::Fault(LoadFault::NotATable { at }),
        Stop::Fault(TableFault::WorkflowDiffers) => Stop::Fault(LoadFault::WorkflowDiffers),
    }
}

/// The stop of a load that a stop of reading its sources is.
pub fn of_sources(stop: Stop<SourceFault>) -> Stop<LoadFault>
    ensures { result ≡ of_sources stop }
{
    match stop {
        Stop::Memory => Stop::Memory,
        Stop::Fault(fault) => Stop::Fault(of_source_fault(fault)),
    }
}

// The fault of a load that a source's fault is: where the depot failed, the source isn't blamed.
fn of_source_fault(fault: SourceFault) -> LoadFault
    ensures { result ≡ of_source_fault fault fault.what }
{
    match fault.what {
        SourceWhat::Csv(CsvFault::Depot) => LoadFault::Depot,
        SourceWhat::Csv(
            CsvFault::Missing
            | CsvFault::TooLarge { .. }
            | CsvFault::BadHeader { .. }
            | CsvFault::BadCsv { .. }
            | CsvFault::BadRow { .. },
        ) => LoadFault::Source(fault),
    }
}

/// The stop of a load that a stop of writing the table is.
pub fn of_write(stop: Stop<WriteFault>) -> Stop<LoadFault>
    ensures { result ≡ of_write stop }
{
    match stop {
        Stop::Memory => Stop::Memory,
        Stop::Fault(WriteFault::Disk) => Stop::Fault(LoadFault::Disk),
        Stop::Fault(WriteFault::Full) => Stop::Fault(LoadFault::Full),
    }
}
