// How a command ends.
ghost use Rattle.std.specs.Prelude.{◌≡◌};
ghost use Rattle.commands.specs.Words.{step_of, status_at, status_of, exit_status_of};
ghost use Rattle.commands.specs.declared.reason.Reason.TheVariants as why;

use flow_types::SchemaFault;
use load_runner::SourceFault;
use std::alloc::AllocError;
use workflow_file::FlowFault;

/// Why a command wasn't done.
#[derive(Debug, PartialEq, Eq, Drop)]
pub enum Reason {
    /// The words are no command.
    Usage,
    /// There is no `flow.toml`.
    FlowMissing,
    /// `flow.toml` has more than 65,536 bytes.
    FlowTooLong { size: u64 },
    /// The first fault of `flow.toml`.
    Flow(FlowFault),
    /// The names in the flow don't fit together: this is its first fault.
    Schema(SchemaFault),
    /// The flow has something that can't be done yet.
    NotBuilt,
    /// The table's file is made, and is no table: this is the first wrong place.
    NotATable { at: u64 },
    /// There is no table to be read: none was made in its file.
    NotMade,
    /// The table was made by another flow text.
    WorkflowDiffers,
    /// The first source in the order of the flow file that has no content.
    Source(SourceFault),
    /// The next block would end past the longest file.
    Full,
    /// The source files failed.
    Depot,
    /// The table's file failed.
    Disk,
    /// The output failed.
    Sink,
    /// No memory was found.
    Memory,
}

/// Where a command was stopped, in the order in which causes are looked for. A device's fault, and want of memory,
/// stand where their call stands.
#[derive(Clone, Copy, Debug, PartialEq, Eq)]
pub enum Step {
    /// The words.
    Words,
    /// The flow, and the names and columns in it.
    Flow,
    /// The table's file.
    Table,
    /// The sources.
    Source,
    /// The room for the next block.
    Room,
    /// A device failed.
    Device,
    /// No memory was found.
    Memory,
}

/// How a command ended, as the exit status tells it: 0, 2, 3, 4, 5, 6, 7 in this order.
#[derive(Clone, Copy, Debug, PartialEq, Eq)]
pub enum Status {
    Done,
    Usage,
    Schema,
    Source,
    Device,
    Memory,
    Table,
}

/// How a command ended, and why, where it wasn't done.
#[derive(Debug, PartialEq, Eq, Drop)]
pub struct Ending {
    pub status: Status,
    pub reason: Option<Reason>,
}

impl Reason {
    /// Where it stops a command.
    pub fn step(&self) -> Step
        ensures { result ≡ step_of self.now }
    {
        match self {
            Reason::Usage => Step::Words,
            Reason::FlowMissing | Reason::FlowTooLong { .. } | Reason::Flow(_) => Step::Flow,
            Reason::Schema(_) => Step::Flow,
            Reason::NotBuilt => Step::Flow,
            Reason::Source(_) => Step::Source,
            Reason::NotATable { .. } | Reason::NotMade | Reason::WorkflowDiffers => Step::Table,
            Reason::Full => Step::Room,
            Reason::Depot | Reason::Disk | Reason::Sink => Step::Device,
            Reason::Memory => Step::Memory,
        }
    }

    pub fn status(&self) -> Status
        ensures { result ≡ status_of self.now }
    {
        self.step().status()
    }
}

impl Step {
    /// The status of a command that was stopped there.
    pub fn status(self) -> Status
        ensures { result ≡ status_at self }
    {
        match self {
            Step::Words => Status::Usage,
            Step::Flow => Status::Schema,
            Step::Source => Status::Source,
            Step::Device => Status::Device,
            Step::Memory => Status::Memory,
            Step::Table | Step::Room => Status::Table,
        }
    }
}

impl From<AllocError> for Reason {
    ghost from_gives = { λ _ e. e ≡ why.Memory };

    fn from(_: AllocError) -> Self {
        Reason::Memory
    }
}

impl Status {
    /// The program's exit status.
    pub fn code(self) -> u8
        ensures { result ≡ exit_status_of self }
    {
        match self {
            Status::Done => 0,
            Status::Usage => 2,
            Status::Schema => 3,
            Status::Source => 4,
            Status::Device => 5,
            Status::Memory => 6,
            Status::Table => 7,
        }
    }
}
