//! A load: the rows of a workflow that a table still lacks are committed to it, block by block.
//!
//! Stands on `kind_laws`, which says what a flow means, on `extractors`, which reads its sources, and on
//! `table_read` and `table_write`, which read and write the table; the program stands on it. Read
//! `specs/Sources.antt` first, what a flow means over files, then `specs/Standing.antt`, when a table's rows stand for
//! that, `specs/Trimmed.antt`, the runs that leave out what is committed, `specs/Loads.antt`, the promise of a load,
//! and `specs/Histories.antt`, any number of loads.
//!
//! Promised, of a disk that is honest: whatever a load answers, and at every moment of it, a crash leaves all rows
//! that stood, of this table and of any other; and where the files keep the truth that these rows stand for, what
//! is left stands for it, and with Ok the table is ended and holds all of its meaning. Without a truth: blocks of a
//! trimmed run over what the files hold. `any_loads`: so it is after any number of loads, stopped or not, each over
//! files that list one truth.
//! Not promised: that a load ever completes, that memory is found, or anything of two loads at one time.
#![tactic(auto)]

mod fault;
mod finish;
mod laws;
mod opening;
mod report;
mod running;
mod sources;

pub use fault::{LoadFault, SourceFault, SourceWhat};
pub use laws::{any_loads, found_once};
pub use opening::open_table;
pub use report::{EdgeCount, Report, ReportEdges};
pub use running::load;
