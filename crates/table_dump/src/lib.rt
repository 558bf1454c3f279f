//! The rows of a committed table, written as CSV to an output.
//!
//! Stands on `table_read`, which gives the rows block by block, on `row_codec`, which prints a field, on `csv`, which
//! writes a record, and on `outside`, which has the disk and the output. Read `specs/Texts.antt` first: `dump_text` is
//! the text of a dump, and `Leaves` says what a call leaves of a text.
//!
//! Promised: on an honest disk `dump` answers Ok where all rows decode and the whole text stands in the output, and
//! where it stops a front of that text does; NotATable names the first wrong place, and comes of no table whose rows
//! decode. On any disk what stands in the output is a dump of some rows of the columns, or a front of one.
//! Not promised: that memory is found; which rows they are on a disk that isn't honest.
#![tactic(auto)]

mod dumping;
mod fault;
mod record;
mod text;

pub use dumping::dump;
pub use fault::DumpFault;
