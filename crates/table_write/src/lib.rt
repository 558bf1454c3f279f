//! Rows as blocks of a table file.
//!
//! Stands on `commit_disk`, which commits a block, on `row_batch`, in whose batches the rows come as the bytes that
//! they have in a table, and on `row_codec`, which says what these are. Read `specs/Cut.antt` first: `IsCut` says which
//! blocks rows are cut into. Then `specs/Adds.antt`, which says what stands in the table in the midst of it.
//!
//! Promised of an honest disk on which nothing is pending: at every moment of `Writer::append` a crash
//! leaves the old blocks and the first of the new ones; Ok comes where all of them and the end block
//! stand, and Full exactly where they would end past the longest file.
//! Not promised: anything of a disk that isn't honest.
#![tactic(auto)]

mod fill;
mod laws;
mod writer;

pub use laws::{blocks_laws, cut_laws, still_laws, stopped_laws};
pub use writer::{WriteFault, Writer};
