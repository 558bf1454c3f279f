//! The rows of a table file, read block by block.
//!
//! Stands on `commit_disk`, whose journal says where the blocks are, on `row_codec`, which decodes a row, and on
//! `row_batch`, whose batches take the rows. Read `specs/Rows.antt` first: `table_rows` says which rows the blocks
//! have, or which place is wrong.
//!
//! Promised: on an honest disk `verify` answers Ok exactly where each block's bytes are as many rows as it
//! counts, and else names the first wrong place; `next_block` gives the rows of one block, or names the same
//! place; `rows_laws`: the rows decode exactly where the blocks are the stored form of lists of rows.
//! Not promised: what is answered of a disk that isn't honest, other than that the call ends.
#![tactic(auto)]

mod blocks;
mod laws;
mod next;
mod rows;
mod table;

pub use laws::rows_laws;
pub use next::next_block;
pub use table::verify;
