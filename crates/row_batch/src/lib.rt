//! Rows in batches: one buffer of the table's own row bytes, for as many rows as memory holds, and views that read it
//! in place.
//!
//! Stands on `row_codec`, whose row bytes a batch holds, and on `tuple_schema`. `extractors` gives a source's
//! rows in it, and `table_read` a table's. Read `specs/Packing.antt` first: a contract sees a batch as its
//! columns and a list of tuples, and a row of it as one tuple. `Rows` are what gives batches of rows.
//!
//! Promised: `push`, `push_view` and `push_bytes` make the row the new last one or leave the rows as they were, and the
//! last names the fault of bytes that begin with no row; a `BatchBuilder` gives a batch of the rows whose values it was
//! given; a view's fields, texts, parts and bytes are those of the row; `bytes` are the rows as a table has them.
//! Not promised: that memory is found.
#![tactic(auto)]

mod batch;
mod builder;
mod cell;
mod packing;
mod rows;
mod view;

pub use batch::{Batch, MAX_ROWS};
pub use builder::BatchBuilder;
pub use rows::{Filled, NodeNumber, Rows, RowsFault};
pub use view::RowView;
