//! The table file: rows in blocks, each behind a gate byte that is opened last.
//!
//! Stands on `outside`, which has the disk. `table_read` reads the rows, `load_runner` commits them.
//! Read `specs/Table.antt` first: `HoldsBlocks` says which blocks a file stands for. Then read
//! `specs/Crashes.antt`, which says what a crash leaves, and `specs/Attach.antt`, which says what
//! `attach` answers of any bytes.
//!
//! Promised of an honest disk on which nothing is pending: at every moment of `make` a crash leaves
//! no table yet or the empty one, and at every moment of `Journal::commit` and `Journal::end` the
//! blocks from before, or those and the new one whole. After Ok nothing is pending, and a read gives
//! the new table. A device fault is answered only where the disk failed. `Journal::block_at` tells
//! what the head of a block says, which is read nowhere else.
//! Not promised: anything of a disk that isn't honest, or of two writers at one time.
#![tactic(auto)]

mod attaching;
mod block;
mod block_head;
mod gate;
mod journal;
mod laws;

pub use attaching::{Attached, TableFault, attach};
pub use block::{Block, FULL_BYTES, MAX_ROW_BYTES, MAX_ROWS};
pub use block_head::BlockHead;
pub use journal::{Journal, MAX_FLOW_BYTES, fits, make};
pub use laws::{holds_once, verdicts_agree};
