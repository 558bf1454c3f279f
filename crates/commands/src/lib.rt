//! The commands: from the words after the program's name to the exit status.
//!
//! Stands on all crates of loads and dumps; the program `whload` makes the devices and calls `run`, which does all the
//! rest. Read `specs/Verdict.antt` first: what there is to be done, or the first refusal; then `specs/Promises.antt`:
//! how it is done, and what a run promises by its words. What a load promises stands in `load_runner`, in
//! `specs/Loads.antt`.
//!
//! Promised, on `run`: no table is lost, of whatever flow; at every moment of a load a crash leaves the committed
//! rows, and behind them only rows that were missing, in order; with Done all stand, the table is ended, and the
//! report is written; each refusal comes where it is the first cause; a device's fault is answered only where that
//! device failed. `run_again_after_a_crash`: a load that was stopped and then done leaves what one load would have.
//! Not promised: anything of a real file, folder or terminal, and that memory is found.
#![tactic(auto)]

mod carry;
mod dump;
mod find;
mod flow;
mod laws;
mod load;
mod reason;
mod refusal;
mod running;
mod texts;
mod words;

pub use laws::run_again_after_a_crash;
pub use reason::{Ending, Reason, Status, Step};
pub use running::run;
