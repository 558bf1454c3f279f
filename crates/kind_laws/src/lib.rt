//! What a flow means on whole lists: the list that each kind makes of the lists of its inputs.
//!
//! Stands on `flow_types`, whose nodes it gives their meaning, on `row_batch`, whose batches hold the lists, on
//! `expr_lang`, which evaluates expressions, on `indexmap`, which numbers equal rows and groups, and on `list_algebra`.
//! `load_runner` loads what `whole` makes of the sources. Read `specs/Outputs.antt` first, one equation for each kind,
//! with `specs/Expressions.antt`, `specs/Makes.antt` and the pages `Joins`, `Sorting`, `Groups` and `Unions` of
//! `list_algebra/specs`, then `specs/Wholes.antt`, the meaning of a flow.
//!
//! Promised: `Transform::out` is the kind's equation on all lists that have the inputs' columns, and `whole` is the
//! meaning of the flow, over any number of sources; what each makes has the node's columns.
//! Not promised: that memory is found.
#![tactic(auto)]

mod adding;
mod aggregating;
mod distinct;
mod evaluation;
mod grouping;
mod joining;
mod keys;
mod making;
mod mapping;
mod matching;
mod others;
mod picking;
mod projecting;
mod selecting;
mod sorted;
mod sorting;
mod summing;
mod transform;
mod uniting;

pub use evaluation::whole;
pub use transform::{Law, Transform};
