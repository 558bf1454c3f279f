//! Tests of the crates of values, rows and tables: limits and orders, what no load calls yet, and how often a disk is
//! called.
//!
//! They stand in a crate of their own since a crate with tests is proved twice. Fields, rows and whole tables are shown
//! by the program itself, in `tests/` at the top.
#![tactic(auto)]

#[cfg(test)]
mod batches;
#[cfg(test)]
mod calls;
#[cfg(test)]
mod fields;
#[cfg(test)]
mod samples;
#[cfg(test)]
mod values;
