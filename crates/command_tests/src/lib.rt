//! Tests of `commands` over devices in memory that count, that fail where they are set to, and that stop.
//!
//! They stand in a crate of their own since a crate with tests is proved twice. What is said of the texts of flows and
//! sources, and each byte of a table, the program shows over real files, in `tests/` at the top.
#![tactic(auto)]

#[cfg(test)]
mod devices;
#[cfg(test)]
mod dumps;
#[cfg(test)]
mod stops;
