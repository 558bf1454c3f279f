//! Tests of `outside`: what its devices over real files do, of which nothing is proved.
//!
//! They stand in a crate of their own since a crate with tests is proved twice. `recording.rt` is a runtime with files
//! in memory, which keeps the calls that are made on them: by it the tests show where the devices write, what they sync
//! and in which order, and what becomes of a call that fails or takes less than it was given.
#![tactic(auto)]

#[cfg(test)]
mod file_disk;
#[cfg(test)]
mod folder_depot;
#[cfg(test)]
mod recording;
#[cfg(test)]
mod std_sink;
