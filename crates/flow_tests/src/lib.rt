//! Tests of `workflow_file` and `flow_types`: what is kept of a flow file that is accepted, and the numbers of its
//! nodes.
//!
//! They stand in a crate of their own since a crate with tests is proved twice. Which flow files are accepted, and the
//! first fault of any other, the program shows, in `tests/flow_texts.py` at the top.
#![tactic(auto)]

#[cfg(test)]
mod raw_flow;
#[cfg(test)]
mod typed_flow;
