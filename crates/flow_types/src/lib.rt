//! Typed flows: names looked up, the columns of each node found, or the first fault in them.
//!
//! Stands on `workflow_file`, whose raw flows it types, on `expr_grammar` and `expr_lang`, which read expressions
//! and type them, on `list_algebra`, which has the trees, and on `indexmap`, which numbers the names; `kind_laws`
//! gives the nodes their meaning. Read `specs/Graph.antt` first, how nodes are named and reached, then
//! `specs/Typed.antt`, their columns and the order of faults, `specs/Flows.antt`, a flow and its tree, and
//! `specs/Linked.antt`, what holds of each flow. Built at this stage are sequences in CSV files, selections,
//! projections, maps, joins, lookups, aggregates, sorts, distincts and unions that put one input behind the other:
//! `is_built`.
//!
//! Promised: `type_flow` answers the typed flow or its first fault; every `Flow` is the nodes of one tree, inputs
//! first, no two of one number or one name, each over the columns of its inputs, and ranks above them; `tree_laws`: the
//! nodes make their tree, and its numbers the tree that the names in the file make.
//! Not promised: that memory is found.
#![tactic(auto)]

mod built;
mod column_texts;
mod expressions;
mod fault;
mod flow;
mod graph;
mod grouped;
mod joined;
mod laws;
mod mapped;
mod named;
mod names;
mod node;
mod node_text;
mod ordered;
mod paired;
mod typed;
mod typing;
mod united;

pub use built::is_built;
pub use fault::{NodeId, SchemaCause, SchemaFault};
pub use flow::{Flow, type_flow};
pub use laws::tree_laws;
pub use node::{Agg, Assign, Assigns, Cols, GroupOrder, Inputs, Kind, Make, Makes, Node, Source};
