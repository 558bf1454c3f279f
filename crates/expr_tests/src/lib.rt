//! Tests of `expr_grammar` and `expr_lang`: tables of expressions with the answers of independent programs.
//!
//! They stand in a crate of their own since a crate with tests is proved twice.
#![tactic(auto)]

#[cfg(test)]
mod parsing;
#[cfg(test)]
mod parsing_table;
#[cfg(test)]
mod values;
#[cfg(test)]
mod values_table;
