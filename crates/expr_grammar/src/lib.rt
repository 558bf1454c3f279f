//! The grammar of expressions: a text read into its tree, or its first fault.
//!
//! Stands on `tuple_schema`, which says what a name is. `expr_lang` gives expressions their kinds and
//! meanings. Read `specs/Tokens.antt`, `specs/Phrases.antt` and `specs/Texts.antt`, in this order:
//! `IsText` says which texts are an expression's, `IsFirstFault` what is wrong with others. The other
//! files of `specs/` have the reader that the proofs go through; nobody needs to believe them.
//!
//! Promised: `parse` answers the expression of exactly the texts that have one, and exactly the first
//! fault of any other; `expression_laws`: each text has one expression or one first fault.
//! Not promised: that memory is found.
#![tactic(auto)]

mod expr;
mod fault;
mod laws;
mod parser;
mod reader;
mod scan;
mod state;
mod tokens;

pub use expr::{Expr, Operator};
pub use fault::{ExprFault, ExprWhat};
pub use laws::expression_laws;
pub use parser::{MAX_EXPR_BYTES, parse};
