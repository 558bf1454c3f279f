// What may be wrong with a text.
use thiserror::Error;

/// What is wrong with a text.
#[derive(Clone, Copy, Debug, PartialEq, Eq, Drop)]
pub enum ExprWhat {
    /// The text can't go on with this byte, or can't end here.
    Unexpected,
    /// A number of units outside i64.
    BadNumber,
    /// A text of more than 4,096 bytes. No text of an expression is long enough to have one.
    BadText,
    /// More than 64 levels within one another.
    TooDeep,
    /// An expression of more than 4,096 bytes.
    TooLong,
}

/// What is wrong with a text, and at which byte.
#[derive(Clone, Copy, Debug, PartialEq, Eq, Error)]
#[error("expression is wrong at {at}")]
pub struct ExprFault {
    pub at: u32,
    pub what: ExprWhat,
}
