// What has been read of a text, and what may follow.
use crate::expr::{Expr, Operator};

/// A function's name.
#[derive(Clone, Copy, Debug, PartialEq, Eq)]
pub enum Function {
    Abs,
    Length,
    Scale,
    Coalesce,
    If,
}

/// What stands before an operand and is not yet whole.
#[derive(Debug, Drop)]
pub enum Frame {
    Left(Operator, Expr),
    Not,
    Negated,
    Parens,
    First(Function),
    CoalesceSecond(Expr),
    IfSecond(Expr),
    IfThird(Expr, Expr),
}

/// What has just been read inside the frames.
#[derive(Debug, Drop)]
pub enum Mode {
    Operand,
    Opening(Function),
    After(u8, Expr),
    Is(Expr),
    IsNot(Expr),
    Digit(Expr),
    Scaled(Expr, u8),
}

/// What a token is.
#[derive(Clone, Copy, Debug, PartialEq, Eq)]
pub enum Kind {
    Number,
    Text,
    Name,
    Infix(Operator),
    Is,
    Not,
    Null,
    Call(Function),
    Open,
    Close,
    Comma,
    Other,
}
