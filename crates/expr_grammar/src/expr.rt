// Expressions.
use sqlite_items::Boxed;
use tuple_schema::Text;

/// What stands between two expressions.
#[derive(Clone, Copy, Debug, PartialEq, Eq)]
pub enum Operator {
    Or,
    And,
    Equal,
    NotEqual,
    Less,
    LessOrEqual,
    Greater,
    GreaterOrEqual,
    Plus,
    Minus,
    /// Two texts joined, `||`.
    Join,
    Times,
    Over,
}

/// An expression, without the parentheses of its text.
#[derive(Debug, Drop)]
pub enum Expr {
    /// A number of so many units, with so many places after the point: 1.50 has 150 units and 2 places.
    Number { units: i64, places: u8 },
    Text(Text),
    Column(Text),
    Infix(Operator, Boxed<Expr>, Boxed<Expr>),
    Not(Boxed<Expr>),
    Negated(Boxed<Expr>),
    IsNull(Boxed<Expr>),
    IsNotNull(Boxed<Expr>),
    Abs(Boxed<Expr>),
    Length(Boxed<Expr>),
    Scale(Boxed<Expr>, u8),
    Coalesce(Boxed<Expr>, Boxed<Expr>),
    If(Boxed<Expr>, Boxed<Expr>, Boxed<Expr>),
}
