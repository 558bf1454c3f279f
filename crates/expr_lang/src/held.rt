// What has been found out of an expression in a row.
ghost use Rattle.std.specs.Prelude.{◌≡◌, ◌+◌, ◌≤◌, length, Some, option_copied, IfSome, IfOk};
ghost use Rattle.expr_lang.specs.Words.{Meaning, nothing, bytes, truly, ordering, truth_in, opposite, both, either};
ghost use Rattle.expr_lang.specs.Words.{decided, tested, asks, is_nothing, followed_by, byte_count, seen};
ghost use Rattle.expr_lang.specs.Words.{seen_number, IsShort, units, value_in};
ghost use Rattle.tuple_schema.specs.Words.{lent, IsShort as IsShortValue};

use crate::arithmetic::compare;
use crate::logic::{Truth, decided};
use crate::number::Number;
use expr_grammar::Operator;
use std::alloc::Global;
use std::cmp::Ordering;
use tuple_schema::{FieldRef, Memory};

/// What an expression means in a row. A text is lent by the row or the expression, or was made; a number has its
/// places after the point.
#[derive(Debug, Drop)]
pub enum Held<'a> {
    Null,
    Number(Number),
    Lent(&'a str),
    Made(String),
    Truth(Truth),
}

impl Held<'_> {
    /// A number, or Null.
    pub fn of_number(number: Option<Number>) -> Held<'static>
        ensures { seen result ≡ seen_number number }
    {
        match number {
            None => Held::Null,
            Some(number) => Held::Number(number),
        }
    }

    /// The truth; what is no truth is Unknown.
    pub fn truth(&self) -> Truth
        ensures { result ≡ truth_in (seen self.now) }
    {
        match self {
            Held::Truth(truth) => *truth,
            _ => Truth::Unknown,
        }
    }

    /// Whether it is Null.
    pub fn is_null(&self) -> bool
        ensures { result ≡ is_nothing (seen self.now) }
    {
        matches!(self, Held::Null)
    }

    /// The value, lent: a number without places is an Int, and any other a Dec. A truth is no value of a column, and
    /// is lent as Null.
    pub fn field(&self) -> FieldRef<'_>
        ensures value { lent result ≡ value_in (seen self.now) }
        ensures short { IsShort (seen self.now) → IsShortValue (lent result) }
    {
        match self {
            Held::Number(number) => number_field(*number),
            Held::Lent(text) => FieldRef::Text(*text),
            Held::Made(text) => FieldRef::Text(text.as_str()),
            Held::Null | Held::Truth(_) => FieldRef::Null,
        }
    }
}

// A number without places is an Int, and any other a Dec.
fn number_field(number: Number) -> FieldRef<'static>
    ensures value { lent result ≡ value_in (units number.units number.places) }
    ensures short { IsShortValue (lent result) }
{
    if number.places == 0 {
        FieldRef::Int(number.units)
    } else {
        FieldRef::Dec(number.units)
    }
}

fn asks(operator: Operator, order: Ordering) -> bool
    ensures { result ≡ asks operator order }
{
    match operator {
        Operator::Equal => order.is_eq(),
        Operator::NotEqual => order.is_ne(),
        Operator::Less => order.is_lt(),
        Operator::LessOrEqual => order.is_le(),
        Operator::Greater => order.is_gt(),
        Operator::GreaterOrEqual => order.is_ge(),
        _ => false,
    }
}

// The order of two meanings, if they have one.
fn ordering(left: &Held<'_>, right: &Held<'_>) -> Option<Ordering>
    ensures { result ≡ ordering (seen left.now) (seen right.now) }
{
    match (left, right) {
        (Held::Number(x), Held::Number(y)) => Some(compare(*x, *y)),
        (Held::Lent(x), Held::Lent(y)) => Some(x.cmp(y)),
        (Held::Lent(x), Held::Made(y)) => Some((*x).cmp(y.as_str())),
        (Held::Made(x), Held::Lent(y)) => Some(x.as_str().cmp(*y)),
        (Held::Made(x), Held::Made(y)) => Some(x.as_str().cmp(y.as_str())),
        _ => None,
    }
}

// A comparison.
pub fn compared(operator: Operator, left: &Held<'_>, right: &Held<'_>) -> Truth
    ensures { result ≡ tested (asks operator) (ordering (seen left.now) (seen right.now)) }
{
    match ordering(left, right) {
        None => Truth::Unknown,
        Some(order) => decided(asks(operator, order)),
    }
}
