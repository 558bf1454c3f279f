// Operations on one part.
ghost use Rattle.std.specs.Prelude.{◌≡◌, ◌≤◌, length};
ghost use Rattle.expr_lang.specs.Words.{Meaning, truly, truth_in, opposite, decided, is_nothing, is_something};
ghost use Rattle.expr_lang.specs.Words.{opposite_number, size, with_places, byte_count, seen, seen_number, applied};
ghost use Rattle.expr_lang.specs.Words.{IsShort};

use crate::arithmetic::{absolute, number_of, opposite, rescaled};
use crate::held::Held;
use crate::logic::decided;

/// What stands before, behind or round one part.
#[derive(Clone, Copy, Debug)]
pub enum Unary {
    Not,
    Negated,
    IsNull,
    IsNotNull,
    Abs,
    Length,
    Scale(u8),
}

impl Unary {
    /// What the operation makes of the part's meaning.
    pub fn apply(self, part: &Held<'_>) -> Held<'static>
        requires { IsShort (seen part.now) }
        ensures seen { seen result ≡ applied self (seen part.now) }
        ensures short { IsShort (seen result) }
    {
        match self {
            Unary::Not => Held::Truth(part.truth().not()),
            Unary::Negated => negated(part),
            Unary::IsNull => Held::Truth(decided(part.is_null())),
            Unary::IsNotNull => Held::Truth(decided(!part.is_null())),
            Unary::Abs => size(part),
            Unary::Length => byte_count(part),
            Unary::Scale(places) => with_places(places, part),
        }
    }
}

// The number with its sign turned; what is no number is Null.
fn negated(part: &Held<'_>) -> Held<'static>
    ensures seen { seen result ≡ opposite_number (seen part.now) }
    ensures short { IsShort (seen result) }
{
    match part {
        Held::Number(x) => Held::of_number(opposite(*x)),
        _ => Held::Null,
    }
}

fn size(part: &Held<'_>) -> Held<'static>
    ensures seen { seen result ≡ size (seen part.now) }
    ensures short { IsShort (seen result) }
{
    match part {
        Held::Number(x) => Held::of_number(absolute(*x)),
        _ => Held::Null,
    }
}

fn with_places(places: u8, part: &Held<'_>) -> Held<'static>
    ensures seen { seen result ≡ with_places places (seen part.now) }
    ensures short { IsShort (seen result) }
{
    match part {
        Held::Number(x) => Held::of_number(rescaled(*x, places)),
        _ => Held::Null,
    }
}

// How many bytes a text has; what is no text is Null.
fn byte_count(part: &Held<'_>) -> Held<'static>
    requires { IsShort (seen part.now) }
    ensures seen { seen result ≡ byte_count (seen part.now) }
    ensures short { IsShort (seen result) }
{
    match part {
        Held::Lent(text) => Held::of_number(number_of(text.len() as i64, 0)),
        Held::Made(text) => Held::of_number(number_of(text.len() as i64, 0)),
        _ => Held::Null,
    }
}
