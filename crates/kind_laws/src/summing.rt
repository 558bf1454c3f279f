// The sum of a column's values, without a bound on the way.
ghost use Rattle.std.specs.Prelude.{◌≡◌, ◌++◌, ◌∷◌, ◌+◌, ◌-◌, ◌^◌, min, List, []};
ghost use Rattle.std.specs.List.{filter};
ghost use Rattle.tuple_schema.specs.Words.{lent};
ghost use Rattle.tuple_schema.specs.declared.value.Value.{Value};
ghost use Rattle.list_algebra.specs.Words.{is_given};
ghost use Rattle.kind_laws.specs.Words.{IsTotal, difference, fall, first_or, rise, total_value};

use tuple_schema::FieldRef;

// A part of a sum as great as this gives no sum.
const BOUND: u128 = 1 << 126;

/// Of which kind a value is.
#[derive(Clone, Copy, Debug)]
pub(crate) enum Kind {
    Int,
    Dec,
    Other,
}

/// Values that were added up. Either part stops at the greatest number of its type, far above where a sum is given.
#[derive(Clone, Copy, Debug)]
pub(crate) struct Total {
    /// The kind of the first value.
    first: Option<Kind>,
    /// The positive values.
    above: u128,
    /// The sizes of the negative ones.
    under: u128,
}

impl Total {
    /// That of no values.
    pub(crate) fn none() -> Total
        ensures { IsTotal result [] }
    {
        Total {
            first: None,
            above: 0,
            under: 0,
        }
    }

    /// The total with one value more. Null adds nothing.
    pub(crate) fn with(self, field: FieldRef<'_>) -> Total
        ensures { (values : List Value) → IsTotal self values
            → IsTotal result (values ++ filter is_given (lent field.entry ∷ [])) }
    {
        match field {
            FieldRef::Null => self,
            FieldRef::Int(units) => self.plus(Kind::Int, units),
            FieldRef::Dec(units) => self.plus(Kind::Dec, units),
            FieldRef::Text(_) => self.plus(Kind::Other, 0),
        }
    }

    // The total with so many units more, of a value of that kind.
    fn plus(self, kind: Kind, units: i64) -> Total
        ensures first { result.first ≡ first_or self.first kind }
        ensures above { result.above ≡ min (self.above + rise units) (2 ^ 128 - 1) }
        ensures under { result.under ≡ min (self.under + fall units) (2 ^ 128 - 1) }
    {
        let first = self.first.or(Some(kind));
        let size = u128::from(units.unsigned_abs());
        if units < 0 {
            Total {
                first,
                above: self.above,
                under: self.under.saturating_add(size),
            }
        } else {
            Total {
                first,
                above: self.above.saturating_add(size),
                under: self.under,
            }
        }
    }

    /// The sum: Null of no values, and where the sum isn't one of 64 bits.
    pub(crate) fn value<'a>(self) -> FieldRef<'a>
        ensures { lent result ≡ total_value self }
    {
        match (self.first, difference(self.above, self.under)) {
            (Some(Kind::Int), Some(units)) => FieldRef::Int(units),
            (Some(Kind::Dec), Some(units)) => FieldRef::Dec(units),
            _ => FieldRef::Null,
        }
    }
}

// What was added less what was taken, if it is a number of 64 bits.
fn difference(above: u128, under: u128) -> Option<i64>
    ensures { result ≡ difference above under }
{
    if above < BOUND && under < BOUND {
        i64::try_from(above as i128 - under as i128).ok()
    } else {
        None
    }
}
