// SQL's three-valued logic.
ghost use Rattle.std.specs.Prelude.{◌≡◌};
ghost use Rattle.expr_lang.specs.Words.{opposite, both, either, decided};

/// A value of SQL's three-valued logic. A selection keeps only True.
#[derive(Clone, Copy, Debug, PartialEq, Eq)]
pub enum Truth {
    True,
    False,
    Unknown,
}

/// True or False, by the answer.
pub fn decided(answer: bool) -> Truth
    ensures { result ≡ decided answer }
{
    if answer { Truth::True } else { Truth::False }
}

impl Truth {
    pub fn not(self) -> Truth
        ensures { result ≡ opposite self }
    {
        match self {
            Truth::True => Truth::False,
            Truth::False => Truth::True,
            Truth::Unknown => Truth::Unknown,
        }
    }

    pub fn and(self, other: Truth) -> Truth
        ensures { result ≡ both self other }
    {
        match (self, other) {
            (Truth::False, _) | (_, Truth::False) => Truth::False,
            (Truth::True, Truth::True) => Truth::True,
            _ => Truth::Unknown,
        }
    }

    pub fn or(self, other: Truth) -> Truth
        ensures { result ≡ either self other }
    {
        match (self, other) {
            (Truth::True, _) | (_, Truth::True) => Truth::True,
            (Truth::False, Truth::False) => Truth::False,
            _ => Truth::Unknown,
        }
    }
}
