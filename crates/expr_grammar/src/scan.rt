// What has been read of a token, kept byte by byte so that no token is read twice.
ghost use Rattle.std.specs.Prelude.{◌≡◌, [], ◌∷◌, ◌++◌};
ghost use Rattle.std.specs.List.{list_any};
ghost use Rattle.tuple_schema.specs.Words.{is_lower, is_digit};
ghost use Rattle.expr_grammar.specs.Words.{is_front, symbols, scan_first, scan_next, digits_next, places_next};
ghost use Rattle.expr_grammar.specs.Words.{scans_word, scans_number, scans_text, is_whole_number, is_whole_text};
ghost use Rattle.expr_grammar.specs.Words.{count_of, goes_by};

use tuple_schema::is_name_byte;

/// What has been read of a token.
#[derive(Clone, Copy, Debug, PartialEq, Eq)]
pub enum Scan {
    Empty,
    Word,
    Digits,
    /// Digits, a point, and so many digits.
    Places(u8),
    /// A text that no quote has closed.
    Quoted,
    /// A text that a quote has closed, unless another quote follows.
    Closed,
    Symbol,
    /// No token begins so.
    Broken,
}

fn is_lower(byte: u8) -> bool
    ensures { result ≡ is_lower byte }
{
    b'a' <= byte && byte <= b'z'
}

pub fn is_digit(byte: u8) -> bool
    ensures { result ≡ is_digit byte }
{
    b'0' <= byte && byte <= b'9'
}

impl Scan {
    // The first byte of a token.
    fn first(byte: u8) -> Scan
        ensures { result ≡ scan_first byte }
    {
        if is_lower(byte) {
            Scan::Word
        } else if is_digit(byte) {
            Scan::Digits
        } else if byte == b'\'' {
            Scan::Quoted
        } else {
            Scan::Symbol
        }
    }

    // One more byte of a number that has no point.
    fn digits_next(byte: u8) -> Scan
        ensures { result ≡ digits_next byte }
    {
        if is_digit(byte) {
            Scan::Digits
        } else if byte == b'.' {
            Scan::Places(0)
        } else {
            Scan::Broken
        }
    }

    // One more byte of a number with a point.
    fn places_next(count: u8, byte: u8) -> Scan
        ensures { result ≡ places_next count byte }
    {
        if is_digit(byte) && count < 6 {
            Scan::Places(count + 1)
        } else {
            Scan::Broken
        }
    }

    /// What has been read with one more byte.
    pub fn next(self, byte: u8) -> Scan
        ensures { result ≡ scan_next self byte }
    {
        match self {
            Scan::Empty => Scan::first(byte),
            Scan::Word if is_name_byte(byte) => Scan::Word,
            Scan::Word => Scan::Broken,
            Scan::Digits => Scan::digits_next(byte),
            Scan::Places(count) => Scan::places_next(count, byte),
            Scan::Quoted if byte == b'\'' => Scan::Closed,
            Scan::Quoted => Scan::Quoted,
            Scan::Closed if byte == b'\'' => Scan::Quoted,
            Scan::Closed => Scan::Broken,
            Scan::Symbol => Scan::Symbol,
            Scan::Broken => Scan::Broken,
        }
    }

    /// Whether some token begins with what has been read and this byte, which ends the longer bytes.
    pub fn goes_on(self, byte: u8, longer: &[u8]) -> bool
        ensures { result ≡ goes_by self byte longer.now }
    {
        match self {
            Scan::Empty => false,
            Scan::Word => is_name_byte(byte),
            Scan::Digits => Scan::Digits.next(byte).begins_number(),
            Scan::Places(count) => Scan::Places(count).next(byte).begins_number(),
            Scan::Quoted => Scan::Quoted.next(byte).begins_text(),
            Scan::Closed => Scan::Closed.next(byte).begins_text(),
            Scan::Symbol => begins_symbol(longer),
            Scan::Broken => false,
        }
    }

    /// Whether it is the front of a word.
    pub fn is_word(self) -> bool
        ensures { result ≡ scans_word self }
    {
        self == Scan::Word
    }

    /// Whether it is the front of a number.
    pub fn begins_number(self) -> bool
        ensures { result ≡ scans_number self }
    {
        matches!(self, Scan::Digits | Scan::Places(_))
    }

    /// Whether it is the front of a text.
    pub fn begins_text(self) -> bool
        ensures { result ≡ scans_text self }
    {
        matches!(self, Scan::Quoted | Scan::Closed)
    }

    /// Whether it is a number.
    pub fn is_number(self) -> bool
        ensures { result ≡ is_whole_number self }
    {
        match self {
            Scan::Digits => true,
            Scan::Places(count) => 1 <= count,
            _ => false,
        }
    }

    /// Whether it is a text.
    pub fn is_text(self) -> bool
        ensures { result ≡ is_whole_text self }
    {
        self == Scan::Closed
    }

    /// How many digits follow the point of a number.
    pub fn places(self) -> u8
        ensures { result ≡ count_of self }
    {
        match self {
            Scan::Places(count) => count,
            _ => 0,
        }
    }
}

/// Whether the second begins with the first.
pub fn is_front(front: &[u8], whole: &[u8]) -> bool
    ensures { result ≡ is_front front.now whole.now }
{
    match front {
        [] => true,
        [a, front @ ..] => match whole {
            [] => false,
            [b, whole @ ..] => a == b && is_front(front, whole),
        },
    }
}

// Whether some symbol begins so.
fn begins_symbol(bytes: &[u8]) -> bool
    ensures { result ≡ list_any (is_front bytes.now) symbols }
{
    is_front(bytes, b"=")
        || (is_front(bytes, b"<>")
            || (is_front(bytes, b"<")
                || (is_front(bytes, b"<=")
                    || (is_front(bytes, b">")
                        || (is_front(bytes, b">=")
                            || (is_front(bytes, b"+")
                                || (is_front(bytes, b"-")
                                    || (is_front(bytes, b"||")
                                        || (is_front(bytes, b"*")
                                            || (is_front(bytes, b"/")
                                                || (is_front(bytes, b"(")
                                                    || (is_front(bytes, b")")
                                                        || is_front(bytes, b",")))))))))))))
}
