// Names, and the parts of a text round its first space.
ghost use Rattle.std.specs.Prelude.{◌≡◌, ◌≤◌, length, IsTrue, bytes_eq, option_copied, is_some, option_map, IfSome};
ghost use Rattle.std.specs.List.{list_all};
ghost use Rattle.tuple_schema.specs.Words.{is_lower, is_name_byte, is_name, head_of, rest_of};

fn is_lower(b: u8) -> bool
    ensures { result ≡ is_lower b }
{
    b'a' <= b && b <= b'z'
}

/// Whether the byte may stand in a name.
pub fn is_name_byte(b: u8) -> bool
    ensures { result ≡ is_name_byte b }
{
    is_lower(b) || (b'0' <= b && b <= b'9') || b == b'_'
}

fn are_name_bytes(text: &[u8]) -> bool
    ensures { result ≡ list_all is_name_byte text.now }
{
    text.iter().all(|b| is_name_byte(*b))
}

fn is_word(text: &[u8], word: &str) -> bool
    ensures { result ≡ bytes_eq text.now word.now }
{
    text == word.as_bytes()
}

/// Whether the text is a name.
#[tactic(auto, unfolding(crate::specs::Texts::is_name))]
pub fn is_name(text: &[u8]) -> bool
    ensures name { result ≡ is_name text.now }
    ensures short { IsTrue result → length text.now ≤ 40 }
{
    if text.is_empty() || text.len() > 40 {
        return false;
    }
    are_name_bytes(text) && is_lower(text[0]) && !is_word(text, "table") && !is_word(text, "none")
}

/// What stands before the first space, or the whole text where it has none.
#[tactic(auto, unfolding(crate::specs::Texts::head_of))]
pub fn head_of(text: &str) -> &str
    ensures { result.now ≡ head_of text.now }
{
    match text.split_once(' ') {
        None => text,
        Some((head, _)) => head,
    }
}

/// What follows the first space.
#[tactic(auto, unfolding(crate::specs::Texts::rest_of))]
pub fn rest_of(text: &str) -> Option<&str>
    ensures rest { option_copied result ≡ rest_of text.now }
    ensures shorter { IfSome result (λ rest. length rest.now ≤ length text.now) }
{
    match text.split_once(' ') {
        None => None,
        Some((_, rest)) => Some(rest),
    }
}
