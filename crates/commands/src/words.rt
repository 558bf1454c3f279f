// The words of the command line.
ghost use Rattle.std.specs.Prelude.{◌≡◌, ◌≤◌, map, string_bytes, option_map, IfSome};
ghost use Rattle.std.specs.Char.{is_ascii_digit};
ghost use Rattle.std.specs.List.{list_all};
ghost use Rattle.commands.specs.Words.{asked_in, IsWithin, asked_of, begins_with_zero, batch_number, default_batch};
ghost use Rattle.commands.specs.Words.{given_batch, batch_in, is_dump, are_digits, number_of};

/// A command.
#[derive(Clone, Copy, Debug, PartialEq, Eq)]
pub enum Command {
    /// `load DIR` or `load DIR --batch N`, in blocks of so many rows: 1 to 4,096.
    Load { batch: u32 },
    /// `dump DIR`.
    Dump,
}

/// The command that the words are, if they are one.
pub fn command_in(words: &[String]) -> Option<Command>
    ensures command { option_map asked_of result ≡ asked_in (map string_bytes words.now) }
    ensures within { IfSome result (λ command. IsWithin (asked_of command)) }
{
    if is_dump(words) {
        return Some(Command::Dump);
    }
    match batch_in(words) {
        Some(batch) => Some(Command::Load { batch }),
        None => None,
    }
}

// Whether the words are `dump DIR`.
fn is_dump(words: &[String]) -> bool
    ensures { result ≡ is_dump (map string_bytes words.now) }
{
    match words {
        [command, _] => command.as_str() == "dump",
        _ => false,
    }
}

/// How many rows a block has where the words don't say it.
const BATCH: u32 = 1000;

/// The most rows of a block.
const MAX_BATCH: i64 = 4096;

// How many rows a block may have, where the words are `load DIR` or `load DIR --batch N`.
fn batch_in(words: &[String]) -> Option<u32>
    ensures batch { result ≡ batch_in (map string_bytes words.now) }
    ensures some { IfSome result (λ batch. 1 ≤ batch) }
    ensures few { IfSome result (λ batch. batch ≤ 4096) }
{
    match words {
        [command, _] => default_batch(command.as_str()),
        [command, _, option, number] => {
            given_batch(command.as_str(), option.as_str(), number.as_str())
        }
        _ => None,
    }
}

fn default_batch(command: &str) -> Option<u32>
    ensures batch { result ≡ default_batch command.now }
    ensures some { IfSome result (λ batch. 1 ≤ batch) }
    ensures few { IfSome result (λ batch. batch ≤ 4096) }
{
    if command == "load" { Some(BATCH) } else { None }
}

fn given_batch(command: &str, option: &str, number: &str) -> Option<u32>
    ensures batch { result ≡ given_batch command.now option.now number.now }
    ensures some { IfSome result (λ batch. 1 ≤ batch) }
    ensures few { IfSome result (λ batch. batch ≤ 4096) }
{
    if command == "load" && option == "--batch" {
        batch_number(number)
    } else {
        None
    }
}

// A decimal number from 1 to 4,096, without a sign or a leading zero.
fn batch_number(text: &str) -> Option<u32>
    ensures batch { result ≡ batch_number text.now }
    ensures some { IfSome result (λ batch. 1 ≤ batch) }
    ensures few { IfSome result (λ batch. batch ≤ 4096) }
{
    if begins_with_zero(text) {
        return None;
    }
    match number_of(text) {
        Some(number) if 1 <= number && number <= MAX_BATCH => Some(number as u32),
        _ => None,
    }
}

// The number of a text of digits, where it is below 2^63. A sign is no digit.
#[tactic(auto, using(crate::proofs::Numbers::parsed_digits))]
fn number_of(text: &str) -> Option<i64>
    ensures { result ≡ number_of text.now }
{
    if !are_digits(text.as_bytes()) {
        return None;
    }
    text.parse::<i64>().ok()
}

fn are_digits(text: &[u8]) -> bool
    ensures { result ≡ are_digits text.now }
{
    !text.is_empty() && are_all_digits(text)
}

fn are_all_digits(text: &[u8]) -> bool
    ensures { result ≡ list_all is_ascii_digit text.now }
{
    text.iter().all(|b| b.is_ascii_digit())
}

fn begins_with_zero(text: &str) -> bool
    ensures { result ≡ begins_with_zero text.now }
{
    match text.as_bytes() {
        [first, ..] => *first == b'0',
        [] => false,
    }
}
