// Numbers from their texts.
ghost use Rattle.std.specs.Prelude.{◌≡◌, ◌≤◌, ◌^◌};
ghost use Rattle.row_codec.specs.Words.{natural_of, units_of, number_of, is_negative, without_sign, signed, in_range};
ghost use Rattle.row_codec.specs.Words.{capped_size, TakesDigits};

use crate::FieldFault;

/// A sign or none, and at least one digit.
pub(crate) fn read_int(text: &[u8]) -> Result<i64, FieldFault>
    ensures { result ≡ number_of natural_of text.now }
{
    let (is_negative, size) = split_sign(text);
    let size = read_natural(size)?;
    in_range(is_negative, size)
}

/// A sign or none, digits, and a point with digits or none: the number of units of so many places.
pub(crate) fn read_units(text: &[u8], places: u8) -> Result<i64, FieldFault>
    requires { places ≤ 6 }
    ensures { result ≡ number_of (units_of places) text.now }
{
    let (is_negative, size) = split_sign(text);
    let size = read_size(size, places)?;
    in_range(is_negative, size)
}

// Whether a minus stands before the text, and the text without its sign.
fn split_sign(text: &[u8]) -> (bool, &[u8])
    ensures negative { result.0 ≡ is_negative text.now }
    ensures rest { result.1.now ≡ without_sign text.now }
{
    match text {
        [b'-', rest @ ..] => (true, rest),
        [b'+', rest @ ..] => (false, rest),
        _ => (false, text),
    }
}

// The sizes are capped at the greatest number of 64 bits.
fn read_natural(text: &[u8]) -> Result<u64, FieldFault>
    ensures { result ≡ capped_size (natural_of text.now) }
{
    let (size, rest) = take_digits(0, text);
    if text.is_empty() || !rest.is_empty() {
        return Err(FieldFault::NotNumber);
    }
    Ok(size)
}

fn read_size(text: &[u8], places: u8) -> Result<u64, FieldFault>
    requires { places ≤ 6 }
    ensures { result ≡ capped_size (units_of places text.now) }
{
    let (whole, rest) = take_digits(0, text);
    let Some((first, fraction)) = rest.split_first() else {
        if text.is_empty() {
            return Err(FieldFault::NotNumber);
        }
        return Ok(whole.saturating_mul(power_of_ten(places)));
    };
    let (size, rest) = take_digits(whole, fraction);
    if *first != b'.' || text.len() == 1 || !rest.is_empty() {
        return Err(FieldFault::NotNumber);
    }
    if fraction.len() > usize::from(places) {
        return Err(FieldFault::TooManyDigits);
    }
    Ok(size.saturating_mul(power_of_ten(places - fraction.len() as u8)))
}

// The number that the digits at the front stand for behind those of another, and what follows them.
fn take_digits(before: u64, text: &[u8]) -> (u64, &[u8])
    ensures { TakesDigits before text.now result.0 result.1.now }
{
    let mut value = before;
    for (i, byte) in text.iter().enumerate() {
        if !byte.is_ascii_digit() {
            return (value, &text[i..]);
        }
        value = value
            .saturating_mul(10)
            .saturating_add(u64::from(*byte - b'0'));
    }
    (value, &[])
}

pub(crate) fn power_of_ten(exponent: u8) -> u64
    requires { exponent ≤ 6 }
    ensures value { result ≡ 10 ^ exponent }
    ensures some { 1 ≤ result }
{
    match exponent {
        0 => 1,
        1 => 10,
        2 => 100,
        3 => 1_000,
        4 => 10_000,
        5 => 100_000,
        _ => 1_000_000,
    }
}

#[tactic(auto, unfolding(crate::specs::Fields::in_range))]
fn in_range(is_negative: bool, size: u64) -> Result<i64, FieldFault>
    ensures { result ≡ in_range (signed is_negative size) }
{
    let number = if is_negative {
        0i64.checked_sub_unsigned(size)
    } else {
        i64::try_from(size).ok()
    };
    number.ok_or(FieldFault::OutOfRange)
}
