// The texts of fields.
ghost use Rattle.std.specs.Prelude.{◌≡◌, ◌≤◌, ◌++◌, true, take, IsTrue, OnOk, OnErr, vec_len};
ghost use Rattle.tuple_schema.specs.Words.{HasScale, is_of, lent};
ghost use Rattle.row_codec.specs.Words.{last_digits, size_text, units_text, field_text};

use crate::numbers::power_of_ten;
use itoa::Buffer;
use std::alloc::AllocError;
use tuple_schema::{Column, ColumnKind, FieldRef, Memory};

/// Appends the text of a value. At Err the buffer is as it was, but may have more room.
pub fn print_field(value: FieldRef<'_>, column: &Column, into: &mut Vec<u8>) -> Result<(), Memory>
    requires kind { IsTrue (is_of column.now.kind true (lent value)) }
    requires scaled { HasScale column.now.kind }
    ensures ok { OnOk result
        (into.new.items ≡ into.old.items ++ field_text column.now.kind (lent value.entry)) }
    ensures err { OnErr result (into.new.items ≡ into.old.items) }
{
    let before = into.len();
    match append_text(value, column.kind, into) {
        Ok(()) => Ok(()),
        Err(_) => {
            into.truncate(before);
            Err(Memory)
        }
    }
}

// Appends the text of a value. At Err a part of it may stand there.
fn append_text(value: FieldRef<'_>, kind: ColumnKind, into: &mut Vec<u8>) -> Result<(), AllocError>
    requires kind { IsTrue (is_of kind true (lent value)) }
    requires scaled { HasScale kind }
    ensures ok { OnOk result (into.new.items ≡ into.old.items ++ field_text kind (lent value.entry)) }
    ensures err { OnErr result (take (vec_len into.old) into.new.items ≡ into.old.items) }
{
    match (value, kind) {
        (FieldRef::Null, _) => Ok(()),
        (FieldRef::Int(number), _) => {
            into.extend_from_slice(Buffer::new().format(number).as_bytes())
        }
        (FieldRef::Dec(units), ColumnKind::Dec(places)) => append_units(units, places, into),
        (FieldRef::Dec(units), _) => append_units(units, 0, into),
        (FieldRef::Text(text), _) => into.extend_from_slice(text.as_bytes()),
    }
}

fn append_units(units: i64, places: u8, into: &mut Vec<u8>) -> Result<(), AllocError>
    requires { places ≤ 6 }
    ensures ok { OnOk result (into.new.items ≡ into.old.items ++ units_text places units) }
    ensures err { OnErr result (take (vec_len into.old) into.new.items ≡ into.old.items) }
{
    if units < 0 {
        into.push(b'-')?;
    }
    append_size(units.unsigned_abs(), places, into)
}

fn append_size(size: u64, places: u8, into: &mut Vec<u8>) -> Result<(), AllocError>
    requires { places ≤ 6 }
    ensures ok { OnOk result (into.new.items ≡ into.old.items ++ size_text places size) }
    ensures err { OnErr result (take (vec_len into.old) into.new.items ≡ into.old.items) }
{
    let whole = size / power_of_ten(places);
    into.extend_from_slice(Buffer::new().format(whole).as_bytes())?;
    into.push(b'.')?;
    append_last_digits(size, places, into)
}

fn append_last_digits(number: u64, count: u8, into: &mut Vec<u8>) -> Result<(), AllocError>
    ensures ok { OnOk result (into.new.items ≡ into.old.items ++ last_digits count number) }
    ensures err { OnErr result (take (vec_len into.old) into.new.items ≡ into.old.items) }
{
    if count == 0 {
        return Ok(());
    }
    append_last_digits(number / 10, count - 1, into)?;
    into.push(b'0' + (number % 10) as u8)?;
    Ok(())
}
