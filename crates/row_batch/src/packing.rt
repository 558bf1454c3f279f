// Rows at the end of a buffer, with their places.
ghost use Rattle.std.specs.Prelude.{◌≡◌, ◌≤◌, ◌+◌, ◌-◌, ◌∷◌, ◌++◌, [], take, length, All, IfOk, OnOk, OnErr, Err, vec_len};
ghost use Rattle.tuple_schema.specs.Words.{lent, IsShort, IfFault};
ghost use Rattle.row_codec.specs.Words.{value_bytes, row_bytes, row_at, IsEncodable};
ghost use Rattle.row_batch.specs.Words.{value_places, TakesPlaces};

use row_codec::{RowFault, encode_field, skip_value};
use tuple_schema::{Column, FieldRef, Fields, Memory, Stop};

/// Appends a row's bytes, the place behind it, and the places of its values. At Err some of its bytes
/// and places may stand there.
pub(crate) fn append_row<F: Fields>(
    row: &F,
    width: usize,
    bytes: &mut Vec<u8>,
    starts: &mut Vec<usize>,
    places: &mut Vec<u32>,
) -> Result<(), Memory>
    requires all { width ≡ length (F.tuple row.now) }
    requires few { width ≤ 64 }
    ensures bytes { OnOk result (bytes.new.items ≡ bytes.old.items ++ row_bytes (F.tuple row.now)) }
    ensures starts { OnOk result
        (starts.new.items ≡ starts.old.items ++ (vec_len bytes.old + length (row_bytes (F.tuple row.now))) ∷ []) }
    ensures places { OnOk result (places.new.items ≡ places.old.items ++ value_places (F.tuple row.now)) }
    ensures encodable { OnOk result (All IsEncodable (F.tuple row.now)) }
    ensures bytes_kept { OnErr result (take (vec_len bytes.old) bytes.new.items ≡ bytes.old.items) }
    ensures starts_kept { OnErr result (starts.new.items ≡ starts.old.items) }
    ensures places_kept { OnErr result (take (vec_len places.old) places.new.items ≡ places.old.items) }
{
    append_values(row, width, bytes, places)?;
    starts.push(bytes.len())?;
    Ok(())
}

// Appends the bytes of a tuple's values, and their places in it. At Err some of them may stand there.
fn append_values<F: Fields>(
    row: &F,
    width: usize,
    bytes: &mut Vec<u8>,
    places: &mut Vec<u32>,
) -> Result<(), Memory>
    requires all { width ≡ length (F.tuple row.now) }
    requires few { width ≤ 64 }
    ensures bytes { OnOk result (bytes.new.items ≡ bytes.old.items ++ row_bytes (F.tuple row.now)) }
    ensures places { OnOk result (places.new.items ≡ places.old.items ++ value_places (F.tuple row.now)) }
    ensures encodable { OnOk result (All IsEncodable (F.tuple row.now)) }
    ensures bytes_kept { OnErr result (take (vec_len bytes.old) bytes.new.items ≡ bytes.old.items) }
    ensures places_kept { OnErr result (take (vec_len places.old) places.new.items ≡ places.old.items) }
{
    let start = bytes.len();
    places.push(0)?;
    for i in 0..width {
        append_value(row.field(i), start, bytes, places)?;
    }
    Ok(())
}

/// Appends the bytes of a value of the row that starts there, and the place behind it in the row. At Err the buffers
/// are as they were.
#[inline]
pub(crate) fn append_value(
    value: FieldRef<'_>,
    start: usize,
    bytes: &mut Vec<u8>,
    places: &mut Vec<u32>,
) -> Result<(), Memory>
    requires short { IsShort (lent value) }
    requires behind { start ≤ vec_len bytes.old }
    requires near { vec_len bytes.old ≤ start + 262336 }
    ensures bytes { OnOk result (bytes.new.items ≡ bytes.old.items ++ value_bytes (lent value.entry)) }
    ensures place { OnOk result (places.new.items
        ≡ places.old.items ++ (vec_len bytes.old + length (value_bytes (lent value.entry)) - start) ∷ []) }
    ensures few { length (value_bytes (lent value.entry)) ≤ 4099 }
    ensures encodable { IsEncodable (lent value.entry) }
    ensures bytes_kept { OnErr result (bytes.new.items ≡ bytes.old.items) }
    ensures places_kept { OnErr result (places.new.items ≡ places.old.items) }
{
    let before = bytes.len();
    encode_field(value, bytes)?;
    match places.push((bytes.len() - start) as u32) {
        Ok(()) => Ok(()),
        Err(_) => {
            bytes.truncate(before);
            Err(Memory)
        }
    }
}

/// Appends the row at the front of the bytes, the place behind it, and the places of its values, and answers how many
/// bytes it has. At Err some of its bytes and places may stand there.
pub(crate) fn append_front(
    front: &[u8],
    columns: &[Column],
    bytes: &mut Vec<u8>,
    starts: &mut Vec<usize>,
    places: &mut Vec<u32>,
) -> Result<usize, Stop<RowFault>>
    requires few { length columns.now ≤ 64 }
    ensures bytes { IfOk result (λ len. bytes.new.items ≡ bytes.old.items ++ take len front.now) }
    ensures starts { IfOk result (λ len. starts.new.items ≡ starts.old.items ++ (vec_len bytes.old + len) ∷ []) }
    ensures row { IfOk result (λ len.
        TakesPlaces columns.now front.now len places.old.items places.new.items) }
    ensures fault { IfFault result (λ fault. row_at columns.now front.now ≡ Err fault) }
    ensures bytes_kept { OnErr result (take (vec_len bytes.old) bytes.new.items ≡ bytes.old.items) }
    ensures starts_kept { OnErr result (starts.new.items ≡ starts.old.items) }
    ensures places_kept { OnErr result (take (vec_len places.old) places.new.items ≡ places.old.items) }
{
    let len = append_places(front, columns, places)?;
    bytes.extend_from_slice(&front[..len])?;
    starts.push(bytes.len())?;
    Ok(len)
}

// Appends the places of the values of the row at the front of the bytes, and answers how many bytes it has. At Err
// some of them may stand there.
fn append_places(
    front: &[u8],
    columns: &[Column],
    places: &mut Vec<u32>,
) -> Result<usize, Stop<RowFault>>
    requires few { length columns.now ≤ 64 }
    ensures row { IfOk result (λ len.
        TakesPlaces columns.now front.now len places.old.items places.new.items) }
    ensures fault { IfFault result (λ fault. row_at columns.now front.now ≡ Err fault) }
    ensures places_kept { OnErr result (take (vec_len places.old) places.new.items ≡ places.old.items) }
{
    let mut len = 0;
    places.push(0)?;
    for column in columns {
        match skip_value(&front[len..], column) {
            Ok(size) => len += size,
            Err(fault) => return Err(Stop::Fault(fault)),
        }
        places.push(len as u32)?;
    }
    Ok(len)
}
