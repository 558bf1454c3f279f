// A row of a batch, read in place.
ghost use Rattle.std.specs.Prelude.{◌≡◌, ◌<◌, ◌≤◌, ◌+◌, ◌*◌, ◌∷◌, ◌++◌, [], take, vec_len, All, IsTrue, ◌↔◌, IfOk, OnOk, OnErr, length, slice_get, option_map};
ghost use Rattle.tuple_schema.specs.Words.{lent, part};
ghost use Rattle.tuple_schema.specs.declared.value.Value.TheVariants as value;
ghost use Rattle.row_codec.specs.Words.{row_bytes, IsEncodable};
ghost use Rattle.row_batch.specs.Words.{value_places, text_of};

use crate::cell::read_cell;
use row_codec::own_field;
use std::alloc::Global;
use std::marker::Model;
use tuple_schema::{Column, FieldRef, Fields, Memory, Tuple};

/// A row of a batch, which it borrows. A contract sees it as one tuple.
///
/// It holds slices of the batch's buffers, so that a field is read with no look at the batch.
#[derive(Drop)]
pub struct RowView<'a> {
    pub(crate) columns: &'a [Column],
    pub(crate) bytes: &'a [u8],
    pub(crate) places: &'a [u32],
}

impl<'a> Model for RowView<'a> {
    ghost use Rattle.std.specs.Prelude.{List};
    ghost use Rattle.tuple_schema.specs.declared.value.Value.{Value as Item};
    ghost use Rattle.row_batch.specs.Packing.{row_in, IsPackedRow};

    ghost Value = { List Item };

    ghost view = { λ v. row_in v.columns.now v.bytes.now };

    ghost invariant = { λ v. IsPackedRow v.columns.now (row_in v.columns.now v.bytes.now) v.bytes.now v.places.now };
}

impl Fields for RowView<'_> {
    ghost tuple = { λ v. v };

    #[inline]
    fn count(&self) -> usize {
        self.columns.len()
    }

    #[inline]
    fn field(&self, i: usize) -> FieldRef<'_> {
        let places = self.places;
        let from = places[i] as usize;
        let to = places[i + 1] as usize;
        read_cell(self.columns[i].kind, &self.bytes[from..to])
    }
}

impl RowView<'_> {
    /// Lends the text of a column, or none where its value isn't a text.
    pub fn text(&self, c: usize) -> Option<&str>
        requires { c < length self.now }
        ensures { option_map (λ text. value.Text text.now) result ≡ text_of (slice_get self.now c) }
    {
        match self.field(c) {
            FieldRef::Text(text) => Some(text),
            _ => None,
        }
    }

    /// The row's bytes, as they stand in a table.
    pub fn bytes(&self) -> &[u8]
        ensures bytes { result.now ≡ row_bytes self.now }
        ensures few { length result.now ≤ 262336 }
    {
        self.bytes
    }

    // Appends the row to a batch's buffers. At Err some of its bytes and places may stand there.
    pub(crate) fn append_to(
        &self,
        bytes: &mut Vec<u8>,
        starts: &mut Vec<usize>,
        places: &mut Vec<u32>,
    ) -> Result<(), Memory>
        ensures bytes { OnOk result (bytes.new.items ≡ bytes.old.items ++ row_bytes self.now) }
        ensures starts { OnOk result
            (starts.new.items ≡ starts.old.items ++ (vec_len bytes.old + length (row_bytes self.now)) ∷ []) }
        ensures places { OnOk result (places.new.items ≡ places.old.items ++ value_places self.now) }
        ensures encodable { All IsEncodable self.now }
        ensures bytes_kept { OnErr result (take (vec_len bytes.old) bytes.new.items ≡ bytes.old.items) }
        ensures starts_kept { OnErr result (starts.new.items ≡ starts.old.items) }
        ensures places_kept { OnErr result (take (vec_len places.old) places.new.items ≡ places.old.items) }
    {
        bytes.extend_from_slice(self.bytes)?;
        places.extend_from_slice(self.places)?;
        starts.push(bytes.len())?;
        Ok(())
    }

    /// The values at these places, in this order.
    pub fn part(&self, alloc: Global, cols: &[usize]) -> Result<Tuple, Memory>
        requires { All (λ c. c < length self.now) cols.now }
        ensures { IfOk result (λ t. t ≡ part self.now cols.now) }
    {
        let mut values = Vec::with_capacity(alloc, cols.len())?;
        for col in cols {
            values.push(own_field(alloc, self.field(*col))?)?;
        }
        Ok(Tuple::of(values))
    }

    /// Whether the values at these places, in this order, are those of the key. Nothing is copied.
    pub fn same_part(&self, cols: &[usize], key: &Tuple) -> bool
        requires { All (λ c. c < length self.now) cols.now }
        ensures { IsTrue result ↔ (part self.now cols.now ≡ key.now) }
    {
        if cols.len() != key.count() {
            return false;
        }
        for i in 0..cols.len() {
            if !is_same(self.field(cols[i]), key.field(i)) {
                return false;
            }
        }
        true
    }
}

// Whether two fields are the same value.
fn is_same(left: FieldRef<'_>, right: FieldRef<'_>) -> bool
    ensures { IsTrue result ↔ (lent left.entry ≡ lent right.entry) }
{
    match (left, right) {
        (FieldRef::Null, FieldRef::Null) => true,
        (FieldRef::Int(a), FieldRef::Int(b)) | (FieldRef::Dec(a), FieldRef::Dec(b)) => a == b,
        (FieldRef::Text(a), FieldRef::Text(b)) => a == b,
        _ => false,
    }
}
