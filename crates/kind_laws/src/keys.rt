// The distinct keys of rows, each with a number.
ghost use Rattle.std.specs.Prelude.{◌≡◌, ◌<◌, ◌++◌, [], List, length, slice_get, Some, All, IfOk, OnOk, OnErr};
ghost use Rattle.std.specs.Str.{bytes_eq};
ghost use Rattle.tuple_schema.specs.declared.schema.Column.{Column as Declared};
ghost use Rattle.tuple_schema.specs.Words.{part};
ghost use Rattle.row_codec.specs.Words.{IsRowOf, row_bytes};
ghost use Rattle.row_batch.specs.Packing.{row_in};
ghost use Rattle.list_algebra.specs.Words.{Tuple, same};
ghost use Rattle.kind_laws.specs.Words.{key_number, with_key};

use indexmap::IndexSet;
use row_batch::RowView;
use row_codec::{codec_laws, encode_field};
use std::alloc::Global;
use std::marker::Model;
use tuple_schema::{Column, Fields, Memory};

/// Keys of bytes, no two of which are equal. A contract sees them in the order in which they were first seen.
#[derive(Drop)]
pub(crate) struct ByteKeys {
    keys: IndexSet<Vec<u8>>,
}

impl Model for ByteKeys {
    ghost use Rattle.std.specs.Prelude.{ℕ, List, map};

    ghost Value = { List (List ℕ) };

    ghost view = { λ b. map (λ key. key.items) b.keys.keys };
}

impl ByteKeys {
    /// No keys.
    pub(crate) fn new(alloc: Global) -> ByteKeys
        ensures { result ≡ [] }
    {
        ByteKeys {
            keys: IndexSet::new(alloc),
        }
    }

    /// How many keys there are.
    pub(crate) fn len(&self) -> usize
        ensures { result ≡ length self.now }
    {
        self.keys.len()
    }

    /// The number of the key, which is put behind the others where it is new. Only then are its bytes copied.
    pub(crate) fn number(&mut self, key: &[u8]) -> Result<usize, Memory>
        ensures number { IfOk result (λ number. number ≡ key_number bytes_eq self.old key.now) }
        ensures keys { OnOk result (self.new ≡ with_key bytes_eq self.old key.now) }
        ensures err { OnErr result (self.new ≡ self.old) }
    {
        if let Some(number) = self.keys.get_index_of(key) {
            return Ok(number);
        }
        let number = self.keys.len();
        let copy = Vec::from_slice(*self.keys.allocator(), key)?;
        self.keys.insert(copy)?;
        Ok(number)
    }
}

/// The distinct parts of rows at some of their columns. A contract sees the rows' columns, the places of those, and
/// the parts in the order in which they were first seen.
#[derive(Drop)]
pub(crate) struct Keys<'a> {
    columns: &'a [Column],
    cols: &'a [usize],
    seen: ByteKeys,
    // The bytes of the part at hand.
    bytes: Vec<u8>,
}

impl<'a> Model for Keys<'a> {
    ghost use Rattle.std.specs.Prelude.{map};
    ghost use Rattle.row_batch.specs.Packing.{row_in};
    ghost use Rattle.kind_laws.specs.Keys.{AreKept, KeysOf, columns_at};

    ghost Value = { KeysOf };

    ghost view = { λ k. record {
      columns = k.columns.now;
      cols = k.cols.now;
      keys = map (row_in (columns_at k.columns.now k.cols.now)) k.seen;
    } };

    ghost invariant = { λ k. AreKept k.columns.now k.cols.now
        (map (row_in (columns_at k.columns.now k.cols.now)) k.seen) k.seen };
}

impl<'a> Keys<'a> {
    /// No keys of rows of these columns, which have their keys at these places.
    pub(crate) fn new(alloc: Global, columns: &'a [Column], cols: &'a [usize]) -> Keys<'a>
        requires { All (λ c. c < length columns.now) cols.now }
        ensures columns { result.columns ≡ columns.now }
        ensures cols { result.cols ≡ cols.now }
        ensures empty { result.keys ≡ [] }
    {
        Keys {
            columns,
            cols,
            seen: ByteKeys::new(alloc),
            bytes: Vec::new(alloc),
        }
    }

    /// How many keys there are.
    pub(crate) fn len(&self) -> usize
        ensures { result ≡ length self.now.keys }
    {
        self.seen.len()
    }

    /// The number of the row's key, which is put behind the others where it is new.
    pub(crate) fn number(&mut self, row: &RowView<'_>) -> Result<usize, Memory>
        requires { IsRowOf self.old.columns row.now }
        ensures number { IfOk result (λ number. number ≡ key_number same self.old.keys (part row.now self.old.cols)) }
        ensures keys { OnOk result (self.new.keys ≡ with_key same self.old.keys (part row.now self.old.cols)) }
        ensures place { IfOk result (λ number. slice_get self.new.keys number ≡ Some (part row.now self.old.cols)) }
        ensures err { OnErr result (self.new.keys ≡ self.old.keys) }
        ensures columns { self.new.columns ≡ self.old.columns }
        ensures cols { self.new.cols ≡ self.old.cols }
    {
        rows_by_bytes();
        self.bytes.clear();
        append_part(row, self.cols, &mut self.bytes)?;
        let number = self.seen.number(&self.bytes)?;
        Ok(number)
    }
}

// Appends the bytes of the row's values at these places. At Err those of some may stand there.
fn append_part(row: &RowView<'_>, cols: &[usize], into: &mut Vec<u8>) -> Result<(), Memory>
    requires { All (λ c. c < length row.now) cols.now }
    ensures { OnOk result (into.new.items ≡ into.old.items ++ row_bytes (part row.now cols.now)) }
{
    for col in cols {
        encode_field(row.field(*col), into)?;
    }
    Ok(())
}

/// Two rows of the same columns have the same bytes exactly where they are equal, and a row's bytes are read as the row.
/// It does nothing.
pub(crate) fn rows_by_bytes()
    ensures same_bytes { (columns : List Declared) (one other : Tuple) → IsRowOf columns one → IsRowOf columns other →
        bytes_eq (row_bytes one) (row_bytes other) ≡ same one other }
    ensures read_again { (columns : List Declared) (row : Tuple) → IsRowOf columns row →
        row_in columns (row_bytes row) ≡ row }
{
    codec_laws();
}
