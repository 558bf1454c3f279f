// Batches of rows in one buffer.
ghost use Rattle.std.specs.Prelude.{◌≡◌, ◌<◌, ◌∷◌, ◌++◌, List, [], length, All, IfOk, OnOk, OnErr, Err, Some, slice_get};
ghost use Rattle.tuple_schema.specs.Words.{Fits, IfFault};
ghost use Rattle.tuple_schema.specs.declared.value.Value.{Value as Item};
ghost use Rattle.row_codec.specs.Words.{rows_bytes, row_at, IsRowOf, BeginsWithRow};

use crate::RowView;
use crate::packing::{append_front, append_row};
use row_codec::RowFault;
use std::alloc::Global;
use std::marker::Model;
use tuple_schema::{Fields, Memory, Schema, Stop};

/// The most rows that `Rows::fill` brings. A batch may have more.
pub const MAX_ROWS: usize = 4096;

/// Rows of a schema, as many as memory holds, in one buffer. A contract sees it as the schema's columns and a list of
/// tuples.
#[derive(Drop)]
pub struct Batch {
    pub(crate) schema: Schema,
    pub(crate) count: usize,
    // The rows as a table has them, one after the other.
    pub(crate) bytes: Vec<u8>,
    // Where each row begins, and where the last one ends.
    pub(crate) starts: Vec<usize>,
    // For each row where its values begin in it, and where the last one ends: columns + 1 places.
    pub(crate) places: Vec<u32>,
}

impl Model for Batch {
    ghost use Rattle.row_batch.specs.Packing.{BatchOf, rows_in, IsPacked};

    ghost Value = { BatchOf };

    ghost view = { λ b. record { columns = b.schema; rows = rows_in b.schema b.count b.bytes.items } };

    ghost invariant = { λ b. IsPacked b.schema (rows_in b.schema b.count b.bytes.items)
        b.count b.bytes.items b.starts.items b.places.items };
}

impl Batch {
    /// A batch of no rows.
    #[tactic(auto, unfolding(crate::specs::Packing::rows_in))]
    pub fn new(alloc: Global, schema: &Schema) -> Result<Batch, Memory>
        ensures columns { IfOk result (λ b. b.columns ≡ schema.now) }
        ensures empty { IfOk result (λ b. b.rows ≡ []) }
    {
        let schema = schema.copy()?;
        let mut starts = Vec::new(alloc);
        starts.push(0)?;
        Ok(Batch {
            schema,
            count: 0,
            bytes: Vec::new(alloc),
            starts,
            places: Vec::new(alloc),
        })
    }

    /// How many rows there are. Each is one of the columns.
    pub fn len(&self) -> usize
        ensures len { result ≡ length self.now.rows }
        ensures each { All (IsRowOf self.now.columns) self.now.rows }
        ensures fit { All (Fits self.now.columns) self.now.rows }
    {
        self.count
    }

    pub fn schema(&self) -> &Schema
        ensures { result.now ≡ self.now.columns }
    {
        &self.schema
    }

    /// The bytes of all rows, as they stand in a table.
    pub fn bytes(&self) -> &[u8]
        ensures { result.now ≡ rows_bytes self.now.rows }
    {
        &self.bytes
    }

    /// Takes all rows out, and keeps the room.
    #[tactic(auto, unfolding(crate::specs::Packing::rows_in))]
    pub fn clear(&mut self)
        ensures columns { self.new.columns ≡ self.old.columns }
        ensures empty { self.new.rows ≡ [] }
    {
        self.count = 0;
        self.bytes.clear();
        self.starts.truncate(1);
        self.places.clear();
    }

    /// Lends the row.
    pub fn row(&self, i: usize) -> RowView<'_>
        requires { i < length self.now.rows }
        ensures row { slice_get self.now.rows i ≡ Some result }
        ensures row_of { IsRowOf self.now.columns result }
        ensures fits { Fits self.now.columns result }
    {
        let columns = self.schema.columns();
        let from = self.starts[i];
        let to = self.starts[i + 1];
        let width = columns.len() + 1;
        let first = i * width;
        RowView {
            columns,
            bytes: &self.bytes[from..to],
            places: &self.places[first..first + width],
        }
    }

    /// Makes the row the new last one.
    pub fn push<F: Fields>(&mut self, row: &F) -> Result<(), Memory>
        requires fits { Fits self.old.columns (F.tuple row.now) }
        ensures ok { OnOk result (self.new.rows ≡ self.old.rows ++ F.tuple row.now ∷ []) }
        ensures err { OnErr result (self.new.rows ≡ self.old.rows) }
        ensures columns { self.new.columns ≡ self.old.columns }
    {
        let width = self.schema.columns().len();
        let bytes = self.bytes.len();
        let places = self.places.len();
        match append_row(
            row,
            width,
            &mut self.bytes,
            &mut self.starts,
            &mut self.places,
        ) {
            Ok(()) => {
                self.count += 1;
                Ok(())
            }
            Err(_) => {
                self.bytes.truncate(bytes);
                self.places.truncate(places);
                Err(Memory)
            }
        }
    }

    /// Makes the row of a batch the new last one. Its bytes are copied as they are.
    pub fn push_view(&mut self, row: &RowView<'_>) -> Result<(), Memory>
        requires fits { Fits self.old.columns row.now }
        ensures ok { OnOk result (self.new.rows ≡ self.old.rows ++ row.now ∷ []) }
        ensures err { OnErr result (self.new.rows ≡ self.old.rows) }
        ensures columns { self.new.columns ≡ self.old.columns }
    {
        let bytes = self.bytes.len();
        let places = self.places.len();
        match row.append_to(&mut self.bytes, &mut self.starts, &mut self.places) {
            Ok(()) => {
                self.count += 1;
                Ok(())
            }
            Err(_) => {
                self.bytes.truncate(bytes);
                self.places.truncate(places);
                Err(Memory)
            }
        }
    }

    /// Makes the row at the front of the bytes the new last one, and answers how many bytes it has. Any bytes may
    /// follow. The row's bytes are copied as they are.
    pub fn push_bytes(&mut self, bytes: &[u8]) -> Result<usize, Stop<RowFault>>
        ensures row { IfOk result (λ len. (row : List Item) × BeginsWithRow self.old.columns bytes.now len row
            × (self.new.rows ≡ self.old.rows ++ row ∷ [])) }
        ensures fault { IfFault result (λ fault. row_at self.old.columns bytes.now ≡ Err fault) }
        ensures err { OnErr result (self.new.rows ≡ self.old.rows) }
        ensures columns { self.new.columns ≡ self.old.columns }
    {
        let before = self.bytes.len();
        let places = self.places.len();
        match append_front(
            bytes,
            self.schema.columns(),
            &mut self.bytes,
            &mut self.starts,
            &mut self.places,
        ) {
            Ok(len) => {
                self.count += 1;
                Ok(len)
            }
            Err(stop) => {
                self.bytes.truncate(before);
                self.places.truncate(places);
                Err(stop)
            }
        }
    }
}
