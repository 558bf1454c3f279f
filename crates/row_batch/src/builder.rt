// Batches that are made field by field.
ghost use Rattle.std.specs.Prelude.{◌≡◌, ◌<◌, ◌∷◌, ◌++◌, [], length, IfOk, OnOk, OnErr};
ghost use Rattle.tuple_schema.specs.Words.{lent, IsShort};
ghost use Rattle.row_batch.specs.Words.{FitsNext};

use crate::Batch;
use crate::packing::append_value;
use std::alloc::Global;
use std::marker::Model;
use tuple_schema::{FieldRef, Memory, Schema};

/// A batch that is made field by field. A contract sees its columns, its whole rows, and the values of the row
/// that is begun.
#[derive(Drop)]
pub struct BatchBuilder {
    schema: Schema,
    // How many whole rows there are.
    count: usize,
    // The whole rows as a table has them, and behind them the values of the row that is begun.
    bytes: Vec<u8>,
    // Where each whole row begins, and where the last one ends.
    starts: Vec<usize>,
    // For each row where its values begin in it, and where the last one ends. The row that is begun comes last.
    places: Vec<u32>,
    // Where the row that is begun begins.
    start: usize,
    // How many values it has.
    begun: usize,
}

impl Model for BatchBuilder {
    ghost use Rattle.std.specs.Prelude.{take, drop};
    ghost use Rattle.row_batch.specs.Packing.{BuilderOf, rows_in, row_in, IsBuilt};

    ghost Value = { BuilderOf };

    ghost view = { λ b. record {
      columns = b.schema;
      rows = rows_in b.schema b.count b.bytes.items;
      begun = row_in (take b.begun b.schema) (drop b.start b.bytes.items);
    } };

    ghost invariant = { λ b. IsBuilt b.schema (rows_in b.schema b.count b.bytes.items)
        (row_in (take b.begun b.schema) (drop b.start b.bytes.items))
        b.count b.start b.begun b.bytes.items b.starts.items b.places.items };
}

impl BatchBuilder {
    /// No rows, and no value of the first.
    pub fn new(alloc: Global, schema: &Schema) -> Result<BatchBuilder, Memory>
        ensures columns { IfOk result (λ b. b.columns ≡ schema.now) }
        ensures empty { IfOk result (λ b. b.rows ≡ []) }
        ensures begun { IfOk result (λ b. b.begun ≡ []) }
    {
        let schema = schema.copy()?;
        let mut starts = Vec::new(alloc);
        starts.push(0)?;
        let mut places = Vec::new(alloc);
        places.push(0)?;
        Ok(BatchBuilder {
            schema,
            count: 0,
            bytes: Vec::new(alloc),
            starts,
            places,
            start: 0,
            begun: 0,
        })
    }

    /// Adds the value to the row that is begun.
    #[inline]
    pub fn add(&mut self, value: FieldRef<'_>) -> Result<(), Memory>
        requires next { length self.old.begun < length self.old.columns }
        requires fits { FitsNext self.old.columns self.old.begun (lent value) }
        requires short { IsShort (lent value) }
        ensures ok { OnOk result (self.new.begun ≡ self.old.begun ++ lent value.entry ∷ []) }
        ensures err { OnErr result (self.new.begun ≡ self.old.begun) }
        ensures rows { self.new.rows ≡ self.old.rows }
        ensures columns { self.new.columns ≡ self.old.columns }
    {
        append_value(value, self.start, &mut self.bytes, &mut self.places)?;
        self.begun += 1;
        Ok(())
    }

    /// Ends the row that is begun, which has a value in each column.
    pub fn end_row(&mut self) -> Result<(), Memory>
        requires whole { length self.old.begun ≡ length self.old.columns }
        ensures ok { OnOk result (self.new.rows ≡ self.old.rows ++ self.old.begun ∷ []) }
        ensures next { OnOk result (self.new.begun ≡ []) }
        ensures err { OnErr result (self.new.rows ≡ self.old.rows) }
        ensures err_begun { OnErr result (self.new.begun ≡ self.old.begun) }
        ensures columns { self.new.columns ≡ self.old.columns }
    {
        self.places.push(0)?;
        let end = self.bytes.len();
        match self.starts.push(end) {
            Ok(()) => {
                self.count += 1;
                self.start = end;
                self.begun = 0;
                Ok(())
            }
            Err(_) => {
                self.places.pop();
                Err(Memory)
            }
        }
    }

    /// The batch of the whole rows. A row that is begun is dropped.
    pub fn finish(self) -> Batch
        ensures columns { result.columns ≡ self.columns }
        ensures rows { result.rows ≡ self.rows }
    {
        let BatchBuilder {
            schema,
            count,
            mut bytes,
            starts,
            mut places,
            start,
            begun,
        } = self;
        bytes.truncate(start);
        places.truncate(places.len() - begun - 1);
        Batch {
            schema,
            count,
            bytes,
            starts,
            places,
        }
    }
}
