// A record of a checked file, seen as its tuple.
ghost use Rattle.std.specs.Prelude.{◌≡◌};

use csv::ByteRecord;
use row_codec::lend_field;
use std::marker::Model;
use tuple_schema::{Column, FieldRef, Fields};

/// A record that has a tuple. Its fields are read where they are asked for.
#[derive(Drop)]
pub(crate) struct RecordRow<'a> {
    pub(crate) columns: &'a [Column],
    pub(crate) fields: &'a ByteRecord,
}

impl<'a> Model for RecordRow<'a> {
    ghost use Rattle.std.specs.Prelude.{List};
    ghost use Rattle.csv.specs.Records.{fields_of};
    ghost use Rattle.tuple_schema.specs.declared.value.Value.{Value as Item};
    ghost use Rattle.extractors.specs.Sources.{good_tuple, IsGoodRecord};

    ghost Value = { List Item };

    ghost view = { λ r. good_tuple r.columns.now (fields_of r.fields.now) };

    ghost invariant = { λ r. IsGoodRecord r.columns.now (fields_of r.fields.now) };
}

impl Fields for RecordRow<'_> {
    ghost tuple = { λ r. r };

    fn count(&self) -> usize {
        self.columns.len()
    }

    fn field(&self, i: usize) -> FieldRef<'_> {
        let columns = self.columns;
        let Some(field) = self.fields.get(i) else {
            unreachable!();
        };
        match lend_field(field, &columns[i]) {
            Ok(value) => value,
            Err(_) => unreachable!(),
        }
    }
}
