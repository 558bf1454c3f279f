// A CSV source: a file that was checked, and its rows.
ghost use Rattle.std.specs.Prelude.{◌≡◌, ◌≤◌, All, length, IfOk, true};
ghost use Rattle.tuple_schema.specs.Words.{Fits, GivesView};
ghost use Rattle.extractors.specs.Words.{csv_content};

use crate::check::check_content;
use crate::records::{next_record, reader_over, without_mark};
use crate::rows::Progress;
use crate::{CsvFault, CsvRows, MAX_FILE};
use csv::ByteRecord;
use std::alloc::Global;
use std::marker::Model;
use tuple_schema::{Memory, Schema, Stop};

/// A CSV file that has a content, kept as its bytes. A contract sees it as its columns and its rows.
#[derive(Drop)]
pub struct CsvSource {
    schema: Schema,
    file: Vec<u8>,
}

impl Model for CsvSource {
    ghost use Rattle.extractors.specs.Sources.{SourceOf, file_rows, IsChecked};

    ghost Value = { SourceOf };

    ghost view = { λ s. record { columns = s.schema; rows = file_rows s.schema s.file.items } };

    ghost invariant = { λ s. IsChecked s.schema s.file.items };
}

impl CsvSource {
    /// Checks the file and keeps it. No tuple is made, and no text of a field.
    pub fn of(
        alloc: Global,
        file: Vec<u8>,
        schema: &Schema,
        any_header: bool,
    ) -> Result<CsvSource, Stop<CsvFault>>
        requires { length file.items ≤ MAX_FILE }
        ensures content { GivesView (λ s. s.rows) result (csv_content any_header schema.now file.items) }
        ensures columns { IfOk result (λ s. s.columns ≡ schema.now) }
    {
        check_content(alloc, &file, schema, any_header)?;
        Ok(CsvSource {
            schema: schema.copy()?,
            file,
        })
    }

    pub fn schema(&self) -> &Schema
        ensures { result.now ≡ self.now.columns }
    {
        &self.schema
    }

    /// Lends the rows, which are read again from the file.
    pub fn rows(&self, alloc: Global) -> Result<CsvRows<'_>, Memory>
        ensures to_come { IfOk result (λ r. r.to_come ≡ self.now.rows) }
        ensures columns { IfOk result (λ r. r.columns ≡ self.now.columns) }
        ensures fit { IfOk result (λ r. All (Fits self.now.columns) r.to_come) }
        ensures sound { IfOk result (λ r. r.sound ≡ true) }
    {
        let mut reader = reader_over(alloc, without_mark(&self.file));
        let mut fields = ByteRecord::new(alloc);
        let _header = next_record(&mut reader, &mut fields)?;
        Ok(CsvRows {
            columns: self.schema.columns(),
            reader,
            fields,
            progress: Progress::Reading,
        })
    }
}
