// The rows of a CSV source, in batches.
ghost use Rattle.std.specs.Prelude.{◌≡◌, ◌≤◌, ◌++◌, [], All, IfOk, OnOk, length};
ghost use Rattle.tuple_schema.specs.Words.{Fits, IsSchema};
ghost use Rattle.extractors.specs.Words.{to_come, good_rows, rows_left, CanGoOn, GoesOn, IsFullUnlessEnded};

use crate::record_row::RecordRow;
use crate::records::next_record;
use csv::{ByteRecord, Reader};
use row_batch::{Batch, Filled, Rows, RowsFault};
use std::marker::Model;
use tuple_schema::{Column, Memory, Stop};

/// The rows of a source that are still to come. A contract sees them, their columns, and whether no
/// call has failed.
#[derive(Drop)]
pub struct CsvRows<'a> {
    pub(crate) columns: &'a [Column],
    pub(crate) reader: Reader<&'a [u8]>,
    pub(crate) fields: ByteRecord,
    pub(crate) progress: Progress,
}

/// How far a reading has come.
#[derive(Clone, Copy, Debug, PartialEq, Eq)]
pub(crate) enum Progress {
    /// There may be more records.
    Reading,
    Ended,
    Failed,
}

impl<'a> Model for CsvRows<'a> {
    ghost use Rattle.extractors.specs.Sources.{RowsOf, rows_left, is_sound, AreRows};

    ghost Value = { RowsOf };

    ghost view = { λ r. record {
      columns = r.columns.now;
      to_come = rows_left r.progress r.columns.now r.reader;
      sound = is_sound r.progress;
    } };

    ghost invariant = { λ r. AreRows r.columns.now r.reader r.progress };
}

impl Rows for CsvRows<'_> {
    ghost to_come = { λ r. r.to_come };

    ghost broken = { λ r. [] };

    ghost is_sound = { λ r. r.sound };

    fn sound(&self) -> bool {
        match self.progress {
            Progress::Reading | Progress::Ended => true,
            Progress::Failed => false,
        }
    }

    fn fill(&mut self, into: &mut Batch, want: u32) -> Result<Filled, Stop<RowsFault>> {
        match self.progress {
            Progress::Reading => {}
            _ => return Ok(Filled::End),
        }
        self.progress = Progress::Failed;
        match read_rows(self.columns, &mut self.reader, &mut self.fields, into, want) {
            Ok(progress) => {
                self.progress = progress;
                Ok(if into.len() == 0 {
                    Filled::End
                } else {
                    Filled::Some
                })
            }
            Err(_) => {
                into.clear();
                Err(Stop::Memory)
            }
        }
    }
}

// Reads records into the batch until it has as many rows as wanted. Each is read into one buffer, and
// packed from there.
fn read_rows(
    columns: &[Column],
    reader: &mut Reader<&[u8]>,
    fields: &mut ByteRecord,
    into: &mut Batch,
    want: u32,
) -> Result<Progress, Memory>
    requires schema { IsSchema columns.now }
    requires goes { CanGoOn columns.now reader.old }
    requires empty { into.old.rows ≡ [] }
    requires fit { All (Fits into.old.columns) (good_rows columns.now (to_come reader.old)) }
    requires few_wanted { want ≤ 4096 }
    ensures goes { IfOk result (λ progress. GoesOn progress columns.now reader.new) }
    ensures first { IfOk result (λ progress.
        good_rows columns.now (to_come reader.old) ≡ into.new.rows ++ rows_left progress columns.now reader.new) }
    ensures full { IfOk result (λ progress. IsFullUnlessEnded progress (length into.new.rows) want) }
    ensures few { OnOk result (length into.new.rows ≤ want) }
    ensures columns { into.new.columns ≡ into.old.columns }
{
    while into.len() < want as usize {
        if !next_record(reader, fields)? {
            return Ok(Progress::Ended);
        }
        into.push(&RecordRow { columns, fields })?;
    }
    Ok(Progress::Reading)
}
