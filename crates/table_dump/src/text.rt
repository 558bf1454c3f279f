// The texts of records.
ghost use Rattle.std.specs.Prelude.{◌≡◌, ◌++◌, OnOk, IfOk, All};
ghost use Rattle.csv.specs.Records.{fields_of};
ghost use Rattle.tuple_schema.specs.Words.{Fits};
ghost use Rattle.table_dump.specs.Words.{record_text, rows_text, names_text, so_far, IsBetween};

use crate::record::{name_columns, print_row};
use csv::{ByteRecord, Writer, WriterBuilder};
use row_batch::Batch;
use std::alloc::Global;
use tuple_schema::{Column, Memory};

/// What is used again for each row: a field's text, and the record of the fields.
#[derive(Drop)]
pub(crate) struct Printer {
    field: Vec<u8>,
    fields: ByteRecord,
}

impl Printer {
    pub(crate) fn new(alloc: Global) -> Printer {
        Printer {
            field: Vec::new(alloc),
            fields: ByteRecord::new(alloc),
        }
    }
}

// A writer of the records behind the text.
fn writer_behind(text: Vec<u8>) -> Writer<Vec<u8>>
    ensures between { IsBetween result }
    ensures begins { so_far result ≡ text.items }
{
    WriterBuilder::new().from_writer(text)
}

// Writes the record. All that a writer is given here are records of one length, so that it fails for want of memory
// alone; no clause of `csv` says so of the first.
fn write(writer: &mut Writer<Vec<u8>>, fields: &ByteRecord) -> Result<(), Memory>
    requires between { IsBetween writer.old }
    ensures between { OnOk result (IsBetween writer.new) }
    ensures wrote { OnOk result (so_far writer.new ≡ so_far writer.old ++ record_text (fields_of fields.now)) }
{
    match writer.write_byte_record(fields) {
        Ok(()) => Ok(()),
        Err(_) => Err(Memory),
    }
}

// Ends the writer: all that it wrote.
fn written(writer: Writer<Vec<u8>>) -> Result<Vec<u8>, Memory>
    ensures { IfOk result (λ text. text.items ≡ so_far writer) }
{
    match writer.into_inner() {
        Ok(text) => Ok(text),
        Err(_) => Err(Memory),
    }
}

/// The record of the columns' names.
pub(crate) fn names_of(alloc: Global, columns: &[Column]) -> Result<Vec<u8>, Memory>
    ensures { IfOk result (λ text. text.items ≡ names_text columns.now) }
{
    let mut fields = ByteRecord::new(alloc);
    name_columns(columns, &mut fields)?;
    let mut writer = writer_behind(Vec::new(alloc));
    write(&mut writer, &fields)?;
    written(writer)
}

/// Appends the rows of a batch.
pub(crate) fn append_rows(
    batch: &Batch,
    printer: &mut Printer,
    text: Vec<u8>,
) -> Result<Vec<u8>, Memory>
    ensures text { IfOk result (λ new. new.items ≡ text.items ++ rows_text batch.now.columns batch.now.rows) }
    ensures fit { OnOk result (All (Fits batch.now.columns) batch.now.rows) }
{
    let columns = batch.schema().columns();
    let mut writer = writer_behind(text);
    for i in 0..batch.len() {
        print_row(
            &batch.row(i),
            columns,
            &mut printer.field,
            &mut printer.fields,
        )?;
        write(&mut writer, &printer.fields)?;
    }
    written(writer)
}
