// Whether a CSV file has a content, with no tuple and no text made.
ghost use Rattle.std.specs.Prelude.{◌≡◌, ◌<◌, ◌≤◌, ◌^◌, ◌||◌, bytes_eq, length, OnOk, Err};
ghost use Rattle.csv.specs.Records.{fields_of};
ghost use Rattle.tuple_schema.specs.Words.{IsSchema, Gives, IfFault};
ghost use Rattle.row_codec.specs.Words.{tested};
ghost use Rattle.extractors.specs.Words.{named_columns, header_of, tuple_of, tuples_from, under_header, csv_content};
ghost use Rattle.extractors.specs.Words.{IsOpen, to_come};

use crate::MAX_FILE;
use crate::fault::{CsvFault, RecordFault};
use crate::records::{next_record, reader_over, without_mark};
use csv::{ByteRecord, Reader};
use row_codec::check_field;
use std::alloc::Global;
use tuple_schema::{Column, Schema, Stop};

/// The first fault of the file, if it has one. Each record is read into one buffer.
pub(crate) fn check_content(
    alloc: Global,
    file: &[u8],
    schema: &Schema,
    any_header: bool,
) -> Result<(), Stop<CsvFault>>
    requires { length file.now ≤ MAX_FILE }
    ensures { Gives result (tested (csv_content any_header schema.now file.now)) }
{
    let columns = schema.columns();
    let mut reader = reader_over(alloc, without_mark(file));
    let mut fields = ByteRecord::new(alloc);
    read_header(columns, &mut reader, &mut fields, any_header)?;
    check_rows(columns, &mut reader, &mut fields)
}

/// Reads the header, behind which the rows are still to come, or tells what is wrong with it.
pub(crate) fn read_header(
    columns: &[Column],
    reader: &mut Reader<&[u8]>,
    fields: &mut ByteRecord,
    any_header: bool,
) -> Result<(), Stop<CsvFault>>
    requires few { length columns.now ≤ 64 }
    requires running { IsOpen reader.old }
    ensures running { OnOk result (IsOpen reader.new) }
    ensures under { OnOk result (under_header any_header columns.now (to_come reader.old)
        ≡ tuples_from 1 columns.now (to_come reader.new)) }
    ensures fewer { OnOk result (length (to_come reader.new) < length (to_come reader.old)) }
    ensures fault { IfFault result (λ fault. under_header any_header columns.now (to_come reader.old) ≡ Err fault) }
{
    if !next_record(reader, fields)? {
        return Err(Stop::Fault(CsvFault::BadHeader { at: 1 }));
    }
    match check_header(columns, fields, any_header) {
        Ok(()) => Ok(()),
        Err(fault) => Err(Stop::Fault(fault)),
    }
}

fn check_header(columns: &[Column], names: &ByteRecord, any_header: bool) -> Result<(), CsvFault>
    requires { length columns.now ≤ 64 }
    ensures { result ≡ header_of any_header columns.now (fields_of names.now) }
{
    let named = named_columns(columns, names, any_header);
    if named == columns.len() && named == names.len() {
        return Ok(());
    }
    Err(CsvFault::BadHeader {
        at: named as u32 + 1,
    })
}

// How many columns at the front the header names.
fn named_columns(columns: &[Column], names: &ByteRecord, any_header: bool) -> usize
    ensures named { result ≡ named_columns any_header columns.now (fields_of names.now) }
    ensures few { result ≤ length columns.now }
{
    for i in 0..columns.len() {
        let Some(name) = names.get(i) else {
            return i;
        };
        if !is_name_of(&columns[i], name, any_header) {
            return i;
        }
    }
    columns.len()
}

fn is_name_of(column: &Column, name: &[u8], any_header: bool) -> bool
    ensures { result ≡ (any_header || bytes_eq column.now.name name.now) }
{
    any_header || column.name.as_str().as_bytes() == name
}

fn check_rows(
    columns: &[Column],
    reader: &mut Reader<&[u8]>,
    fields: &mut ByteRecord,
) -> Result<(), Stop<CsvFault>>
    requires schema { IsSchema columns.now }
    requires running { IsOpen reader.old }
    requires few { length (to_come reader.old) < 2 ^ 64 }
    ensures { Gives result (tested (tuples_from 1 columns.now (to_come reader.old))) }
{
    let mut row = 0;
    while next_record(reader, fields)? {
        row += 1;
        match check_record(columns, fields) {
            Ok(()) => {}
            Err(fault) => return Err(Stop::Fault(fault.at(row))),
        }
    }
    Ok(())
}

fn check_record(columns: &[Column], fields: &ByteRecord) -> Result<(), RecordFault>
    requires { IsSchema columns.now }
    ensures { result ≡ tested (tuple_of columns.now (fields_of fields.now)) }
{
    if fields.len() != columns.len() {
        return Err(RecordFault::Count);
    }
    for i in 0..columns.len() {
        let Some(field) = fields.get(i) else {
            unreachable!();
        };
        match check_field(field, &columns[i]) {
            Ok(()) => {}
            Err(cause) => {
                let column = i as u32 + 1;
                return Err(RecordFault::Field { column, cause });
            }
        }
    }
    Ok(())
}
