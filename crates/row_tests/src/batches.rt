// Rows in batches: those of a CSV file, and those that are made field by field or taken from bytes.
use crate::samples::{one_int, orders};
use extractors::CsvSource;
use row_batch::{Batch, BatchBuilder, Rows};
use row_codec::RowFault;
use std::alloc::Global;
use std::test::Fail;
use tuple_schema::{FieldRef, Fields, Stop, Text, Tuple, Value};

const FILE: &[u8] = b"id,amt,name\n1,2.50,x\n2,,\n3,,yz\n";

// The rows of that file, as they stand in a table, and the last of them.
const ROWS: &[u8] = b"\x01\0\0\0\0\0\0\0\x01\x01\0\0\0\0\0\0\0\xfa\x01\0\x01x\
    \x01\0\0\0\0\0\0\0\x02\0\0\
    \x01\0\0\0\0\0\0\0\x03\0\x01\0\x02yz";

const LAST: &[u8] = b"\x01\0\0\0\0\0\0\0\x03\0\x01\0\x02yz";

// The first batch of the file, of at most so many rows.
fn first_batch(alloc: Global, want: u32) -> Result<Batch, Fail> {
    let file = Vec::from_slice(alloc, FILE)?;
    if file.len() > 100 || want < 1 || want > 4096 {
        return Err(Fail::new("past the limits"));
    }
    let Ok(source) = CsvSource::of(alloc, file, &orders(alloc)?, false) else {
        return Err(Fail::new("no content"));
    };
    let mut batch = Batch::new(alloc, source.schema())?;
    source.rows(alloc)?.fill(&mut batch, want)?;
    Ok(batch)
}

#[test]
fn a_batch_has_as_many_rows_as_are_wanted_or_left(rt: HostRuntime) -> Result<(), Fail> {
    for (want, len) in [(1, 22), (2, 33), (3, 48), (4096, 48)] {
        let batch = first_batch(rt.alloc(), want)?;
        assert_eq!(rt; batch.bytes(), &ROWS[..len]);
    }
    Ok(())
}

#[test]
fn a_row_is_lent_to_another_batch_and_in_parts(rt: HostRuntime) -> Result<(), Fail> {
    let alloc = rt.alloc();
    let batch = first_batch(alloc, 3)?;
    assert_eq!(rt; batch.len(), 3);
    let row = batch.row(2);
    let mut other = Batch::new(alloc, batch.schema())?;
    other.push_view(&row)?;
    assert_eq!(rt; other.bytes(), LAST);
    assert_eq!(rt; row.count(), 3);
    let key = row.part(alloc, &[2, 0])?;
    let text = Value::Text(Text::of(alloc, "yz")?);
    assert!(rt; key == Tuple::of(vec![in alloc; text, Value::Int(3)]?));
    assert!(rt; row.same_part(&[2, 0], &key));
    assert!(rt; !row.same_part(&[0, 2], &key));
    Ok(())
}

// The row of one int, 5, as it stands in a table.
const FIVE: &[u8] = b"\x01\0\0\0\0\0\0\0\x05";

#[test]
fn a_batch_is_made_field_by_field(rt: HostRuntime) -> Result<(), Fail> {
    let alloc = rt.alloc();
    let mut builder = BatchBuilder::new(alloc, &one_int(alloc)?)?;
    builder.add(FieldRef::Int(5))?;
    builder.end_row()?;
    builder.add(FieldRef::Int(6))?;
    let batch = builder.finish();
    assert_eq!(rt; batch.len(), 1);
    assert_eq!(rt; batch.bytes(), FIVE);
    Ok(())
}

#[test]
fn rows_are_taken_from_bytes(rt: HostRuntime) -> Result<(), Fail> {
    let alloc = rt.alloc();
    let mut batch = Batch::new(alloc, &orders(alloc)?)?;
    assert!(rt; batch.push_bytes(ROWS) == Ok(22));
    assert!(rt; batch.push_bytes(&ROWS[1..]) == Err(Stop::Fault(RowFault::NullRefused)));
    assert!(rt; batch.push_bytes(&ROWS[22..]) == Ok(11));
    assert!(rt; batch.push_bytes(&ROWS[33..47]) == Err(Stop::Fault(RowFault::Short)));
    assert_eq!(rt; batch.bytes(), &ROWS[..33]);
    Ok(())
}

#[test]
fn a_batch_has_more_rows_than_one_fill_brings(rt: HostRuntime) -> Result<(), Fail> {
    let alloc = rt.alloc();
    let mut batch = Batch::new(alloc, &orders(alloc)?)?;
    for _ in 0..5000 {
        batch.push_bytes(LAST)?;
    }
    assert_eq!(rt; batch.len(), 5000);
    assert_eq!(rt; batch.row(4999).bytes(), LAST);
    Ok(())
}
