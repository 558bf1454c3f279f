// Fields that are read to be kept, and printed, as no load does yet.
use crate::samples::column;
use row_codec::{print_field, read_field};
use std::test::Fail;
use tuple_schema::{ColumnKind, FieldRef, Text, Value};

#[test]
fn a_text_is_read_and_printed_as_it_is(rt: HostRuntime) -> Result<(), Fail> {
    let alloc = rt.alloc();
    let texts = column(alloc, "t", ColumnKind::Text, true)?;
    let text = Value::Text(Text::of(alloc, "né, \"x\"")?);
    assert!(rt; read_field(alloc, "né, \"x\"".as_bytes(), &texts) == Ok(text));
    let mut printed = Vec::new(alloc);
    print_field(FieldRef::Text("né, \"x\""), &texts, &mut printed)?;
    assert_eq!(rt; printed.as_slice(), "né, \"x\"".as_bytes());
    Ok(())
}

#[test]
fn a_dec_is_printed_with_all_its_places(rt: HostRuntime) -> Result<(), Fail> {
    let alloc = rt.alloc();
    let dec2 = column(alloc, "d", ColumnKind::Dec(2), true)?;
    let mut printed = Vec::new(alloc);
    for units in [0, 5, 150, -5, -12345, i64::MAX, i64::MIN] {
        print_field(FieldRef::Dec(units), &dec2, &mut printed)?;
        printed.push(b' ')?;
    }
    let expected = b"0.00 0.05 1.50 -0.05 -123.45 92233720368547758.07 -92233720368547758.08 ";
    assert_eq!(rt; printed.as_slice(), expected.as_slice());
    Ok(())
}

#[test]
fn an_int_is_printed_plainly(rt: HostRuntime) -> Result<(), Fail> {
    let alloc = rt.alloc();
    let int = column(alloc, "n", ColumnKind::Int, true)?;
    let mut printed = Vec::new(alloc);
    for number in [0, -7, 1_000_000, i64::MIN] {
        print_field(FieldRef::Int(number), &int, &mut printed)?;
        printed.push(b' ')?;
    }
    let expected = b"0 -7 1000000 -9223372036854775808 ";
    assert_eq!(rt; printed.as_slice(), expected.as_slice());
    Ok(())
}
