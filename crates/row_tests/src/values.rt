// Texts, names and tuples: their limits and their order.
use std::hash::{DefaultHasher, Hash, Hasher};
use std::test::Fail;
use tuple_schema::{
    Fields, Names, Stop, Text, TooLong, Tuple, Tuples, Value, head_of, is_name, rest_of,
};

fn tuple(rt: &HostRuntime, number: i64, text: &str) -> Result<Tuple, Fail> {
    let mut values = Vec::new(rt.alloc());
    values.push(Value::Int(number))?;
    values.push(Value::Text(Text::of(rt.alloc(), text)?))?;
    Ok(Tuple::of(values))
}

fn hash_of(tuple: &Tuple) -> u64 {
    let mut state = DefaultHasher::new();
    tuple.hash(&mut state);
    state.finish()
}

// Null, Int, Dec, Text; then by number, or by the bytes of the text.
#[test]
fn values_have_their_order(rt: HostRuntime) -> Result<(), Fail> {
    let ascending = [
        Value::Null,
        Value::Int(-2),
        Value::Int(1),
        Value::Dec(-7),
        Value::Dec(0),
        Value::Text(Text::of(rt.alloc(), "")?),
        Value::Text(Text::of(rt.alloc(), "B")?),
        Value::Text(Text::of(rt.alloc(), "a")?),
        Value::Text(Text::of(rt.alloc(), "é")?),
    ];
    for (i, low) in ascending.iter().enumerate() {
        assert!(rt; *low == *low);
        for (k, high) in ascending.iter().enumerate() {
            assert_eq!(rt; low < high, i < k, "at {i} and {k}");
        }
    }
    Ok(())
}

#[test]
fn tuples_are_compared_from_the_left(rt: HostRuntime) -> Result<(), Fail> {
    let first = tuple(&rt, 1, "b")?;
    let second = tuple(&rt, 2, "a")?;
    assert!(rt; first < second);
    let again = first.copy()?;
    assert!(rt; again == first);
    assert_eq!(rt; hash_of(&again), hash_of(&first));
    Ok(())
}

#[test]
fn a_part_has_its_own_order(rt: HostRuntime) -> Result<(), Fail> {
    let row = tuple(&rt, 1, "b")?;
    assert!(rt; row.count() == 2);
    let part = row.part(&[1, 0, 1])?;
    let values = part.values();
    assert_eq!(rt; values.len(), 3);
    assert!(rt; values[0] == Value::Text(Text::of(rt.alloc(), "b")?));
    assert!(rt; values[1] == Value::Int(1));
    assert!(rt; values[2] == values[0]);
    let mut rows = Tuples::new(rt.alloc());
    rows.push(row)?;
    rows.push(part)?;
    assert_eq!(rt; rows.items().len(), 2);
    assert_eq!(rt; rows.items()[1].count(), 3);
    Ok(())
}

#[test]
fn a_text_has_at_most_4096_bytes(rt: HostRuntime) -> Result<(), Fail> {
    let mut long = String::new(rt.alloc());
    for _ in 0..4096 {
        long.push('a')?;
    }
    let text = Text::of(rt.alloc(), long.as_str())?;
    assert_eq!(rt; text.as_str().len(), 4096);
    assert!(rt; text.copy()? == text);
    long.push('a')?;
    let refused = Text::of(rt.alloc(), long.as_str());
    assert!(rt; matches!(refused, Err(Stop::Fault(TooLong))));
    Ok(())
}

#[test]
fn names_keep_their_order(rt: HostRuntime) -> Result<(), Fail> {
    let mut names = Names::new(rt.alloc());
    names.push(Text::of(rt.alloc(), "b")?)?;
    names.push(Text::of(rt.alloc(), "a")?)?;
    assert_eq!(rt; names.items().len(), 2);
    assert_eq!(rt; names.items()[0].as_str(), "b");
    Ok(())
}

#[test]
fn a_name_has_small_letters_digits_and_lines(rt: HostRuntime) {
    for (text, want) in [
        ("a", true),
        ("order_no", true),
        ("a9_", true),
        ("tables", true),
        ("aaaaaaaaaabbbbbbbbbbccccccccccdddddddddd", true),
        ("aaaaaaaaaabbbbbbbbbbccccccccccdddddddddde", false),
        ("", false),
        ("_a", false),
        ("9a", false),
        ("A", false),
        ("a b", false),
        ("é", false),
        ("table", false),
        ("none", false),
    ] {
        assert_eq!(rt; is_name(text.as_bytes()), want, "{text}");
    }
}

#[test]
fn a_text_is_parted_at_its_first_space(rt: HostRuntime) {
    for (text, head, rest) in [
        ("a b c", "a", Some("b c")),
        (" b", "", Some("b")),
        ("b ", "b", Some("")),
        ("b", "b", None),
    ] {
        assert_eq!(rt; head_of(text), head, "{text}");
        assert_eq!(rt; rest_of(text), rest, "{text}");
    }
}
