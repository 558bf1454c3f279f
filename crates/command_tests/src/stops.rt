// Loads that are stopped in mid-way, and the loads after them.
use crate::devices::{DONE, FLOW, GIVEN, Given, Left, STANDS, THREE, carry_out};
use outside::Torn;
use std::alloc::Global;
use std::fmt::Write;
use std::test::Fail;

const FAILED: &str = "5||whload: the table file failed\n";

const ON_FROM_1: &str = "0|complete\nbefore 1\nadded 2\nedge nums passed 2 dropped 1\n|";

const ON_FROM_2: &str = "0|complete\nbefore 2\nadded 1\nedge nums passed 1 dropped 2\n|";

// A flow, its source, and the bytes of its rows in hexadecimal.
type Case = (&'static str, &'static str, &'static str);

const NUMBERS: Case = (
    FLOW,
    THREE,
    "01000000000000000101000000000000000a01000000000000000201000000000000001401000000000000000301000000000000001e",
);

const TEXTS: Case = (
    "table={input='nums'}\nsource=[{name='nums',file='nums.csv',columns=['n int?','t text?'],promise='seq'}]\n",
    "n,t\n1,x\n,\"a,\"\"b\"\"\"\n3,\n",
    "0100000000000000010100017800010005612c22622201000000000000000300",
);

// A load with blocks of so many rows over this table, on a disk that stops at that write.
fn load(
    alloc: Global,
    case: Case,
    batch: &str,
    table: &[u8],
    stop: (u64, Torn),
) -> Result<Left, Fail> {
    let given = Given {
        words: &["load", "d", "--batch", batch],
        flow: Some(case.0),
        nums: Some(case.1),
        table,
        stop: stop.0,
        torn: stop.1,
        ..GIVEN
    };
    carry_out(alloc, &given)
}

const NO_STOP: (u64, Torn) = (0, Torn::Nothing);

// The bytes of the rows in the blocks of a table of this flow, in hexadecimal.
fn rows_of(alloc: Global, flow: &str, table: &[u8]) -> Result<String, Fail> {
    let mut text = String::new(alloc);
    let mut rest = table.get(flow.len().saturating_add(16)..).ok_or("no head")?;
    for _ in 0..9 {
        let [1, _, _, _, _, _, third, second, first, last, after @ ..] = rest else {
            break;
        };
        let len = u32::from_be_bytes([*third, *second, *first, *last]) as usize;
        for byte in after.get(..len).ok_or("no rows")? {
            write!(text, "{byte:02x}")?;
        }
        rest = after.get(len..).ok_or("no gate")?;
    }
    Ok(text)
}

// A first load writes three times to make the table, and then twice for each block of one row.
const STOPS: [(u64, Torn, &str); 8] = [
    (2, Torn::All, DONE),
    (5, Torn::Nothing, DONE),
    (5, Torn::All, ON_FROM_1),
    (5, Torn::Ones, ON_FROM_1),
    (6, Torn::Nothing, ON_FROM_1),
    (6, Torn::Ones, ON_FROM_1),
    (7, Torn::Nothing, ON_FROM_1),
    (7, Torn::All, ON_FROM_2),
];

#[test]
fn a_stopped_load_goes_on(rt: HostRuntime) -> Result<(), Fail> {
    for case in [NUMBERS, TEXTS] {
        for (write, torn, answer) in STOPS {
            let first = load(rt.alloc(), case, "1", b"", (write, torn))?;
            assert_eq!(rt; first.said.as_str(), FAILED);
            let second = load(rt.alloc(), case, "1000", &first.table, NO_STOP)?;
            assert_eq!(rt; second.said.as_str(), answer);
            let rows = rows_of(rt.alloc(), case.0, &second.table)?;
            assert_eq!(rt; rows.as_str(), case.2);
        }
    }
    Ok(())
}

const EACH_TORN: [Torn; 3] = [Torn::Nothing, Torn::All, Torn::Ones];

// What is left after two loads that are stopped at these writes, one that isn't, and one more.
fn after_two_stops(alloc: Global, first: (u64, Torn), second: (u64, Torn)) -> Result<Left, Fail> {
    let mut left = load(alloc, NUMBERS, "1", b"", first)?;
    for (batch, stop) in [("2", second), ("1", NO_STOP), ("1", NO_STOP)] {
        left = load(alloc, NUMBERS, batch, &left.table, stop)?;
    }
    Ok(left)
}

// A load that isn't stopped writes eleven times.
#[test]
fn any_two_stops_lose_and_double_nothing(rt: HostRuntime) -> Result<(), Fail> {
    for first in 1..13 {
        for second in 1..13 {
            for torn in EACH_TORN {
                for again in EACH_TORN {
                    let last = after_two_stops(rt.alloc(), (first, torn), (second, again))?;
                    assert_eq!(rt; last.said.as_str(), STANDS);
                    let rows = rows_of(rt.alloc(), FLOW, &last.table)?;
                    assert_eq!(rt; rows.as_str(), NUMBERS.2);
                }
            }
        }
    }
    Ok(())
}
