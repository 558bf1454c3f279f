// Dumps over devices that count, and that fail where they are set to.
use crate::devices::{FLOW, GIVEN, Given, carry_out};
use std::test::Fail;

const ROWS: &str = "0|a,b\n1,10\n2,20\n3,30\n|";

// A dump over this table, with no source.
fn dump_of(table: &[u8]) -> Given<'_> {
    Given {
        words: &["dump", "d"],
        nums: None,
        table,
        ..GIVEN
    }
}

// It costs the flow file alone, and takes memory that is there.
#[test]
fn a_dump_reads_no_source(rt: HostRuntime) -> Result<(), Fail> {
    let first = carry_out(rt.alloc(), &GIVEN)?;
    let left = carry_out(rt.alloc(), &dump_of(&first.table))?;
    assert_eq!(rt; left.said.as_str(), ROWS);
    assert_eq!(rt; left.table.as_slice(), first.table.as_slice());
    assert_eq!(rt; left.served, FLOW.len() as u64);
    assert_eq!(rt; left.starved, 0);
    Ok(())
}

// The first call of the disk or a later one fails, or a call of the output, or none that a dump makes: what stands in
// the output is a front of the text.
#[test]
fn a_dump_over_a_device_that_fails_leaves_a_front(rt: HostRuntime) -> Result<(), Fail> {
    let first = carry_out(rt.alloc(), &GIVEN)?;
    for (disk_fails, out_fails, answer) in [
        (1, 0, "5||whload: the table file failed\n"),
        (7, 0, "5||whload: the table file failed\n"),
        (0, 1, "5||whload: the output failed\n"),
        (0, 2, "5|a,b\n|whload: the output failed\n"),
        (0, 3, ROWS),
    ] {
        let given = Given {
            disk_fails,
            out_fails,
            ..dump_of(&first.table)
        };
        let left = carry_out(rt.alloc(), &given)?;
        assert_eq!(rt;
            left.said.as_str(),
            answer,
            "at {disk_fails} and {out_fails}"
        );
        assert_eq!(rt; left.table.as_slice(), first.table.as_slice());
    }
    Ok(())
}
