// Commands over devices in memory that count, and that fail where they are set to.
//
// What is said of the texts of flows and sources, and each byte of a table, the program shows over real files.
use commands::run;
use commit_disk::fits;
use outside::{MemoryDepot, MemoryDisk, MemorySink, Torn};
use std::alloc::Global;
use std::fmt::Write;
use std::test::Fail;

pub const FLOW: &str =
    "table={input='nums'}\nsource=[{name='nums',file='nums.csv',columns=['a int','b int'],promise='seq'}]\n";

pub const THREE: &str = "a,b\n1,10\n2,20\n3,30\n";

pub const DONE: &str = "0|complete\nbefore 0\nadded 3\n|";

pub const STANDS: &str = "0|complete\nbefore 3\nadded 0\n|";

/// What a command is given: its words, the files, the table's bytes, which call of each device fails, and the write at
/// which the disk stops. A call with the number 0 never comes.
#[derive(Clone, Copy)]
pub struct Given<'a> {
    pub words: &'a [&'a str],
    pub flow: Option<&'a str>,
    pub nums: Option<&'a str>,
    pub table: &'a [u8],
    pub depot_fails: u64,
    pub disk_fails: u64,
    pub out_fails: u64,
    pub notes_fails: u64,
    pub stop: u64,
    pub torn: Torn,
}

/// A first load of three rows, over devices that don't fail.
pub const GIVEN: Given<'static> = Given {
    words: &["load", "d"],
    flow: Some(FLOW),
    nums: Some(THREE),
    table: b"",
    depot_fails: 0,
    disk_fails: 0,
    out_fails: 0,
    notes_fails: 0,
    stop: 0,
    torn: Torn::Nothing,
};

/// What stands after a command.
#[derive(Drop)]
pub struct Left {
    /// The exit status, the output and the notes.
    pub said: String,
    /// The table's file, as a crash leaves it.
    pub table: Vec<u8>,
    pub served: u64,
    pub starved: u64,
}

fn folder(alloc: Global, given: &Given<'_>) -> Result<MemoryDepot, Fail> {
    let mut depot = MemoryDepot::new(alloc);
    if let Some(text) = given.flow {
        depot.put("flow.toml", text.as_bytes())?;
    }
    if let Some(text) = given.nums {
        depot.put("nums.csv", text.as_bytes())?;
    }
    depot.fail_at(given.depot_fails)?;
    Ok(depot)
}

fn disk(alloc: Global, given: &Given<'_>) -> Result<MemoryDisk, Fail> {
    let mut disk = MemoryDisk::new(alloc, given.table)?;
    disk.fail_at(given.disk_fails)?;
    disk.stop_at_write(given.stop, given.torn);
    Ok(disk)
}

fn sink(alloc: Global, fails: u64) -> Result<MemorySink, Fail> {
    let mut sink = MemorySink::new(alloc);
    sink.fail_at(fails)?;
    Ok(sink)
}

fn owned(alloc: Global, words: &[&str]) -> Result<Vec<String>, Fail> {
    let mut owned = Vec::new(alloc);
    for word in words {
        owned.push(String::from_str(alloc, word)?)?;
    }
    Ok(owned)
}

/// Carries out a command, and lets the disk crash then.
pub fn carry_out(alloc: Global, given: &Given<'_>) -> Result<Left, Fail> {
    let words = owned(alloc, given.words)?;
    let mut depot = folder(alloc, given)?;
    let mut disk = disk(alloc, given)?;
    let mut out = sink(alloc, given.out_fails)?;
    let mut notes = sink(alloc, given.notes_fails)?;
    let ending = run(alloc, &words, &mut depot, &mut disk, &mut out, &mut notes);
    let status = ending.status.code();
    Ok(Left {
        said: said(alloc, status, out.bytes(), notes.bytes())?,
        served: depot.served(),
        starved: disk.starved(),
        table: disk.crash()?.bytes().to_vec(alloc)?,
    })
}

fn said(alloc: Global, status: u8, out: &[u8], notes: &[u8]) -> Result<String, Fail> {
    let out = String::from_utf8_lossy(alloc, out)?;
    let notes = String::from_utf8_lossy(alloc, notes)?;
    Ok(format!(in alloc; "{status}|{out}|{notes}")?)
}

// An ended table costs the flow file alone, whether its source is there or not.
#[test]
fn a_second_load_adds_nothing(rt: HostRuntime) -> Result<(), Fail> {
    let first = carry_out(rt.alloc(), &GIVEN)?;
    let again = Given {
        nums: None,
        table: &first.table,
        ..GIVEN
    };
    let second = carry_out(rt.alloc(), &again)?;
    assert_eq!(rt; second.said.as_str(), STANDS);
    assert_eq!(rt; second.table.as_slice(), first.table.as_slice());
    assert_eq!(rt; second.served, FLOW.len() as u64);
    Ok(())
}

#[test]
fn words_that_are_no_command_cost_no_file(rt: HostRuntime) -> Result<(), Fail> {
    let given = Given {
        words: &["load", "d", "--batch", "0"],
        ..GIVEN
    };
    let left = carry_out(rt.alloc(), &given)?;
    assert!(rt; left.said.as_str().starts_with("2||whload: usage: "));
    assert_eq!(rt; left.served, 0);
    Ok(())
}

// Each of the depot's calls fails in turn, and then none that the load makes.
#[test]
fn a_depot_that_fails_is_named(rt: HostRuntime) -> Result<(), Fail> {
    for call in 1..6 {
        let given = Given {
            depot_fails: call,
            ..GIVEN
        };
        let left = carry_out(rt.alloc(), &given)?;
        let (answer, is_made) = if call < 5 {
            ("5||whload: a source file failed\n", false)
        } else {
            (DONE, true)
        };
        assert_eq!(rt; left.said.as_str(), answer, "at {call}");
        assert_eq!(rt; !left.table.is_empty(), is_made, "at {call}");
    }
    Ok(())
}

// Each of the disk's calls fails in turn, and then none that the load makes.
#[test]
fn a_disk_that_fails_is_named(rt: HostRuntime) -> Result<(), Fail> {
    for call in 1..19 {
        let given = Given {
            disk_fails: call,
            ..GIVEN
        };
        let left = carry_out(rt.alloc(), &given)?;
        let answer = if call < 18 {
            "5||whload: the table file failed\n"
        } else {
            DONE
        };
        assert_eq!(rt; left.said.as_str(), answer, "at {call}");
    }
    Ok(())
}

#[test]
fn a_failed_output_leaves_the_table_ended(rt: HostRuntime) -> Result<(), Fail> {
    let given = Given {
        out_fails: 1,
        ..GIVEN
    };
    let left = carry_out(rt.alloc(), &given)?;
    assert_eq!(rt; left.said.as_str(), "5||whload: the output failed\n");
    let whole = carry_out(rt.alloc(), &GIVEN)?;
    assert_eq!(rt; whole.said.as_str(), DONE);
    assert_eq!(rt; left.table.as_slice(), whole.table.as_slice());
    Ok(())
}

#[test]
fn a_failed_note_changes_no_status(rt: HostRuntime) -> Result<(), Fail> {
    let given = Given {
        flow: None,
        notes_fails: 1,
        ..GIVEN
    };
    let left = carry_out(rt.alloc(), &given)?;
    assert_eq!(rt; left.said.as_str(), "3||");
    Ok(())
}

// A source of so many rows.
fn rows(alloc: Global, count: u32) -> Result<String, Fail> {
    let mut nums = String::from_str(alloc, "a,b\n")?;
    for i in 0..count {
        writeln!(nums, "{i},-{i}")?;
    }
    Ok(nums)
}

// A program that always gives up for want of memory meets every clause, and fails this.
#[test]
fn ample_memory_is_never_memory(rt: HostRuntime) -> Result<(), Fail> {
    let nums = rows(rt.alloc(), 1000)?;
    let given = Given {
        nums: Some(nums.as_str()),
        ..GIVEN
    };
    let left = carry_out(rt.alloc(), &given)?;
    assert_eq!(rt; left.said.as_str(), "0|complete\nbefore 0\nadded 1000\n|");
    assert_eq!(rt; left.starved, 0);
    Ok(())
}

// The last gate that has room for a block without rows, and the first that hasn't.
#[test]
fn a_table_file_has_an_end(rt: HostRuntime) -> Result<(), Fail> {
    assert_eq!(rt; fits(281_474_976_710_645, 0), true);
    assert_eq!(rt; fits(281_474_976_710_646, 0), false);
    Ok(())
}
