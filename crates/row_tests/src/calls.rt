// How often a disk is called, and the blocks of a table, one by one, which no load reads yet.
//
// Where a call fails that is made, the whole fails; so the first one by which it doesn't is one too many.
ghost use Rattle.std.specs.Prelude.{◌<◌, length, IfOk};
ghost use Rattle.outside.specs.Words.{file_of};

use crate::samples::one_int;
use commit_disk::{Attached, Block, Journal, attach, make};
use outside::MemoryDisk;
use row_batch::Batch;
use std::alloc::Global;
use std::test::Fail;
use table_read::{next_block, verify};

// The flow text is `x`, so that the first gate stands at 17; two rows, one row, and the last gate at 64.
const TABLE: [u8; 65] = *b"\x01WHTABLE\0\0\0\x01\0\0\0\x01x\
    \x01\0\0\0\0\x02\0\0\0\x12\
    \x01\0\0\0\0\0\0\0\x05\x01\0\0\0\0\0\0\0\x06\
    \x01\0\0\0\0\x01\0\0\0\x09\
    \x01\xff\xff\xff\xff\xff\xff\xff\xff\
    \0";

// Whether a table is made in a short file of these bytes, where that call on the disk fails.
fn is_made(alloc: Global, bytes: &[u8], fails_at: u64) -> Result<bool, Fail> {
    if bytes.len() > 16 {
        return Err(Fail::new("a table may stand there"));
    }
    let mut disk = MemoryDisk::new(alloc, bytes)?;
    disk.fail_at(fails_at)?;
    Ok(make(alloc, &mut disk, b"x").is_ok())
}

// Three writes and three syncs. The size is asked first, and the made gate is read where there is one; where it is
// closed, it isn't closed again.
#[test]
fn making_takes_three_writes_and_three_syncs(rt: HostRuntime) -> Result<(), Fail> {
    for (bytes, calls) in [(b"".as_slice(), 7), (b"\x01", 8), (b"\x09", 6)] {
        for call in 1..calls + 2 {
            let is_made = is_made(rt.alloc(), bytes, call)?;
            assert_eq!(rt; is_made, call > calls, "call {call}");
        }
    }
    Ok(())
}

// Whether a block is committed, where that call on the disk fails.
fn is_committed(alloc: Global, fails_at: u64) -> Result<bool, Fail> {
    let mut disk = MemoryDisk::new(alloc, &[])?;
    let mut journal = make(alloc, &mut disk, b"x")?;
    let mut block = Block::new(alloc)?;
    block.add(b"ab");
    disk.fail_at(fails_at)?;
    Ok(journal.commit(&mut disk, &block).is_ok())
}

#[test]
fn a_commit_takes_two_writes_and_two_syncs(rt: HostRuntime) -> Result<(), Fail> {
    for call in 1..6 {
        let is_committed = is_committed(rt.alloc(), call)?;
        assert_eq!(rt; is_committed, call > 4, "call {call}");
    }
    Ok(())
}

// The journal of that table.
fn journal_of(alloc: Global, disk: &mut MemoryDisk) -> Result<Journal, Fail>
    ensures { IfOk result (λ journal. journal.gate < length (file_of disk.new)) }
{
    match attach(alloc, disk, b"x") {
        Ok(Attached::Made(journal)) => Ok(journal),
        _ => Err(Fail::new("no table")),
    }
}

// Whether the rows of the table are verified, where that call on the disk fails.
fn is_verified(alloc: Global, fails_at: u64) -> Result<bool, Fail> {
    let mut disk = MemoryDisk::new(alloc, &TABLE)?;
    let journal = journal_of(alloc, &mut disk)?;
    disk.fail_at(fails_at)?;
    Ok(verify(alloc, &mut disk, &journal, &one_int(alloc)?).is_ok())
}

#[test]
fn a_block_takes_two_reads(rt: HostRuntime) -> Result<(), Fail> {
    for call in 1..6 {
        let is_verified = is_verified(rt.alloc(), call)?;
        assert_eq!(rt; is_verified, call > 4, "call {call}");
    }
    Ok(())
}

// The next gate behind the block at this one, and the rows of that block.
fn block_at(alloc: Global, gate: u64) -> Result<(Option<u64>, Batch), Fail> {
    let mut disk = MemoryDisk::new(alloc, &TABLE)?;
    let journal = journal_of(alloc, &mut disk)?;
    if gate > journal.gate() {
        return Err(Fail::new("behind the last gate"));
    }
    let mut batch = Batch::new(alloc, &one_int(alloc)?)?;
    let Ok(next) = next_block(alloc, &mut disk, &journal, gate, &mut batch) else {
        return Err(Fail::new("no block"));
    };
    Ok((next, batch))
}

#[test]
fn blocks_are_read_one_after_the_other(rt: HostRuntime) -> Result<(), Fail> {
    for (gate, next, rows) in [
        (17, Some(45), &TABLE[27..45]),
        (45, Some(64), &TABLE[55..64]),
        (64, None, &TABLE[64..64]),
    ] {
        let (behind, batch) = block_at(rt.alloc(), gate)?;
        assert_eq!(rt; behind, next, "at {gate}");
        assert_eq!(rt; batch.bytes(), rows, "at {gate}");
    }
    Ok(())
}
