// The table's file over the runtime: where it is written, what is synced and in which order, and which calls fail.
use crate::recording::Recording;
use outside::{Disk, Failed, FileDisk};
use std::alloc::Global;
use std::test::Fail;

#[test]
fn nothing_is_made_before_the_first_write(rt: HostRuntime) -> Result<(), Fail> {
    let files = Recording::new(rt.alloc())?;
    let mut disk = FileDisk::new(&files, rt.alloc(), "orders")?;
    assert_eq!(rt; disk.size(), Ok(0));
    assert_eq!(rt; disk.sync(), Ok(()));
    assert_eq!(rt;
        files.take_calls()?.as_str(),
        "look orders/table.whl\nlook orders/table.whl\n"
    );
    Ok(())
}

#[test]
fn a_write_is_at_its_place(rt: HostRuntime) -> Result<(), Fail> {
    let files = Recording::new(rt.alloc())?;
    let mut disk = FileDisk::new(&files, rt.alloc(), "orders")?;
    disk.write_at(0, b"abcdef")?;
    disk.write_at(2, b"XY123")?;
    assert_eq!(rt;
        files.take_calls()?.as_str(),
        "open orders/table.whl read write create\nseek orders/table.whl 0\nwrite orders/table.whl 6\n\
        seek orders/table.whl 2\nwrite orders/table.whl 5\n"
    );
    assert_eq!(rt;
        files.bytes("orders/table.whl")?.as_slice(),
        b"abXY123".as_slice()
    );
    Ok(())
}

// The first sync makes the file's name safe too, after the file.
#[test]
fn the_first_sync_is_of_the_file_and_its_name(rt: HostRuntime) -> Result<(), Fail> {
    let files = Recording::new(rt.alloc())?;
    files.add_folder("orders")?;
    let mut disk = FileDisk::new(&files, rt.alloc(), "orders")?;
    disk.write_at(0, b"abc")?;
    files.take_calls()?;
    disk.sync()?;
    assert_eq!(rt;
        files.take_calls()?.as_str(),
        "sync orders/table.whl\nopen orders read\nsync orders\n"
    );
    disk.sync()?;
    assert_eq!(rt; files.take_calls()?.as_str(), "sync orders/table.whl\n");
    Ok(())
}

// It may have been made by a load that was stopped before its name was safe.
#[test]
fn a_file_that_is_found_is_synced_with_its_name(rt: HostRuntime) -> Result<(), Fail> {
    let files = Recording::new(rt.alloc())?;
    files.add_folder(".")?;
    files.add_file("./table.whl", b"abcdef")?;
    let mut disk = FileDisk::new(&files, rt.alloc(), "")?;
    assert_eq!(rt; disk.size(), Ok(6));
    disk.sync()?;
    assert_eq!(rt;
        files.take_calls()?.as_str(),
        "look ./table.whl\nopen ./table.whl read\nsize ./table.whl\nsync ./table.whl\nopen . read\nsync .\n"
    );
    Ok(())
}

#[test]
fn a_file_that_is_found_keeps_its_bytes(rt: HostRuntime) -> Result<(), Fail> {
    let files = Recording::new(rt.alloc())?;
    files.add_file("./table.whl", b"abcdef")?;
    let mut disk = FileDisk::new(&files, rt.alloc(), "")?;
    disk.write_at(0, b"X")?;
    assert_eq!(rt;
        files.bytes("./table.whl")?.as_slice(),
        b"Xbcdef".as_slice()
    );
    Ok(())
}

#[test]
fn a_short_write_is_gone_on_from(rt: HostRuntime) -> Result<(), Fail> {
    let files = Recording::new(rt.alloc())?;
    let mut disk = FileDisk::new(&files, rt.alloc(), "")?;
    files.set_most(2)?;
    disk.write_at(0, b"abcdefg")?;
    disk.write_at(1, b"XYZ")?;
    assert_eq!(rt;
        files.bytes("./table.whl")?.as_slice(),
        b"aXYZefg".as_slice()
    );
    Ok(())
}

#[test]
fn a_short_read_is_gone_on_from(rt: HostRuntime) -> Result<(), Fail> {
    let files = Recording::new(rt.alloc())?;
    files.add_file("./table.whl", b"abcdefg")?;
    files.set_most(2)?;
    let mut disk = FileDisk::new(&files, rt.alloc(), "")?;
    assert_eq!(rt; disk.size(), Ok(7));
    let mut into = [0; 5];
    disk.read_at(1, &mut into)?;
    assert_eq!(rt; into, *b"bcdef");
    Ok(())
}

#[test]
fn a_file_that_takes_or_gives_nothing_fails(rt: HostRuntime) -> Result<(), Fail> {
    let files = Recording::new(rt.alloc())?;
    files.add_file("./table.whl", b"abc")?;
    files.set_most(0)?;
    let mut disk = FileDisk::new(&files, rt.alloc(), "")?;
    assert_eq!(rt; disk.size(), Ok(3));
    assert_eq!(rt; disk.read_at(0, &mut [0; 2]), Err(Failed));
    assert_eq!(rt; disk.write_at(0, b"1"), Err(Failed));
    Ok(())
}

// Files in which the table's file was written by the disk that is handed back, and a call that fails from then on.
fn written<'a>(
    files: &'a Recording,
    alloc: Global,
    fails_at: u64,
) -> Result<FileDisk<'a, Recording>, Fail> {
    files.add_folder(".")?;
    let mut disk = FileDisk::new(files, alloc, "")?;
    disk.write_at(0, b"abc")?;
    files.take_calls()?;
    files.fail_at(fails_at)?;
    Ok(disk)
}

// A write makes two calls, a sync of a new file three, and the size one.
#[test]
fn a_call_fails_where_one_on_the_file_does(rt: HostRuntime) -> Result<(), Fail> {
    for call in 1..8 {
        let files = Recording::new(rt.alloc())?;
        let mut disk = written(&files, rt.alloc(), call)?;
        let write = disk.write_at(0, b"d").is_err();
        let sync = disk.sync().is_err();
        let size = disk.size().is_err();
        let want = [call <= 2, 3 <= call && call <= 5, call == 6];
        assert_eq!(rt; [write, sync, size], want, "at {call}");
    }
    Ok(())
}

// Whether the size and then a read fail, of a file that is found.
fn reads_fail(alloc: Global, fails_at: u64) -> Result<[bool; 2], Fail> {
    let files = Recording::new(alloc)?;
    files.add_file("./table.whl", b"abc")?;
    let mut disk = FileDisk::new(&files, alloc, "")?;
    files.fail_at(fails_at)?;
    let Ok(3) = disk.size() else {
        return Ok([true, false]);
    };
    Ok([false, disk.read_at(1, &mut [0; 2]).is_err()])
}

#[test]
fn a_file_that_cannot_be_opened_or_read_fails(rt: HostRuntime) -> Result<(), Fail> {
    for call in 1..7 {
        let failed = reads_fail(rt.alloc(), call)?;
        assert_eq!(rt; failed, [call <= 3, call == 4 || call == 5], "at {call}");
    }
    Ok(())
}

#[test]
fn a_sync_that_failed_is_made_again_of_all_that_it_is_of(rt: HostRuntime) -> Result<(), Fail> {
    for call in 1..4 {
        let files = Recording::new(rt.alloc())?;
        let mut disk = written(&files, rt.alloc(), call)?;
        assert_eq!(rt; disk.sync(), Err(Failed), "at {call}");
        files.take_calls()?;
        disk.sync()?;
        assert_eq!(rt;
            files.take_calls()?.as_str(),
            "sync ./table.whl\nopen . read\nsync .\n",
            "at {call}"
        );
    }
    Ok(())
}

#[test]
fn a_write_that_failed_leaves_the_file(rt: HostRuntime) -> Result<(), Fail> {
    for call in 1..4 {
        let files = Recording::new(rt.alloc())?;
        files.add_file("./table.whl", b"abc")?;
        let mut disk = FileDisk::new(&files, rt.alloc(), "")?;
        files.fail_at(call)?;
        assert_eq!(rt; disk.write_at(0, b"XY"), Err(Failed), "at {call}");
        assert_eq!(rt; files.bytes("./table.whl")?.as_slice(), b"abc".as_slice());
    }
    Ok(())
}
