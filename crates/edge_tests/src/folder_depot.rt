// The sources over the runtime: where they are read, what is opened, and which calls fail.
use crate::recording::Recording;
use outside::{Depot, FolderDepot};
use std::test::Fail;

#[test]
fn a_file_is_read_at_its_place_and_opened_once(rt: HostRuntime) -> Result<(), Fail> {
    let files = Recording::new(rt.alloc())?;
    files.add_file("orders/a.csv", b"abcdef")?;
    let mut depot = FolderDepot::new(&files, rt.alloc(), "orders")?;
    assert_eq!(rt; depot.size("a.csv"), Ok(Some(6)));
    let mut into = [0; 3];
    assert_eq!(rt; depot.read_at("a.csv", 2, &mut into), Ok(3));
    assert_eq!(rt; into, *b"cde");
    assert_eq!(rt;
        files.take_calls()?.as_str(),
        "look orders/a.csv\nopen orders/a.csv read\nsize orders/a.csv\n\
        seek orders/a.csv 2\nread orders/a.csv 3\n"
    );
    Ok(())
}

#[test]
fn a_short_read_is_gone_on_from_up_to_the_end(rt: HostRuntime) -> Result<(), Fail> {
    let files = Recording::new(rt.alloc())?;
    files.add_file("a.csv", b"abcdef")?;
    files.set_most(1)?;
    let mut depot = FolderDepot::new(&files, rt.alloc(), "")?;
    for (at, count, bytes) in [(0, 3, *b"abc"), (4, 2, *b"ef."), (6, 0, *b"...")] {
        let mut into = *b"...";
        assert_eq!(rt; depot.read_at("a.csv", at, &mut into), Ok(count));
        assert_eq!(rt; into, bytes);
    }
    Ok(())
}

#[test]
fn another_name_is_another_file(rt: HostRuntime) -> Result<(), Fail> {
    let files = Recording::new(rt.alloc())?;
    files.add_file("a.csv", b"abc")?;
    files.add_file("b.csv", b"xyz")?;
    let mut depot = FolderDepot::new(&files, rt.alloc(), "")?;
    for (name, bytes) in [("a.csv", *b"bc"), ("b.csv", *b"yz"), ("a.csv", *b"bc")] {
        let mut into = [0; 2];
        assert_eq!(rt; depot.read_at(name, 1, &mut into), Ok(2));
        assert_eq!(rt; into, bytes);
    }
    Ok(())
}

#[test]
fn an_absent_file_is_looked_for_again(rt: HostRuntime) -> Result<(), Fail> {
    let files = Recording::new(rt.alloc())?;
    let mut depot = FolderDepot::new(&files, rt.alloc(), "")?;
    assert_eq!(rt; depot.size("b.csv"), Ok(None));
    files.add_file("b.csv", b"xy")?;
    assert_eq!(rt; depot.size("b.csv"), Ok(Some(2)));
    Ok(())
}

// The size makes the calls 1 to 3, and a read of the same file 4 and 5.
#[test]
fn a_call_fails_where_one_on_the_file_does(rt: HostRuntime) -> Result<(), Fail> {
    for call in 1..7 {
        let files = Recording::new(rt.alloc())?;
        files.add_file("b.csv", b"wxyz")?;
        let mut depot = FolderDepot::new(&files, rt.alloc(), "")?;
        files.fail_at(call)?;
        let size = depot.size("b.csv").is_err();
        let read = depot.read_at("b.csv", 1, &mut [0; 2]).is_err();
        let want = [call <= 3, call == 4 || call == 5];
        assert_eq!(rt; [size, read], want, "at {call}");
    }
    Ok(())
}

// A read of another file makes four calls.
#[test]
fn a_call_after_one_that_failed_is_of_its_own_file(rt: HostRuntime) -> Result<(), Fail> {
    for call in 1..5 {
        let files = Recording::new(rt.alloc())?;
        files.add_file("a.csv", b"abc")?;
        files.add_file("b.csv", b"wxyz")?;
        let mut depot = FolderDepot::new(&files, rt.alloc(), "")?;
        let mut into = [0; 2];
        assert_eq!(rt; depot.read_at("a.csv", 0, &mut into), Ok(2));
        files.fail_at(call)?;
        let _ = depot.read_at("b.csv", 1, &mut into);
        assert_eq!(rt; depot.read_at("b.csv", 1, &mut into), Ok(2), "at {call}");
        assert_eq!(rt; into, *b"xy", "at {call}");
    }
    Ok(())
}
