// An output over a writer.
use crate::recording::Recording;
use outside::{Failed, Sink, StdSink, put_all};
use std::fs;
use std::test::Fail;

#[test]
fn a_writer_that_takes_nothing_fails(rt: HostRuntime) -> Result<(), Fail> {
    let mut room = [0; 3];
    let mut sink = StdSink::over(room.as_mut_slice());
    for (piece, want) in [
        (b"ab".as_slice(), Ok(2)),
        (b"cd", Ok(1)),
        (b"d", Err(Failed)),
        (b"", Ok(0)),
    ] {
        assert_eq!(rt; sink.put(piece), want);
    }
    assert_eq!(rt; room, *b"abc");
    Ok(())
}

#[test]
fn short_counts_are_gone_on_from(rt: HostRuntime) -> Result<(), Fail> {
    let files = Recording::new(rt.alloc())?;
    let mut sink = StdSink::over(fs::create(&files, "report")?);
    files.set_most(3)?;
    assert_eq!(rt; put_all(&mut sink, b"abcdefgh"), Ok(()));
    assert_eq!(rt; files.bytes("report")?.as_slice(), b"abcdefgh".as_slice());
    Ok(())
}

#[test]
fn a_put_fails_where_the_writer_does(rt: HostRuntime) -> Result<(), Fail> {
    let files = Recording::new(rt.alloc())?;
    let mut sink = StdSink::over(fs::create(&files, "report")?);
    files.fail_at(2)?;
    files.set_most(2)?;
    assert_eq!(rt; put_all(&mut sink, b"abcdef"), Err(Failed));
    assert_eq!(rt; files.bytes("report")?.as_slice(), b"ab".as_slice());
    Ok(())
}
