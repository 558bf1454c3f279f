//! The program: `whload load DIR` loads a CSV file through the folder's flow into its table, and `whload dump DIR`
//! prints the table.
//!
//! Stands on `commands`, whose `run` does all the work, and on `outside`, whose devices over the real folder, files and
//! terminal it makes. Nothing is promised of those, and so nothing of `main`; `tests/` at the top run it.
#![tactic(auto)]

use commands::{Ending, Status, run};
use outside::{FileDisk, FolderDepot, StdSink};
use std::process::ExitCode;
use std::rt::{Env, Files};
use std::{env, fs, io};
use tuple_schema::Memory;

fn main(rt: HostRuntime) -> ExitCode {
    let status = match start(&rt) {
        Ok(ending) => ending.status,
        Err(Memory) => Status::Memory,
    };
    ExitCode::from(status.code())
}

// Carries out the command over the folder of the second word.
fn start(rt: &HostRuntime) -> Result<Ending, Memory> {
    // The lowest free descriptor is the next file's. Where standard output is closed, that is the
    // one that the report goes to, so a table opened then would get the report in its bytes.
    let _held = hold_descriptors(rt);
    let words = read_words(rt)?;
    let dir = match words.as_slice() {
        [_, dir, ..] => dir.as_str(),
        _ => ".",
    };
    let mut depot = FolderDepot::new(rt, rt.alloc(), dir)?;
    let mut disk = FileDisk::new(rt, rt.alloc(), dir)?;
    let mut out = StdSink::over(rt.stdout());
    let mut notes = StdSink::over(rt.stderr());
    Ok(run(
        rt.alloc(),
        &words,
        &mut depot,
        &mut disk,
        &mut out,
        &mut notes,
    ))
}

// Three files that are open for reading alone, so that no descriptor below 3 is free.
fn hold_descriptors<R: Files>(rt: &R) -> [Option<R::File>; 3] {
    [hold(rt), hold(rt), hold(rt)]
}

fn hold<R: Files>(rt: &R) -> Option<R::File> {
    fs::open(rt, "/dev/null").ok()
}

// The words after the program's name, or none where they can't be read.
fn read_words<R: Env + AllocGlobal>(rt: &R) -> Result<Vec<String>, Memory> {
    let mut words = Vec::new(rt.alloc());
    let args = match env::args(rt) {
        Ok(args) => args,
        Err(error) if error.kind() == io::ErrorKind::OutOfMemory => return Err(Memory),
        Err(_) => return Ok(words),
    };
    for word in args.skip(1) {
        words.push(word)?;
    }
    Ok(words)
}
