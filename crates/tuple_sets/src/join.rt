// How the last runs are made one.
ghost use Rattle.std.specs.Prelude.{◌≡◌, ◌<◌, ◌≤◌, ◌+◌, length, OnOk, OnErr, IsPermutation};
ghost use Rattle.std.specs.List.{SameBelow};
ghost use Rattle.std.specs.List.Sorted.{IsSortedBy, IsSortedWithin};
ghost use Rattle.tuple_sets.specs.Words.{is_before, start_of, IsRuns};

use crate::entry::Entry;
use std::alloc::{AllocError, Global};

fn sort(run: &mut [Entry], alloc: Global) -> Result<(), AllocError>
    ensures same { IsPermutation run.old run.new }
    ensures len { length run.new ≡ length run.old }
    ensures sorted { OnOk result (IsSortedBy is_before run.new) }
    ensures err { OnErr result (run.new ≡ run.old) }
{
    run.sort_by(alloc, |a, b| a.tuple.cmp(&b.tuple))
}

// Sorts what stands from that place on. Without memory all stays as it is.
fn sort_from(entries: &mut [Entry], start: usize, alloc: Global) -> Result<(), AllocError>
    requires { start ≤ length entries.old }
    ensures same { IsPermutation entries.old entries.new }
    ensures len { length entries.new ≡ length entries.old }
    ensures before { SameBelow entries.old entries.new start }
    ensures sorted { OnOk result (IsSortedWithin is_before entries.new start (length entries.new)) }
    ensures err { OnErr result (entries.new ≡ entries.old) }
{
    sort(&mut entries[start..], alloc)
}

// Where the run of that number starts.
fn start_of(ends: &[usize], run: usize) -> usize
    requires { run < length ends.now + 1 }
    ensures { result ≡ start_of ends.now run }
{
    if run == 0 { 0 } else { ends[run - 1] }
}

// The number of the first run that is made one with those behind it: the last one, and before it as
// many as are no longer than what stands behind them. So a run is joined only as often as its
// length doubles.
fn first_joined(ends: &[usize], count: usize) -> usize
    requires { 0 < length ends.now }
    ensures { result < length ends.now }
{
    let mut run = ends.len() - 1;
    while run > 0 {
        let start = start_of(ends, run);
        let before = start.saturating_sub(start_of(ends, run - 1));
        if before > count.saturating_sub(start) {
            return run;
        }
        run -= 1;
    }
    run
}

/// Makes the last runs one, where they have grown as long as those before them. Without memory the
/// runs stay as they are.
pub(crate) fn join(entries: &mut [Entry], ends: &mut Vec<usize>, alloc: Global)
    requires some { 0 < length ends.old.items }
    requires runs { IsRuns entries.old ends.old.items }
    ensures runs { IsRuns entries.new ends.new.items }
    ensures same { IsPermutation entries.old entries.new }
    ensures len { length entries.new ≡ length entries.old }
{
    let count = entries.len();
    let run = first_joined(ends, count);
    if run + 1 == ends.len() {
        return;
    }
    let start = start_of(ends, run);
    if sort_from(entries, start, alloc).is_err() {
        return;
    }
    ends[run] = count;
    ends.truncate(run + 1);
}
