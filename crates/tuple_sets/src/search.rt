// The search for a row in sorted runs.
ghost use Rattle.std.specs.List.Sorted.{IsSortedBy};
ghost use Rattle.tuple_sets.specs.Words.{is_before, Finds, IsRuns};

use crate::entry::Entry;
use crate::order::compare;
use tuple_schema::Fields;

// The place in the run of an entry that has the row, if there is one.
fn search<F: Fields>(run: &[Entry], row: &F) -> Option<usize>
    requires { IsSortedBy is_before run.now }
    ensures { Finds run.now (F.tuple row.now) result }
{
    run.binary_search_by(|entry| compare(&entry.tuple, row))
        .ok()
}

/// The place of an entry that has the row, if there is one.
pub(crate) fn find<F: Fields>(entries: &[Entry], ends: &[usize], row: &F) -> Option<usize>
    requires { IsRuns entries.now ends.now }
    ensures { Finds entries.now (F.tuple row.now) result }
{
    let mut start = 0;
    for end in ends {
        let run = &entries[start..*end];
        if let Some(place) = search(run, row) {
            return Some(start + place);
        }
        start = *end;
    }
    None
}
