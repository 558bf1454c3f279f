// Entries in sorted runs.
ghost use Rattle.std.specs.Prelude.{◌≡◌, ◌<◌, [], ◌∷◌, ◌++◌, length, IfOk, OnOk, OnErr, IsPermutation};
ghost use Rattle.tuple_sets.specs.Words.{count_at, with_count, Finds};

use crate::entry::Entry;
use crate::join::join;
use crate::search::find;
use std::alloc::Global;
use std::marker::Model;
use tuple_schema::{Fields, Memory};

/// Entries in sorted runs, which stand one behind the other. A contract sees it as the list of
/// entries.
#[derive(Debug, Drop)]
pub(crate) struct Runs {
    entries: Vec<Entry>,
    ends: Vec<usize>,
}

impl Model for Runs {
    ghost use Rattle.std.specs.Prelude.{List};
    ghost use Rattle.tuple_sets.specs.declared.entry.Entry.{Entry as Item};
    ghost use Rattle.tuple_sets.specs.Runs.{IsRuns};

    ghost Value = { List Item };

    ghost view = { λ r. r.entries.items };

    ghost invariant = { λ r. IsRuns r.entries.items r.ends.items };
}

impl Runs {
    pub(crate) fn new(alloc: Global) -> Runs
        ensures { result ≡ [] }
    {
        Runs {
            entries: Vec::new(alloc),
            ends: Vec::new(alloc),
        }
    }

    /// The place of an entry that has the row, if there is one.
    pub(crate) fn find<F: Fields>(&self, row: &F) -> Option<usize>
        ensures { Finds self.now (F.tuple row.now) result }
    {
        find(&self.entries, &self.ends, row)
    }

    /// The count of the entry at that place.
    pub(crate) fn count_at(&self, place: usize) -> u64
        requires { place < length self.now }
        ensures { result ≡ count_at self.now place }
    {
        self.entries[place].count
    }

    /// Gives the entry at that place the count.
    pub(crate) fn set_count(&mut self, place: usize, count: u64)
        requires { place < length self.old }
        ensures { self.new ≡ with_count self.old place count }
    {
        self.entries[place].count = count;
    }

    pub(crate) fn copy(&self) -> Result<Runs, Memory>
        ensures { IfOk result (λ r. r ≡ self.now) }
    {
        let mut entries = Vec::with_capacity(*self.entries.allocator(), self.entries.len())?;
        for entry in &self.entries {
            entries.push(entry.copy()?)?;
        }
        let ends = self.ends.clone()?;
        Ok(Runs { entries, ends })
    }

    /// Adds the entry somewhere.
    pub(crate) fn push(&mut self, entry: Entry) -> Result<(), Memory>
        ensures ok { OnOk result (IsPermutation (self.old ++ entry ∷ []) self.new) }
        ensures err { OnErr result (self.new ≡ self.old) }
    {
        self.entries.push(entry)?;
        let end = self.entries.len();
        if self.ends.push(end).is_err() {
            let _ = self.entries.pop();
            return Err(Memory);
        }
        let alloc = *self.entries.allocator();
        join(&mut self.entries, &mut self.ends, alloc);
        Ok(())
    }
}
