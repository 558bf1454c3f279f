// Bags of tuples.
ghost use Rattle.std.specs.Prelude.{◌≡◌, ◌<◌, ◌+◌, ◌^◌, [], ◌∷◌, false, IfOk, OnOk, OnErr, IsTrue, nat_lt};
ghost use Rattle.tuple_sets.specs.Words.{count_of, SameBag};

use crate::entry::Entry;
use crate::runs::Runs;
use std::alloc::Global;
use std::marker::Model;
use tuple_schema::{Fields, Memory, Tuple};

/// A bag of tuples. A contract sees it as a list of them, whose order says nothing.
///
/// A row is found by O(log n) searches in sorted runs, and no row is copied for it.
#[derive(Debug, Drop)]
pub struct TupleBag {
    runs: Runs,
}

impl Model for TupleBag {
    ghost use Rattle.std.specs.Prelude.{List};
    ghost use Rattle.tuple_schema.specs.declared.value.Value.{Value as Item};
    ghost use Rattle.tuple_sets.specs.Runs.{IsUnique, tuples_of};

    ghost Value = { List (List Item) };

    ghost view = { λ b. tuples_of b.runs };

    ghost invariant = { λ b. IsUnique b.runs };
}

impl TupleBag {
    /// The empty bag.
    pub fn new(alloc: Global) -> TupleBag
        ensures { result ≡ [] }
    {
        TupleBag {
            runs: Runs::new(alloc),
        }
    }

    /// How often the bag has the row.
    pub fn count<F: Fields>(&self, row: &F) -> u64
        ensures { result ≡ count_of self.now (F.tuple row.now) }
    {
        match self.runs.find(row) {
            None => 0,
            Some(place) => self.runs.count_at(place),
        }
    }

    /// Adds the row once more.
    pub fn add(&mut self, row: Tuple) -> Result<(), Memory>
        requires { count_of self.old row + 1 < 2 ^ 64 }
        ensures ok { OnOk result (SameBag self.new (row ∷ self.old)) }
        ensures err { OnErr result (self.new ≡ self.old) }
    {
        let Some(place) = self.runs.find(&row) else {
            let entry = Entry {
                tuple: row,
                count: 1,
            };
            return self.runs.push(entry);
        };
        let count = self.runs.count_at(place);
        self.runs.set_count(place, count + 1);
        Ok(())
    }

    /// Takes the row away once, and says whether the bag had it.
    pub fn take<F: Fields>(&mut self, row: &F) -> bool
        ensures there { result ≡ nat_lt 0 (count_of self.old (F.tuple row.now)) }
        ensures taken { IsTrue result → SameBag self.old (F.tuple row.now ∷ self.new) }
        ensures kept { result ≡ false → self.new ≡ self.old }
    {
        let Some(place) = self.runs.find(row) else {
            return false;
        };
        let count = self.runs.count_at(place);
        if count == 0 {
            return false;
        }
        self.runs.set_count(place, count - 1);
        true
    }

    pub fn copy(&self) -> Result<TupleBag, Memory>
        ensures { IfOk result (λ b. b ≡ self.now) }
    {
        let runs = self.runs.copy()?;
        Ok(TupleBag { runs })
    }
}
