// A tuple with its count.
ghost use Rattle.std.specs.Prelude.{◌≡◌, IfOk};

use tuple_schema::{Memory, Tuple};

/// A tuple, and how often a bag has it. A tuple that was taken away stays with a count of 0.
#[derive(Debug, Drop)]
pub(crate) struct Entry {
    pub(crate) tuple: Tuple,
    pub(crate) count: u64,
}

impl Entry {
    pub(crate) fn copy(&self) -> Result<Entry, Memory>
        ensures { IfOk result (λ e. e ≡ self.now) }
    {
        let tuple = self.tuple.copy()?;
        Ok(Entry {
            tuple,
            count: self.count,
        })
    }
}
