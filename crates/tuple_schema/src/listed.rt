// Lists that are lent whole.
ghost use Rattle.std.specs.Prelude.{◌≡◌, [], ◌∷◌, ◌++◌, OnOk, OnErr};

use crate::{Memory, Text, Tuple};
use std::alloc::Global;
use std::marker::Model;

/// A list of items, to which more are added at its end. A contract sees it as that list.
#[derive(Debug, Drop)]
pub struct Listed<T> {
    items: Vec<T>,
}

/// A list of texts, as the columns of a key.
pub type Names = Listed<Text>;

/// A list of tuples.
pub type Tuples = Listed<Tuple>;

impl<T> Model for Listed<T> {
    ghost use Rattle.std.specs.Prelude.{List};

    ghost Value = { List T };

    ghost view = { λ l. l.items.items };
}

impl<T: Drop> Listed<T> {
    /// The empty list.
    pub fn new(alloc: Global) -> Listed<T>
        ensures { result ≡ [] }
    {
        Listed {
            items: Vec::new(alloc),
        }
    }

    /// Makes the item the new last one.
    pub fn push(&mut self, item: T) -> Result<(), Memory>
        ensures ok { OnOk result (self.new ≡ self.old ++ item ∷ []) }
        ensures err { OnErr result (self.new ≡ self.old) }
    {
        self.items.push(item)?;
        Ok(())
    }

    pub fn items(&self) -> &[T]
        ensures { result.now ≡ self.now }
    {
        &self.items
    }
}
