// Sets of tuples.
ghost use Rattle.std.specs.Prelude.{◌≡◌, ◌<◌, [], ◌∷◌, All, length, OnOk, OnErr};
ghost use Rattle.tuple_schema.specs.Words.{part};
ghost use Rattle.tuple_sets.specs.Words.{has, SameSet};

use crate::bag::TupleBag;
use crate::part::Part;
use std::alloc::Global;
use std::marker::Model;
use tuple_schema::{Fields, Memory, Tuple};

/// A set of tuples. A contract sees it as a list of them, whose order says nothing.
#[derive(Debug, Drop)]
pub struct KeySet {
    keys: TupleBag,
}

impl Model for KeySet {
    ghost use Rattle.std.specs.Prelude.{List};
    ghost use Rattle.tuple_schema.specs.declared.value.Value.{Value as Item};

    ghost Value = { List (List Item) };

    ghost view = { λ s. s.keys };
}

impl KeySet {
    /// The empty set.
    pub fn new(alloc: Global) -> KeySet
        ensures { result ≡ [] }
    {
        KeySet {
            keys: TupleBag::new(alloc),
        }
    }

    /// Adds the key, if it isn't there.
    pub fn add(&mut self, key: Tuple) -> Result<(), Memory>
        ensures ok { OnOk result (SameSet self.new (key ∷ self.old)) }
        ensures err { OnErr result (self.new ≡ self.old) }
    {
        if self.keys.count(&key) > 0 {
            return Ok(());
        }
        self.keys.add(key)
    }

    /// Whether the row's values at these places, in their order, are a key.
    pub fn has<F: Fields>(&self, row: &F, cols: &[usize]) -> bool
        requires { All (λ c. c < length (F.tuple row.now)) cols.now }
        ensures { result ≡ has self.now (part (F.tuple row.now) cols.now) }
    {
        self.keys.count(&Part { row, cols }) > 0
    }
}
