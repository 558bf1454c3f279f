// The places of the nodes by their names.
ghost use Rattle.std.specs.Prelude.{◌≡◌, ◌<◌, ◌≤◌, map, length, IfOk, IfSome};
ghost use Rattle.tuple_schema.specs.Words.{GivesView};
ghost use Rattle.flow_types.specs.Words.{names_differ, place_of};

use crate::fault::{SchemaCause, SchemaFault};
use crate::graph::fault_at;
use indexmap::IndexMap;
use std::alloc::Global;
use std::marker::Model;
use tuple_schema::{Stop, Text};

/// The place of each node by its name. A contract sees the names, which differ, in order.
#[derive(Drop)]
pub struct Places<'r> {
    places: IndexMap<&'r str, usize>,
}

impl<'r> Model for Places<'r> {
    ghost use Rattle.std.specs.Prelude.{◌≡◌, ℕ, List, map, length};
    ghost use Rattle.std.specs.List.{range_with_len};
    ghost use Rattle.indexmap.specs.IndexMap.{keys, values};

    ghost Value = { List (List ℕ) };

    ghost view = { λ p. map (λ name. name.now) (keys p.places) };

    ghost invariant = { λ p. values p.places ≡ range_with_len 0 (length (values p.places)) };
}

impl<'r> Places<'r> {
    /// The places of these names, or the first that comes twice.
    pub fn of(alloc: Global, names: &[&'r Text]) -> Result<Places<'r>, Stop<SchemaFault>>
        requires few { length names.now ≤ 80 }
        ensures differ { GivesView (λ _. tt) result (names_differ (map (λ n. n.now) names.now)) }
        ensures names { IfOk result (λ p. p ≡ map (λ n. n.now) names.now) }
    {
        let mut places = IndexMap::new(alloc);
        for place in 0..names.len() {
            let name = names[place].as_str();
            if places.insert(name, place)?.is_some() {
                return Err(Stop::Fault(fault_at(place, SchemaCause::NameTwice)));
            }
        }
        Ok(Places { places })
    }

    /// How many names there are.
    pub fn len(&self) -> usize
        ensures { result ≡ length self.now }
    {
        self.places.len()
    }

    /// The place of a name.
    pub fn place(&self, name: &Text) -> Option<usize>
        ensures place { result ≡ place_of self.now name.now }
        ensures within { IfSome result (λ place. place < length self.now) }
    {
        self.places.get(name.as_str()).copied()
    }
}
