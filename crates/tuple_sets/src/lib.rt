//! Sets and bags of tuples, in which a row is looked up without a copy of it.
//!
//! Stands on `tuple_schema` alone. Read `specs/Bags.antt` first: a contract sees a set or a bag as a
//! list of tuples, of which only `has` and `count_of` tell anything.
//!
//! Promised: `KeySet::has` is true exactly where a part of a row is a key that was added, and
//! `TupleBag::take` takes a row away exactly where the bag has it. Only `add` and `copy` may
//! want memory, and where they find none the set or the bag is as it was.
//! Not promised: that memory is found, and how fast a row is found. Entries stand in sorted runs, the
//! last of which are made one where they have grown as long as those before them, so that n adds
//! take O(n log² n) comparisons and a look-up O(log² n).
#![tactic(auto)]

mod bag;
mod entry;
mod join;
mod order;
mod part;
mod runs;
mod search;
mod set;

pub use bag::TupleBag;
pub use set::KeySet;
