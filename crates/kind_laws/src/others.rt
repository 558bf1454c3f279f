// The columns that are not among given ones.
ghost use Rattle.std.specs.Prelude.{◌≡◌, IfOk};
ghost use Rattle.list_algebra.specs.Words.{others};

use std::alloc::Global;
use tuple_schema::Memory;

/// The places of so many columns that are not among these.
pub(crate) fn others(alloc: Global, count: usize, cols: &[usize]) -> Result<Vec<usize>, Memory>
    ensures { IfOk result (λ places. places.items ≡ others count cols.now) }
{
    let mut places = Vec::new(alloc);
    for place in 0..count {
        if !cols.contains(&place) {
            places.push(place)?;
        }
    }
    Ok(places)
}
