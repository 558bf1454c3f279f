// Names in lists: which comes twice, and which isn't there.
ghost use Rattle.std.specs.Prelude.{◌≡◌, ◌<◌, map, length, bytes_eq, position, filter_map, All, IfOk, IfSome};
ghost use Rattle.std.specs.List.{list_any};
ghost use Rattle.tuple_schema.specs.Words.{Gives, GivesView, is_among};
ghost use Rattle.flow_types.specs.Words.{names_in, again, is_again, no_double, no_unknown, cols_in, cols_if, place_of};

use crate::fault::SchemaCause;
use crate::node::Cols;
use std::alloc::Global;
use tuple_schema::{Column, Memory, Names, Stop, Text};

/// The texts of a list.
pub fn texts_of(alloc: Global, texts: &[Text]) -> Result<Vec<&Text>, Memory>
    ensures { IfOk result (λ v. map (λ t. t.now) v.items ≡ texts.now) }
{
    let mut names = Vec::new(alloc);
    for text in texts {
        names.push(text)?;
    }
    Ok(names)
}

/// The names of columns.
pub fn names_in(alloc: Global, columns: &[Column]) -> Result<Vec<&Text>, Memory>
    ensures { IfOk result (λ v. map (λ t. t.now) v.items ≡ names_in columns.now) }
{
    let mut names = Vec::new(alloc);
    for column in columns {
        names.push(&column.name)?;
    }
    Ok(names)
}

/// The first place of a name.
#[tactic(auto, using(crate::proofs::Lists::position_mapped))]
pub fn place_of(names: &[&Text], name: &Text) -> Option<usize>
    ensures place { result ≡ place_of (map (λ n. n.now) names.now) name.now }
    ensures within { IfSome result (λ place. place < length names.now) }
{
    first_place(names, name)
}

fn first_place(names: &[&Text], name: &Text) -> Option<usize>
    ensures place { result ≡ position (λ n. bytes_eq n.now name.now) names.now }
    ensures within { IfSome result (λ place. place < length names.now) }
{
    names.iter().position(|n| **n == *name)
}

#[tactic(auto, using(crate::proofs::Lists::list_any_mapped))]
/// Whether the name is one of these.
pub fn is_among(names: &[&Text], name: &Text) -> bool
    ensures { result ≡ is_among (map (λ n. n.now) names.now) name.now }
{
    is_any(names, name)
}

fn is_any(names: &[&Text], name: &Text) -> bool
    ensures { result ≡ list_any (λ n. bytes_eq name.now n.now) names.now }
{
    names.iter().any(|n| *name == **n)
}

/// Whether an earlier name is the one at the place.
pub fn is_again(names: &[&Text], place: usize) -> bool
    requires { place < length names.now }
    ensures { result ≡ is_again (map (λ n. n.now) names.now) place }
{
    is_among(&names[..place], names[place])
}

/// The least place of a name that an earlier one is.
#[tactic(auto, using(crate::proofs::Places::least_is, crate::proofs::Places::least_none))]
pub fn again(names: &[&Text]) -> Option<usize>
    ensures least { result ≡ again (map (λ n. n.now) names.now) }
    ensures within { IfSome result (λ place. place < length names.now) }
{
    for place in 0..names.len() {
        if is_among(&names[..place], names[place]) {
            return Some(place);
        }
    }
    None
}

/// Refuses the first name that comes twice.
pub fn no_double(names: &[&Text]) -> Result<(), Stop<SchemaCause>>
    ensures { Gives result (no_double (map (λ n. n.now) names.now)) }
{
    let Some(place) = again(names) else {
        return Ok(());
    };
    let column = names[place].copy()?;
    Err(Stop::Fault(SchemaCause::DoubleColumn { column }))
}

/// The places of the names wanted, or the first that isn't there.
pub fn places_of(
    alloc: Global,
    names: &[&Text],
    wanted: &[&Text],
) -> Result<Vec<usize>, Stop<SchemaCause>>
    ensures unknown { GivesView (λ _. tt) result (no_unknown (map (λ n. n.now) names.now)
        (map (λ n. n.now) wanted.now)) }
    ensures places { IfOk result (λ v. v.items ≡ filter_map (place_of (map (λ n. n.now) names.now))
        (map (λ n. n.now) wanted.now)) }
    ensures within { IfOk result (λ v. All (λ place. place < length names.now) v.items) }
{
    let mut places = Vec::new(alloc);
    for name in wanted {
        let Some(place) = place_of(names, name) else {
            return Err(Stop::Fault(SchemaCause::UnknownColumn {
                column: name.copy()?,
            }));
        };
        places.push(place)?;
    }
    Ok(places)
}

fn cols_in(alloc: Global, names: &[&Text], wanted: &[&Text]) -> Result<Cols, Stop<SchemaCause>>
    ensures { Gives result (cols_in (map (λ n. n.now) names.now) (map (λ n. n.now) wanted.now)) }
{
    let places = places_of(alloc, names, wanted)?;
    no_double(wanted)?;
    Ok(Cols::of(places))
}

/// The places of names that may not be given: each is there, and none comes twice.
pub fn cols_if(
    alloc: Global,
    names: &[&Text],
    wanted: &Option<Names>,
) -> Result<Option<Cols>, Stop<SchemaCause>>
    ensures { Gives result (cols_if (map (λ n. n.now) names.now) wanted.now) }
{
    let Some(wanted) = wanted else {
        return Ok(None);
    };
    let wanted = texts_of(alloc, wanted.items())?;
    let cols = cols_in(alloc, names, &wanted)?;
    Ok(Some(cols))
}
