// Pairs: the columns of two inputs that the texts of `on` pair.
ghost use Rattle.std.specs.Prelude.{◌≡◌, ◌<◌, map, length, option_copied, true, IfOk, OnOk};
ghost use Rattle.std.specs.List.{list_all};
ghost use Rattle.tuple_schema.specs.Words.{Gives, GivesView, head_of};
ghost use Rattle.flow_types.specs.Words.{each_made, is_of_one_kind, known_place, last_name, lefts, names_in};
ghost use Rattle.flow_types.specs.Words.{only_agreeing, only_once, pair_of, paired_again, pairs_of, rights};

use crate::fault::SchemaCause;
use crate::names::{is_again, names_in, place_of, texts_of};
use crate::typing::{head_of, last_name};
use std::alloc::Global;
use tuple_schema::{Column, Memory, Stop, Text};

/// A column of the left input and one of the right input, by their places.
#[derive(Clone, Copy)]
pub struct Pair {
    pub left: usize,
    pub right: usize,
}

/// The pairs of the texts, or what is wrong with them.
pub fn pairs_of(
    alloc: Global,
    left: &[Column],
    right: &[Column],
    texts: &[Text],
) -> Result<Vec<Pair>, Stop<SchemaCause>>
    ensures pairs { GivesView (λ v. v.items) result (pairs_of left.now right.now texts.now) }
    ensures agree { IfOk result (λ v. list_all (is_of_one_kind left.now right.now) v.items ≡ true) }
{
    let pairs = known_pairs(alloc, left, right, texts)?;
    only_agreeing(left, right, &pairs)?;
    only_once(alloc, texts)?;
    Ok(pairs)
}

// The pairs of the texts, or the first column that isn't there.
fn known_pairs(
    alloc: Global,
    left: &[Column],
    right: &[Column],
    texts: &[Text],
) -> Result<Vec<Pair>, Stop<SchemaCause>>
    ensures { GivesView (λ v. v.items) result
        (each_made (pair_of (names_in left.now) (names_in right.now)) texts.now) }
{
    let left_names = names_in(alloc, left)?;
    let right_names = names_in(alloc, right)?;
    let mut pairs = Vec::new(alloc);
    for text in texts {
        let pair = pair_of(alloc, &left_names, &right_names, text)?;
        pairs.push(pair)?;
    }
    Ok(pairs)
}

// The columns that a text pairs, the left one first.
fn pair_of(
    alloc: Global,
    left_names: &[&Text],
    right_names: &[&Text],
    text: &Text,
) -> Result<Pair, Stop<SchemaCause>>
    ensures { Gives result
        (pair_of (map (λ n. n.now) left_names.now) (map (λ n. n.now) right_names.now) text.now) }
{
    let left_name = head_of(alloc, text)?;
    let left = known_place(left_names, left_name)?;
    let right_name = last_name(alloc, text)?;
    let right = known_place(right_names, right_name)?;
    Ok(Pair { left, right })
}

/// The place of a name that has to be there.
pub fn known_place(names: &[&Text], column: Text) -> Result<usize, Stop<SchemaCause>>
    ensures { Gives result (known_place (map (λ n. n.now) names.now) column) }
{
    match place_of(names, &column) {
        Some(place) => Ok(place),
        None => Err(Stop::Fault(SchemaCause::UnknownColumn { column })),
    }
}

// Refuses columns of two kinds in one pair.
fn only_agreeing(left: &[Column], right: &[Column], pairs: &[Pair]) -> Result<(), Stop<SchemaCause>>
    ensures only { Gives result (only_agreeing left.now right.now pairs.now) }
    ensures agree { OnOk result (list_all (is_of_one_kind left.now right.now) pairs.now ≡ true) }
{
    if are_of_one_kind(left, right, pairs) {
        return Ok(());
    }
    Err(Stop::Fault(SchemaCause::KindDiffers))
}

fn are_of_one_kind(left: &[Column], right: &[Column], pairs: &[Pair]) -> bool
    ensures { result ≡ list_all (is_of_one_kind left.now right.now) pairs.now }
{
    pairs.iter().all(|pair| is_of_one_kind(left, right, pair))
}

fn is_of_one_kind(left: &[Column], right: &[Column], pair: &Pair) -> bool
    ensures { result ≡ is_of_one_kind left.now right.now pair.now }
{
    match left.get(pair.left) {
        None => false,
        Some(one) => match right.get(pair.right) {
            None => false,
            Some(other) => one.kind == other.kind,
        },
    }
}

// Refuses the first name that an earlier text has on the same side.
fn only_once(alloc: Global, texts: &[Text]) -> Result<(), Stop<SchemaCause>>
    ensures { Gives result (only_once (map head_of texts.now) (map last_name texts.now)) }
{
    let lefts = left_names(alloc, texts)?;
    let rights = right_names(alloc, texts)?;
    let lefts = texts_of(alloc, &lefts)?;
    let rights = texts_of(alloc, &rights)?;
    none_again(&lefts, &rights)
}

fn left_names(alloc: Global, texts: &[Text]) -> Result<Vec<Text>, Memory>
    ensures { IfOk result (λ v. v.items ≡ map head_of texts.now) }
{
    let mut names = Vec::new(alloc);
    for text in texts {
        names.push(head_of(alloc, text)?)?;
    }
    Ok(names)
}

fn right_names(alloc: Global, texts: &[Text]) -> Result<Vec<Text>, Memory>
    ensures { IfOk result (λ v. v.items ≡ map last_name texts.now) }
{
    let mut names = Vec::new(alloc);
    for text in texts {
        names.push(last_name(alloc, text)?)?;
    }
    Ok(names)
}

// Refuses the first name that comes again on its side, the left one first.
fn none_again(lefts: &[&Text], rights: &[&Text]) -> Result<(), Stop<SchemaCause>>
    requires { length rights.now ≡ length lefts.now }
    ensures { Gives result (only_once (map (λ n. n.now) lefts.now) (map (λ n. n.now) rights.now)) }
{
    for place in 0..lefts.len() {
        if let Some(column) = paired_again(lefts, rights, place) {
            return Err(Stop::Fault(SchemaCause::DoubleColumn {
                column: column.copy()?,
            }));
        }
    }
    Ok(())
}

// The name at a place that comes again on its side, the left one first.
fn paired_again<'r>(lefts: &[&'r Text], rights: &[&'r Text], place: usize) -> Option<&'r Text>
    requires left { place < length lefts.now }
    requires right { place < length rights.now }
    ensures { option_copied result
        ≡ paired_again (map (λ n. n.now) lefts.now) (map (λ n. n.now) rights.now) place }
{
    if is_again(lefts, place) {
        return Some(lefts[place]);
    }
    if is_again(rights, place) {
        return Some(rights[place]);
    }
    None
}

/// The pairs' columns in the left input.
pub fn lefts(alloc: Global, pairs: &[Pair]) -> Result<Vec<usize>, Memory>
    ensures { IfOk result (λ v. v.items ≡ lefts pairs.now) }
{
    let mut places = Vec::new(alloc);
    for pair in pairs {
        places.push(pair.left)?;
    }
    Ok(places)
}

/// The pairs' columns in the right input.
pub fn rights(alloc: Global, pairs: &[Pair]) -> Result<Vec<usize>, Memory>
    ensures { IfOk result (λ v. v.items ≡ rights pairs.now) }
{
    let mut places = Vec::new(alloc);
    for pair in pairs {
        places.push(pair.right)?;
    }
    Ok(places)
}
