// Sorts and distincts, which give rows of their input.
ghost use Rattle.std.specs.Prelude.{◌≡◌, [], ◌∷◌, IfOk};
ghost use Rattle.tuple_schema.specs.Words.{GivesView};
ghost use Rattle.flow_types.specs.Words.{IsOver, typed_distinct, typed_sort};

use crate::fault::SchemaCause;
use crate::names::{names_in, places_of, texts_of};
use crate::node::{Cols, Kind};
use crate::typed::Typed;
use std::alloc::Global;
use tuple_schema::{Schema, Stop, Text};

/// What a sort is by the columns of these names, over an input.
pub fn type_sort(alloc: Global, names: &[Text], input: &Schema) -> Result<Typed, Stop<SchemaCause>>
    ensures typed { GivesView (λ t. (t.kind, t.schema)) result (typed_sort names.now input.now) }
    ensures over { IfOk result (λ t. IsOver t.kind (input.now ∷ []) t.schema) }
{
    let columns = names_in(alloc, input.columns())?;
    let wanted = texts_of(alloc, names)?;
    let places = places_of(alloc, &columns, &wanted)?;
    Ok(Typed {
        kind: Kind::Sort {
            by: Cols::of(places),
        },
        schema: input.copy()?,
    })
}

/// What a distinct is over an input.
pub fn type_distinct(input: &Schema) -> Result<Typed, Stop<SchemaCause>>
    ensures typed { GivesView (λ t. (t.kind, t.schema)) result (typed_distinct input.now) }
    ensures over { IfOk result (λ t. IsOver t.kind (input.now ∷ []) t.schema) }
{
    Ok(Typed {
        kind: Kind::Distinct,
        schema: input.copy()?,
    })
}
