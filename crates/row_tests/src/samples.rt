// Schemas of tests.
ghost use Rattle.std.specs.Prelude.{◌≡◌, length, slice_get, IfOk, IfSome};
ghost use Rattle.tuple_schema.specs.declared.schema.ColumnKind.TheVariants as kind;

use std::alloc::Global;
use std::test::Fail;
use tuple_schema::{Column, ColumnKind, Schema, Text};

pub fn column(alloc: Global, name: &str, kind: ColumnKind, nullable: bool) -> Result<Column, Fail>
    ensures name { IfOk result (λ c. c.name ≡ name.now) }
    ensures kind { IfOk result (λ c. c.kind ≡ kind) }
{
    let name = Text::of(alloc, name)?;
    Ok(Column {
        name,
        kind,
        nullable,
    })
}

// id int, amt dec2?, name text?
pub fn orders(alloc: Global) -> Result<Schema, Fail> {
    let id = column(alloc, "id", ColumnKind::Int, false)?;
    let amt = column(alloc, "amt", ColumnKind::Dec(2), true)?;
    let name = column(alloc, "name", ColumnKind::Text, true)?;
    Ok(Schema::of(vec![in alloc; id, amt, name]?))
}

// One int that may not be Null: its rows have nine bytes.
pub fn one_int(alloc: Global) -> Result<Schema, Fail>
    ensures one { IfOk result (λ s. length s ≡ 1) }
    ensures int { IfOk result (λ s. IfSome (slice_get s 0) (λ c. c.kind ≡ kind.Int)) }
{
    let column = column(alloc, "a", ColumnKind::Int, false)?;
    Ok(Schema::of(vec![in alloc; column]?))
}
