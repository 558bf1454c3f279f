// The rows of several lists as one list.
ghost use Rattle.std.specs.Prelude.{◌≡◌, ◌++◌, map, IfOk, OnOk};
ghost use Rattle.list_algebra.specs.Words.{appended};
ghost use Rattle.kind_laws.specs.Words.{AllFitInto, FitInto};

use row_batch::Batch;
use std::alloc::Global;
use tuple_schema::{Memory, Schema};

/// The rows of the inputs, one input after the other.
pub(crate) fn unite(alloc: Global, columns: &Schema, inputs: &[Batch]) -> Result<Batch, Memory>
    requires fits { AllFitInto (map (λ b. b.columns) inputs.now) columns.now }
    ensures columns { IfOk result (λ b. b.columns ≡ columns.now) }
    ensures rows { IfOk result (λ b. b.rows ≡ appended (map (λ b. b.rows) inputs.now)) }
{
    let mut made = Batch::new(alloc, columns)?;
    for input in inputs {
        add_rows(input, &mut made)?;
    }
    Ok(made)
}

// Makes the rows the last ones of the batch, in their order. The bytes of each are copied as they are.
fn add_rows(rows: &Batch, made: &mut Batch) -> Result<(), Memory>
    requires fits { FitInto rows.now.columns made.old.columns }
    ensures rows { OnOk result (made.new.rows ≡ made.old.rows ++ rows.now.rows) }
    ensures columns { OnOk result (made.new.columns ≡ made.old.columns) }
{
    for number in 0..rows.len() {
        made.push_view(&rows.row(number))?;
    }
    Ok(())
}
