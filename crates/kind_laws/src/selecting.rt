// The rows of a list of which an expression is true.
ghost use Rattle.std.specs.Prelude.{◌≡◌, IfOk};
ghost use Rattle.expr_lang.specs.Words.{tree_of, truth_of};
ghost use Rattle.kind_laws.specs.Words.{is_true, selected};

use expr_grammar::Expr;
use expr_lang::{Truth, truth};
use row_batch::{Batch, RowView};
use std::alloc::Global;
use tuple_schema::{Memory, Schema};

/// The rows of which the test is true, in their order. The bytes of each are copied as they are.
pub fn select(alloc: Global, test: &Expr, rows: &Batch) -> Result<Batch, Memory>
    ensures columns { IfOk result (λ b. b.columns ≡ rows.now.columns) }
    ensures rows { IfOk result (λ b. b.rows ≡ selected test.now rows.now.columns rows.now.rows) }
{
    let schema = rows.schema();
    let mut kept = Batch::new(alloc, schema)?;
    for number in 0..rows.len() {
        let row = rows.row(number);
        if is_true(alloc, test, schema, &row)? {
            kept.push_view(&row)?;
        }
    }
    Ok(kept)
}

// Whether the test is true of the row.
fn is_true(alloc: Global, test: &Expr, schema: &Schema, row: &RowView<'_>) -> Result<bool, Memory>
    ensures { IfOk result (λ b. b ≡ is_true (truth_of schema.now row.now (tree_of test.now))) }
{
    let found = truth(alloc, test, schema, row)?;
    Ok(found == Truth::True)
}
