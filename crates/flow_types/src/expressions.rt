// Expressions in the texts of nodes.
ghost use Rattle.std.specs.Prelude.{◌≡◌, Ok, IfOk, OnOk};
ghost use Rattle.tuple_schema.specs.Words.{Gives};
ghost use Rattle.expr_lang.specs.Words.{tree_of, typing, LeavesFit};
ghost use Rattle.flow_types.specs.Words.{cause_of, expression_of, kind_over, only_truth, test_of};

use crate::fault::SchemaCause;
use expr_grammar::{Expr, parse};
use expr_lang::{ExprKind, TypeFault, check, value_laws};
use std::alloc::Global;
use tuple_schema::{Schema, Stop};

/// The test that a text says of rows with the input's columns, or what is wrong with it.
pub fn test_of(alloc: Global, input: &Schema, text: &str) -> Result<Expr, Stop<SchemaCause>>
    ensures test { Gives result (test_of input.now text.now) }
    ensures truth { IfOk result (λ x. typing input.now (tree_of x) ≡ Ok ExprKind.Truth) }
{
    let test = expression_of(alloc, text)?;
    let kind = kind_over(&test, input)?;
    only_truth(kind)?;
    Ok(test)
}

/// The expression of a text.
pub fn expression_of(alloc: Global, text: &str) -> Result<Expr, Stop<SchemaCause>>
    ensures reads { Gives result (expression_of text.now) }
    ensures leaves { IfOk result (λ x. LeavesFit (tree_of x)) }
{
    value_laws();
    match parse(alloc, text) {
        Ok(expression) => Ok(expression),
        Err(Stop::Memory) => Err(Stop::Memory),
        Err(Stop::Fault(fault)) => Err(Stop::Fault(SchemaCause::BadExpr {
            at: fault.at,
            what: fault.what,
        })),
    }
}

/// What an expression gives over the input's columns.
pub fn kind_over(expression: &Expr, input: &Schema) -> Result<ExprKind, Stop<SchemaCause>>
    ensures kind { Gives result (kind_over input.now expression.now) }
    ensures typed { IfOk result (λ kind. typing input.now (tree_of expression.now) ≡ Ok kind) }
{
    match check(expression, input) {
        Ok(kind) => Ok(kind),
        Err(Stop::Memory) => Err(Stop::Memory),
        Err(Stop::Fault(fault)) => Err(Stop::Fault(cause_of(fault))),
    }
}

// The cause that a fault of kinds is.
fn cause_of(fault: TypeFault) -> SchemaCause
    ensures { result ≡ cause_of fault }
{
    match fault {
        TypeFault::UnknownColumn { column } => SchemaCause::UnknownColumn { column },
        TypeFault::WrongKinds => SchemaCause::BadType,
    }
}

// Refuses what is no truth.
fn only_truth(kind: ExprKind) -> Result<(), Stop<SchemaCause>>
    ensures only { Gives result (only_truth kind) }
    ensures truth { OnOk result (kind ≡ ExprKind.Truth) }
{
    match kind {
        ExprKind::Truth => Ok(()),
        ExprKind::Value { .. } => Err(Stop::Fault(SchemaCause::BadType)),
    }
}
