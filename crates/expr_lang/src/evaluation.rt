// The meaning of an expression in a row.
ghost use Rattle.std.specs.Prelude.{◌≡◌, ◌≢◌, ◌≤◌, ◌<◌, length, bytes_eq, true, Some, IfOk, IfSome, IsOk};
ghost use Rattle.tuple_schema.specs.Words.{lent, IsSchema};
ghost use Rattle.expr_lang.specs.Words.{joined, coalesced, chosen, tree_of, IsPlain, Meaning, units, bytes, truly};
ghost use Rattle.expr_lang.specs.Words.{meaning, meaning_in, meaning_at, place_of, joined_by, followed_by, plus};
ghost use Rattle.expr_lang.specs.Words.{minus, times, over, first_of, choice, truth_in, is_nothing, value_in};
ghost use Rattle.expr_lang.specs.Words.{value_of, truth_of, seen, seen_number, applied, IsShort};
ghost use Rattle.tuple_schema.specs.Tuples.{IsShort as IsShortValue};

use crate::arithmetic::{difference, number_of, product, quotient, sum};
use crate::held::{Held, compared};
use crate::logic::Truth;
use crate::number::Number;
use crate::unary::Unary;
use expr_grammar::{Expr, Operator};
use std::alloc::Global;
use tuple_schema::{Column, ColumnKind, FieldRef, Fields, Memory, Schema, Text, Value};

// A value of a column, lent.
fn held_in<'a>(kind: ColumnKind, field: FieldRef<'a>) -> Held<'a>
    ensures seen { seen result ≡ meaning_in kind (lent field.entry) }
    ensures short { IsShortValue (lent field.entry) → IsShort (seen result) }
{
    match (kind, field) {
        (ColumnKind::Int, FieldRef::Int(number)) => Held::of_number(number_of(number, 0)),
        (ColumnKind::Dec(places), FieldRef::Dec(units)) => Held::of_number(number_of(
            units, places,
        )),
        (ColumnKind::Text, FieldRef::Text(text)) => Held::Lent(text),
        _ => Held::Null,
    }
}

fn place_of(columns: &[Column], name: &Text) -> Option<usize>
    ensures place { result ≡ place_of columns.now name.now }
    ensures within { IfSome result (λ p. p < length columns.now) }
{
    columns.iter().position(|column| column.name == *name)
}

// The value of the column of that name.
#[tactic(auto, using(crate::proofs::Rows::past_row))]
fn column<'a, F: Fields>(columns: &[Column], name: &Text, row: &'a F) -> Held<'a>
    ensures seen { seen result ≡ meaning_at columns.now (F.tuple row.now) (place_of columns.now name.now) }
    ensures short { IsShort (seen result) }
{
    match place_of(columns, name) {
        None => Held::Null,
        Some(place) => {
            if place < row.count() {
                held_in(columns[place].kind, row.field(place))
            } else {
                Held::Null
            }
        }
    }
}

// Two texts joined, unless they are too long together.
fn join(alloc: Global, first: &str, second: &str) -> Result<Held<'static>, Memory>
    requires first { length first.now ≤ 4096 }
    requires second { length second.now ≤ 4096 }
    ensures { IfOk result (λ h. seen h ≡ followed_by (bytes first.now) (bytes second.now)) }
{
    let len = first.len() + second.len();
    if len > 4096 {
        return Ok(Held::Null);
    }
    let mut text = String::with_capacity(alloc, len)?;
    text.push_str(first)?;
    text.push_str(second)?;
    Ok(Held::Made(text))
}

// Texts joined; what is no text is Null.
fn followed_by(alloc: Global, left: &Held<'_>, right: &Held<'_>) -> Result<Held<'static>, Memory>
    requires left { IsShort (seen left.now) }
    requires right { IsShort (seen right.now) }
    ensures seen { IfOk result (λ h. seen h ≡ followed_by (seen left.now) (seen right.now)) }
    ensures short { IfOk result (λ h. IsShort (seen h)) }
{
    match (left, right) {
        (Held::Lent(s), Held::Lent(t)) => join(alloc, *s, *t),
        (Held::Lent(s), Held::Made(t)) => join(alloc, *s, t.as_str()),
        (Held::Made(s), Held::Lent(t)) => join(alloc, s.as_str(), *t),
        (Held::Made(s), Held::Made(t)) => join(alloc, s.as_str(), t.as_str()),
        _ => Ok(Held::Null),
    }
}

// What an operator makes of two meanings. It is called for each row, and inlined its result is copied once less.
#[inline(always)]
fn joined_by(
    alloc: Global,
    operator: Operator,
    left: &Held<'_>,
    right: &Held<'_>,
) -> Result<Held<'static>, Memory>
    requires left { IsShort (seen left.now) }
    requires right { IsShort (seen right.now) }
    ensures seen { IfOk result (λ h. seen h ≡ joined_by operator (seen left.now) (seen right.now)) }
    ensures short { IfOk result (λ h. IsShort (seen h)) }
    ensures plain { operator ≢ Operator.Join → IsOk result }
{
    match operator {
        Operator::Or => Ok(Held::Truth(left.truth().or(right.truth()))),
        Operator::And => Ok(Held::Truth(left.truth().and(right.truth()))),
        Operator::Join => followed_by(alloc, left, right),
        Operator::Plus => Ok(plus(left, right)),
        Operator::Minus => Ok(minus(left, right)),
        Operator::Times => Ok(times(left, right)),
        Operator::Over => Ok(over(left, right)),
        Operator::Equal | Operator::NotEqual => Ok(Held::Truth(compared(operator, left, right))),
        Operator::Less | Operator::LessOrEqual => Ok(Held::Truth(compared(operator, left, right))),
        Operator::Greater | Operator::GreaterOrEqual => {
            Ok(Held::Truth(compared(operator, left, right)))
        }
    }
}

// A sum; what is no number is Null.
fn plus(left: &Held<'_>, right: &Held<'_>) -> Held<'static>
    ensures seen { seen result ≡ plus (seen left.now) (seen right.now) }
    ensures short { IsShort (seen result) }
{
    match (left, right) {
        (Held::Number(x), Held::Number(y)) => Held::of_number(sum(*x, *y)),
        _ => Held::Null,
    }
}

// A difference; what is no number is Null.
fn minus(left: &Held<'_>, right: &Held<'_>) -> Held<'static>
    ensures seen { seen result ≡ minus (seen left.now) (seen right.now) }
    ensures short { IsShort (seen result) }
{
    match (left, right) {
        (Held::Number(x), Held::Number(y)) => Held::of_number(difference(*x, *y)),
        _ => Held::Null,
    }
}

// A product; what is no number is Null.
fn times(left: &Held<'_>, right: &Held<'_>) -> Held<'static>
    ensures seen { seen result ≡ times (seen left.now) (seen right.now) }
    ensures short { IsShort (seen result) }
{
    match (left, right) {
        (Held::Number(x), Held::Number(y)) => Held::of_number(product(*x, *y)),
        _ => Held::Null,
    }
}

// A quotient; what is no number is Null.
fn over(left: &Held<'_>, right: &Held<'_>) -> Held<'static>
    ensures seen { seen result ≡ over (seen left.now) (seen right.now) }
    ensures short { IsShort (seen result) }
{
    match (left, right) {
        (Held::Number(x), Held::Number(y)) => Held::of_number(quotient(*x, *y)),
        _ => Held::Null,
    }
}

// The left part settles the truth, whatever the right part is.
fn settled(operator: Operator, left: &Held<'_>) -> Option<Truth>
    ensures { IfSome result (λ t. (y : Meaning) → joined_by operator (seen left.now) y ≡ truly t) }
{
    match (operator, left.truth()) {
        (Operator::And, Truth::False) => Some(Truth::False),
        (Operator::Or, Truth::True) => Some(Truth::True),
        _ => None,
    }
}

// A part with an operation on it.
#[cycle(evaluation)]
fn changed<'a, F: Fields>(
    alloc: Global,
    operation: Unary,
    a: &'a Expr,
    columns: &[Column],
    row: &'a F,
) -> Result<Held<'a>, Memory>
    ensures seen { IfOk result (λ h. seen h ≡
        applied operation (meaning columns.now (F.tuple row.now) (tree_of a.now))) }
    ensures short { IfOk result (λ h. IsShort (seen h)) }
    ensures plain { IsPlain (tree_of a.now) → IsOk result }
{
    let part = evaluate(alloc, a, columns, row)?;
    Ok(operation.apply(&part))
}

// Two parts with an operator between them. The second is looked at only where the first leaves the answer open.
#[cycle(evaluation)]
fn infix<'a, F: Fields>(
    alloc: Global,
    operator: Operator,
    a: &'a Expr,
    b: &'a Expr,
    columns: &[Column],
    row: &'a F,
) -> Result<Held<'a>, Memory>
    ensures seen { IfOk result (λ h. seen h ≡
        meaning columns.now (F.tuple row.now) (joined operator (tree_of a.now) (tree_of b.now))) }
    ensures short { IfOk result (λ h. IsShort (seen h)) }
    ensures plain { IsPlain (joined operator (tree_of a.now) (tree_of b.now)) → IsOk result }
{
    let left = evaluate(alloc, a, columns, row)?;
    if let Some(truth) = settled(operator, &left) {
        return Ok(Held::Truth(truth));
    }
    let right = evaluate(alloc, b, columns, row)?;
    joined_by(alloc, operator, &left, &right)
}

// The first of two parts that isn't Null, or Null.
#[cycle(evaluation)]
fn first_value<'a, F: Fields>(
    alloc: Global,
    a: &'a Expr,
    b: &'a Expr,
    columns: &[Column],
    row: &'a F,
) -> Result<Held<'a>, Memory>
    ensures seen { IfOk result (λ h. seen h ≡
        meaning columns.now (F.tuple row.now) (coalesced (tree_of a.now) (tree_of b.now))) }
    ensures short { IfOk result (λ h. IsShort (seen h)) }
    ensures plain { IsPlain (coalesced (tree_of a.now) (tree_of b.now)) → IsOk result }
{
    let first = evaluate(alloc, a, columns, row)?;
    if first.is_null() {
        evaluate(alloc, b, columns, row)
    } else {
        Ok(first)
    }
}

// The second part where the first is True, else the third.
#[cycle(evaluation)]
fn branch<'a, F: Fields>(
    alloc: Global,
    c: &'a Expr,
    a: &'a Expr,
    b: &'a Expr,
    columns: &[Column],
    row: &'a F,
) -> Result<Held<'a>, Memory>
    ensures seen { IfOk result (λ h. seen h ≡
        meaning columns.now (F.tuple row.now) (chosen (tree_of c.now) (tree_of a.now) (tree_of b.now))) }
    ensures short { IfOk result (λ h. IsShort (seen h)) }
    ensures plain { IsPlain (chosen (tree_of c.now) (tree_of a.now) (tree_of b.now)) → IsOk result }
{
    let test = evaluate(alloc, c, columns, row)?;
    match test.truth() {
        Truth::True => evaluate(alloc, a, columns, row),
        Truth::False => evaluate(alloc, b, columns, row),
        Truth::Unknown => evaluate(alloc, b, columns, row),
    }
}

/// What the expression means in a row of these columns. Its texts are lent by the row and the expression, and memory is
/// taken only where texts are joined.
#[cycle(evaluation)]
pub fn evaluate<'a, F: Fields>(
    alloc: Global,
    expr: &'a Expr,
    columns: &[Column],
    row: &'a F,
) -> Result<Held<'a>, Memory>
    ensures seen { IfOk result (λ h. seen h ≡ meaning columns.now (F.tuple row.now) (tree_of expr.now)) }
    ensures short { IfOk result (λ h. IsShort (seen h)) }
    ensures plain { IsPlain (tree_of expr.now) → IsOk result }
{
    match expr {
        Expr::Number { units, places } => Ok(Held::of_number(number_of(*units, *places))),
        Expr::Text(text) => Ok(Held::Lent(text.as_str())),
        Expr::Column(name) => Ok(column(columns, name, row)),
        Expr::Infix(operator, a, b) => infix(alloc, *operator, a.get(), b.get(), columns, row),
        Expr::Coalesce(a, b) => first_value(alloc, a.get(), b.get(), columns, row),
        Expr::If(c, a, b) => branch(alloc, c.get(), a.get(), b.get(), columns, row),
        Expr::Not(a) => changed(alloc, Unary::Not, a.get(), columns, row),
        Expr::Negated(a) => changed(alloc, Unary::Negated, a.get(), columns, row),
        Expr::IsNull(a) => changed(alloc, Unary::IsNull, a.get(), columns, row),
        Expr::IsNotNull(a) => changed(alloc, Unary::IsNotNull, a.get(), columns, row),
        Expr::Abs(a) => changed(alloc, Unary::Abs, a.get(), columns, row),
        Expr::Length(a) => changed(alloc, Unary::Length, a.get(), columns, row),
        Expr::Scale(a, places) => changed(alloc, Unary::Scale(*places), a.get(), columns, row),
    }
}

/// The expression's value of a row of the schema.
pub fn eval<F: Fields>(
    alloc: Global,
    expr: &Expr,
    schema: &Schema,
    row: &F,
) -> Result<Value, Memory>
    ensures { IfOk result (λ v. v ≡ value_of schema.now (F.tuple row.now) (tree_of expr.now)) }
{
    let held = evaluate(alloc, expr, schema.columns(), row)?;
    value_in(alloc, held)
}

/// The expression's truth of a row of the schema. It takes memory only where texts are joined.
pub fn truth<F: Fields>(
    alloc: Global,
    expr: &Expr,
    schema: &Schema,
    row: &F,
) -> Result<Truth, Memory>
    ensures truth { IfOk result (λ t. t ≡ truth_of schema.now (F.tuple row.now) (tree_of expr.now)) }
    ensures plain { IsPlain (tree_of expr.now) → IsOk result }
{
    let held = evaluate(alloc, expr, schema.columns(), row)?;
    Ok(held.truth())
}

// What is held, as a value of its own.
fn value_in(alloc: Global, held: Held<'_>) -> Result<Value, Memory>
    requires { IsShort (seen held) }
    ensures { IfOk result (λ v. v ≡ value_in (seen held.entry)) }
{
    match held {
        Held::Number(number) => Ok(number_value(number)),
        Held::Lent(text) => Ok(Value::Text(Text::short(String::from_str(alloc, text)?))),
        Held::Made(text) => Ok(Value::Text(Text::short(text))),
        Held::Null => Ok(Value::Null),
        Held::Truth(_) => Ok(Value::Null),
    }
}

// A number without places is an Int, and any other a Dec.
fn number_value(number: Number) -> Value
    ensures { result ≡ value_in (units number.units number.places) }
{
    if number.places == 0 {
        Value::Int(number.units)
    } else {
        Value::Dec(number.units)
    }
}
