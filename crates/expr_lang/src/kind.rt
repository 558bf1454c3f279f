// What kind of thing an expression gives over the columns of a schema.
ghost use Rattle.std.specs.Prelude.{◌≡◌, ◌+◌, ◌||◌, [], ◌∷◌, false, max, bytes_eq, find, Ok, Err, IfOk, IfSome, option_map, option_copied};
ghost use Rattle.std.specs.List.{list_any};
ghost use Rattle.std.specs.Option.{option_or};
ghost use Rattle.tuple_schema.specs.Words.{Gives, IfFault};
ghost use Rattle.expr_lang.specs.Words.{tree_of, typing, kind_of, columns_in, is_unknown, operator_kind, arithmetic};
ghost use Rattle.expr_lang.specs.Words.{comparison, are_comparable, truths, texts, number_kind, places_of, as_number};
ghost use Rattle.expr_lang.specs.Words.{places_by, same_number, truth_kind, null_test, length_kind, number_with};
ghost use Rattle.expr_lang.specs.Words.{one_kind, is_same_kind, choice_kind, column_kind};
ghost use Rattle.expr_lang.specs.declared.kind.ExprKind.{ExprKind};
ghost use Rattle.expr_lang.specs.declared.kind.TypeFault.{TypeFault};

use expr_grammar::{Expr, Operator};
use tuple_schema::{Column, ColumnKind, Memory, Schema, Stop, Text};

/// What an expression gives: a value of a column's kind, nullable where it may be Null, or a truth.
#[derive(Clone, Copy, Debug, PartialEq, Eq)]
pub enum ExprKind {
    Value { kind: ColumnKind, nullable: bool },
    Truth,
}

/// Why an expression has no kind over a schema.
#[derive(Debug, PartialEq, Eq, Drop)]
pub enum TypeFault {
    /// The first column in the text that the schema doesn't have.
    UnknownColumn { column: Text },
    WrongKinds,
}

/// The kind of an expression over the columns of a schema, or why it has none.
pub fn check(expr: &Expr, schema: &Schema) -> Result<ExprKind, Stop<TypeFault>>
    ensures { Gives result (typing schema.now (tree_of expr.now)) }
{
    let columns = schema.columns();
    if let Some(name) = first_unknown(expr, columns) {
        return Err(Stop::Fault(TypeFault::UnknownColumn {
            column: name.copy()?,
        }));
    }
    match kind_of(expr, columns) {
        Some(kind) => Ok(kind),
        None => Err(Stop::Fault(TypeFault::WrongKinds)),
    }
}

fn is_unknown(columns: &[Column], name: &Text) -> bool
    ensures { result ≡ is_unknown columns.now name.now }
{
    !is_known(columns, name)
}

fn is_known(columns: &[Column], name: &Text) -> bool
    ensures { result ≡ list_any (λ c. bytes_eq c.name name.now) columns.now }
{
    columns.iter().any(|column| column.name == *name)
}

// The first column in the expression's text that is not among these.
fn first_unknown<'e>(expr: &'e Expr, columns: &[Column]) -> Option<&'e Text>
    ensures { option_copied result ≡ find (is_unknown columns.now) (columns_in (tree_of expr.now)) }
{
    match expr {
        Expr::Column(name) => unknown(columns, name),
        Expr::Infix(_, a, b) => first_of(
            first_unknown(a.get(), columns),
            first_unknown(b.get(), columns),
        ),
        Expr::Coalesce(a, b) => first_of(
            first_unknown(a.get(), columns),
            first_unknown(b.get(), columns),
        ),
        Expr::If(c, a, b) => {
            let first = first_of(
                first_unknown(c.get(), columns),
                first_unknown(a.get(), columns),
            );
            first_of(first, first_unknown(b.get(), columns))
        }
        Expr::Not(a) => first_unknown(a.get(), columns),
        Expr::Negated(a) => first_unknown(a.get(), columns),
        Expr::IsNull(a) => first_unknown(a.get(), columns),
        Expr::IsNotNull(a) => first_unknown(a.get(), columns),
        Expr::Abs(a) => first_unknown(a.get(), columns),
        Expr::Length(a) => first_unknown(a.get(), columns),
        Expr::Scale(a, _) => first_unknown(a.get(), columns),
        Expr::Number { .. } => None,
        Expr::Text(_) => None,
    }
}

// The first of two names, where it is there.
fn first_of<'e>(first: Option<&'e Text>, second: Option<&'e Text>) -> Option<&'e Text>
    ensures { option_copied result ≡ option_or (option_copied first.entry) (option_copied second.entry) }
{
    match first {
        Some(name) => Some(name),
        None => second,
    }
}

fn unknown<'e>(columns: &[Column], name: &'e Text) -> Option<&'e Text>
    ensures { option_copied result ≡ find (is_unknown columns.now) (name.now ∷ []) }
{
    if is_unknown(columns, name) {
        Some(name)
    } else {
        None
    }
}

fn column_kind(columns: &[Column], name: &Text) -> Option<ExprKind>
    ensures { result ≡ column_kind (find (λ c. bytes_eq c.name name.now) columns.now) }
{
    match columns.iter().find(|column| column.name == *name) {
        None => None,
        Some(column) => Some(ExprKind::Value {
            kind: column.kind,
            nullable: column.nullable,
        }),
    }
}

// The kind of a number of so many places.
fn number_kind(places: u8) -> Option<ColumnKind>
    ensures { result ≡ number_kind places }
{
    match places {
        0 => Some(ColumnKind::Int),
        1..=6 => Some(ColumnKind::Dec(places)),
        _ => None,
    }
}

// How many places the numbers of a column have.
fn places_of(kind: ColumnKind) -> Option<u8>
    ensures { result ≡ places_of kind }
{
    match kind {
        ColumnKind::Int => Some(0),
        ColumnKind::Dec(places) => Some(places),
        ColumnKind::Text => None,
    }
}

// A number of so many places that may be Null.
fn number(places: Option<u8>) -> Option<ExprKind>
    ensures { result ≡ as_number places }
{
    match number_kind(places?) {
        None => None,
        Some(kind) => Some(ExprKind::Value {
            kind,
            nullable: true,
        }),
    }
}

// The kind of a sum or a difference: the greater number of places.
fn sum_kind(left: ExprKind, right: ExprKind) -> Option<ExprKind>
    ensures { result ≡ arithmetic max left right }
{
    match (left, right) {
        (ExprKind::Value { kind: k, .. }, ExprKind::Value { kind: l, .. }) => {
            let (p, q) = (places_of(k)?, places_of(l)?);
            number(Some(p.max(q)))
        }
        _ => None,
    }
}

// The kind of a product: the places of both.
fn product_kind(left: ExprKind, right: ExprKind) -> Option<ExprKind>
    ensures { result ≡ arithmetic ◌+◌ left right }
{
    match (left, right) {
        (ExprKind::Value { kind: k, .. }, ExprKind::Value { kind: l, .. }) => {
            let (p, q) = (places_of(k)?, places_of(l)?);
            number(p.checked_add(q))
        }
        _ => None,
    }
}

// The kind of a quotient: the places of the dividend.
fn quotient_kind(left: ExprKind, right: ExprKind) -> Option<ExprKind>
    ensures { result ≡ arithmetic (λ p q. p) left right }
{
    match (left, right) {
        (ExprKind::Value { kind: k, .. }, ExprKind::Value { kind: l, .. }) => {
            let (p, _) = (places_of(k)?, places_of(l)?);
            number(Some(p))
        }
        _ => None,
    }
}

fn are_comparable(left: ColumnKind, right: ColumnKind) -> bool
    ensures { result ≡ are_comparable left right }
{
    (left == ColumnKind::Text) == (right == ColumnKind::Text)
}

fn comparison(left: ExprKind, right: ExprKind) -> Option<ExprKind>
    ensures { result ≡ comparison left right }
{
    match (left, right) {
        (ExprKind::Value { kind: k, .. }, ExprKind::Value { kind: l, .. })
            if are_comparable(k, l) => Some(ExprKind::Truth),
        _ => None,
    }
}

fn truths(left: ExprKind, right: ExprKind) -> Option<ExprKind>
    ensures { result ≡ truths left right }
{
    match (left, right) {
        (ExprKind::Truth, ExprKind::Truth) => Some(ExprKind::Truth),
        _ => None,
    }
}

fn texts(left: ExprKind, right: ExprKind) -> Option<ExprKind>
    ensures { result ≡ texts left right }
{
    match (left, right) {
        (
            ExprKind::Value {
                kind: ColumnKind::Text,
                ..
            },
            ExprKind::Value {
                kind: ColumnKind::Text,
                ..
            },
        ) => Some(ExprKind::Value {
            kind: ColumnKind::Text,
            nullable: true,
        }),
        _ => None,
    }
}

fn operator_kind(operator: Operator, left: ExprKind, right: ExprKind) -> Option<ExprKind>
    ensures { result ≡ operator_kind operator left right }
{
    match operator {
        Operator::Or | Operator::And => truths(left, right),
        Operator::Equal | Operator::NotEqual => comparison(left, right),
        Operator::Less | Operator::LessOrEqual => comparison(left, right),
        Operator::Greater | Operator::GreaterOrEqual => comparison(left, right),
        Operator::Plus | Operator::Minus => sum_kind(left, right),
        Operator::Join => texts(left, right),
        Operator::Times => product_kind(left, right),
        Operator::Over => quotient_kind(left, right),
    }
}

fn truth_kind(part: ExprKind) -> Option<ExprKind>
    ensures { result ≡ truth_kind part }
{
    match part {
        ExprKind::Truth => Some(ExprKind::Truth),
        ExprKind::Value { .. } => None,
    }
}

fn same_number(part: ExprKind) -> Option<ExprKind>
    ensures { result ≡ same_number part }
{
    match part {
        ExprKind::Value { kind, .. } => number(places_of(kind)),
        ExprKind::Truth => None,
    }
}

fn null_test(part: ExprKind) -> Option<ExprKind>
    ensures { result ≡ null_test part }
{
    match part {
        ExprKind::Value { .. } => Some(ExprKind::Truth),
        ExprKind::Truth => None,
    }
}

fn length_kind(part: ExprKind) -> Option<ExprKind>
    ensures { result ≡ length_kind part }
{
    match part {
        ExprKind::Value {
            kind: ColumnKind::Text,
            nullable,
        } => Some(ExprKind::Value {
            kind: ColumnKind::Int,
            nullable,
        }),
        _ => None,
    }
}

fn number_with(places: u8, part: ExprKind) -> Option<ExprKind>
    ensures { result ≡ number_with places part }
{
    match part {
        ExprKind::Value { kind, .. } => {
            let _places = places_of(kind)?;
            number(Some(places))
        }
        ExprKind::Truth => None,
    }
}

// A value of the one kind that both parts have, nullable where the second is.
fn coalesced_kind(first: ExprKind, second: ExprKind) -> Option<ExprKind>
    ensures { result ≡ one_kind (λ n m. m) first second }
{
    match (first, second) {
        (ExprKind::Value { kind: k, .. }, ExprKind::Value { kind: l, nullable }) if k == l => Some(
            ExprKind::Value { kind: k, nullable },
        ),
        _ => None,
    }
}

// A value of the one kind that both branches have, nullable where either is.
fn branches_kind(first: ExprKind, second: ExprKind) -> Option<ExprKind>
    ensures { result ≡ one_kind ◌||◌ first second }
{
    match (first, second) {
        (
            ExprKind::Value {
                kind: k,
                nullable: n,
            },
            ExprKind::Value {
                kind: l,
                nullable: m,
            },
        ) if k == l => Some(ExprKind::Value {
            kind: k,
            nullable: n || m,
        }),
        _ => None,
    }
}

fn choice_kind(test: ExprKind, first: ExprKind, second: ExprKind) -> Option<ExprKind>
    ensures { result ≡ choice_kind test first second }
{
    match test {
        ExprKind::Truth => branches_kind(first, second),
        ExprKind::Value { .. } => None,
    }
}

// The kind of an expression, if it has one.
fn kind_of(expr: &Expr, columns: &[Column]) -> Option<ExprKind>
    ensures { result ≡ kind_of columns.now (tree_of expr.now) }
{
    match expr {
        Expr::Number { places, .. } => literal_kind(*places),
        Expr::Text(_) => Some(ExprKind::Value {
            kind: ColumnKind::Text,
            nullable: false,
        }),
        Expr::Column(name) => column_kind(columns, name),
        Expr::Infix(operator, a, b) => {
            let left = kind_of(a.get(), columns)?;
            operator_kind(*operator, left, kind_of(b.get(), columns)?)
        }
        Expr::Not(a) => truth_kind(kind_of(a.get(), columns)?),
        Expr::Negated(a) => same_number(kind_of(a.get(), columns)?),
        Expr::IsNull(a) => null_test(kind_of(a.get(), columns)?),
        Expr::IsNotNull(a) => null_test(kind_of(a.get(), columns)?),
        Expr::Abs(a) => same_number(kind_of(a.get(), columns)?),
        Expr::Length(a) => length_kind(kind_of(a.get(), columns)?),
        Expr::Scale(a, places) => number_with(*places, kind_of(a.get(), columns)?),
        Expr::Coalesce(a, b) => {
            let first = kind_of(a.get(), columns)?;
            coalesced_kind(first, kind_of(b.get(), columns)?)
        }
        Expr::If(c, a, b) => {
            let test = kind_of(c.get(), columns)?;
            let first = kind_of(a.get(), columns)?;
            choice_kind(test, first, kind_of(b.get(), columns)?)
        }
    }
}

// The kind of a number that is written out.
fn literal_kind(places: u8) -> Option<ExprKind>
    ensures { result ≡ option_map (λ k. ExprKind.Value k false) (number_kind places) }
{
    match number_kind(places) {
        None => None,
        Some(kind) => Some(ExprKind::Value {
            kind,
            nullable: false,
        }),
    }
}
