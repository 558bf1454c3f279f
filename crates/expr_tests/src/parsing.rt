// What texts are: their trees, or what is wrong and where.
use crate::parsing_table;
use expr_grammar::{Expr, ExprFault, ExprWhat, Operator, parse};
use std::alloc::AllocError;
use std::fmt::Write;
use std::test::Fail;
use tuple_schema::Stop;

fn operator_text(operator: Operator) -> &'static str {
    match operator {
        Operator::Or => "or",
        Operator::And => "and",
        Operator::Equal => "=",
        Operator::NotEqual => "<>",
        Operator::Less => "<",
        Operator::LessOrEqual => "<=",
        Operator::Greater => ">",
        Operator::GreaterOrEqual => ">=",
        Operator::Plus => "+",
        Operator::Minus => "-",
        Operator::Join => "||",
        Operator::Times => "*",
        Operator::Over => "/",
    }
}

#[cycle(show)]
fn show_call(out: &mut String, name: &str, part: &Expr) -> Result<(), AllocError> {
    out.push('(')?;
    out.push_str(name)?;
    out.push(' ')?;
    show(out, part)?;
    out.push(')')
}

// The tree of an expression, in parentheses.
#[cycle(show)]
fn show(out: &mut String, expr: &Expr) -> Result<(), AllocError> {
    match expr {
        Expr::Number { units, places: 0 } => write!(out, "{units}"),
        Expr::Number { units, places } => write!(out, "{units}e-{places}"),
        Expr::Text(text) => {
            out.push('\'')?;
            out.push_str(text.as_str())?;
            out.push('\'')
        }
        Expr::Column(name) => out.push_str(name.as_str()),
        Expr::Infix(operator, a, b) => {
            out.push('(')?;
            out.push_str(operator_text(*operator))?;
            out.push(' ')?;
            show(out, a.get())?;
            out.push(' ')?;
            show(out, b.get())?;
            out.push(')')
        }
        Expr::Not(a) => show_call(out, "not", a.get()),
        Expr::Negated(a) => show_call(out, "neg", a.get()),
        Expr::IsNull(a) => show_call(out, "is-null", a.get()),
        Expr::IsNotNull(a) => show_call(out, "is-not-null", a.get()),
        Expr::Abs(a) => show_call(out, "abs", a.get()),
        Expr::Length(a) => show_call(out, "length", a.get()),
        Expr::Scale(a, places) => {
            out.push_str("(scale ")?;
            show(out, a.get())?;
            write!(out, " {places})")
        }
        Expr::Coalesce(a, b) => {
            out.push_str("(coalesce ")?;
            show(out, a.get())?;
            out.push(' ')?;
            show(out, b.get())?;
            out.push(')')
        }
        Expr::If(c, a, b) => {
            out.push_str("(if ")?;
            show(out, c.get())?;
            out.push(' ')?;
            show(out, a.get())?;
            out.push(' ')?;
            show(out, b.get())?;
            out.push(')')
        }
    }
}

fn what_text(what: ExprWhat) -> &'static str {
    match what {
        ExprWhat::Unexpected => "unexpected",
        ExprWhat::BadNumber => "bad number",
        ExprWhat::BadText => "bad text",
        ExprWhat::TooDeep => "too deep",
        ExprWhat::TooLong => "too long",
    }
}

// The tree of a text, or what is wrong with it.
fn answer(rt: &HostRuntime, text: &str) -> Result<String, AllocError> {
    let mut out = String::new(rt.alloc());
    match parse(rt.alloc(), text) {
        Ok(expr) => show(&mut out, &expr)?,
        Err(Stop::Memory) => out.push_str("memory")?,
        Err(Stop::Fault(ExprFault { at, what })) => {
            let what = what_text(what);
            write!(out, "{what} at {at}")?;
        }
    }
    Ok(out)
}

#[test]
fn each_text_has_its_tree_or_its_fault(rt: HostRuntime) -> Result<(), Fail> {
    let mut count = 0usize;
    for line in parsing_table::TEXTS.lines() {
        let mut parts = line.split('`');
        let _before = parts.next();
        let text = parts.next().ok_or("no text")?;
        let want = parts.next().ok_or("no answer")?;
        let found = answer(&rt, text)?;
        assert_eq!(rt; found.as_str(), want.trim_start(), "{line}");
        count = count.wrapping_add(1);
    }
    assert_eq!(rt; count, 351);
    Ok(())
}

// The piece so many times, and then the rest.
fn repeated(rt: &HostRuntime, piece: &str, count: usize, rest: &str) -> Result<String, AllocError> {
    let mut out = String::new(rt.alloc());
    for _ in 0..count {
        out.push_str(piece)?;
    }
    out.push_str(rest)?;
    Ok(out)
}

// Names of 40 letters, 64 levels, 4,096 bytes; and one more of each.
#[test]
fn limits_hold_and_no_more(rt: HostRuntime) -> Result<(), Fail> {
    for (piece, count, rest, want) in [
        ("a", 40, " or b", None),
        ("a", 41, "", Some((40, ExprWhat::Unexpected))),
        ("a", 40, "or b", Some((40, ExprWhat::Unexpected))),
        ("not ", 64, "a", None),
        ("not ", 65, "a", Some((256, ExprWhat::TooDeep))),
        ("- ", 64, "a", None),
        ("- ", 65, "a", Some((128, ExprWhat::TooDeep))),
        ("(", 64, "a", Some((65, ExprWhat::Unexpected))),
        ("(", 65, "a", Some((64, ExprWhat::TooDeep))),
        ("abs(", 64, "a", Some((257, ExprWhat::Unexpected))),
        ("abs(", 65, "a", Some((256, ExprWhat::TooDeep))),
        ("(", 64, "scale(a, 2", Some((64, ExprWhat::TooDeep))),
        ("(", 64, "scal(a, 2", Some((68, ExprWhat::Unexpected))),
        ("(", 64, "scales", Some((70, ExprWhat::Unexpected))),
        ("(", 64, "not", Some((64, ExprWhat::TooDeep))),
        ("(", 64, "no", Some((66, ExprWhat::Unexpected))),
        ("a or ", 800, "b", None),
        ("a + ", 1000, "b", None),
        ("a or b and not ", 60, "c", None),
        ("0", 4096, "", None),
        ("0", 4095, "9", None),
        ("9", 4096, "", Some((0, ExprWhat::BadNumber))),
        ("9", 4095, ".", Some((0, ExprWhat::BadNumber))),
        ("0", 4095, ".", Some((4096, ExprWhat::Unexpected))),
        ("a", 4096, "", Some((40, ExprWhat::Unexpected))),
        (" ", 4096, "", Some((4096, ExprWhat::Unexpected))),
        (" ", 4095, "a", None),
        (" ", 4096, "a", Some((4096, ExprWhat::TooLong))),
        ("'", 4096, "", None),
        ("'", 4095, "", Some((4095, ExprWhat::Unexpected))),
        ("(", 5000, "", Some((4096, ExprWhat::TooLong))),
    ] {
        let text = repeated(&rt, piece, count, rest)?;
        let found = match parse(rt.alloc(), text.as_str()) {
            Ok(_) => None,
            Err(Stop::Memory) => Some((0, ExprWhat::BadText)),
            Err(Stop::Fault(fault)) => Some((fault.at, fault.what)),
        };
        assert_eq!(rt; found, want, "{piece} {count} times, then {rest}");
    }
    Ok(())
}
