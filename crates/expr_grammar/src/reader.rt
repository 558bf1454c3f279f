// The tokens that can follow, and what they lead to.
ghost use Rattle.std.specs.Prelude.{◌≡◌, ◌≢◌, ◌&&◌, true, ◌+◌, ◌<◌, ◌≤◌, ◌^◌, nat_le, ℕ, List, length, reverse, option_map, is_some, IfOk, IfSome, IfNone, [], ◌∷◌};
ghost use Rattle.std.specs.List.{list_any};
ghost use Rattle.expr_grammar.specs.Words.{level_of, left_of, right_of, is_front, is_column, scan_of, spelling};
ghost use Rattle.expr_grammar.specs.Words.{fixed, fixed_words, State, at_mode, Reduced, reduce, begins, rank, made};
ghost use Rattle.expr_grammar.specs.Words.{room, hole, opens, takes_in, takes_operand, takes_opening, takes_after};
ghost use Rattle.expr_grammar.specs.Words.{takes_is, takes_is_not, takes_scaled, with_operator, with_is, closed_in};
ghost use Rattle.expr_grammar.specs.Words.{ended_call, parted_in, parted_by, gone_on, levels, levels_in};
ghost use Rattle.expr_grammar.specs.Words.{reduced_level, closes, closes_call, parts, allows_operand, allows_after};
ghost use Rattle.expr_grammar.specs.Words.{allows, begins_by, begins_if};
ghost use Rattle.expr_grammar.specs.declared.expr.Expr.TheVariants as e;
ghost use Rattle.expr_grammar.specs.declared.expr.Expr.{Expr};
ghost use Rattle.expr_grammar.specs.declared.state.Frame.{Frame};
ghost use Rattle.expr_grammar.specs.declared.state.Kind.{Kind};
ghost use Rattle.expr_grammar.specs.declared.expr.Operator.{Operator};

use crate::expr::{Expr, Operator};
use crate::scan::{Scan, is_front};
use crate::state::{Frame, Function, Kind, Mode};
use crate::tokens::{column_of, is_scale};
use sqlite_items::Boxed;
use std::alloc::Global;
use tuple_schema::Memory;

fn level_of(op: Operator) -> u8
    ensures { result ≡ level_of op }
{
    match op {
        Operator::Or => 1,
        Operator::And => 2,
        Operator::Plus | Operator::Minus | Operator::Join => 5,
        Operator::Times | Operator::Over => 6,
        _ => 4,
    }
}

fn left_of(op: Operator) -> u8
    ensures { result ≡ left_of op }
{
    match op {
        Operator::Or => 1,
        Operator::And => 2,
        Operator::Times | Operator::Over => 6,
        _ => 5,
    }
}

fn right_of(op: Operator) -> u8
    ensures { result ≡ right_of op }
{
    match op {
        Operator::Or => 2,
        Operator::And => 3,
        Operator::Plus | Operator::Minus | Operator::Join => 6,
        Operator::Times | Operator::Over => 7,
        _ => 5,
    }
}

// The level of what a frame makes of an operand, or 0 for what is closed by a token.
fn rank(frame: &Frame) -> u8
    ensures { result ≡ rank frame.now }
{
    match frame {
        Frame::Left(op, _) => level_of(*op),
        Frame::Not => 3,
        Frame::Negated => 7,
        _ => 0,
    }
}

// The least level of what stands in the innermost frame.
fn hole(frames: &[Frame]) -> u8
    ensures { result ≡ hole (reverse frames.now) }
{
    match frames {
        [] => 1,
        [.., Frame::Left(op, _)] => right_of(*op),
        [.., Frame::Not] => 3,
        [.., Frame::Negated] => 7,
        _ => 1,
    }
}

// What a frame makes of an operand.
fn make(alloc: Global, frame: Frame, operand: Expr) -> Result<Expr, Memory>
    ensures { IfOk result (λ x. x ≡ made frame operand) }
{
    match frame {
        Frame::Left(op, left) => Ok(Expr::Infix(
            op,
            Boxed::new(alloc, left)?,
            Boxed::new(alloc, operand)?,
        )),
        Frame::Not => Ok(Expr::Not(Boxed::new(alloc, operand)?)),
        Frame::Negated => Ok(Expr::Negated(Boxed::new(alloc, operand)?)),
        Frame::Parens => Ok(operand),
        Frame::First(_) => Ok(operand),
        Frame::CoalesceSecond(_) => Ok(operand),
        Frame::IfSecond(_) => Ok(operand),
        Frame::IfThird(_, _) => Ok(operand),
    }
}

// Joins the operand with what binds at least so tightly on its left.
pub fn reduce(
    alloc: Global,
    frames: &mut Vec<Frame>,
    least: u8,
    level: u8,
    operand: Expr,
) -> Result<(u8, Expr), Memory>
    ensures { IfOk result (λ r. reduce (reverse frames.old.items) least level operand
        ≡ record { level = r.0; expr = r.1; frames = reverse frames.new.items }) }
{
    match frames.pop() {
        None => Ok((level, operand)),
        Some(frame) => {
            let rank = rank(&frame);
            if rank < least {
                frames.push(frame)?;
                return Ok((level, operand));
            }
            let whole = make(alloc, frame, operand)?;
            reduce(alloc, frames, least, rank, whole)
        }
    }
}

// How many levels are open.
fn levels(frames: &[Frame]) -> usize
    ensures levels { result ≡ levels (reverse frames.now) }
    ensures small { result ≤ length frames.now }
{
    match frames {
        [] => 0,
        [outer @ .., Frame::Left(_, _)] => levels(outer),
        [outer @ .., _] => 1 + levels(outer),
    }
}

pub fn is_within(mode: &Mode, frames: &[Frame]) -> bool
    ensures { result ≡ nat_le (levels_in mode.now (reverse frames.now)) 64 }
{
    match mode {
        Mode::Opening(_) => levels(frames) < 64,
        Mode::Operand => levels(frames) <= 64,
        Mode::After(_, _) => levels(frames) <= 64,
        Mode::Is(_) => levels(frames) <= 64,
        Mode::IsNot(_) => levels(frames) <= 64,
        Mode::Digit(_) => levels(frames) <= 64,
        Mode::Scaled(_, _) => levels(frames) <= 64,
    }
}

// Where the text stands after a token that is no number and no text, if that token can stand there.
fn take_operand(
    alloc: Global,
    frames: &mut Vec<Frame>,
    kind: Kind,
    token: &[u8],
) -> Result<Option<Mode>, Memory>
    requires number { kind ≢ Kind.Number }
    requires text { kind ≢ Kind.Text }
    requires named { kind ≡ Kind.Name → is_column token.now ≡ true }
    ensures { IfOk result (λ r. option_map (λ m. at_mode m (reverse frames.new.items)) r
        ≡ takes_operand (reverse frames.old.items) kind token.now) }
{
    match kind {
        Kind::Name => Ok(Some(Mode::After(8, Expr::Column(column_of(alloc, token)?)))),
        Kind::Open => {
            frames.push(Frame::Parens)?;
            Ok(Some(Mode::Operand))
        }
        Kind::Call(function) => Ok(Some(Mode::Opening(function))),
        Kind::Infix(op) => take_minus(frames, op),
        Kind::Not => {
            if hole(frames) > 3 {
                return Ok(None);
            }
            frames.push(Frame::Not)?;
            Ok(Some(Mode::Operand))
        }
        Kind::Number => unreachable!(),
        Kind::Text => unreachable!(),
        Kind::Is => Ok(None),
        Kind::Null => Ok(None),
        Kind::Close => Ok(None),
        Kind::Comma => Ok(None),
        Kind::Other => Ok(None),
    }
}

// A minus before an operand.
fn take_minus(frames: &mut Vec<Frame>, op: Operator) -> Result<Option<Mode>, Memory>
    ensures { (w : List ℕ) → IfOk result (λ r. option_map (λ m. at_mode m (reverse frames.new.items)) r
        ≡ takes_operand (reverse frames.old.items) (Kind.Infix op) w) }
{
    match op {
        Operator::Minus => {
            frames.push(Frame::Negated)?;
            Ok(Some(Mode::Operand))
        }
        Operator::Or => Ok(None),
        Operator::And => Ok(None),
        Operator::Equal => Ok(None),
        Operator::NotEqual => Ok(None),
        Operator::Less => Ok(None),
        Operator::LessOrEqual => Ok(None),
        Operator::Greater => Ok(None),
        Operator::GreaterOrEqual => Ok(None),
        Operator::Plus => Ok(None),
        Operator::Join => Ok(None),
        Operator::Times => Ok(None),
        Operator::Over => Ok(None),
    }
}

#[tactic(auto, using(crate::proofs::Nones::opening_none))]
fn take_opening(
    function: Function,
    frames: &mut Vec<Frame>,
    kind: Kind,
) -> Result<Option<Mode>, Memory>
    ensures { IfOk result (λ r. option_map (λ m. at_mode m (reverse frames.new.items)) r
        ≡ takes_opening function (reverse frames.old.items) kind) }
{
    match kind {
        Kind::Open => {
            frames.push(Frame::First(function))?;
            Ok(Some(Mode::Operand))
        }
        _ => Ok(None),
    }
}

fn take_operator(
    alloc: Global,
    frames: &mut Vec<Frame>,
    level: u8,
    operand: Expr,
    op: Operator,
) -> Result<Option<Mode>, Memory>
    ensures { IfOk result (λ r. option_map (λ m. at_mode m (reverse frames.new.items)) r
        ≡ with_operator op (reduce (reverse frames.old.items) (level_of op) level operand)) }
{
    let (level, left) = reduce(alloc, frames, level_of(op), level, operand)?;
    if level < left_of(op) {
        return Ok(None);
    }
    frames.push(Frame::Left(op, left))?;
    Ok(Some(Mode::Operand))
}

fn take_test(
    alloc: Global,
    frames: &mut Vec<Frame>,
    level: u8,
    operand: Expr,
) -> Result<Option<Mode>, Memory>
    ensures { IfOk result (λ r. option_map (λ m. at_mode m (reverse frames.new.items)) r
        ≡ with_is (reduce (reverse frames.old.items) 4 level operand)) }
{
    let (level, operand) = reduce(alloc, frames, 4, level, operand)?;
    if level < 5 {
        return Ok(None);
    }
    Ok(Some(Mode::Is(operand)))
}

fn end_call(
    alloc: Global,
    function: Function,
    frames: &[Frame],
    operand: Expr,
) -> Result<Option<Mode>, Memory>
    ensures { IfOk result (λ r. option_map (λ m. at_mode m (reverse frames.now)) r
        ≡ ended_call function operand (reverse frames.now)) }
{
    let _open = frames;
    match function {
        Function::Abs => Ok(Some(Mode::After(8, Expr::Abs(Boxed::new(alloc, operand)?)))),
        Function::Length => Ok(Some(Mode::After(8, Expr::Length(Boxed::new(alloc, operand)?)))),
        Function::Scale => Ok(None),
        Function::Coalesce => Ok(None),
        Function::If => Ok(None),
    }
}

fn coalesce(alloc: Global, first: Expr, second: Expr) -> Result<Expr, Memory>
    ensures { IfOk result (λ x. x ≡ e.Coalesce first second) }
{
    Ok(Expr::Coalesce(Boxed::new(alloc, first)?, Boxed::new(alloc, second)?))
}

fn choice(alloc: Global, test: Expr, first: Expr, second: Expr) -> Result<Expr, Memory>
    ensures { IfOk result (λ x. x ≡ e.If test first second) }
{
    Ok(Expr::If(
        Boxed::new(alloc, test)?,
        Boxed::new(alloc, first)?,
        Boxed::new(alloc, second)?,
    ))
}

fn close(alloc: Global, frames: &mut Vec<Frame>, operand: Expr) -> Result<Option<Mode>, Memory>
    ensures { IfOk result (λ r. option_map (λ m. at_mode m (reverse frames.new.items)) r
        ≡ closed_in operand (reverse frames.old.items)) }
{
    match frames.pop() {
        Some(Frame::Parens) => Ok(Some(Mode::After(8, operand))),
        Some(Frame::First(function)) => end_call(alloc, function, frames, operand),
        Some(Frame::CoalesceSecond(first)) => Ok(Some(Mode::After(
            8,
            coalesce(alloc, first, operand)?,
        ))),
        Some(Frame::IfThird(test, first)) => Ok(Some(Mode::After(
            8,
            choice(alloc, test, first, operand)?,
        ))),
        Some(Frame::IfSecond(_)) => Ok(None),
        Some(Frame::Left(_, _)) => Ok(None),
        Some(Frame::Not) => Ok(None),
        Some(Frame::Negated) => Ok(None),
        None => Ok(None),
    }
}

fn next_part(
    function: Function,
    frames: &mut Vec<Frame>,
    operand: Expr,
) -> Result<Option<Mode>, Memory>
    ensures { IfOk result (λ r. option_map (λ m. at_mode m (reverse frames.new.items)) r
        ≡ gone_on function operand (reverse frames.old.items)) }
{
    match function {
        Function::Scale => Ok(Some(Mode::Digit(operand))),
        Function::Coalesce => {
            frames.push(Frame::CoalesceSecond(operand))?;
            Ok(Some(Mode::Operand))
        }
        Function::If => {
            frames.push(Frame::IfSecond(operand))?;
            Ok(Some(Mode::Operand))
        }
        Function::Abs => Ok(None),
        Function::Length => Ok(None),
    }
}

fn part(frames: &mut Vec<Frame>, operand: Expr) -> Result<Option<Mode>, Memory>
    ensures { IfOk result (λ r. option_map (λ m. at_mode m (reverse frames.new.items)) r
        ≡ parted_in operand (reverse frames.old.items)) }
{
    match frames.pop() {
        Some(frame) => part_after(frame, frames, operand),
        None => Ok(None),
    }
}

// A comma after an operand in a frame.
#[tactic(auto, using(crate::proofs::Nones::parted_none))]
fn part_after(frame: Frame, frames: &mut Vec<Frame>, operand: Expr) -> Result<Option<Mode>, Memory>
    ensures { IfOk result (λ r. option_map (λ m. at_mode m (reverse frames.new.items)) r
        ≡ parted_by frame operand (reverse frames.old.items)) }
{
    match frame {
        Frame::First(function) => next_part(function, frames, operand),
        Frame::IfSecond(test) => {
            frames.push(Frame::IfThird(test, operand))?;
            Ok(Some(Mode::Operand))
        }
        _ => Ok(None),
    }
}

fn take_after(
    alloc: Global,
    frames: &mut Vec<Frame>,
    level: u8,
    operand: Expr,
    kind: Kind,
) -> Result<Option<Mode>, Memory>
    ensures { IfOk result (λ r. option_map (λ m. at_mode m (reverse frames.new.items)) r
        ≡ takes_after level operand (reverse frames.old.items) kind) }
{
    match kind {
        Kind::Infix(op) => take_operator(alloc, frames, level, operand, op),
        Kind::Is => take_test(alloc, frames, level, operand),
        Kind::Close => take_close(alloc, frames, level, operand),
        Kind::Comma => take_comma(alloc, frames, level, operand),
        _ => Ok(none_after(level, operand, kind)),
    }
}

// No other token follows an operand.
#[tactic(auto, using(crate::proofs::Nones::after_none))]
fn none_after(level: u8, operand: Expr, kind: Kind) -> Option<Mode>
    requires infix { (o : Operator) → kind ≢ Kind.Infix o }
    requires test { kind ≢ Kind.Is }
    requires close { kind ≢ Kind.Close }
    requires comma { kind ≢ Kind.Comma }
    ensures { (fs : List Frame) → option_map (λ m. at_mode m fs) result ≡ takes_after level operand fs kind }
{
    let _unused = (level, operand, kind);
    None
}

fn take_close(
    alloc: Global,
    frames: &mut Vec<Frame>,
    level: u8,
    operand: Expr,
) -> Result<Option<Mode>, Memory>
    ensures { IfOk result (λ r. option_map (λ m. at_mode m (reverse frames.new.items)) r
        ≡ takes_after level operand (reverse frames.old.items) Kind.Close) }
{
    let (_, operand) = reduce(alloc, frames, 1, level, operand)?;
    close(alloc, frames, operand)
}

fn take_comma(
    alloc: Global,
    frames: &mut Vec<Frame>,
    level: u8,
    operand: Expr,
) -> Result<Option<Mode>, Memory>
    ensures { IfOk result (λ r. option_map (λ m. at_mode m (reverse frames.new.items)) r
        ≡ takes_after level operand (reverse frames.old.items) Kind.Comma) }
{
    let (_, operand) = reduce(alloc, frames, 1, level, operand)?;
    part(frames, operand)
}

#[tactic(auto, using(crate::proofs::Nones::is_none))]
fn take_is(alloc: Global, operand: Expr, kind: Kind) -> Result<Option<Mode>, Memory>
    ensures { (fs : List Frame) → IfOk result (λ r. option_map (λ m. at_mode m fs) r ≡ takes_is operand fs kind) }
{
    match kind {
        Kind::Not => Ok(Some(Mode::IsNot(operand))),
        Kind::Null => Ok(Some(Mode::After(4, Expr::IsNull(Boxed::new(alloc, operand)?)))),
        _ => Ok(None),
    }
}

#[tactic(auto, using(crate::proofs::Nones::is_not_none))]
fn take_is_not(alloc: Global, operand: Expr, kind: Kind) -> Result<Option<Mode>, Memory>
    ensures { (fs : List Frame) → IfOk result (λ r. option_map (λ m. at_mode m fs) r ≡ takes_is_not operand fs kind) }
{
    match kind {
        Kind::Null => Ok(Some(Mode::After(4, Expr::IsNotNull(Boxed::new(alloc, operand)?)))),
        _ => Ok(None),
    }
}

#[tactic(auto, using(crate::proofs::Nones::scaled_none))]
fn take_scaled(alloc: Global, operand: Expr, digit: u8, kind: Kind) -> Result<Option<Mode>, Memory>
    ensures { (fs : List Frame) → IfOk result (λ r. option_map (λ m. at_mode m fs) r
        ≡ takes_scaled operand digit fs kind) }
{
    match kind {
        Kind::Close => Ok(Some(Mode::After(8, Expr::Scale(Boxed::new(alloc, operand)?, digit)))),
        _ => Ok(None),
    }
}

// The level of an operand once what binds at least so tightly is joined with it.
fn reduced_level(frames: &[Frame], least: u8, level: u8) -> u8
    ensures { result ≡ reduced_level (reverse frames.now) least level }
{
    match frames {
        [] => level,
        [outer @ .., frame] => {
            let rank = rank(frame);
            if rank < least {
                level
            } else {
                reduced_level(outer, least, rank)
            }
        }
    }
}

// Whether the innermost bracket can be closed.
fn closes(frames: &[Frame]) -> bool
    ensures { result ≡ closes (reverse frames.now) }
{
    match frames {
        [] => false,
        [outer @ .., Frame::Left(_, _)] => closes(outer),
        [outer @ .., Frame::Not] => closes(outer),
        [outer @ .., Frame::Negated] => closes(outer),
        [.., Frame::First(function)] => closes_call(*function),
        [.., Frame::Parens] => true,
        [.., Frame::CoalesceSecond(_)] => true,
        [.., Frame::IfThird(_, _)] => true,
        [.., Frame::IfSecond(_)] => false,
    }
}

fn closes_call(function: Function) -> bool
    ensures { result ≡ closes_call function }
{
    match function {
        Function::Abs | Function::Length => true,
        _ => false,
    }
}

// Whether the innermost bracket goes on with a comma.
fn parts(frames: &[Frame]) -> bool
    ensures { result ≡ parts (reverse frames.now) }
{
    match frames {
        [] => false,
        [outer @ .., Frame::Left(_, _)] => parts(outer),
        [outer @ .., Frame::Not] => parts(outer),
        [outer @ .., Frame::Negated] => parts(outer),
        [.., Frame::First(function)] => !closes_call(*function),
        [.., Frame::Parens] => false,
        [.., Frame::CoalesceSecond(_)] => false,
        [.., Frame::IfThird(_, _)] => false,
        [.., Frame::IfSecond(_)] => true,
    }
}

fn allows_operand(frames: &[Frame], kind: Kind) -> bool
    ensures { result ≡ allows_operand (reverse frames.now) kind }
{
    match kind {
        Kind::Number | Kind::Text | Kind::Name | Kind::Open => true,
        Kind::Call(_) => true,
        Kind::Infix(op) => op == Operator::Minus,
        Kind::Not => hole(frames) <= 3,
        _ => false,
    }
}

fn allows_after(level: u8, frames: &[Frame], kind: Kind) -> bool
    ensures { result ≡ allows_after level (reverse frames.now) kind }
{
    match kind {
        Kind::Infix(op) => left_of(op) <= reduced_level(frames, level_of(op), level),
        Kind::Is => 5 <= reduced_level(frames, 4, level),
        Kind::Close => closes(frames),
        Kind::Comma => parts(frames),
        _ => false,
    }
}

/// Whether a token of this kind can stand there.
pub fn allows(mode: &Mode, frames: &[Frame], kind: Kind) -> bool
    ensures { result ≡ allows mode.now (reverse frames.now) kind }
{
    match mode {
        Mode::Operand => allows_operand(frames, kind),
        Mode::Opening(_) => kind == Kind::Open,
        Mode::After(level, _) => allows_after(*level, frames, kind),
        Mode::Is(_) => kind == Kind::Not || kind == Kind::Null,
        Mode::IsNot(_) => kind == Kind::Null,
        Mode::Digit(_) => false,
        Mode::Scaled(_, _) => kind == Kind::Close,
    }
}

// Whether the fixed token begins so and can stand there.
fn begins_as(mode: &Mode, frames: &[Frame], token: &[u8], kind: Kind, spelling: &[u8]) -> bool
    ensures { result ≡ (is_front token.now spelling.now && allows mode.now (reverse frames.now) kind) }
{
    is_front(token, spelling) && allows(mode, frames, kind)
}

fn begins_word(mode: &Mode, frames: &[Frame], token: &[u8]) -> bool
    ensures { result ≡ list_any (λ k. is_front token.now (spelling k)
        && allows mode.now (reverse frames.now) k) fixed_words }
{
    begins_as(mode, frames, token, Kind::Is, b"is")
        || (begins_as(mode, frames, token, Kind::Not, b"not")
            || (begins_as(mode, frames, token, Kind::Null, b"null")
                || (begins_as(mode, frames, token, Kind::Call(Function::Abs), b"abs")
                    || (begins_as(mode, frames, token, Kind::Call(Function::Length), b"length")
                        || (begins_as(mode, frames, token, Kind::Call(Function::Scale), b"scale")
                            || (begins_as(
                                mode,
                                frames,
                                token,
                                Kind::Call(Function::Coalesce),
                                b"coalesce",
                            ) || (begins_as(mode, frames, token, Kind::Call(Function::If), b"if")
                                || (begins_as(mode, frames, token, Kind::Open, b"(")
                                    || (begins_as(mode, frames, token, Kind::Close, b")")
                                        || (begins_as(
                                            mode,
                                            frames,
                                            token,
                                            Kind::Comma,
                                            b",",
                                        )))))))))))
}

// Whether some fixed token that can stand there begins so.
fn begins_fixed(mode: &Mode, frames: &[Frame], token: &[u8]) -> bool
    ensures { result ≡ list_any (λ k. is_front token.now (spelling k) && allows mode.now (reverse frames.now) k) fixed }
{
    begins_as(mode, frames, token, Kind::Infix(Operator::Or), b"or")
        || (begins_as(mode, frames, token, Kind::Infix(Operator::And), b"and")
            || (begins_as(mode, frames, token, Kind::Infix(Operator::Equal), b"=")
                || (begins_as(mode, frames, token, Kind::Infix(Operator::NotEqual), b"<>")
                    || (begins_as(mode, frames, token, Kind::Infix(Operator::Less), b"<")
                        || (begins_as(
                            mode,
                            frames,
                            token,
                            Kind::Infix(Operator::LessOrEqual),
                            b"<=",
                        ) || (begins_as(mode, frames, token, Kind::Infix(Operator::Greater), b">")
                            || (begins_as(
                                mode,
                                frames,
                                token,
                                Kind::Infix(Operator::GreaterOrEqual),
                                b">=",
                            ) || (begins_as(mode, frames, token, Kind::Infix(Operator::Plus), b"+")
                                || (begins_as(
                                    mode,
                                    frames,
                                    token,
                                    Kind::Infix(Operator::Minus),
                                    b"-",
                                ) || (begins_as(
                                    mode,
                                    frames,
                                    token,
                                    Kind::Infix(Operator::Join),
                                    b"||",
                                ) || (begins_as(
                                    mode,
                                    frames,
                                    token,
                                    Kind::Infix(Operator::Times),
                                    b"*",
                                ) || (begins_as(
                                    mode,
                                    frames,
                                    token,
                                    Kind::Infix(Operator::Over),
                                    b"/",
                                ) || begins_word(mode, frames, token)))))))))))))
}

#[tactic(auto, using(crate::proofs::Steps::token_begins))]
fn begins_kind(mode: &Mode, frames: &[Frame], scan: Scan, token: &[u8]) -> bool
    requires { scan ≡ scan_of token.now }
    ensures { result ≡ begins_by mode.now (reverse frames.now) token.now }
{
    (scan.begins_number() && allows(mode, frames, Kind::Number))
        || (scan.begins_text() && allows(mode, frames, Kind::Text))
        || (scan.is_word() && token.len() <= 40 && allows(mode, frames, Kind::Name))
        || begins_fixed(mode, frames, token)
}

/// Whether some token that can stand there begins so.
#[tactic(auto, using(crate::proofs::Alike::begins_is))]
pub fn begins(mode: &Mode, frames: &[Frame], scan: Scan, token: &[u8]) -> bool
    requires { scan ≡ scan_of token.now }
    ensures { result ≡ begins (at_mode mode.now (reverse frames.now)) token.now }
{
    begins_if(mode, frames, scan, token)
}

fn begins_if(mode: &Mode, frames: &[Frame], scan: Scan, token: &[u8]) -> bool
    requires { scan ≡ scan_of token.now }
    ensures { result ≡ begins_if mode.now (reverse frames.now) token.now }
{
    match mode {
        Mode::Digit(_) => is_scale(token),
        Mode::Operand => begins_kind(mode, frames, scan, token),
        Mode::Opening(_) => begins_kind(mode, frames, scan, token),
        Mode::After(_, _) => begins_kind(mode, frames, scan, token),
        Mode::Is(_) => begins_kind(mode, frames, scan, token),
        Mode::IsNot(_) => begins_kind(mode, frames, scan, token),
        Mode::Scaled(_, _) => begins_kind(mode, frames, scan, token),
    }
}

/// Where the text stands after a token that is no number and no text, if that token can stand there.
pub fn take(
    alloc: Global,
    mode: Mode,
    frames: &mut Vec<Frame>,
    kind: Kind,
    token: &[u8],
) -> Result<Option<Mode>, Memory>
    requires number { kind ≢ Kind.Number }
    requires text { kind ≢ Kind.Text }
    requires named { kind ≡ Kind.Name → is_column token.now ≡ true }
    ensures { IfOk result (λ r. option_map (λ m. at_mode m (reverse frames.new.items)) r
        ≡ takes_in mode (reverse frames.old.items) kind token.now) }
{
    match mode {
        Mode::Operand => take_operand(alloc, frames, kind, token),
        Mode::Opening(function) => take_opening(function, frames, kind),
        Mode::After(level, operand) => take_after(alloc, frames, level, operand, kind),
        Mode::Is(operand) => take_is(alloc, operand, kind),
        Mode::IsNot(operand) => take_is_not(alloc, operand, kind),
        Mode::Digit(operand) => Ok(take_digit(operand, token)),
        Mode::Scaled(operand, digit) => take_scaled(alloc, operand, digit, kind),
    }
}

// A digit, 0 to 6, that is a token by itself.
pub fn take_digit(operand: Expr, token: &[u8]) -> Option<Mode>
    ensures { (fs : List Frame) (k : Kind) → option_map (λ m. at_mode m fs) result
        ≡ takes_in (Mode.Digit operand) fs k token.now }
{
    match token {
        [digit] if 48 <= *digit && *digit <= 54 => Some(Mode::Scaled(operand, *digit - 48)),
        _ => None,
    }
}
