// The expression of a text, read byte by byte.
ghost use Rattle.std.specs.Prelude.{◌≡◌, List, [], option_map, false, ◌+◌, ◌<◌, ◌≤◌, ◌^◌, length, reverse, slice_range, slice_index, true, IsUtf8, IfOk, Ok, Err, Some, None};
ghost use Rattle.tuple_schema.specs.Words.{Gives, GivesView, IfFault};
ghost use Rattle.expr_grammar.specs.Words.{IsText, IsFirstFault, is_number, is_text, said, kind_of, continues};
ghost use Rattle.expr_grammar.specs.Words.{scan_of, IsScanned, at_mode, takes_in, led, past, ended, begun, stepped};
ghost use Rattle.expr_grammar.specs.Words.{read, reading, start};
ghost use Rattle.expr_grammar.specs.declared.expr.Expr.{Expr};
ghost use Rattle.expr_grammar.specs.declared.fault.ExprFault.{ExprFault};
ghost use Rattle.expr_grammar.specs.declared.state.Frame.{Frame};

use crate::expr::Expr;
use crate::fault::{ExprFault, ExprWhat};
use crate::reader::{begins, is_within, reduce, take, take_digit};
use crate::scan::Scan;
use crate::state::{Frame, Kind, Mode};
use crate::tokens::{kind_of, said, units_of};
use std::alloc::Global;
use tuple_schema::{Memory, Stop};

/// The longest text of an expression, in bytes.
pub const MAX_EXPR_BYTES: usize = 4096;

/// The expression of a text, or the text's first fault.
pub fn parse(alloc: Global, text: &str) -> Result<Expr, Stop<ExprFault>>
    // What is found is the expression of the text.
    ensures found { IfOk result (λ x. IsText text.now x) }

    // An expression's text is read as it, unless memory runs out.
    ensures only { (x : Expr) → IsText text.now x → Gives result (Ok x) }

    // A fault is the text's first.
    ensures fault { IfFault result (λ f. IsFirstFault text.now f) }

    // The text's first fault is found, unless memory runs out.
    ensures exact { (f : ExprFault) → IsFirstFault text.now f → Gives result (Err f) }

    // That is: the text is read as what it is.
    ensures reads { Gives result (reading text.now) }
{
    read_text(alloc, text.as_bytes())
}

#[tactic(auto, unfolding(crate::specs::Machine::reading))]
fn read_text(alloc: Global, text: &[u8]) -> Result<Expr, Stop<ExprFault>>
    requires { IsUtf8 text.now }
    ensures { Gives result (reading text.now) }
{
    if text.len() > MAX_EXPR_BYTES {
        return Err(Stop::Fault(ExprFault {
            at: 4096,
            what: ExprWhat::TooLong,
        }));
    }
    read_all(alloc, text)
}

// A token that is being read: where it starts, and what has been read of it.
#[derive(Clone, Copy)]
struct Token {
    start: u32,
    scan: Scan,
}

fn unexpected(at: u32) -> ExprFault
    ensures { result ≡ record { at = at; what = ExprWhat.Unexpected } }
{
    ExprFault {
        at,
        what: ExprWhat::Unexpected,
    }
}

// The state after a number.
#[tactic(auto, using(crate::proofs::Steps::number_steps))]
fn past_number(at: u32, mode: Mode, scan: Scan, token: &[u8]) -> Result<Mode, Stop<ExprFault>>
    requires scanned { scan ≡ scan_of token.now }
    requires number { is_number token.now ≡ true }
    requires inside { length token.now ≤ at }
    ensures { (fs : List Frame) → GivesView (λ m. at_mode m fs) result
        (led true at token.now (takes_in mode fs Kind.Number token.now)) }
{
    match mode {
        Mode::Operand => match units_of(token) {
            Some(units) => Ok(Mode::After(
                8,
                Expr::Number {
                    units,
                    places: scan.places(),
                },
            )),
            None => Err(Stop::Fault(ExprFault {
                at: at - token.len() as u32,
                what: ExprWhat::BadNumber,
            })),
        },
        Mode::Digit(operand) => past_digit(at, operand, token),
        Mode::Opening(_) => Err(Stop::Fault(unexpected(at))),
        Mode::After(_, _) => Err(Stop::Fault(unexpected(at))),
        Mode::Is(_) => Err(Stop::Fault(unexpected(at))),
        Mode::IsNot(_) => Err(Stop::Fault(unexpected(at))),
        Mode::Scaled(_, _) => Err(Stop::Fault(unexpected(at))),
    }
}

// The state after a number that stands for a scale.
fn past_digit(at: u32, operand: Expr, token: &[u8]) -> Result<Mode, Stop<ExprFault>>
    requires number { is_number token.now ≡ true }
    ensures { (fs : List Frame) → GivesView (λ m. at_mode m fs) result
        (led true at token.now (takes_in (Mode.Digit operand) fs Kind.Number token.now)) }
{
    match take_digit(operand, token) {
        Some(mode) => Ok(mode),
        None => Err(Stop::Fault(unexpected(at))),
    }
}

// The state after a text in quotes.
#[tactic(auto, using(crate::proofs::Steps::text_steps))]
fn past_text(alloc: Global, at: u32, mode: Mode, token: &[u8]) -> Result<Mode, Stop<ExprFault>>
    requires text { is_text token.now ≡ true }
    requires utf8 { IsUtf8 (said token.now) }
    requires short { length token.now ≤ 4096 }
    ensures { (fs : List Frame) → GivesView (λ m. at_mode m fs) result
        (led true at token.now (takes_in mode fs Kind.Text token.now)) }
{
    match mode {
        Mode::Operand => Ok(Mode::After(8, Expr::Text(said(alloc, token)?))),
        Mode::Opening(_) => Err(Stop::Fault(unexpected(at))),
        Mode::After(_, _) => Err(Stop::Fault(unexpected(at))),
        Mode::Is(_) => Err(Stop::Fault(unexpected(at))),
        Mode::IsNot(_) => Err(Stop::Fault(unexpected(at))),
        Mode::Digit(_) => Err(Stop::Fault(unexpected(at))),
        Mode::Scaled(_, _) => Err(Stop::Fault(unexpected(at))),
    }
}

// What is wrong where a token that is neither a number nor a text can't stand: digits and a point
// that are too large a number already, or the byte that follows.
#[tactic(auto, using(crate::proofs::ScanLemmas::number_begins))]
fn refused(at: u32, scan: Scan, token: &[u8]) -> ExprFault
    requires scanned { scan ≡ scan_of token.now }
    requires number { is_number token.now ≡ false }
    requires inside { length token.now ≤ at }
    ensures { led true at token.now None ≡ Err result }
{
    if scan.begins_number() && units_of(token).is_none() {
        return ExprFault {
            at: at - token.len() as u32,
            what: ExprWhat::BadNumber,
        };
    }
    unexpected(at)
}

// What a token that is neither a number nor a text led to, where it can stand there.
#[tactic(auto, using(crate::proofs::Steps::other_steps))]
fn led(
    at: u32,
    next: Option<Mode>,
    frames: &[Frame],
    scan: Scan,
    token: &[u8],
) -> Result<Mode, Stop<ExprFault>>
    requires scanned { scan ≡ scan_of token.now }
    requires number { is_number token.now ≡ false }
    requires text { is_text token.now ≡ false }
    requires inside { length token.now ≤ at }
    ensures { GivesView (λ m. at_mode m (reverse frames.now)) result
        (led true at token.now (option_map (λ m. at_mode m (reverse frames.now)) next)) }
{
    let Some(mode) = next else {
        return Err(Stop::Fault(refused(at, scan, token)));
    };
    if is_within(&mode, frames) {
        return Ok(mode);
    }
    Err(Stop::Fault(ExprFault {
        at: at - token.len() as u32,
        what: ExprWhat::TooDeep,
    }))
}

// The state after a token that is neither a number nor a text.
#[tactic(auto, using(crate::proofs::Steps::kind_steps))]
fn past_other(
    alloc: Global,
    at: u32,
    mode: Mode,
    frames: &mut Vec<Frame>,
    scan: Scan,
    token: &[u8],
) -> Result<Mode, Stop<ExprFault>>
    requires scanned { scan ≡ scan_of token.now }
    requires number { is_number token.now ≡ false }
    requires text { is_text token.now ≡ false }
    requires some { 0 < length token.now }
    requires inside { length token.now ≤ at }
    ensures { GivesView (λ m. at_mode m (reverse frames.new.items)) result
        (past true at (at_mode mode (reverse frames.old.items)) token.now) }
{
    let next = take(alloc, mode, frames, kind_of(scan, token), token)?;
    led(at, next, frames, scan, token)
}

// The state once a token that ends at this place is taken, if there is one.
#[tactic(auto, unfolding(crate::specs::Machine::past), using(crate::proofs::Steps::token_steps))]
fn past(
    alloc: Global,
    at: u32,
    mode: Mode,
    frames: &mut Vec<Frame>,
    scan: Scan,
    token: &[u8],
) -> Result<Mode, Stop<ExprFault>>
    requires scanned { scan ≡ scan_of token.now }
    requires inside { length token.now ≤ at }
    requires short { length token.now ≤ 4096 }
    requires utf8 { is_text token.now ≡ true → IsUtf8 (said token.now) }
    ensures { GivesView (λ m. at_mode m (reverse frames.new.items)) result
        (past true at (at_mode mode (reverse frames.old.items)) token.now) }
{
    if token.is_empty() {
        return Ok(mode);
    }
    if scan.is_number() {
        return past_number(at, mode, scan, token);
    }
    if scan.is_text() {
        return past_text(alloc, at, mode, token);
    }
    past_other(alloc, at, mode, frames, scan, token)
}

// The expression, where the text ends so.
#[tactic(auto, unfolding(crate::specs::Machine::ended))]
fn ended(
    alloc: Global,
    at: u32,
    mode: Mode,
    mut frames: Vec<Frame>,
) -> Result<Expr, Stop<ExprFault>>
    ensures { Gives result (ended at (at_mode mode (reverse frames.items))) }
{
    match mode {
        Mode::After(level, operand) => {
            let (_, whole) = reduce(alloc, &mut frames, 1, level, operand)?;
            if frames.is_empty() {
                Ok(whole)
            } else {
                Err(Stop::Fault(unexpected(at)))
            }
        }
        Mode::Operand => Err(Stop::Fault(unexpected(at))),
        Mode::Opening(_) => Err(Stop::Fault(unexpected(at))),
        Mode::Is(_) => Err(Stop::Fault(unexpected(at))),
        Mode::IsNot(_) => Err(Stop::Fault(unexpected(at))),
        Mode::Digit(_) => Err(Stop::Fault(unexpected(at))),
        Mode::Scaled(_, _) => Err(Stop::Fault(unexpected(at))),
    }
}

// The state after a byte that goes on with no token, and the token that it begins.
#[tactic(auto, unfolding(crate::specs::Machine::begun), using(crate::proofs::Steps::first_byte))]
fn begin(
    text: &[u8],
    at: u32,
    mode: Mode,
    frames: &[Frame],
) -> Result<(Mode, Token), Stop<ExprFault>>
    requires inside { at < length text.now }
    requires short { length text.now ≤ 4096 }
    ensures begun { GivesView (λ r. (at_mode r.0 (reverse frames.now), slice_range text.now r.1.start (at + 1))) result
        (begun at (at_mode mode (reverse frames.now)) (slice_index text.now at)) }
    ensures within { IfOk result (λ r. r.1.start ≤ at + 1) }
    ensures scanned { IfOk result (λ r. IsScanned r.1.scan (slice_range text.now r.1.start (at + 1))) }
{
    let byte = text[at as usize];
    if byte == b' ' {
        return Ok((
            mode,
            Token {
                start: at + 1,
                scan: Scan::Empty,
            },
        ));
    }
    let scan = Scan::Empty.next(byte);
    if begins(&mode, frames, scan, &text[at as usize..at as usize + 1]) {
        return Ok((mode, Token { start: at, scan }));
    }
    Err(Stop::Fault(unexpected(at)))
}

// The state after a byte that goes on with a token.
#[tactic(auto, unfolding(crate::specs::Machine::stepped), using(crate::proofs::Steps::next_byte))]
fn go_on(
    text: &[u8],
    token: Token,
    at: u32,
    mode: Mode,
    frames: &[Frame],
) -> Result<(Mode, Token), Stop<ExprFault>>
    requires before { token.start ≤ at }
    requires inside { at < length text.now }
    requires scanned { IsScanned token.scan (slice_range text.now token.start at) }
    requires goes_on { continues (slice_range text.now token.start at) (slice_index text.now at) ≡ true }
    ensures stepped { GivesView (λ r. (
      at_mode r.0 (reverse frames.now),
      slice_range text.now r.1.start
          (at + 1),
    )) result
        (stepped true at (at_mode mode (reverse frames.now)) (slice_range text.now token.start at)
        (slice_index text.now at)) }
    ensures within { IfOk result (λ r. r.1.start ≤ at + 1) }
    ensures scanned { IfOk result (λ r. IsScanned r.1.scan (slice_range text.now r.1.start (at + 1))) }
{
    let scan = token.scan.next(text[at as usize]);
    if begins(
        &mode,
        frames,
        scan,
        &text[token.start as usize..at as usize + 1],
    ) {
        return Ok((
            mode,
            Token {
                start: token.start,
                scan,
            },
        ));
    }
    Err(Stop::Fault(unexpected(at)))
}

// Whether the token goes on with the byte.
#[tactic(auto, using(crate::proofs::Steps::token_goes_on))]
fn continues(text: &[u8], token: Token, at: u32) -> bool
    requires before { token.start ≤ at }
    requires inside { at < length text.now }
    requires scanned { IsScanned token.scan (slice_range text.now token.start at) }
    ensures { result ≡ continues (slice_range text.now token.start at) (slice_index text.now at) }
{
    token.scan.goes_on(
        text[at as usize],
        &text[token.start as usize..at as usize + 1],
    )
}

// The state after a byte, and the token that it belongs to.
#[tactic(auto, unfolding(crate::specs::Machine::stepped), using(crate::proofs::Utf8::range_said))]
fn step(
    alloc: Global,
    text: &[u8],
    token: Token,
    at: u32,
    mode: Mode,
    frames: &mut Vec<Frame>,
) -> Result<(Mode, Token), Stop<ExprFault>>
    requires utf8 { IsUtf8 text.now }
    requires before { token.start ≤ at }
    requires inside { at < length text.now }
    requires short { length text.now ≤ 4096 }
    requires scanned { IsScanned token.scan (slice_range text.now token.start at) }
    ensures stepped { GivesView (λ r. (
      at_mode r.0 (reverse frames.new.items),
      slice_range text.now r.1.start
          (at + 1),
    )) result
        (stepped true at (at_mode mode (reverse frames.old.items)) (slice_range text.now token.start at)
        (slice_index text.now at)) }
    ensures within { IfOk result (λ r. r.1.start ≤ at + 1) }
    ensures scanned { IfOk result (λ r. IsScanned r.1.scan (slice_range text.now r.1.start (at + 1))) }
{
    if continues(text, token, at) {
        return go_on(text, token, at, mode, frames);
    }
    let whole = &text[token.start as usize..at as usize];
    let mode = past(alloc, at, mode, frames, token.scan, whole)?;
    begin(text, at, mode, frames)
}

// The expression of a text that isn't too long.
fn read_all(alloc: Global, text: &[u8]) -> Result<Expr, Stop<ExprFault>>
    requires utf8 { IsUtf8 text.now }
    requires short { length text.now ≤ 4096 }
    ensures { Gives result (read true 0 start [] text.now) }
{
    let mut frames = Vec::new(alloc);
    let mut mode = Mode::Operand;
    let mut token = Token {
        start: 0,
        scan: Scan::Empty,
    };
    for at in 0..text.len() as u32 {
        let (next, read) = step(alloc, text, token, at, mode, &mut frames)?;
        mode = next;
        token = read;
    }
    finish(alloc, text, token, mode, frames)
}

// The expression of a text that has been read to its end.
#[tactic(auto, unfolding(crate::specs::Machine::read), using(crate::proofs::Utf8::range_said))]
fn finish(
    alloc: Global,
    text: &[u8],
    token: Token,
    mode: Mode,
    mut frames: Vec<Frame>,
) -> Result<Expr, Stop<ExprFault>>
    requires utf8 { IsUtf8 text.now }
    requires short { length text.now ≤ 4096 }
    requires before { token.start ≤ length text.now }
    requires scanned { IsScanned token.scan (slice_range text.now token.start (length text.now)) }
    ensures { Gives result
        (read true (length text.now) (at_mode mode (reverse frames.items))
        (slice_range text.now token.start (length text.now)) []) }
{
    let end = text.len();
    let whole = &text[token.start as usize..end];
    let mode = past(alloc, end as u32, mode, &mut frames, token.scan, whole)?;
    ended(alloc, end as u32, mode, frames)
}
