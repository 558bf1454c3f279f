// Whole tokens, and what they say.
ghost use Rattle.std.specs.Prelude.{◌≡◌, ◌<◌, ◌≤◌, ◌^◌, ◌++◌, pos, length, true, bytes_eq, IsTrue, IsUtf8, IfOk, IfSome, IfNone};
ghost use Rattle.tuple_schema.specs.Words.{is_among};
ghost use Rattle.expr_grammar.specs.Words.{words, is_column, is_scale, units, said, unquoted, kind_of, kind_among};
ghost use Rattle.expr_grammar.specs.Words.{fixed, fixed_words, scan_of};

use crate::expr::Operator;
use crate::scan::{Scan, is_digit};
use crate::state::{Function, Kind};
use std::alloc::Global;
use tuple_schema::{Memory, Text, is_name};

// Whether the token is spelt so.
fn is_spelt(token: &[u8], spelling: &str) -> bool
    ensures { result ≡ bytes_eq token.now spelling.now }
{
    token == spelling.as_bytes()
}

// Whether it is a word of the language.
fn is_keyword(token: &[u8]) -> bool
    ensures { result ≡ is_among words token.now }
{
    is_spelt(token, "or")
        || (is_spelt(token, "and")
            || (is_spelt(token, "not")
                || (is_spelt(token, "is")
                    || (is_spelt(token, "null")
                        || (is_spelt(token, "abs")
                            || (is_spelt(token, "length")
                                || (is_spelt(token, "scale")
                                    || (is_spelt(token, "coalesce")
                                        || (is_spelt(token, "if"))))))))))
}

fn is_column(token: &[u8]) -> bool
    ensures { result ≡ is_column token.now }
{
    is_name(token) && !is_keyword(token)
}

// What a token is that is always spelt alike.
fn fixed_kind(token: &[u8]) -> Kind
    ensures { result ≡ kind_among fixed token.now }
{
    if is_spelt(token, "or") {
        Kind::Infix(Operator::Or)
    } else if is_spelt(token, "and") {
        Kind::Infix(Operator::And)
    } else if is_spelt(token, "=") {
        Kind::Infix(Operator::Equal)
    } else if is_spelt(token, "<>") {
        Kind::Infix(Operator::NotEqual)
    } else if is_spelt(token, "<") {
        Kind::Infix(Operator::Less)
    } else if is_spelt(token, "<=") {
        Kind::Infix(Operator::LessOrEqual)
    } else if is_spelt(token, ">") {
        Kind::Infix(Operator::Greater)
    } else if is_spelt(token, ">=") {
        Kind::Infix(Operator::GreaterOrEqual)
    } else if is_spelt(token, "+") {
        Kind::Infix(Operator::Plus)
    } else if is_spelt(token, "-") {
        Kind::Infix(Operator::Minus)
    } else if is_spelt(token, "||") {
        Kind::Infix(Operator::Join)
    } else if is_spelt(token, "*") {
        Kind::Infix(Operator::Times)
    } else if is_spelt(token, "/") {
        Kind::Infix(Operator::Over)
    } else {
        word_kind(token)
    }
}

fn word_kind(token: &[u8]) -> Kind
    ensures { result ≡ kind_among fixed_words token.now }
{
    if is_spelt(token, "is") {
        Kind::Is
    } else if is_spelt(token, "not") {
        Kind::Not
    } else if is_spelt(token, "null") {
        Kind::Null
    } else if is_spelt(token, "abs") {
        Kind::Call(Function::Abs)
    } else if is_spelt(token, "length") {
        Kind::Call(Function::Length)
    } else if is_spelt(token, "scale") {
        Kind::Call(Function::Scale)
    } else if is_spelt(token, "coalesce") {
        Kind::Call(Function::Coalesce)
    } else if is_spelt(token, "if") {
        Kind::Call(Function::If)
    } else if is_spelt(token, "(") {
        Kind::Open
    } else if is_spelt(token, ")") {
        Kind::Close
    } else if is_spelt(token, ",") {
        Kind::Comma
    } else {
        Kind::Other
    }
}

/// What the token is.
#[tactic(auto, using(crate::proofs::Steps::token_kinds))]
pub fn kind_of(scan: Scan, token: &[u8]) -> Kind
    requires { scan ≡ scan_of token.now }
    ensures { result ≡ kind_of token.now }
{
    if scan.is_number() {
        Kind::Number
    } else if scan.is_text() {
        Kind::Text
    } else if is_column(token) {
        Kind::Name
    } else {
        fixed_kind(token)
    }
}

/// Whether the token is a digit from 0 to 6.
pub fn is_scale(token: &[u8]) -> bool
    ensures { result ≡ is_scale token.now }
{
    matches!(token, [b'0'..=b'6'])
}

/// The number of units of a number's places, where it is below 2^63.
pub fn units_of(token: &[u8]) -> Option<i64>
    ensures value { IfSome result (λ n. n ≡ pos (units token.now)) }
    ensures small { IfSome result (λ _. units token.now < 2 ^ 63) }
    ensures large { IfNone result (2 ^ 63 ≤ units token.now) }
{
    let units = digits_of(token)?;
    i64::try_from(units).ok()
}

// The number that the digits among the bytes write, where it is below 2^64.
fn digits_of(token: &[u8]) -> Option<u64>
    ensures value { IfSome result (λ n. n ≡ units token.now) }
    ensures large { IfNone result (2 ^ 64 ≤ units token.now) }
{
    let mut number: u64 = 0;
    for byte in token {
        if is_digit(*byte) {
            number = number
                .checked_mul(10)?
                .checked_add(u64::from(*byte - b'0'))?;
        }
    }
    Some(number)
}

/// The text of these bytes.
fn text_of(bytes: Vec<u8>) -> Text
    requires utf8 { IsUtf8 bytes.items }
    requires short { length bytes.items ≤ 4096 }
    ensures { result ≡ bytes.items }
{
    match String::from_utf8(bytes) {
        Ok(text) => Text::short(text),
        Err(_) => unreachable!(),
    }
}

/// A column's name.
#[tactic(auto, using(crate::proofs::Steps::column_texts))]
pub fn column_of(alloc: Global, token: &[u8]) -> Result<Text, Memory>
    requires { is_column token.now ≡ true }
    ensures { IfOk result (λ t. t ≡ token.now) }
{
    Ok(text_of(token.to_vec(alloc)?))
}

/// What a text in quotes says: a quote in it is doubled.
pub fn said(alloc: Global, token: &[u8]) -> Result<Text, Memory>
    requires some { 0 < length token.now }
    requires utf8 { IsUtf8 (said token.now) }
    requires short { length (said token.now) ≤ 4096 }
    ensures { IfOk result (λ t. t ≡ said token.now) }
{
    Ok(text_of(unquoted(alloc, &token[1..])?))
}

// What follows the first quote of a text, without every other quote.
fn unquoted(alloc: Global, bytes: &[u8]) -> Result<Vec<u8>, Memory>
    ensures { IfOk result (λ v. v.items ≡ unquoted true bytes.now) }
{
    let mut out = Vec::with_capacity(alloc, bytes.len())?;
    let mut is_open = true;
    for byte in bytes {
        if is_open && *byte == b'\'' {
            is_open = false;
        } else {
            out.push(*byte)?;
            is_open = true;
        }
    }
    Ok(out)
}
