//! What numbers and strings stand for (ECMA-262 5.1 §7.8).
//!
//! The lexer passes none that are too large or cut off. Where one is, the answer is none.
ghost use Rattle.std.specs.Prelude.{◌≡◌, ◌≤◌, drop, length, true, ◌++◌, OnOk, IfOk, IfSome, MatchResult};
ghost use Rattle.std.specs.Char.Utf16.{is_high_surrogate, is_low_surrogate, surrogate_pair_char};
ghost use Rattle.std.specs.Str.{chars, IsUtf8};
ghost use Rattle.std.specs.Str.Parse.{digits_value};
ghost use Rattle.njs_tree.specs.Lexical as lexical;
ghost use Rattle.njs_tree.specs.Lexical.{escape_at, hex_escape, hex_value, max_number, pair_escape, unit_escape};
ghost use Rattle.njs_tree.specs.TokenList.{string_value, stood_for};
ghost use Rattle.njs_expr.specs.Escapes.{IsPart, escape_of, listed};

use crate::ParseStop;
use njs_lexer::escapes::{hex_pair, hex_unit, is_high, is_low, plain_len, second_unit};
use njs_lexer::rest::{Run, begins, behind, first, past};
use njs_text::Text;
use njs_tree::is_line_end;
use std::alloc::{AllocError, Global};

const MAX_NUMBER: u64 = 9_007_199_254_740_991;

// The value of some digits.
fn digits(text: &str, radix: u32) -> Option<u64>
    requires upper { radix ≤ 16 }
    requires lower { 2 ≤ radix }
    ensures value { IfSome result (λ n. n ≡ digits_value radix (chars text.now)) }
    ensures small { IfSome result (λ n. n ≤ max_number) }
{
    let mut rest = text;
    let mut value: u64 = 0;
    while let Some(c) = first(rest) {
        let digit = c.to_digit(radix)?;
        value = value * u64::from(radix) + u64::from(digit);
        if value > MAX_NUMBER {
            return None;
        }
        rest = behind(rest);
    }
    Some(value)
}

/// The value of a number.
pub fn number_value(text: &str) -> Option<u64>
    ensures value { IfSome result (λ n. n ≡ lexical.number_value (chars text.now)) }
    ensures small { IfSome result (λ n. n ≤ max_number) }
{
    match first(text) {
        None => Some(0),
        Some('0') => digits(past(text, 2), 16),
        Some(_) => digits(text, 10),
    }
}

// The character of a high and a low surrogate.
fn paired(high: u32, low: u32) -> Option<char>
    requires high { is_high_surrogate high ≡ true }
    requires low { is_low_surrogate low ≡ true }
    ensures { IfSome result (λ c. c ≡ surrogate_pair_char high low) }
{
    char::from_u32(0x10000 + (high - 0xD800) * 0x400 + (low - 0xDC00))
}

// What an escape stands for that begins with a high surrogate, and its length without the backslash.
fn pair_escape(high: u32, after: &str) -> Option<(Option<char>, usize)>
    requires { is_high_surrogate high ≡ true }
    ensures { IfSome result (λ e. pair_escape high (lexical.second_unit (chars after.now)) ≡ escape_of e) }
{
    let low = second_unit(after)?;
    if !is_low(low) {
        return None;
    }
    let c = paired(high, low)?;
    Some((Some(c), 11))
}

// By the text after the `u`.
fn unit_escape(text: &str) -> Option<(Option<char>, usize)>
    ensures { IfSome result (λ e. unit_escape (hex_value 4 (chars text.now)) (drop 4 (chars text.now)) ≡ escape_of e) }
{
    let unit = hex_unit(text)?;
    if is_high(unit) {
        return pair_escape(unit, past(text, 4));
    }
    if is_low(unit) {
        return None;
    }
    let c = char::from_u32(unit)?;
    Some((Some(c), 5))
}

// By the text after the `x`.
fn hex_escape(text: &str) -> Option<(Option<char>, usize)>
    ensures { IfSome result (λ e. hex_escape (hex_value 2 (chars text.now)) ≡ escape_of e) }
{
    let value = hex_pair(text)?;
    let c = char::from_u32(value)?;
    Some((Some(c), 3))
}

fn escaped(c: char) -> char
    ensures { result ≡ lexical.escaped c }
{
    match c {
        'b' => '\u{8}',
        't' => '\t',
        'n' => '\n',
        'v' => '\u{b}',
        'f' => '\u{c}',
        'r' => '\r',
        c => c,
    }
}

// What the escape after a backslash stands for, and its length.
fn escape(text: &str) -> Option<(Option<char>, usize)>
    ensures { IfSome result (λ e. escape_at (chars text.now) ≡ escape_of e) }
{
    let after = behind(text);
    match first(text)? {
        'u' => unit_escape(after),
        'x' => hex_escape(after),
        '0' => {
            if begins(Run::Decimal, after) {
                None
            } else {
                Some((Some('\0'), 1))
            }
        }
        c if c.is_digit(10) => None,
        c if is_line_end(c) => Some((None, plain_len(c, after))),
        c => Some((Some(escaped(c)), 1)),
    }
}

// What a character inside of a string stands for, with the escape that a backslash begins, and what follows.
fn part(c: char, after: &str) -> Option<(Option<char>, &str)>
    ensures part { IfSome result (λ p. IsPart c (chars after.now) p.0 (chars p.1.now)) }
    ensures utf8 { IfSome result (λ p. IsUtf8 p.1.now) }
    ensures short { IfSome result (λ p. length (chars p.1.now) ≤ length (chars after.now)) }
{
    if is_line_end(c) {
        return None;
    }
    if c != '\\' {
        return Some((Some(c), after));
    }
    let (stands, len) = escape(after)?;
    Some((stands, past(after, len)))
}

// Puts a character behind the others, if there is one.
fn put(list: &mut Vec<char>, c: Option<char>) -> Result<(), AllocError>
    ensures { OnOk result (list.new.items ≡ list.old.items ++ listed c) }
{
    if let Some(c) = c {
        list.push(c)?;
    }
    Ok(())
}

// What a string stands for, by the text after its opening quote.
fn string_parts(alloc: Global, quote: char, text: &str) -> Result<Option<Vec<char>>, AllocError>
    ensures { IfOk result (λ found. IfSome found (λ list. stood_for (lexical.string_from quote (chars text.now) 0) ≡ list.items)) }
{
    let mut list = Vec::new(alloc);
    let mut rest = text;
    while let Some(c) = first(rest) {
        if c == quote {
            return Ok(Some(list));
        }
        match part(c, behind(rest)) {
            Some((stands, next)) => {
                put(&mut list, stands)?;
                rest = next;
            }
            None => return Ok(None),
        }
    }
    Ok(None)
}

// By the text from the opening quote on.
fn string_chars(alloc: Global, text: &str) -> Result<Option<Vec<char>>, AllocError>
    ensures { IfOk result (λ found. IfSome found (λ list. string_value (chars text.now) ≡ list.items)) }
{
    match first(text) {
        Some(quote) => string_parts(alloc, quote, behind(text)),
        None => Ok(None),
    }
}

fn text_from(alloc: Global, list: &[char]) -> Result<Text, ParseStop>
    ensures { MatchResult result (λ text. text ≡ list.now) (λ stop. stop ≡ ParseStop.NoMemory) }
{
    match Text::from_chars(alloc, list) {
        Ok(text) => Ok(text),
        Err(_) => Err(ParseStop::NoMemory),
    }
}

/// What a string stands for, by the text from its opening quote on.
pub fn string_text(alloc: Global, text: &str) -> Result<Text, ParseStop>
    ensures { MatchResult result (λ value. value ≡ string_value (chars text.now)) (λ stop. stop ≡ ParseStop.NoMemory) }
{
    match string_chars(alloc, text) {
        Ok(Some(list)) => text_from(alloc, &list),
        _ => Err(ParseStop::NoMemory),
    }
}
