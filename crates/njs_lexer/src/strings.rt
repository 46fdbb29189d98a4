// Strings.
ghost use Rattle.std.specs.Prelude.{◌≡◌, drop, ℕ, Option, None, Some, Err, IfOk, IfErr};
ghost use Rattle.std.specs.Str.{chars, IsUtf8};
ghost use Rattle.njs_tree.specs.Lexical.{hex_value, second_unit, unit_escape, hex_escape, escape_at, string_from};
ghost use Rattle.njs_lexer.specs.Steps.{length_of, pair_length, escape_fault, inside_length, EndsString};

use crate::escapes::{hex_pair, hex_unit, is_high, is_low, plain_len, second_unit};
use crate::rest::{Run, begins, behind, first, past};
use njs_tree::{LexFault, is_line_end};

// The length of the rest of an escape that begins with a high surrogate.
fn pair_len(text: &str) -> Option<usize>
    ensures { result ≡ pair_length (second_unit (chars text.now)) }
{
    if is_low(second_unit(text)?) {
        Some(11)
    } else {
        None
    }
}

// The length of a `\u` escape without its backslash, by the text after the `u`.
fn unit_len(text: &str) -> Option<usize>
    ensures { result ≡ length_of (unit_escape (hex_value 4 (chars text.now)) (drop 4 (chars text.now))) }
{
    let unit = hex_unit(text)?;
    if is_high(unit) {
        return pair_len(past(text, 4));
    }
    if is_low(unit) { None } else { Some(5) }
}

// The length of a `\x` escape without its backslash.
fn hex_len(text: &str) -> Option<usize>
    ensures { result ≡ length_of (hex_escape (hex_value 2 (chars text.now))) }
{
    hex_pair(text)?;
    Some(3)
}

// The length of the escape without its backslash.
fn escape_len(text: &str) -> Option<usize>
    ensures { result ≡ length_of (escape_at (chars text.now)) }
{
    let after = behind(text);
    match first(text)? {
        'u' => unit_len(after),
        'x' => hex_len(after),
        '0' => {
            if begins(Run::Decimal, after) {
                None
            } else {
                Some(1)
            }
        }
        c if c.is_digit(10) => None,
        c => Some(plain_len(c, after)),
    }
}

// What follows the escape.
fn past_escape(text: &str) -> Result<&str, LexFault>
    ensures passed { IfOk result (λ rest. (n : ℕ) × (length_of (escape_at (chars text.now)) ≡ Some n) × (chars rest.now ≡ drop n (chars text.now))) }
    ensures utf8 { IfOk result (λ rest. IsUtf8 rest.now) }
    ensures bad { IfErr result (λ f. (length_of (escape_at (chars text.now)) ≡ None) × (f ≡ escape_fault (chars text.now))) }
{
    match escape_len(text) {
        Some(count) => Ok(past(text, count)),
        None => Err(escape_fault(text)),
    }
}

// Why no escape follows a backslash.
fn escape_fault(text: &str) -> LexFault
    ensures { result ≡ escape_fault (chars text.now) }
{
    match first(text) {
        None => LexFault::OpenText,
        Some(_) => LexFault::BadEscape,
    }
}

/// What follows the closing quote.
pub fn past_string(quote: char, text: &str) -> Result<&str, LexFault>
    ensures passed { IfOk result (λ rest. EndsString quote (chars text.now) (chars rest.now)) }
    ensures utf8 { IfOk result (λ rest. IsUtf8 rest.now) }
    ensures bad { IfErr result (λ f. string_from quote (chars text.now) 0 ≡ Err f) }
{
    let mut rest = text;
    while let Some(c) = first(rest) {
        let after = behind(rest);
        if c == quote {
            return Ok(after);
        }
        if is_line_end(c) {
            return Err(LexFault::OpenText);
        }
        match past_inside(c, after) {
            Ok(next) => rest = next,
            Err(fault) => return Err(fault),
        }
    }
    Err(LexFault::OpenText)
}

// What follows a character inside of a string, and the escape that a backslash begins.
fn past_inside(c: char, after: &str) -> Result<&str, LexFault>
    ensures passed { IfOk result (λ rest. (n : ℕ) × (inside_length c (chars after.now) ≡ Some n) × (chars rest.now ≡ drop n (chars after.now))) }
    ensures utf8 { IfOk result (λ rest. IsUtf8 rest.now) }
    ensures bad { IfErr result (λ f. (inside_length c (chars after.now) ≡ None) × (f ≡ escape_fault (chars after.now))) }
{
    if c == '\\' {
        past_escape(after)
    } else {
        Ok(after)
    }
}
