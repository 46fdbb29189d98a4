// Numbers.
ghost use Rattle.std.specs.Prelude.{◌≡◌, ◌==◌, ◌≤◌, ◌<◌, ◌+◌, ◌*◌, ◌^◌, min, drop, take, true, false, IfOk, IfErr, IfSome};
ghost use Rattle.std.specs.Str.{chars, IsUtf8};
ghost use Rattle.njs_tree.specs.declared.token.LexFault.TheVariants as fault;
ghost use Rattle.njs_tree.specs.Characters.{begins};
ghost use Rattle.njs_tree.specs.Lexical.{is_decimal, is_hex_start, is_bad_number, number_length, number_value, spoils_number};
ghost use Rattle.njs_lexer.specs.Steps.{ReadsDigits, digit_at};

use crate::rest::{Run, begins, begins_with, behind, first};
use njs_tree::LexFault;

// 2^53, one more than the greatest number.
const TOO_MUCH: u64 = 9_007_199_254_740_992;

/// What follows some digits, and their value, which stands still at 2^53.
#[derive(Clone, Copy)]
pub struct Digits<'a> {
    pub rest: &'a str,
    pub value: u64,
}

/// The value of the digit at the front.
pub fn digit(text: &str, radix: u32) -> Option<u32>
    requires upper { radix ≤ 16 }
    requires lower { 2 ≤ radix }
    ensures value { result ≡ digit_at radix (chars text.now) }
    ensures small { IfSome result (λ d. d < radix) }
{
    first(text)?.to_digit(radix)
}

// The longest run of digits.
fn past_digits(text: &str, radix: u32) -> Digits<'_>
    requires upper { radix ≤ 16 }
    requires lower { 2 ≤ radix }
    ensures utf8 { IsUtf8 result.rest.now }
    ensures read { ReadsDigits radix (chars text.now) (chars result.rest.now) result.value }
{
    let mut rest = text;
    let mut value: u64 = 0;
    while let Some(digit) = digit(rest, radix) {
        value = (value * u64::from(radix) + u64::from(digit)).min(TOO_MUCH);
        rest = behind(rest);
    }
    Digits { rest, value }
}

// After a 0: `x` or `X` and a hexadecimal digit.
fn is_hex_start(text: &str) -> bool
    ensures { result ≡ is_hex_start (chars text.now) }
{
    (begins_with('x', text) || begins_with('X', text)) && begins(Run::Hex, behind(text))
}

// The longest number that begins with a 0.
fn past_zero(text: &str) -> Digits<'_>
    requires { begins (λ c. c == 48) (chars text.now) ≡ true }
    ensures utf8 { IsUtf8 result.rest.now }
    ensures rest { chars result.rest.now ≡ drop (number_length (chars text.now)) (chars text.now) }
    ensures value { result.value ≡ min (number_value (take (number_length (chars text.now)) (chars text.now))) (2 ^ 53) }
{
    let after = behind(text);
    if is_hex_start(after) {
        return past_digits(behind(after), 16);
    }
    Digits {
        rest: after,
        value: 0,
    }
}

// The longest number.
fn longest(text: &str) -> Digits<'_>
    requires { begins is_decimal (chars text.now) ≡ true }
    ensures utf8 { IsUtf8 result.rest.now }
    ensures rest { chars result.rest.now ≡ drop (number_length (chars text.now)) (chars text.now) }
    ensures value { result.value ≡ min (number_value (take (number_length (chars text.now)) (chars text.now))) (2 ^ 53) }
{
    if begins_with('0', text) {
        past_zero(text)
    } else {
        past_digits(text, 10)
    }
}

fn spoils(text: &str) -> bool
    ensures { result ≡ begins spoils_number (chars text.now) }
{
    begins(Run::Part, text) || begins_with('.', text)
}

/// What follows the longest number, which nothing spoils.
#[tactic(auto, using(crate::proofs::LongestNumber::too_large))]
pub fn past_number(text: &str) -> Result<&str, LexFault>
    requires { begins is_decimal (chars text.now) ≡ true }
    ensures passed { IfOk result (λ rest. (chars rest.now ≡ drop (number_length (chars text.now)) (chars text.now)) × (is_bad_number (chars text.now) (number_length (chars text.now)) ≡ false)) }
    ensures utf8 { IfOk result (λ rest. IsUtf8 rest.now) }
    ensures bad { IfErr result (λ f. (f ≡ fault.BadNumber) × (is_bad_number (chars text.now) (number_length (chars text.now)) ≡ true)) }
{
    let number = longest(text);
    if spoils(number.rest) || number.value >= TOO_MUCH {
        return Err(LexFault::BadNumber);
    }
    Ok(number.rest)
}
