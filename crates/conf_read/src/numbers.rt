// Numbers and quantities of a configuration.
ghost use Rattle.std.specs.Prelude.{◌≡◌, ◌-◌, ◌<◌, ◌≤◌, ◌^◌, ◌∷◌, IfSome, option_map};
ghost use Rattle.conf_read.specs.Values.{when, is_digit, digits, number, within, size_unit, size_of, time_unit, time_of, is_octet, octet_at, after_octets, are_octets, is_host};

use crate::words::{Class, behind, run};

fn digit(c: char) -> Option<u64>
    ensures value { result ≡ when (is_digit c) (c - 48) }
    ensures small { IfSome result (λ digit. digit ≤ 9) }
{
    if c.is_ascii_digit() {
        Some(u64::from(u32::from(c) - u32::from('0')))
    } else {
        None
    }
}

fn digits(text: &[char], most: u64) -> Option<u64>
    requires { most < 2 ^ 56 }
    ensures { result ≡ within 0 most (digits 0 text.now) }
{
    let mut number: u64 = 0;
    for c in text {
        number = number * 10 + digit(*c)?;
        if number > most {
            return None;
        }
    }
    Some(number)
}

/// A number that isn't above a bound: decimal digits without a leading zero.
pub fn number(text: &[char], most: u64) -> Option<u64>
    requires { most < 2 ^ 56 }
    ensures { result ≡ within 0 most (number text.now) }
{
    match text {
        [] => None,
        ['0'] => Some(0),
        ['0', ..] => None,
        _ => digits(text, most),
    }
}

/// A number from one bound up to another.
pub fn within(text: &[char], least: u64, most: u64) -> Option<u64>
    requires { most < 2 ^ 56 }
    ensures { result ≡ within least most (number text.now) }
{
    let number = number(text, most)?;
    if number < least { None } else { Some(number) }
}

fn size_unit(text: &[char]) -> Option<u64>
    ensures { result ≡ size_unit text.now }
{
    match text {
        [] => Some(1),
        ['k' | 'K'] => Some(1024),
        ['m' | 'M'] => Some(1_048_576),
        _ => None,
    }
}

fn time_unit(text: &[char]) -> Option<u64>
    ensures { result ≡ time_unit text.now }
{
    match text {
        ['m', 's'] => Some(1),
        [] | ['s'] => Some(1000),
        ['m'] => Some(60_000),
        ['h'] => Some(3_600_000),
        ['d'] => Some(86_400_000),
        _ => None,
    }
}

/// A number of bytes from 1,024 to 256 MiB, with `k`, `m` or nothing behind its digits.
pub fn size(text: &[char]) -> Option<u64>
    ensures { result ≡ size_of text.now }
{
    let (digits, behind) = run(Class::Digit, text);
    let number = number(digits, 268_435_456)?;
    let unit = size_unit(behind)?;
    let bytes = number * unit;
    if (1024..=268_435_456).contains(&bytes) {
        Some(bytes)
    } else {
        None
    }
}

/// A time of 1 to 31,536,000,000 milliseconds, with a unit or nothing behind its digits.
pub fn time(text: &[char]) -> Option<u64>
    ensures { result ≡ time_of text.now }
{
    let (digits, behind) = run(Class::Digit, text);
    let number = number(digits, 31_536_000_000)?;
    let unit = time_unit(behind)?;
    let milliseconds = number * unit;
    if (1..=31_536_000_000).contains(&milliseconds) {
        Some(milliseconds)
    } else {
        None
    }
}

fn is_octet(text: &[char]) -> bool
    ensures { result ≡ is_octet text.now }
{
    number(text, 255).is_some()
}

// What stands behind a decimal number up to 255.
fn first_octet(text: &[char]) -> Option<&[char]>
    ensures { option_map (λ rest. rest.now) result ≡ octet_at (46 ∷ text.now) }
{
    let (octet, rest) = run(Class::Other('.'), text);
    if is_octet(octet) { Some(rest) } else { None }
}

// What stands behind a point and such a number.
fn octet(text: &[char]) -> Option<&[char]>
    ensures { option_map (λ rest. rest.now) result ≡ octet_at text.now }
{
    let octet = behind('.', text)?;
    first_octet(octet)
}

fn after_octets(text: &[char]) -> Option<&[char]>
    ensures { option_map (λ rest. rest.now) result ≡ after_octets text.now }
{
    let second = first_octet(text)?;
    let third = octet(second)?;
    let fourth = octet(third)?;
    octet(fourth)
}

fn are_octets(text: &[char]) -> bool
    ensures { result ≡ are_octets text.now }
{
    match after_octets(text) {
        None => false,
        Some(rest) => rest.is_empty(),
    }
}

const LOCALHOST: &[char] = &['l', 'o', 'c', 'a', 'l', 'h', 'o', 's', 't'];

/// Whether a text is `localhost`, or four decimal numbers up to 255 with points.
pub fn is_host(text: &[char]) -> bool
    ensures { result ≡ is_host text.now }
{
    text == LOCALHOST || are_octets(text)
}
