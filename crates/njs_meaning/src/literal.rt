// Texts as numbers (ECMA-262 5.1 §9.3.1).
ghost use Rattle.std.specs.Prelude.{◌≡◌, ◌≤◌, ◌∷◌, [], ◌++◌, reverse, drop, pos, neg_ℤ, is_some, IfSome, MatchOption};
ghost use Rattle.std.specs.Option.{option_map};
ghost use Rattle.std.specs.Str.{chars};
ghost use Rattle.njs_tree.specs.Characters.{is_white, begins};
ghost use Rattle.njs_meaning.specs.Numbers.{max_safe, without_front, numeral, is_x, literal, number_of_text};
ghost use Rattle.njs_value.specs.Number.{IsSafe};

use njs_text::Text;
use njs_value::MAX_SAFE;

fn is_white(c: char) -> bool
    ensures { result ≡ is_white c }
{
    matches!(
        c,
        '\t' | '\u{b}'
            | '\u{c}'
            | ' '
            | '\u{a0}'
            | '\u{feff}'
            | '\n'
            | '\r'
            | '\u{2028}'
            | '\u{2029}'
    )
}

// The first character of a text, and what follows it.
fn split_first(text: &str) -> Option<(char, &str)>
    ensures { MatchOption result (chars text.now ≡ []) (λ parts. chars text.now ≡ parts.0 ∷ chars parts.1.now) }
{
    let mut rest = text.chars();
    let first = rest.next()?;
    Some((first, rest.as_str()))
}

// The last character of a text, and what stands before it.
fn split_last(text: &str) -> Option<(&str, char)>
    ensures { MatchOption result (chars text.now ≡ []) (λ parts. chars text.now ≡ chars parts.0.now ++ parts.1 ∷ []) }
{
    let mut rest = text.chars();
    let last = rest.next_back()?;
    Some((rest.as_str(), last))
}

// The text from its first character on that is neither white space nor a line end.
fn trimmed_front(text: &str) -> &str
    ensures { chars result.now ≡ without_front (chars text.now) }
{
    let mut rest = text;
    while let Some((first, after)) = split_first(rest) {
        if !is_white(first) {
            return rest;
        }
        rest = after;
    }
    rest
}

// The text up to its last character that is neither white space nor a line end.
fn trimmed_back(text: &str) -> &str
    ensures { chars result.now ≡ reverse (without_front (reverse (chars text.now))) }
{
    let mut rest = text;
    while let Some((before, last)) = split_last(rest) {
        if !is_white(last) {
            return rest;
        }
        rest = before;
    }
    rest
}

// The number that digits spell, if it is safe.
fn numeral(radix: u32, digits: &str) -> Option<u64>
    requires low { 2 ≤ radix }
    requires high { radix ≤ 36 }
    ensures spelled { result ≡ numeral radix (chars digits.now) }
    ensures small { IfSome result (λ number. number ≤ max_safe) }
{
    if digits.is_empty() {
        return None;
    }
    let mut number: u64 = 0;
    let mut rest = digits;
    while let Some((first, after)) = split_first(rest) {
        let digit = first.to_digit(radix)?;
        number = number * u64::from(radix) + u64::from(digit);
        if number > MAX_SAFE as u64 {
            return None;
        }
        rest = after;
    }
    Some(number)
}

fn positive(radix: u32, digits: &str) -> Option<i64>
    requires low { 2 ≤ radix }
    requires high { radix ≤ 36 }
    ensures { result ≡ option_map pos (numeral radix (chars digits.now)) }
{
    match numeral(radix, digits) {
        Some(number) => Some(number as i64),
        None => None,
    }
}

fn negative(digits: &str) -> Option<i64>
    ensures { result ≡ option_map (λ number. neg_ℤ (pos number)) (numeral 10 (chars digits.now)) }
{
    match numeral(10, digits) {
        Some(number) => Some(-(number as i64)),
        None => None,
    }
}

// What stands after the `x` of a hexadecimal number, if the text begins with one.
fn after_x(text: &str) -> Option<&str>
    ensures begins { is_some result ≡ begins is_x (chars text.now) }
    ensures rest { IfSome result (λ digits. chars digits.now ≡ drop 1 (chars text.now)) }
{
    match split_first(text) {
        Some(('x' | 'X', digits)) => Some(digits),
        _ => None,
    }
}

fn behind_zero(text: &str, after: &str) -> Option<i64>
    requires { chars text.now ≡ 48 ∷ chars after.now }
    ensures { result ≡ literal (chars text.now) }
{
    match after_x(after) {
        Some(digits) => positive(16, digits),
        None => positive(10, text),
    }
}

// The number of a text without white space at its ends.
fn literal(text: &str) -> Option<i64>
    ensures { result ≡ literal (chars text.now) }
{
    match split_first(text) {
        None => Some(0),
        Some(('+', digits)) => positive(10, digits),
        Some(('-', digits)) => negative(digits),
        Some(('0', after)) => behind_zero(text, after),
        Some(_) => positive(10, text),
    }
}

/// The number of a text (ECMA-262 5.1 §9.3.1), if it has one within plus or minus `MAX_SAFE`: between white space and
/// line ends stand nothing, decimal digits with or without a sign, or `0x` and hexadecimal digits. It takes no memory.
pub fn number_of_text(text: &Text) -> Option<i64>
    ensures number { result ≡ number_of_text text.now }
    ensures safe { IfSome result IsSafe }
{
    literal(trimmed_back(trimmed_front(text.as_str())))
}
