//! The parts of which escapes in strings are made (ECMA-262 5.1 §7.8.4).
ghost use Rattle.std.specs.Prelude.{◌≡◌, ◌<◌, IfSome};
ghost use Rattle.std.specs.Str.{chars};
ghost use Rattle.std.specs.Char.Utf16.{is_high_surrogate, is_low_surrogate};
ghost use Rattle.njs_tree.specs.Lexical.{hex_value, second_unit};
ghost use Rattle.njs_lexer.specs.Steps.{plain_length};

use crate::numbers::digit;
use crate::rest::{begins_with, behind, past};

/// The value of two hexadecimal digits at the front.
pub fn hex_pair(text: &str) -> Option<u32>
    ensures value { result ≡ hex_value 2 (chars text.now) }
    ensures small { IfSome result (λ v. v < 256) }
{
    let high = digit(text, 16)?;
    let low = digit(behind(text), 16)?;
    Some(high * 16 + low)
}

/// The value of four hexadecimal digits at the front.
pub fn hex_unit(text: &str) -> Option<u32>
    ensures value { result ≡ hex_value 4 (chars text.now) }
    ensures small { IfSome result (λ v. v < 65536) }
{
    let high = hex_pair(text)?;
    let low = hex_pair(past(text, 2))?;
    Some(high * 256 + low)
}

/// Whether a UTF-16 unit is the first of a pair.
pub fn is_high(unit: u32) -> bool
    ensures { result ≡ is_high_surrogate unit }
{
    matches!(unit, 0xD800..=0xDBFF)
}

/// Whether a UTF-16 unit is the second of a pair.
pub fn is_low(unit: u32) -> bool
    ensures { result ≡ is_low_surrogate unit }
{
    matches!(unit, 0xDC00..=0xDFFF)
}

/// The second unit of a pair: `\u` and four digits at the front.
pub fn second_unit(text: &str) -> Option<u32>
    ensures value { result ≡ second_unit (chars text.now) }
    ensures small { IfSome result (λ v. v < 65536) }
{
    let after = behind(text);
    if begins_with('\\', text) && begins_with('u', after) {
        hex_unit(behind(after))
    } else {
        None
    }
}

/// The length of an escape that stands for a line end, or for one character, without its backslash.
pub fn plain_len(c: char, after: &str) -> usize
    ensures { result ≡ plain_length c (chars after.now) }
{
    if c == '\r' && begins_with('\n', after) {
        2
    } else {
        1
    }
}
