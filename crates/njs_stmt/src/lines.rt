// The lines that end between two places of a text.
ghost use Rattle.std.specs.Prelude.{◌≡◌, ◌==◌, ◌+◌, ◌≤◌, drop, length, slice_get, if◌then◌else◌};
ghost use Rattle.std.specs.Str.{chars, all_scalars, encode_utf8_all};
ghost use Rattle.njs_tree.specs.Characters.{line_at, line_ends, begins, ends_line};
ghost use Rattle.njs_tree.specs.TokenList.{text_from};
ghost use Rattle.njs_stmt.specs.Cut.{FirstEnd, IsRest, StandsIn};

use njs_text::Text;
use njs_tree::{Token, is_line_end};

// What follows the first character, if there is one.
fn behind(text: &str) -> &str
    ensures { chars result.now ≡ drop 1 (chars text.now) }
{
    let mut rest = text.chars();
    rest.next();
    rest.as_str()
}

fn begins_with_line_feed(text: &str) -> bool
    ensures { result ≡ begins (λ d. d == 10) (chars text.now) }
{
    match text.chars().next() {
        None => false,
        Some(c) => c == '\n',
    }
}

// One where a line ends with the character.
fn line_ended(c: char, after: &str) -> usize
    ensures { result ≡ (if ends_line c (chars after.now) then 1 else 0) }
{
    if is_line_end(c) && !(c == '\r' && begins_with_line_feed(after)) {
        1
    } else {
        0
    }
}

// How many lines end with the first character.
fn first_line_end(text: &str) -> usize
    ensures { FirstEnd (chars text.now) result }
{
    match text.chars().next() {
        None => 0,
        Some(c) => line_ended(c, behind(text)),
    }
}

// How many lines end between a text and a rest of it.
fn lines_between(text: &str, rest: &str) -> usize
    requires { IsRest (chars text.now) (chars rest.now) }
    ensures { result + line_ends (chars rest.now) ≡ line_ends (chars text.now) }
{
    let mut here = text;
    let mut lines = 0;
    while here.len() > rest.len() {
        lines += first_line_end(here);
        here = behind(here);
    }
    lines
}

/// The line on which the text goes on behind a token. A string may hold escaped line ends.
pub fn line_behind(text: &Text, token: Token) -> u32
    requires { StandsIn text.now token }
    ensures { result ≡ line_at text.now (text_from text.now token.to) }
{
    // A text has few characters, as its bytes' clause says.
    let _ = text.as_bytes();
    let whole = text.as_str();
    let lines = lines_between(&whole[token.from..], &whole[token.to..]);
    token.line + lines as u32
}
