//! A text from its front: the first scalar value, and what follows.
ghost use Rattle.std.specs.Prelude.{◌≡◌, ◌==◌, drop, slice_get};
ghost use Rattle.std.specs.Str.{chars};
ghost use Rattle.njs_tree.specs.Characters.{begins};
ghost use Rattle.njs_tree.specs.Lexical.{front_length};
ghost use Rattle.njs_lexer.specs.Runs.{test_of};

use njs_tree::{is_line_end, is_part};

/// Kinds of characters of which runs are passed over.
#[derive(Clone, Copy, Debug, PartialEq, Eq)]
pub enum Run {
    Part,
    Decimal,
    Hex,
    InLine,
}

fn passes(kind: Run, c: char) -> bool
    ensures { result ≡ test_of kind c }
{
    match kind {
        Run::Part => is_part(c),
        Run::Decimal => c.is_digit(10),
        Run::Hex => c.is_digit(16),
        Run::InLine => !is_line_end(c),
    }
}

/// The first scalar value, if there is one.
pub fn first(text: &str) -> Option<char>
    ensures { result ≡ slice_get (chars text.now) 0 }
{
    text.chars().next()
}

/// What follows the first scalar value, if there is one.
pub fn behind(text: &str) -> &str
    ensures { chars result.now ≡ drop 1 (chars text.now) }
{
    let mut rest = text.chars();
    rest.next();
    rest.as_str()
}

/// What follows so many scalar values.
pub fn past(text: &str, count: usize) -> &str
    ensures { chars result.now ≡ drop count (chars text.now) }
{
    let mut rest = text;
    for _ in 0..count {
        rest = behind(rest);
    }
    rest
}

/// Whether the first scalar value is of a kind.
pub fn begins(kind: Run, text: &str) -> bool
    ensures { result ≡ begins (test_of kind) (chars text.now) }
{
    match first(text) {
        None => false,
        Some(c) => passes(kind, c),
    }
}

/// Whether the first scalar value is this one.
pub fn begins_with(expected: char, text: &str) -> bool
    ensures { result ≡ begins (λ c. c == expected) (chars text.now) }
{
    match first(text) {
        None => false,
        Some(c) => c == expected,
    }
}

/// What follows the longest run at the front.
pub fn past_run(kind: Run, text: &str) -> &str
    ensures { chars result.now ≡ drop (front_length (test_of kind) (chars text.now)) (chars text.now) }
{
    let mut rest = text;
    while begins(kind, rest) {
        rest = behind(rest);
    }
    rest
}
