// White space, line ends and comments.
ghost use Rattle.std.specs.Prelude.{◌≡◌, ◌+◌, ◌<◌, if◌then◌else◌, ℕ, Option, None, Some, IfSome};
ghost use Rattle.std.specs.Str.{chars, IsUtf8};
ghost use Rattle.njs_tree.specs.Characters.{ends_line};
ghost use Rattle.njs_tree.specs.Lexical.{blank_length, block_length, comment_length};
ghost use Rattle.njs_lexer.specs.Steps.{IsPast, IsPastBlanks, closes};

use crate::rest::{Run, begins_with, behind, first, past_run};
use njs_tree::{is_line_end, is_white};

/// What follows, and how many lines ended before.
#[derive(Clone, Copy)]
pub struct Past<'a> {
    pub rest: &'a str,
    pub lines: usize,
}

// One where a line ends with the character.
fn line_ended(c: char, after: &str) -> usize
    ensures { result ≡ (if ends_line c (chars after.now) then 1 else 0) }
{
    if is_line_end(c) && !(c == '\r' && begins_with('\n', after)) {
        1
    } else {
        0
    }
}

// A `*`, and then a `/`.
fn closes(c: char, after: &str) -> bool
    ensures { result ≡ closes c (chars after.now) }
{
    c == '*' && begins_with('/', after)
}

// Past the next `*/`.
fn past_block(text: &str) -> Option<Past<'_>>
    ensures closed { IfSome result (λ past. (n : ℕ) × (block_length (chars text.now) ≡ Some n) × IsPast (chars text.now) n (chars past.rest.now) past.lines) }
    ensures utf8 { IfSome result (λ past. IsUtf8 past.rest.now) }
    ensures open { result ≡ None → block_length (chars text.now) ≡ None }
{
    let mut rest = text;
    let mut lines = 0;
    while let Some(c) = first(rest) {
        let after = behind(rest);
        if closes(c, after) {
            let rest = behind(after);
            return Some(Past { rest, lines });
        }
        lines += line_ended(c, after);
        rest = after;
    }
    None
}

// The comment whose first `/` stands before the text.
fn past_comment(text: &str) -> Option<Past<'_>>
    ensures passed { IfSome result (λ past. (n : ℕ) × (comment_length (chars text.now) ≡ n + 1) × IsPast (chars text.now) n (chars past.rest.now) past.lines) }
    ensures utf8 { IfSome result (λ past. IsUtf8 past.rest.now) }
    ensures none { result ≡ None → comment_length (chars text.now) ≡ 0 }
{
    let after = behind(text);
    if begins_with('/', text) {
        let rest = past_run(Run::InLine, after);
        return Some(Past { rest, lines: 0 });
    }
    if begins_with('*', text) {
        return past_block(after);
    }
    None
}

// One white space, line end or comment.
fn past_blank(text: &str) -> Option<Past<'_>>
    ensures passed { IfSome result (λ past. (0 < blank_length (chars text.now)) × IsPast (chars text.now) (blank_length (chars text.now)) (chars past.rest.now) past.lines) }
    ensures utf8 { IfSome result (λ past. IsUtf8 past.rest.now) }
    ensures none { result ≡ None → blank_length (chars text.now) ≡ 0 }
{
    let c = first(text)?;
    let rest = behind(text);
    if is_white(c) {
        let lines = line_ended(c, rest);
        return Some(Past { rest, lines });
    }
    if c == '/' {
        return past_comment(rest);
    }
    None
}

/// All white space, line ends and comments at the front.
pub fn past_blanks(text: &str) -> Past<'_>
    ensures utf8 { IsUtf8 result.rest.now }
    ensures past { IsPastBlanks (chars text.now) (chars result.rest.now) result.lines }
{
    let mut rest = text;
    let mut lines = 0;
    while let Some(past) = past_blank(rest) {
        lines += past.lines;
        rest = past.rest;
    }
    Past { rest, lines }
}
