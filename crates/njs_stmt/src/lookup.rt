// What stands at a place of the tokens of a text.
ghost use Rattle.std.specs.Prelude.{◌≡◌, ◌≤◌, ℕ, List, drop, length, bytes_eq};
ghost use Rattle.std.specs.Str.{IsAscii};
ghost use Rattle.njs_tree.specs.declared.token.Mark.TheVariants as mark;
ghost use Rattle.njs_tree.specs.declared.token.Keyword.TheVariants as keyword;
ghost use Rattle.njs_tree.specs.TokenList.{Tokens, symbols_of, text_between, lexeme_by};
ghost use Rattle.njs_expr.specs.Readers.{next_of, terminal_of, sees, sees_word};
ghost use Rattle.njs_stmt.specs.Cut.{Placed, is_end};
ghost use Rattle.njs_stmt.specs.Script.{EndsAt, is_comma, line_from, semicolon_size};

use njs_text::Text;
use njs_tree::{Kind, Mark, Token};

/// The line of the token at a place.
pub fn line_at(tokens: &[Token], at: usize) -> u32
    ensures { result ≡ line_from (drop at tokens.now) }
{
    match tokens.get(at) {
        Some(token) => token.line,
        None => 1,
    }
}

fn is_spelled(text: &Text, token: Token, spelling: &str) -> bool
    requires placed { Placed text.now token }
    requires ascii { IsAscii spelling.now }
    ensures { result ≡ bytes_eq (text_between text.now token.from token.to) spelling.now }
{
    &text.as_str()[token.from..token.to] == spelling
}

fn is_export(text: &Text, token: Token) -> bool
    requires { Placed text.now token }
    ensures { result ≡ sees_word keyword.Export (terminal_of (lexeme_by token.kind text.now token)) }
{
    matches!(token.kind, Kind::Word) && is_spelled(text, token, "export")
}

fn is_default(text: &Text, token: Token) -> bool
    requires { Placed text.now token }
    ensures { result ≡ sees_word keyword.Default (terminal_of (lexeme_by token.kind text.now token)) }
{
    matches!(token.kind, Kind::Word) && is_spelled(text, token, "default")
}

pub fn is_export_at(text: &Text, tokens: &[Token], at: usize) -> bool
    requires { Tokens text.now tokens.now }
    ensures { result ≡ sees_word keyword.Export (next_of (drop at (symbols_of text.now tokens.now))) }
{
    // The scalar values of a text, as its bytes' clause says.
    let _ = text.as_bytes();
    match tokens.get(at) {
        Some(token) => is_export(text, *token),
        None => false,
    }
}

pub fn is_default_at(text: &Text, tokens: &[Token], at: usize) -> bool
    requires { Tokens text.now tokens.now }
    ensures { result ≡ sees_word keyword.Default (next_of (drop at (symbols_of text.now tokens.now))) }
{
    let _ = text.as_bytes();
    match tokens.get(at) {
        Some(token) => is_default(text, *token),
        None => false,
    }
}

fn is_comma(kind: Kind) -> bool
    ensures { result ≡ is_comma kind }
{
    matches!(kind, Kind::Mark(Mark::Comma))
}

pub fn is_comma_at(tokens: &[Token], at: usize) -> bool
    ensures { (text : List ℕ) → result ≡ sees mark.Comma (next_of (drop at (symbols_of text tokens.now))) }
{
    match tokens.get(at) {
        Some(token) => is_comma(token.kind),
        None => false,
    }
}

pub fn is_end(kind: Kind) -> bool
    ensures { result ≡ is_end kind }
{
    matches!(kind, Kind::End)
}

// How many tokens the end of a statement takes (ECMA-262 5.1 §7.9.1), or none where there is no such end.
fn semicolon_size(kind: Kind, after_break: bool) -> Option<usize>
    ensures { result ≡ semicolon_size kind after_break }
{
    match kind {
        Kind::Mark(Mark::Semicolon) => Some(1),
        Kind::Mark(Mark::RightBrace) | Kind::End => Some(0),
        _ if after_break => Some(0),
        _ => None,
    }
}

/// The place behind the end of a statement that begins at a place.
pub fn past_semicolon(tokens: &[Token], at: usize) -> Option<usize>
    requires { at ≤ length tokens.now }
    ensures { (text : List ℕ) → EndsAt (symbols_of text tokens.now) at result }
{
    match tokens.get(at) {
        None => Some(at),
        Some(token) => match semicolon_size(token.kind, token.after_break) {
            Some(size) => Some(at + size),
            None => None,
        },
    }
}
