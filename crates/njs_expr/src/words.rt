//! Words, and what a token is to the grammar.
ghost use Rattle.std.specs.Prelude.{◌≡◌, None, Some, MatchOption, MatchResult};
ghost use Rattle.std.specs.Fmt.{decimal};
ghost use Rattle.std.specs.Str.{chars};
ghost use Rattle.njs_tree.specs.Lexemes.{Lexeme, word, word_text};
ghost use Rattle.njs_tree.specs.Lexical.{number_value};
ghost use Rattle.njs_tree.specs.Symbols.{lexeme_of};
ghost use Rattle.njs_tree.specs.TokenList.{symbols_of, symbol_of, text_between, text_from, string_value};
ghost use Rattle.njs_expr.specs.Readers.{next_of, terminal_of, take_number, take_string};
ghost use Rattle.njs_expr.specs.Cuts.{IsOf, AreOf};

use crate::{ParseStop, Terminal};
use njs_text::Text;
use njs_tree::{Kind, Token, keyword_of};
use std::alloc::Global;

fn word_terminal(slice: &str) -> Terminal
    ensures { result ≡ terminal_of (word (chars slice.now)) }
{
    match keyword_of(slice) {
        Some(keyword) => Terminal::Reserved(keyword),
        None => Terminal::Name,
    }
}

/// The characters of a token.
pub fn slice<'a>(text: &'a str, token: &Token) -> &'a str
    requires { IsOf (chars text.now) token.now }
    ensures { chars result.now ≡ text_between (chars text.now) token.now.from token.now.to }
{
    &text[token.from..token.to]
}

/// The text from a token on.
fn from_token<'a>(text: &'a str, token: &Token) -> &'a str
    requires { IsOf (chars text.now) token.now }
    ensures { chars result.now ≡ text_from (chars text.now) token.now.from }
{
    &text[token.from..]
}

/// A text of its own. It is no longer than the text that it was cut from.
pub fn text_of(alloc: Global, slice: &str) -> Result<Text, ParseStop>
    ensures { MatchResult result (λ text. text ≡ chars slice.now) (λ stop. stop ≡ ParseStop.NoMemory) }
{
    match Text::from_utf8(alloc, slice.as_bytes()) {
        Ok(text) => Ok(text),
        Err(_) => Err(ParseStop::NoMemory),
    }
}

/// The characters of the first token, where it is a word.
pub fn word_of<'a>(text: &'a str, tokens: &[Token]) -> Option<&'a str>
    requires { AreOf (chars text.now) tokens.now }
    ensures { MatchOption result (word_text (lexeme_of (symbols_of (chars text.now) tokens.now)) ≡ None) (λ w. word_text (lexeme_of (symbols_of (chars text.now) tokens.now)) ≡ Some (chars w.now)) }
{
    match tokens {
        [] => None,
        [token, ..] => match token.kind {
            Kind::Word => Some(slice(text, token)),
            _ => None,
        },
    }
}

/// The characters of the first token, where it is a number.
#[tactic(auto, unfolding(crate::specs::Readers::take_number))]
pub fn number_of<'a>(text: &'a str, tokens: &[Token]) -> Option<&'a str>
    requires { AreOf (chars text.now) tokens.now }
    ensures { MatchOption result (take_number (symbols_of (chars text.now) tokens.now) ≡ None) (λ s. lexeme_of (symbols_of (chars text.now) tokens.now) ≡ Lexeme.number (number_value (chars s.now))) }
{
    match tokens {
        [] => None,
        [token, ..] => match token.kind {
            Kind::Number => Some(slice(text, token)),
            _ => None,
        },
    }
}

/// The text from the first token on, where it is a string.
#[tactic(auto, unfolding(crate::specs::Readers::take_string))]
pub fn string_of<'a>(text: &'a str, tokens: &[Token]) -> Option<&'a str>
    requires { AreOf (chars text.now) tokens.now }
    ensures { MatchOption result (take_string (symbols_of (chars text.now) tokens.now) ≡ None) (λ s. lexeme_of (symbols_of (chars text.now) tokens.now) ≡ Lexeme.string (string_value (chars s.now))) }
{
    match tokens {
        [] => None,
        [token, ..] => match token.kind {
            Kind::Str => Some(from_token(text, token)),
            _ => None,
        },
    }
}

/// The decimal digits of a number.
pub fn decimal(alloc: Global, number: u64) -> Result<Text, ParseStop>
    ensures { MatchResult result (λ text. text ≡ decimal number) (λ stop. stop ≡ ParseStop.NoMemory) }
{
    match format!(in alloc; "{number}") {
        Ok(digits) => text_of(alloc, digits.as_str()),
        Err(_) => Err(ParseStop::NoMemory),
    }
}

fn terminal_of(text: &str, token: &Token) -> Terminal
    requires { IsOf (chars text.now) token.now }
    ensures { result ≡ terminal_of (symbol_of (chars text.now) token.now).lexeme }
{
    match token.kind {
        Kind::Word => word_terminal(slice(text, token)),
        Kind::Number => Terminal::Number,
        Kind::Str => Terminal::Str,
        Kind::Mark(mark) => Terminal::Mark(mark),
        Kind::End => Terminal::End,
    }
}

/// What the first of some tokens is to the grammar.
pub fn terminal(text: &str, tokens: &[Token]) -> Terminal
    requires { AreOf (chars text.now) tokens.now }
    ensures { result ≡ next_of (symbols_of (chars text.now) tokens.now) }
{
    match tokens {
        [] => Terminal::End,
        [token, ..] => terminal_of(text, token),
    }
}
