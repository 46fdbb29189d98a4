// The next token of a text.
ghost use Rattle.std.specs.Prelude.{◌≡◌, ◌==◌, ◌&&◌, ◌+◌, ◌-◌, ◌^◌, min, true, false, Some, slice_get, IfOk, IfErr};
ghost use Rattle.std.specs.Str.{chars, encode_utf8_all, IsCharBoundary, IsUtf8};
ghost use Rattle.njs_tree.specs.Characters.{is_letter, begins};
ghost use Rattle.njs_tree.specs.Lexical.{blank_length, fault_at, is_decimal, is_quote};
ghost use Rattle.njs_tree.specs.TokenList.{NextFrom, OneList, text_from, line_after};
ghost use Rattle.njs_lexer.specs.Steps.{Cuts};
ghost use Rattle.njs_lexer.specs.Laws.{TokensMean};

use crate::blanks::past_blanks;
use crate::marks::past_mark;
use crate::numbers::past_number;
use crate::rest::{Run, begins, begins_with, behind, first, past_run};
use crate::strings::past_string;
use njs_text::Text;
use njs_tree::{Kind, LexFault, Token, is_letter};

fn begins_fraction(c: char, after: &str) -> bool
    ensures { result ≡ ((c == 46) && begins is_decimal (chars after.now)) }
{
    c == '.' && begins(Run::Decimal, after)
}

fn begins_comment(c: char, after: &str) -> bool
    ensures { result ≡ ((c == 47) && begins (λ d. d == 42) (chars after.now)) }
{
    c == '/' && begins_with('*', after)
}

// A mark at the front, and what follows it.
fn mark(c: char, text: &str) -> Result<(Kind, &str), LexFault>
    requires first { slice_get (chars text.now) 0 ≡ Some c }
    requires blank { blank_length (chars text.now) ≡ 0 }
    requires letter { is_letter c ≡ false }
    requires digit { is_decimal c ≡ false }
    requires quote { is_quote c ≡ false }
    ensures token { IfOk result (λ found. Cuts (chars text.now) found.0 (chars found.1.now)) }
    ensures utf8 { IfOk result (λ found. IsUtf8 found.1.now) }
    ensures fault { IfErr result (λ f. fault_at (chars text.now) ≡ Some f) }
{
    let after = behind(text);
    if begins_fraction(c, after) {
        return Err(LexFault::BadNumber);
    }
    if begins_comment(c, after) {
        return Err(LexFault::OpenComment);
    }
    match past_mark(text) {
        Some((mark, rest)) => Ok((Kind::Mark(mark), rest)),
        None => Err(LexFault::BadByte),
    }
}

fn is_quote(c: char) -> bool
    ensures { result ≡ is_quote c }
{
    c == '"' || c == '\''
}

fn number(c: char, text: &str) -> Result<(Kind, &str), LexFault>
    requires first { slice_get (chars text.now) 0 ≡ Some c }
    requires blank { blank_length (chars text.now) ≡ 0 }
    requires digit { is_decimal c ≡ true }
    ensures token { IfOk result (λ found. Cuts (chars text.now) found.0 (chars found.1.now)) }
    ensures utf8 { IfOk result (λ found. IsUtf8 found.1.now) }
    ensures fault { IfErr result (λ f. fault_at (chars text.now) ≡ Some f) }
{
    match past_number(text) {
        Ok(rest) => Ok((Kind::Number, rest)),
        Err(fault) => Err(fault),
    }
}

fn string(c: char, text: &str) -> Result<(Kind, &str), LexFault>
    requires first { slice_get (chars text.now) 0 ≡ Some c }
    requires blank { blank_length (chars text.now) ≡ 0 }
    requires quote { is_quote c ≡ true }
    ensures token { IfOk result (λ found. Cuts (chars text.now) found.0 (chars found.1.now)) }
    ensures utf8 { IfOk result (λ found. IsUtf8 found.1.now) }
    ensures fault { IfErr result (λ f. fault_at (chars text.now) ≡ Some f) }
{
    match past_string(c, behind(text)) {
        Ok(rest) => Ok((Kind::Str, rest)),
        Err(fault) => Err(fault),
    }
}

// The token that begins with a character, and what follows it.
fn token_from(c: char, text: &str) -> Result<(Kind, &str), LexFault>
    requires first { slice_get (chars text.now) 0 ≡ Some c }
    requires blank { blank_length (chars text.now) ≡ 0 }
    ensures token { IfOk result (λ found. Cuts (chars text.now) found.0 (chars found.1.now)) }
    ensures utf8 { IfOk result (λ found. IsUtf8 found.1.now) }
    ensures fault { IfErr result (λ f. fault_at (chars text.now) ≡ Some f) }
{
    if is_letter(c) {
        return Ok((Kind::Word, past_run(Run::Part, text)));
    }
    if c.is_digit(10) {
        return number(c, text);
    }
    if is_quote(c) {
        return string(c, text);
    }
    mark(c, text)
}

// The token at the front, or the end, and what follows it.
fn token(text: &str) -> Result<(Kind, &str), LexFault>
    requires { blank_length (chars text.now) ≡ 0 }
    ensures token { IfOk result (λ found. Cuts (chars text.now) found.0 (chars found.1.now)) }
    ensures utf8 { IfOk result (λ found. IsUtf8 found.1.now) }
    ensures fault { IfErr result (λ f. fault_at (chars text.now) ≡ Some f) }
{
    match first(text) {
        None => Ok((Kind::End, text)),
        Some(c) => token_from(c, text),
    }
}

// The line after some more. It stands still at the greatest `u32`.
fn line_after(line: u32, more: usize) -> u32
    ensures { result ≡ line_after line more }
{
    if more >= (u32::MAX - line) as usize {
        u32::MAX
    } else {
        line + more as u32
    }
}

/// The next token from the byte `at` on, behind white space and comments, or the first fault (ECMA-262 5.1 §7). Places are bytes of
/// the text's UTF-8, and `line` is the line of the byte `at`. Behind the last token stands one of the kind `End`, of no length. A
/// string may hold escaped line ends, so the byte `to` can stand on a later line than the token. It takes no memory.
pub fn next(text: &Text, at: usize, line: u32) -> Result<Token, LexFault>
    requires { IsCharBoundary (encode_utf8_all text.now) at }
    ensures { NextFrom text.now (text_from text.now at) line result }
{
    let whole = text.as_str();
    let past = past_blanks(&whole[at..]);
    match token(past.rest) {
        Ok((kind, rest)) => Ok(Token {
            kind,
            from: whole.len() - past.rest.len(),
            to: whole.len() - rest.len(),
            line: line_after(line, past.lines),
            after_break: past.lines > 0,
        }),
        Err(fault) => Err(fault),
    }
}

/// A text has one list of tokens at most.
pub fn one_token_list_per_text()
    ensures { OneList }
{}

/// A token stands for the word, number, string or mark that it was cut as.
pub fn tokens_stand_for_their_lexemes()
    ensures { TokensMean }
{}
