// Words and their parts.
ghost use Rattle.std.specs.Prelude.{◌≡◌, ◌≤◌, length, IfOk, IfSome, option_map};
ghost use Rattle.conf_read.specs.Values.{named, is_word, is_path, run_of, passes, behind, stripped, last_part, stem_of};

use njs_text::{NoMemory, Text, TextFault};
use std::alloc::Global;

/// Kinds of characters that make up a run.
#[derive(Clone, Copy, Debug, PartialEq, Eq)]
pub enum Class {
    Digit,
    Other(char),
}

/// Whether a text is this word.
pub fn is_word(text: &Text, word: &[u8]) -> bool
    ensures { result ≡ is_word text.now word.now }
{
    text.as_bytes() == word
}

fn passes(class: Class, c: char) -> bool
    ensures { result ≡ passes class c }
{
    match class {
        Class::Digit => c.is_ascii_digit(),
        Class::Other(mark) => c != mark,
    }
}

/// The longest run of a class at the front, and what is behind.
pub fn run(class: Class, text: &[char]) -> (&[char], &[char])
    ensures parts { (result.0.now, result.1.now) ≡ run_of (passes class) text.now }
    ensures front { length result.0.now ≤ length text.now }
    ensures rest { length result.1.now ≤ length text.now }
{
    let mut count = 0;
    for c in text {
        if !passes(class, *c) {
            break;
        }
        count += 1;
    }
    text.split_at(count)
}

/// What stands behind a mark.
pub fn behind(mark: char, text: &[char]) -> Option<&[char]>
    ensures rest { option_map (λ rest. rest.now) result ≡ behind mark text.now }
    ensures few { IfSome result (λ rest. length rest.now ≤ length text.now) }
{
    match text {
        [] => None,
        [c, rest @ ..] => { if *c == mark { Some(rest) } else { None } }
    }
}

/// What stands behind these characters at the front.
pub fn stripped<'a>(front: &[char], text: &'a [char]) -> Option<&'a [char]>
    ensures rest { option_map (λ rest. rest.now) result ≡ stripped front.now text.now }
    ensures few { IfSome result (λ rest. length rest.now ≤ length text.now) }
{
    if text.starts_with(front) {
        Some(&text[front.len()..])
    } else {
        None
    }
}

/// What stands behind the last `/`.
pub fn last_part(text: &[char]) -> &[char]
    ensures part { result.now ≡ last_part text.now }
    ensures few { length result.now ≤ length text.now }
{
    let mut part = text;
    let mut rest = text;
    while let [c, after @ ..] = rest {
        if *c == '/' {
            part = after;
        }
        rest = after;
    }
    part
}

const JS: &[char] = &['.', 'j', 's'];

/// What stands before `.js` at the end.
pub fn stem(text: &[char]) -> Option<&[char]>
    ensures part { option_map (λ part. part.now) result ≡ stem_of text.now }
    ensures few { IfSome result (λ part. length part.now ≤ length text.now) }
{
    let (part, end) = text.split_at(text.len().saturating_sub(3));
    if end == JS { Some(part) } else { None }
}

/// The text of some characters of a text.
pub fn text_of(alloc: Global, part: &[char]) -> Result<Text, NoMemory>
    requires { length part.now ≤ 1048576 }
    ensures { IfOk result (λ text. text ≡ part.now) }
{
    match Text::from_chars(alloc, part) {
        Ok(text) => Ok(text),
        Err(TextFault::NoMemory | TextFault::TooLong | TextFault::NotUtf8(_)) => Err(NoMemory),
    }
}

/// The text of these characters where it is a name of the language.
pub fn name(alloc: Global, part: &[char]) -> Result<Option<Text>, NoMemory>
    requires { length part.now ≤ 1048576 }
    ensures { IfOk result (λ name. name ≡ named part.now) }
{
    let text = text_of(alloc, part)?;
    if njs_tree::is_name(&text) {
        Ok(Some(text))
    } else {
        Ok(None)
    }
}

/// Whether a text begins with `/`.
pub fn is_path(text: &Text) -> bool
    ensures { result ≡ is_path text.now }
{
    text.at(0) == Some('/')
}
