// What std and memchr say of a `str`, in terms of its scalar values.
ghost use Rattle.std.specs.Prelude.{◌≡◌, ◌≤◌, ◌++◌, length, drop, slice_get, slice_range, IfOk};
ghost use Rattle.std.specs.Str.{chars, bytes_eq, IsUtf8};
ghost use Rattle.std.specs.String.{string_bytes};
ghost use Rattle.std.specs.Ordering.{nat_cmp};
ghost use Rattle.std.specs.Cmp.Lexicographic.{slice_cmp};
ghost use Rattle.memchr.specs.Find.{FindsNeedle};

use memchr::memmem;
use std::alloc::{AllocError, Global};
use std::cmp::Ordering;

// How many scalar values a text has.
pub fn char_count(text: &str) -> usize
    ensures count { result ≡ length (chars text.now) }
    ensures utf8 { IsUtf8 text.now }
{
    text.chars().count()
}

pub fn chars_of(alloc: Global, text: &str) -> Result<Vec<char>, AllocError>
    ensures { IfOk result (λ list. list.items ≡ chars text.now) }
{
    text.chars().collect(alloc)
}

pub fn string_of(alloc: Global, list: &[char]) -> Result<String, AllocError>
    ensures { IfOk result (λ string. chars (string_bytes string) ≡ list.now) }
{
    list.iter().copied().collect(alloc)
}

pub fn joined(alloc: Global, a: &str, b: &str) -> Result<String, AllocError>
    ensures { IfOk result (λ string. chars (string_bytes string) ≡ chars a.now ++ chars b.now) }
{
    let mut string = String::from_str(alloc, a)?;
    string.push_str(b)?;
    Ok(string)
}

pub fn compare_chars(a: &str, b: &str) -> Ordering
    ensures { result ≡ slice_cmp nat_cmp (chars a.now) (chars b.now) }
{
    a.chars().cmp(b.chars())
}

pub fn same_chars(a: &str, b: &str) -> bool
    ensures { result ≡ bytes_eq (chars a.now) (chars b.now) }
{
    a == b
}

pub fn first_char(text: &str) -> Option<char>
    ensures { result ≡ slice_get (chars text.now) 0 }
{
    text.chars().next()
}

// What follows the first values of a text, found one by one.
fn skipped(text: &str, count: usize) -> &str
    requires { count ≤ length (chars text.now) }
    ensures { chars result.now ≡ drop count (chars text.now) }
{
    let mut rest = text.chars();
    for _ in 0..count {
        rest.next();
    }
    rest.as_str()
}

// What follows the first `place` of the `count` values of a text. Where each is one byte, none has to be read.
pub fn rest_of(text: &str, count: usize, place: usize) -> &str
    requires count { count ≡ length (chars text.now) }
    requires within { place ≤ count }
    ensures { chars result.now ≡ drop place (chars text.now) }
{
    if text.len() == count {
        &text[place..]
    } else {
        skipped(text, place)
    }
}

// The values of a text from one place up to another.
pub fn part_of(text: &str, count: usize, from: usize, to: usize) -> &str
    requires count { count ≡ length (chars text.now) }
    requires order { from ≤ to }
    requires within { to ≤ count }
    ensures { chars result.now ≡ slice_range (chars text.now) from to }
{
    let rest = rest_of(text, count, from);
    let past = rest_of(text, count, to);
    &rest[..rest.len() - past.len()]
}

// The least place at which a text stands in another.
pub fn first_place(text: &str, part: &str) -> Option<usize>
    ensures { FindsNeedle (chars text.now) (chars part.now) 0 result }
{
    let byte = memmem::find(text.as_bytes(), part.as_bytes())?;
    Some(char_count(&text[..byte]))
}
