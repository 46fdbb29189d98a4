// Texts, which contracts see as lists of scalar values.
ghost use Rattle.std.specs.Prelude.{◌≡◌, ◌==◌, ◌≤◌, ◌<◌, ◌++◌, length, true, slice_get, slice_range, IfOk};
ghost use Rattle.std.specs.Str.{all_scalars, chars, bytes_eq, encode_utf8_all};
ghost use Rattle.std.specs.Ordering.{nat_cmp};
ghost use Rattle.std.specs.Cmp.Lexicographic.{slice_cmp};
ghost use Rattle.std.specs.Cmp.{partial_equiv_from_equiv};
ghost use Rattle.std.specs.Cmp.Lexicographic.{nat_list_eq_equiv};
ghost use Rattle.memchr.specs.Find.{FindsNeedle};
ghost use Rattle.njs_text.specs.Text.{TextFrom, LossyFrom, Joined, MadeOf};
ghost use Rattle.njs_text.specs.declared.text.TextFault.TheVariants as fault;

use crate::stored::Stored;
use crate::{NoMemory, chars};
use arrayvec::ArrayString;
use std::alloc::{AllocError, Global};
use std::cmp::Ordering;
use std::fmt::{self, Debug, Formatter, Write};
use std::hash::{Hash, Hasher};
use std::marker::Model;

const MAX_LEN: usize = 1_048_576;

/// Why no text was made.
#[derive(Clone, Copy, Debug, PartialEq, Eq)]
pub enum TextFault {
    /// The bytes aren't UTF-8. The number is the length of their longest front that is.
    NotUtf8(usize),
    /// The text would have more than 1,048,576 scalar values.
    TooLong,
    /// A growth was refused.
    NoMemory,
}

impl From<AllocError> for TextFault {
    ghost from_gives = { λ _ made. made ≡ fault.NoMemory };

    fn from(_: AllocError) -> Self {
        TextFault::NoMemory
    }
}

impl From<NoMemory> for TextFault {
    ghost from_gives = { λ _ made. made ≡ fault.NoMemory };

    fn from(_: NoMemory) -> Self {
        TextFault::NoMemory
    }
}

/// A text of at most 1,048,576 Unicode scalar values. Places and lengths count scalar values, as njs does, and neither
/// bytes nor the UTF-16 units of ECMA-262 5.1 §8.4.
#[derive(Drop)]
pub struct Text {
    string: Stored,
    count: usize,
}

impl Model for Text {
    ghost use Rattle.std.specs.Prelude.{List, ℕ, length, ◌≡◌, ◌≤◌};
    ghost use Rattle.std.specs.Str.{chars};
    ghost use Rattle.njs_text.specs.Stored.{stored_bytes};

    ghost Value = { List ℕ };

    ghost view = { λ t. chars (stored_bytes t.string) };

    ghost invariant = { λ t. (t.count ≡ length (chars (stored_bytes t.string))) × (t.count ≤ 1048576) };
}

impl Text {
    /// The text that the bytes are the UTF-8 of. Bytes that aren't UTF-8 are `NotUtf8` also where they are too many.
    pub fn from_utf8(alloc: Global, bytes: &[u8]) -> Result<Text, TextFault>
        ensures { TextFrom bytes.now result }
    {
        match str::from_utf8(bytes) {
            Ok(text) => Text::of_str(alloc, text),
            Err(fault) => Err(TextFault::NotUtf8(fault.valid_up_to())),
        }
    }

    /// The text that the bytes are the UTF-8 of, with one U+FFFD for each sequence that is not UTF-8, as
    /// `String::from_utf8_lossy` of the standard library cuts them. It never answers `NotUtf8`.
    pub fn from_lossy(alloc: Global, bytes: &[u8]) -> Result<Text, TextFault>
        ensures { LossyFrom bytes.now result }
    {
        let string = String::from_utf8_lossy(alloc, bytes)?;
        let count = chars::char_count(string.as_str());
        if count > MAX_LEN {
            return Err(TextFault::TooLong);
        }
        Ok(Text {
            string: Stored::Owned(string),
            count,
        })
    }

    fn of_str(alloc: Global, text: &str) -> Result<Text, TextFault>
        ensures { TextFrom text.now result }
    {
        let count = chars::char_count(text);
        if count > MAX_LEN {
            return Err(TextFault::TooLong);
        }
        let string = String::from_str(alloc, text)?;
        Ok(Text {
            string: Stored::Owned(string),
            count,
        })
    }

    /// The text of some scalar values.
    pub fn from_chars(alloc: Global, list: &[char]) -> Result<Text, TextFault>
        ensures { MadeOf list.now result }
    {
        if list.len() > MAX_LEN {
            return Err(TextFault::TooLong);
        }
        let string = chars::string_of(alloc, list)?;
        Ok(Text {
            string: Stored::Owned(string),
            count: list.len(),
        })
    }

    /// A short text of the program, of at most 32 bytes. It takes no memory.
    pub fn fixed(text: &str) -> Text
        requires { length text.now ≤ 32 }
        ensures { result ≡ chars text.now }
    {
        let count = chars::char_count(text);
        let mut short = ArrayString::new();
        short.push_str(text);
        Text {
            string: Stored::Short(short),
            count,
        }
    }

    /// The same text. That of a fixed text takes no memory.
    pub fn copy(&self, alloc: Global) -> Result<Text, NoMemory>
        ensures { IfOk result (λ text. text ≡ self.now) }
    {
        let string = match &self.string {
            Stored::Short(text) => Stored::Short(*text),
            Stored::Owned(string) => Stored::Owned(String::from_str(alloc, string.as_str())?),
        };
        Ok(Text {
            string,
            count: self.count,
        })
    }

    /// The UTF-8 of the text.
    pub fn as_bytes(&self) -> &[u8]
        ensures bytes { result.now ≡ encode_utf8_all self.now }
        ensures scalars { all_scalars self.now ≡ true }
        ensures few { length self.now ≤ 1048576 }
    {
        let _ = &self.count;
        self.string.as_str().as_bytes()
    }

    /// The text as the standard library's own, for patterns, `write!` and parsing.
    pub fn as_str(&self) -> &str
        ensures { result.now ≡ encode_utf8_all self.now }
    {
        self.string.as_str()
    }

    /// The scalar values, one by one.
    pub fn to_chars(&self, alloc: Global) -> Result<Vec<char>, NoMemory>
        ensures { IfOk result (λ list. list.items ≡ self.now) }
    {
        Ok(chars::chars_of(alloc, self.string.as_str())?)
    }

    /// How many scalar values the text has.
    pub fn len(&self) -> usize
        ensures { result ≡ length self.now }
    {
        self.count
    }

    /// Whether the text has no scalar value.
    pub fn is_empty(&self) -> bool
        ensures { result ≡ (length self.now == 0) }
    {
        self.count == 0
    }

    /// The scalar value at a place, or none exactly from the text's length on.
    pub fn at(&self, place: usize) -> Option<char>
        ensures { result ≡ slice_get self.now place }
    {
        if place >= self.count {
            return None;
        }
        chars::first_char(chars::rest_of(self.string.as_str(), self.count, place))
    }

    /// The scalar values from one place up to another, the last one left out.
    pub fn slice(&self, alloc: Global, from: usize, to: usize) -> Result<Text, NoMemory>
        requires order { from ≤ to }
        requires within { to ≤ length self.now }
        ensures { IfOk result (λ text. text ≡ slice_range self.now from to) }
    {
        let part = chars::part_of(self.string.as_str(), self.count, from, to);
        let string = String::from_str(alloc, part)?;
        Ok(Text {
            string: Stored::Owned(string),
            count: to - from,
        })
    }

    /// The two texts, one after the other. It never answers `NotUtf8`.
    pub fn join(&self, alloc: Global, other: &Text) -> Result<Text, TextFault>
        ensures { Joined self.now other.now result }
    {
        let count = self.count + other.count;
        if count > MAX_LEN {
            return Err(TextFault::TooLong);
        }
        let string = chars::joined(alloc, self.string.as_str(), other.string.as_str())?;
        Ok(Text {
            string: Stored::Owned(string),
            count,
        })
    }

    /// The least place from `from` on at which the values of `part` stand one after the other. An empty part stands at
    /// each place up to the text's length. It takes no memory.
    pub fn index_of(&self, part: &Text, from: usize) -> Option<usize>
        ensures { FindsNeedle self.now part.now from result }
    {
        if from > self.count {
            return None;
        }
        let rest = chars::rest_of(self.string.as_str(), self.count, from);
        Some(from + chars::first_place(rest, part.string.as_str())?)
    }

    /// How the texts stand in the order by scalar values: by the first one in which they differ, and a text stands
    /// after each of its fronts. Where a text has scalar values from U+10000 on, that is not the order by UTF-16 units.
    pub fn compare(&self, other: &Text) -> Ordering
        ensures { result ≡ slice_cmp nat_cmp self.now other.now }
    {
        chars::compare_chars(self.string.as_str(), other.string.as_str())
    }
}

impl PartialEq for Text {
    ghost eq = { bytes_eq };

    ghost laws = { partial_equiv_from_equiv nat_list_eq_equiv };

    fn eq(&self, other: &Text) -> bool {
        chars::same_chars(self.string.as_str(), other.string.as_str())
    }
}

impl Eq for Text {
    ghost laws = { nat_list_eq_equiv };
}

impl Hash for Text {
    ghost use Rattle.std.specs.Hash as fed;
    ghost use Rattle.std.specs.Str.{encode_utf8_all};
    ghost use Rattle.std.proofs.Common.{ap};
    ghost use Rattle.std.specs.Cmp.Lexicographic.{bytes_decides};

    ghost hash_input = { λ t. fed.str (encode_utf8_all t) };

    ghost respects_eq = { λ a b h. ap (λ t. fed.str (encode_utf8_all t)) ((bytes_decides a b).0 h) };

    fn hash<H: Hasher>(&self, state: &mut H) {
        self.as_str().hash(state);
    }
}

impl Debug for Text {
    fn fmt<W: Write>(&self, f: &mut Formatter<W>) -> fmt::Result {
        self.as_str().fmt(f)
    }
}
