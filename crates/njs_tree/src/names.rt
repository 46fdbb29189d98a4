// Words, and those that are names. A word is ASCII, so it is told of a text's bytes.
ghost use Rattle.std.specs.Prelude.{◌≡◌};
ghost use Rattle.std.specs.List.{list_all};
ghost use Rattle.std.specs.Str.{chars};
ghost use Rattle.njs_tree.specs.Characters.{is_letter, is_part, begins};
ghost use Rattle.njs_tree.specs.Names.{is_word, is_reserved, is_name};

use crate::characters::{is_letter, is_part};
use crate::keywords::keyword_of;
use njs_text::Text;

fn begins_with_letter(bytes: &[u8]) -> bool
    ensures { result ≡ begins is_letter bytes.now }
{
    match bytes {
        [] => false,
        [b, ..] => is_letter(char::from(*b)),
    }
}

fn all_parts(bytes: &[u8]) -> bool
    ensures { result ≡ list_all is_part bytes.now }
{
    for b in bytes {
        if !is_part(char::from(*b)) {
            return false;
        }
    }
    true
}

fn is_word(bytes: &[u8]) -> bool
    ensures { result ≡ is_word bytes.now }
{
    begins_with_letter(bytes) && all_parts(bytes)
}

fn is_reserved(word: &str) -> bool
    ensures { result ≡ is_reserved (chars word.now) }
{
    keyword_of(word).is_some()
}

/// Whether a text is a name of the language: a word that isn't reserved (ECMA-262 5.1 §7.6). A word is a letter a to z or A to Z,
/// `$` or `_`, and then such letters and digits.
#[tactic(auto, using(crate::proofs::Ascii::word_same, crate::proofs::Ascii::chars_same))]
pub fn is_name(text: &Text) -> bool
    ensures { result ≡ is_name text.now }
{
    is_word(text.as_bytes()) && !is_reserved(text.as_str())
}
