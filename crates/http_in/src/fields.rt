// Fields by their names, and the lists in their values.
ghost use Rattle.std.specs.Prelude.{◌≡◌, ◌≤◌, ◌==◌, ◌∷◌, length, take, drop, map, All, codes};
ghost use Rattle.std.specs.Str.{str_eq_ignore_ascii_case};
ghost use Rattle.httparse.specs.Grammar.{is_ows, skip_ows, trim_ows};
ghost use Rattle.httparse.specs.Spans.{IsHeaderWithin, header_bytes};
ghost use Rattle.http_in.specs.Fields.{values, names_word, has_option};
ghost use Rattle.http_in.specs.Deciding.{ValuesAre};

use httparse::spans::{HeaderSpan, Span};

/// The values of the fields of one name.
#[derive(Clone, Copy, Debug, PartialEq, Eq)]
pub(crate) enum Values {
    Missing,
    One(Span),
    More,
}

fn is_same_name(name: &[u8], other: &[u8]) -> bool
    ensures { result ≡ str_eq_ignore_ascii_case name.now other.now }
{
    name.eq_ignore_ascii_case(other)
}

/// The values of the fields of this name, whatever the case of its letters.
pub(crate) fn values_of(head: &[u8], fields: &[HeaderSpan], name: &[u8]) -> Values
    requires { All (IsHeaderWithin (length head.now)) fields.now }
    ensures { ValuesAre result head.now (values name.now (map (header_bytes head.now) fields.now)) }
{
    let mut found = Values::Missing;
    for field in fields {
        if is_same_name(field.name.of(head), name) {
            match found {
                Values::Missing => found = Values::One(field.value),
                _ => return Values::More,
            }
        }
    }
    found
}

fn is_blank(byte: u8) -> bool
    ensures { result ≡ is_ows byte }
{
    byte == b' ' || byte == b'\t'
}

fn trim_start(bytes: &[u8]) -> &[u8]
    ensures { result.now ≡ skip_ows bytes.now }
{
    for (index, byte) in bytes.iter().enumerate() {
        if !is_blank(*byte) {
            return &bytes[index..];
        }
    }
    &[]
}

fn trim(bytes: &[u8]) -> &[u8]
    ensures { result.now ≡ trim_ows bytes.now }
{
    let inner = trim_start(bytes);
    let mut end = inner.len();
    while end > 0 && is_blank(inner[end - 1]) {
        end -= 1;
    }
    &inner[..end]
}

/// Whether the list names the word.
pub(crate) fn names_word(word: &[u8], list: &[u8]) -> bool
    ensures { result ≡ names_word word.now list.now }
{
    list.split(|byte| *byte == b',')
        .any(|part| is_same_name(trim(part), word))
}

/// Whether a field `Connection` lists the option (RFC 9110 §7.6.1).
pub(crate) fn has_option(head: &[u8], fields: &[HeaderSpan], word: &[u8]) -> bool
    requires { All (IsHeaderWithin (length head.now)) fields.now }
    ensures { result ≡ has_option word.now (values (codes "Connection") (map (header_bytes head.now) fields.now)) }
{
    for field in fields {
        if is_same_name(field.name.of(head), b"Connection")
            && names_word(word, field.value.of(head))
        {
            return true;
        }
    }
    false
}
