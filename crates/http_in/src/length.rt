// The length of a body.
ghost use Rattle.std.specs.Prelude.{◌≡◌, ◌∷◌, [], length, map, All, codes, nat_lt};
ghost use Rattle.std.specs.Str.{bytes_eq};
ghost use Rattle.httparse.specs.Spans.{IsHeaderWithin, header_bytes};
ghost use Rattle.http_in.specs.Rules.{is_known_method, is_origin_form, has_right_hosts, is_number, stated_length, body_length};
ghost use Rattle.http_in.specs.Fields.{values};

use crate::fields::{Values, values_of};
use httparse::spans::HeaderSpan;

/// The most bytes of a body.
const MAX_BODY: usize = 1_048_576;

fn is_same(bytes: &[u8], text: &str) -> bool
    ensures { result ≡ bytes_eq bytes.now text.now }
{
    bytes == text.as_bytes()
}

fn is_known_method(method: &[u8]) -> bool
    ensures { result ≡ is_known_method method.now }
{
    is_same(method, "GET")
        || is_same(method, "HEAD")
        || is_same(method, "POST")
        || is_same(method, "PUT")
        || is_same(method, "DELETE")
        || is_same(method, "OPTIONS")
        || is_same(method, "PATCH")
}

fn is_origin_form(target: &[u8]) -> bool
    ensures { result ≡ is_origin_form target.now }
{
    matches!(target, [b'/', ..])
}

fn is_number(value: &[u8]) -> bool
    ensures { result ≡ is_number value.now }
{
    for byte in value {
        if !byte.is_ascii_digit() {
            return false;
        }
    }
    !value.is_empty()
}

// The length that the digits of one field state, or the status.
fn length_of(value: &[u8]) -> Result<usize, u16>
    ensures { result ≡ stated_length (value.now ∷ []) }
{
    if !is_number(value) {
        return Err(400);
    }
    let mut length = 0;
    for digit in value {
        length = length * 10 + usize::from(*digit - b'0');
        if length > MAX_BODY {
            return Err(413);
        }
    }
    Ok(length)
}

// The length that the fields state, or the status.
fn stated_length(head: &[u8], fields: &[HeaderSpan]) -> Result<usize, u16>
    requires { All (IsHeaderWithin (length head.now)) fields.now }
    ensures { result ≡ stated_length (values (codes "Content-Length") (map (header_bytes head.now) fields.now)) }
{
    match values_of(head, fields, b"Content-Length") {
        Values::Missing => Ok(0),
        Values::One(span) => length_of(span.of(head)),
        Values::More => Err(400),
    }
}

fn has_right_hosts(head: &[u8], fields: &[HeaderSpan], minor: u8) -> bool
    requires { All (IsHeaderWithin (length head.now)) fields.now }
    ensures { result ≡ has_right_hosts minor (values (codes "Host") (map (header_bytes head.now) fields.now)) }
{
    match values_of(head, fields, b"Host") {
        Values::Missing => minor != 1,
        Values::One(_) => true,
        Values::More => false,
    }
}

fn has_coding(head: &[u8], fields: &[HeaderSpan]) -> bool
    requires { All (IsHeaderWithin (length head.now)) fields.now }
    ensures { result ≡ nat_lt 0 (length (values (codes "Transfer-Encoding") (map (header_bytes head.now) fields.now))) }
{
    match values_of(head, fields, b"Transfer-Encoding") {
        Values::Missing => false,
        _ => true,
    }
}

/// The length of the body, or the status with which the head is refused.
#[tactic(auto, unfolding(crate::specs::Rules::body_length))]
pub(crate) fn body_length(
    method: &[u8],
    target: &[u8],
    minor: u8,
    head: &[u8],
    fields: &[HeaderSpan],
) -> Result<usize, u16>
    requires { All (IsHeaderWithin (length head.now)) fields.now }
    ensures { result ≡ body_length method.now target.now minor (map (header_bytes head.now) fields.now) }
{
    if !is_known_method(method) {
        return Err(501);
    }
    if !is_origin_form(target) {
        return Err(400);
    }
    if !has_right_hosts(head, fields, minor) {
        return Err(400);
    }
    if has_coding(head, fields) {
        return Err(501);
    }
    stated_length(head, fields)
}
