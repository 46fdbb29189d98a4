// A request, made from the spans of its head.
ghost use Rattle.std.specs.Prelude.{◌≡◌, ◌≤◌, ◌<◌, ◌+◌, ◌++◌, ◌∷◌, [], length, map, All, codes, IfOk, OnOk};
ghost use Rattle.httparse.specs.Spans.{IsHeaderWithin, header_bytes};
ghost use Rattle.http_in.specs.Fields.{values};
ghost use Rattle.http_in.specs.Rules.{text_of, path_of, query_of, field_texts, keeps, made_request};

use crate::fields::has_option;
use crate::line::before_query;
use httparse::spans::HeaderSpan;
use njs_text::{List, NoMemory, Text};
use percent_encoding::percent_decode;
use std::alloc::Global;

/// A request (RFC 9112 §3).
#[derive(Debug, Drop)]
pub struct Request {
    /// GET, HEAD, POST, PUT, DELETE, OPTIONS or PATCH.
    pub method: Text,
    /// The target up to its first `?`, the escapes decoded and read as lossy UTF-8. It isn't normalised.
    pub path: Text,
    /// The bytes behind that `?`, or none.
    pub query: List<u8>,
    /// The minor version: 0 or 1.
    pub minor: u8,
    /// The names and the values of the fields, in order, as lossy UTF-8. The values are without the blanks around them.
    pub fields: List<(Text, Text)>,
    /// The bytes of the body.
    pub body: List<u8>,
    /// Whether the connection goes on behind this request (RFC 9112 §9.3). It doesn't behind the 1,000th.
    pub keep: bool,
}

/// The parts of a request line (RFC 9112 §3).
#[derive(Clone, Copy)]
pub(crate) struct RequestLine<'a> {
    pub(crate) method: &'a [u8],
    pub(crate) target: &'a [u8],
    pub(crate) minor: u8,
}

/// The most requests of a connection.
pub(crate) const MAX_REQUESTS: usize = 1000;

fn text_from(alloc: Global, bytes: &[u8]) -> Result<Text, NoMemory>
    ensures { IfOk result (λ text. text ≡ text_of bytes.now) }
{
    match Text::from_lossy(alloc, bytes) {
        Ok(text) => Ok(text),
        // A head has far fewer bytes than a text may have values, so nothing but memory can be wanting.
        Err(_) => Err(NoMemory),
    }
}

fn list_from(alloc: Global, bytes: &[u8]) -> Result<List<u8>, NoMemory>
    ensures { IfOk result (λ list. list ≡ bytes.now) }
{
    Ok(List::from_vec(Vec::from_slice(alloc, bytes)?))
}

#[tactic(auto, unfolding(crate::specs::Rules::path_of))]
fn path(alloc: Global, target: &[u8]) -> Result<Text, NoMemory>
    ensures { IfOk result (λ text. text ≡ path_of target.now) }
{
    let mut decoded = Vec::new(alloc);
    percent_decode(before_query(target)).append_to(&mut decoded)?;
    text_from(alloc, decoded.as_slice())
}

#[tactic(auto, unfolding(crate::specs::Rules::query_of))]
fn query(alloc: Global, target: &[u8]) -> Result<List<u8>, NoMemory>
    ensures { IfOk result (λ query. query ≡ query_of target.now) }
{
    let at = before_query(target).len();
    if at < target.len() {
        list_from(alloc, &target[at + 1..])
    } else {
        Ok(List::new(alloc))
    }
}

fn put_field(
    alloc: Global,
    texts: &mut List<(Text, Text)>,
    name: &[u8],
    value: &[u8],
) -> Result<(), NoMemory>
    ensures { OnOk result (texts.new ≡ texts.old ++ field_texts (name.now, value.now) ∷ []) }
{
    let name = text_from(alloc, name)?;
    let value = text_from(alloc, value)?;
    texts.push((name, value))
}

fn field_texts(
    alloc: Global,
    head: &[u8],
    fields: &[HeaderSpan],
) -> Result<List<(Text, Text)>, NoMemory>
    requires { All (IsHeaderWithin (length head.now)) fields.now }
    ensures { IfOk result (λ texts. texts ≡ map field_texts (map (header_bytes head.now) fields.now)) }
{
    let mut texts = List::new(alloc);
    for field in fields {
        put_field(alloc, &mut texts, field.name.of(head), field.value.of(head))?;
    }
    Ok(texts)
}

#[tactic(auto, unfolding(crate::specs::Rules::keeps))]
fn keeps(number: usize, minor: u8, head: &[u8], fields: &[HeaderSpan]) -> bool
    requires number { number < 1000 }
    requires fields { All (IsHeaderWithin (length head.now)) fields.now }
    ensures { result ≡ keeps number minor (values (codes "Connection") (map (header_bytes head.now) fields.now)) }
{
    number + 1 < MAX_REQUESTS
        && !has_option(head, fields, b"close")
        && (minor == 1 || has_option(head, fields, b"keep-alive"))
}

/// The request of these parts of its head and this body.
#[tactic(auto, unfolding(crate::specs::Rules::made_request))]
pub(crate) fn request_from(
    alloc: Global,
    number: usize,
    line: &RequestLine<'_>,
    head: &[u8],
    fields: &[HeaderSpan],
    body: &[u8],
) -> Result<Request, NoMemory>
    requires number { number < 1000 }
    requires fields { All (IsHeaderWithin (length head.now)) fields.now }
    ensures { IfOk result (λ request. request ≡ made_request number line.now.method.now line.now.target.now line.now.minor (map (header_bytes head.now) fields.now) body.now) }
{
    Ok(Request {
        method: text_from(alloc, line.method)?,
        path: path(alloc, line.target)?,
        query: query(alloc, line.target)?,
        minor: line.minor,
        fields: field_texts(alloc, head, fields)?,
        body: list_from(alloc, body)?,
        keep: keeps(number, line.minor, head, fields),
    })
}
