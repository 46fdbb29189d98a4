// What a head and the bytes behind it say.
ghost use Rattle.std.specs.Prelude.{◌≡◌, ◌<◌, ◌≤◌, None, length, map, take, All, IfSome, IsNone, false};
ghost use Rattle.httparse.specs.Spans.{IsHeaderWithin, header_bytes};
ghost use Rattle.http_in.specs.Requests.{IsRead};
ghost use Rattle.http_in.specs.Rules.{first_line, ends_in_other_version};
ghost use Rattle.http_in.specs.Deciding.{IsHeadAt, BodyIs, JudgedIs};

use crate::length::body_length;
use crate::line::{ends_in_other_version, first_line};
use crate::request::{Request, RequestLine, request_from};
use httparse::Status;
use httparse::spans::{EMPTY_HEADER_SPAN, HeaderSpan, RequestSpans, parse_request};
use njs_text::NoMemory;
use std::alloc::Global;

/// The most fields of a head.
const MAX_FIELDS: usize = 64;

/// What a head and the bytes behind it say.
#[derive(Drop)]
pub(crate) enum Judged {
    /// A request, whose body has so many bytes.
    Request(Request, usize),
    Bad(u16),
    /// The body has so many bytes, which aren't all there.
    Wants(usize),
    NoMemory,
}

// The spans of a whole head.
fn parse(head: &[u8], fields: &mut [HeaderSpan]) -> Option<RequestSpans>
    requires { length fields.old ≡ 64 }
    ensures some { IfSome result (λ spans. IsHeadAt head.now spans fields.new) }
    ensures none { IsNone result → IsRead head.now None }
{
    match parse_request(head, fields) {
        Ok(Status::Complete(spans)) => {
            if spans.len == head.len() {
                Some(spans)
            } else {
                None
            }
        }
        _ => None,
    }
}

// The request of these parts, where its body is there.
fn with_body(
    alloc: Global,
    number: usize,
    line: &RequestLine<'_>,
    head: &[u8],
    fields: &[HeaderSpan],
    len: usize,
    behind: &[u8],
) -> Judged
    requires number { number < 1000 }
    requires fields { All (IsHeaderWithin (length head.now)) fields.now }
    ensures { BodyIs result number (line.now.method.now, line.now.target.now, line.now.minor) (map (header_bytes head.now) fields.now) len behind.now }
{
    if behind.len() < len {
        return Judged::Wants(len);
    }
    match request_from(alloc, number, line, head, fields, &behind[..len]) {
        Ok(request) => Judged::Request(request, len),
        Err(NoMemory) => Judged::NoMemory,
    }
}

// What a head that was read says.
fn judge_spans(
    alloc: Global,
    number: usize,
    head: &[u8],
    spans: RequestSpans,
    fields: &[HeaderSpan],
    behind: &[u8],
) -> Judged
    requires number { number < 1000 }
    requires version { ends_in_other_version (first_line head.now) ≡ false }
    requires read { IsHeadAt head.now spans fields.now }
    ensures { JudgedIs result number head.now behind.now }
{
    let line = RequestLine {
        method: spans.method.of(head),
        target: spans.path.of(head),
        minor: spans.version,
    };
    let fields = &fields[..spans.headers];
    match body_length(line.method, line.target, line.minor, head, fields) {
        Err(status) => Judged::Bad(status),
        Ok(len) => with_body(alloc, number, &line, head, fields, len, behind),
    }
}

/// What a head and the bytes behind it say.
pub(crate) fn judge(alloc: Global, number: usize, head: &[u8], behind: &[u8]) -> Judged
    requires { number < 1000 }
    ensures { JudgedIs result number head.now behind.now }
{
    if ends_in_other_version(first_line(head)) {
        return Judged::Bad(505);
    }
    let mut fields = [EMPTY_HEADER_SPAN; MAX_FIELDS];
    match parse(head, &mut fields) {
        None => Judged::Bad(400),
        Some(spans) => judge_spans(alloc, number, head, spans, &fields, behind),
    }
}
