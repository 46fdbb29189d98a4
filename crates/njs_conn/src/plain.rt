// Replies of plain text.
ghost use Rattle.std.specs.Prelude.{◌≡◌, ◌≤◌, ◌<◌, []};
ghost use Rattle.http_out.specs.Reply.{IsReply};
ghost use Rattle.njs_conn.specs.Meaning.{plain_text};

use http_out::Reply;
use njs_text::{List, Text};
use std::alloc::Global;

/// A text as a reply, of the type `text/plain` and with no further field.
pub(crate) fn plain_text(alloc: Global, status: u16, body: Text) -> Reply
    requires low { 100 ≤ status }
    requires high { status < 1000 }
    ensures reply { result ≡ plain_text status body }
    ensures valid { IsReply result }
{
    Reply {
        status,
        kind: Text::fixed("text/plain"),
        fields: List::new(alloc),
        body,
    }
}

/// A reply of the server's own, whose body is empty.
pub(crate) fn without_body(alloc: Global, status: u16) -> Reply
    requires low { 100 ≤ status }
    requires high { status < 1000 }
    ensures reply { result ≡ plain_text status [] }
    ensures valid { IsReply result }
{
    plain_text(alloc, status, Text::fixed(""))
}
