// Serves one connection.
ghost use Rattle.std.specs.Prelude.{◌≡◌, ◌≤◌};
ghost use Rattle.njs_edge.specs.Causes.{Counts};
ghost use Rattle.std.specs.Prelude.{◌<◌, false};
ghost use Rattle.std.specs.Io.KnownBytes.{Keeps};
ghost use Rattle.njs_conn.specs.Answers.{Serves, is_head, refusal, response_of};
ghost use Rattle.http_out.specs.Reply.{IsReply};
ghost use Rattle.http_out.specs.Response.{response_bytes};
ghost use Rattle.njs_conn.specs.Writer.{Sends};

use crate::plain::without_body;
use crate::running::reply_to;
use crate::site::Loaded;
use crate::writer::{Written, write_whole};
use http_in::{Next, Reader, Request};
use http_out::{Reply, response};
use njs_edge::{Sink, Source};
use njs_text::{Steps, Text};
use std::alloc::Global;
use std::sync::ledger::Ledger;

/// How a connection ended.
#[derive(Clone, Copy, Debug, PartialEq, Eq)]
pub enum ConnEnd {
    /// The input ended between requests, or a response said `Connection: close`.
    Finished,
    /// The input ended inside a request.
    Cut,
    /// A read failed, and every whole request before it was answered.
    ReadFault,
    /// A write or a flush failed.
    WriteFault,
    NoMemory,
}

/// Whether a response was written.
#[derive(Clone, Copy, Debug, PartialEq, Eq)]
pub enum Sent {
    Whole,
    Failed,
    NoMemory,
}

// Writes one response.
fn send<K: Sink>(alloc: Global, reply: &Reply, keep: bool, head_only: bool, sink: &mut K) -> Sent
    requires valid { IsReply reply.now }
    ensures sent { Sends (K.got sink.old) (K.got sink.new) (response_bytes reply.now keep head_only) result }
    ensures cause { Counts (K.faults sink.old) (K.faults sink.new) (result ≡ Sent.Failed) }
{
    let Ok(bytes) = response(alloc, reply, keep, head_only) else {
        return Sent::NoMemory;
    };
    match write_whole(sink, bytes.as_slice()) {
        Written::Whole => Sent::Whole,
        Written::Failed => Sent::Failed,
    }
}

fn is_head(request: &Request) -> bool
    ensures { result ≡ is_head request.now }
{
    request.method.as_str() == "HEAD"
}

// Answers one request.
fn answer<K: Sink>(alloc: Global, loaded: &Loaded, request: &Request, sink: &mut K) -> Sent
    ensures sent { Sends (K.got sink.old) (K.got sink.new) (response_of loaded.now request.now) result }
    ensures cause { Counts (K.faults sink.old) (K.faults sink.new) (result ≡ Sent.Failed) }
{
    let Ok(reply) = reply_to(alloc, loaded.site(), request) else {
        return Sent::NoMemory;
    };
    send(alloc, &reply, request.keep, is_head(request), sink)
}

// Answers what is refused as a request.
fn refuse<K: Sink>(alloc: Global, status: u16, sink: &mut K) -> Sent
    requires low { 100 ≤ status }
    requires high { status < 1000 }
    ensures sent { Sends (K.got sink.old) (K.got sink.new) (refusal status) result }
    ensures cause { Counts (K.faults sink.old) (K.faults sink.new) (result ≡ Sent.Failed) }
{
    send(alloc, &without_body(alloc, status), false, false, sink)
}

/// Answers request after request of one connection (RFC 9112 §9.3), each whole before the next is run, until one closes it, one
/// is refused or the input ends. `peer` is the address of the other side, which no script can ask for yet.
pub fn serve_connection<S: Source, K: Sink, N: Sink, L: Ledger>(
    alloc: Global,
    loaded: &Loaded,
    peer: &Text,
    source: &mut S,
    sink: &mut K,
    notes: &mut N,
    steps: &mut Steps<L>,
) -> ConnEnd
    ensures served { Serves loaded.now peer.now (S.left source.old) (S.left source.new) (K.got sink.old) (K.got sink.new) result }
    ensures source { Counts (S.faults source.old) (S.faults source.new) (result ≡ ConnEnd.ReadFault) }
    ensures sink { Counts (K.faults sink.old) (K.faults sink.new) (result ≡ ConnEnd.WriteFault) }
    ensures notes { Keeps (N.got notes.old) (N.got notes.new) }
    ensures notes_faults { N.faults notes.old ≤ N.faults notes.new }
    ensures steps { steps.new ≡ steps.old }
{
    let mut reader = Reader::new(alloc);
    loop {
        match reader.next(alloc, source) {
            Next::Request(request) => match answer(alloc, loaded, &request, sink) {
                Sent::Whole => {
                    if !request.keep {
                        return ConnEnd::Finished;
                    }
                }
                Sent::Failed => return ConnEnd::WriteFault,
                Sent::NoMemory => return ConnEnd::NoMemory,
            },
            Next::Bad(status) => {
                return match refuse(alloc, status, sink) {
                    Sent::Whole => ConnEnd::Finished,
                    Sent::Failed => ConnEnd::WriteFault,
                    Sent::NoMemory => ConnEnd::NoMemory,
                };
            }
            Next::End => return ConnEnd::Finished,
            Next::Cut => return ConnEnd::Cut,
            Next::ReadFault => return ConnEnd::ReadFault,
            Next::NoMemory => return ConnEnd::NoMemory,
        }
    }
}
