// What the handler of a request has answered so far.
ghost use Rattle.std.specs.Prelude.{◌≡◌, ◌≤◌};
ghost use Rattle.std.specs.Option.{ForSome};
ghost use Rattle.http_out.specs.Reply.{IsReply};
ghost use Rattle.njs_request.specs.Response.{no_answer, is_open, reply_of};
ghost use Rattle.njs_request.specs.Return.{plain_head, whole};

use http_out::Reply;
use njs_text::{List, Text};
use std::alloc::Global;
use std::marker::Model;

// The head of a response.
#[derive(Drop)]
pub(crate) struct Head {
    status: u16,
    kind: Text,
    fields: List<(Text, Text)>,
}

impl Model for Head {
    ghost use Rattle.njs_meaning.specs.State.{Head as PlainHead};
    ghost use Rattle.njs_request.specs.Response.{IsHead};

    ghost Value = { PlainHead };

    ghost view = { λ h. record { status = h.status; kind = h.kind; fields = h.fields } };

    ghost invariant = { λ h. IsHead (record { status = h.status; kind = h.kind; fields = h.fields }) };
}

impl Head {
    // The head of a plain text without further fields.
    pub(crate) fn plain(alloc: Global, status: u16) -> Head
        requires low { 200 ≤ status }
        requires high { status ≤ 599 }
        ensures { result ≡ plain_head status }
    {
        Head {
            status,
            kind: Text::fixed("text/plain"),
            fields: List::new(alloc),
        }
    }
}

/// What the handler of a request has answered so far: a head or none, a body, and whether the end was said.
#[derive(Drop)]
pub struct Record {
    head: Option<Head>,
    body: Text,
    is_finished: bool,
}

impl Model for Record {
    ghost use Rattle.njs_meaning.specs.State.{Response};

    ghost Value = { Response };

    ghost view = { λ r. record { head = r.head; body = r.body; is_finished = r.is_finished } };
}

impl Record {
    /// The record of a request that isn't answered yet.
    pub fn new() -> Record
        ensures { result ≡ no_answer }
    {
        Record {
            head: None,
            body: Text::fixed(""),
            is_finished: false,
        }
    }

    /// What the response is made from, exactly where there is a head and the end was said.
    pub fn into_reply(self) -> Option<Reply>
        ensures reply { result ≡ reply_of self }
        ensures valid { ForSome result IsReply }
    {
        let Record {
            head,
            body,
            is_finished,
        } = self;
        if !is_finished {
            return None;
        }
        let Head {
            status,
            kind,
            fields,
        } = head?;
        Some(Reply {
            status,
            kind,
            fields,
            body,
        })
    }

    // Whether an answer may begin.
    pub(crate) fn is_open(&self) -> bool
        ensures { result ≡ is_open self.now }
    {
        self.head.is_none() && !self.is_finished
    }

    // A whole answer, in the place of what there was.
    pub(crate) fn answer(&mut self, head: Head, body: Text)
        ensures { self.new ≡ whole head body }
    {
        self.head = Some(head);
        self.body = body;
        self.is_finished = true;
    }
}
