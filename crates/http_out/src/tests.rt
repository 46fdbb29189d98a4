// Responses as they stand on the wire, after the examples of RFC 9112, and what no response is made from.
use crate::{Reply, has_one_reading, is_field_name, is_field_value, response};
use njs_text::{List, Text, TextFault};
use std::alloc::Global;
use std::test::Fail;

fn text(alloc: Global, text: &str) -> Result<Text, TextFault> {
    Text::from_utf8(alloc, text.as_bytes())
}

#[derive(Clone, Copy)]
struct Row {
    status: u16,
    kind: &'static str,
    fields: &'static [(&'static str, &'static str)],
    body: &'static str,
}

fn reply(alloc: Global, row: &Row) -> Result<Reply, TextFault> {
    let mut fields = List::new(alloc);
    for (name, value) in row.fields {
        fields
            .push((text(alloc, name)?, text(alloc, value)?))
            .map_err(TextFault::from)?;
    }
    Ok(Reply {
        status: row.status,
        kind: text(alloc, row.kind)?,
        fields,
        body: text(alloc, row.body)?,
    })
}

const HELLO: Row = Row {
    status: 200,
    kind: "text/plain",
    fields: &[],
    body: "Hello world!",
};

const FOUND: Row = Row {
    status: 302,
    kind: "text/plain",
    fields: &[("Location", "/next")],
    body: "",
};

const NO_CONTENT: Row = Row {
    status: 204,
    kind: "text/plain",
    fields: &[],
    body: "left out",
};

const NOT_MODIFIED: Row = Row {
    status: 304,
    kind: "text/plain",
    fields: &[("ETag", "\"a\"")],
    body: "left out",
};

const NO_PHRASE: Row = Row {
    status: 299,
    kind: "text/plain",
    fields: &[],
    body: "",
};

const JSON: Row = Row {
    status: 200,
    kind: "application/json",
    fields: &[("X-B", "1"), ("X-A", "a\té"), ("X-B", "")],
    body: "\"é\"",
};

#[test]
fn writes_responses(rt: HostRuntime) -> Result<(), Fail> {
    let alloc = rt.alloc();
    has_one_reading();
    let rows = [
        (
            HELLO,
            true,
            false,
            "HTTP/1.1 200 OK\r\nContent-Type: text/plain\r\nContent-Length: 12\r\nConnection: keep-alive\r\n\r\nHello world!",
        ),
        (
            HELLO,
            true,
            true,
            "HTTP/1.1 200 OK\r\nContent-Type: text/plain\r\nContent-Length: 12\r\nConnection: keep-alive\r\n\r\n",
        ),
        (
            FOUND,
            true,
            false,
            "HTTP/1.1 302 Found\r\nContent-Type: text/plain\r\nLocation: /next\r\nContent-Length: 0\r\nConnection: keep-alive\r\n\r\n",
        ),
        (
            NO_CONTENT,
            true,
            false,
            "HTTP/1.1 204 No Content\r\nConnection: keep-alive\r\n\r\n",
        ),
        (
            NOT_MODIFIED,
            false,
            false,
            "HTTP/1.1 304 Not Modified\r\nETag: \"a\"\r\nConnection: close\r\n\r\n",
        ),
        (
            NO_PHRASE,
            false,
            false,
            "HTTP/1.1 299 \r\nContent-Type: text/plain\r\nContent-Length: 0\r\nConnection: close\r\n\r\n",
        ),
        (
            JSON,
            true,
            false,
            "HTTP/1.1 200 OK\r\nContent-Type: application/json\r\nX-B: 1\r\nX-A: a\té\r\nX-B: \r\nContent-Length: 4\r\nConnection: keep-alive\r\n\r\n\"é\"",
        ),
    ];
    for (row, keep, head_only, want) in rows.iter() {
        let reply = reply(alloc, row).expect(&rt, "a reply");
        let valid = reply.is_valid();
        assert!(rt; valid);
        let bytes = response(alloc, &reply, *keep, *head_only)?;
        assert_eq!(rt; bytes.as_slice(), want.as_bytes());
    }
    Ok(())
}

#[test]
fn tests_replies(rt: HostRuntime) -> Result<(), Fail> {
    let alloc = rt.alloc();
    for (name, want) in [
        ("X-Custom", true),
        ("Content-Typed", true),
        ("", false),
        ("a b", false),
        ("a:", false),
        ("a\r\nb", false),
        ("é", false),
        ("content-type", false),
        ("Content-Length", false),
        ("CONNECTION", false),
        ("transfer-Encoding", false),
    ] {
        let name = text(alloc, name).expect(&rt, "a name");
        assert_eq!(rt; is_field_name(&name), want);
    }
    for (value, want) in [
        ("", true),
        ("a\té", true),
        ("a\r\nb", false),
        ("a\u{0}", false),
        ("a\u{7f}", false),
    ] {
        let value = text(alloc, value).expect(&rt, "a value");
        assert_eq!(rt; is_field_value(&value), want);
    }
    let mut hello = reply(alloc, &HELLO).expect(&rt, "a reply");
    for status in [99, 1000] {
        hello.status = status;
        assert!(rt; !hello.is_valid());
    }
    Ok(())
}
