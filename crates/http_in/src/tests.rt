// Requests as they stand on the wire, and what a reader answers, whatever the pieces in which they come.
use crate::{Next, Reader, Request, answers_join, has_one_reading, stays_decided};
use njs_edge::BytesIn;
use njs_text::{NoMemory, Text};
use std::alloc::Global;
use std::test::Fail;

// A name, a value or a body: as it is where it is short, else its length.
fn put_part(out: &mut Vec<u8>, part: &[u8]) -> Result<(), NoMemory> {
    if part.len() <= 40 {
        out.extend_from_slice(part)?;
    } else {
        put_number(out, part.len())?;
    }
    Ok(())
}

fn put_number(out: &mut Vec<u8>, number: usize) -> Result<(), NoMemory> {
    let mut unit: usize = 1_000_000;
    for _ in 0..7 {
        let digit = number / unit % 10;
        if number >= unit || unit == 1 {
            out.push(b'0' + (digit % 10) as u8)?;
        }
        unit = (unit / 10).max(1);
    }
    Ok(())
}

fn put_fields(out: &mut Vec<u8>, fields: &[(Text, Text)]) -> Result<(), NoMemory> {
    if fields.len() > 10 {
        return put_number(out, fields.len());
    }
    for (name, value) in fields {
        put_part(out, name.as_bytes())?;
        out.push(b'=')?;
        put_part(out, value.as_bytes())?;
        out.push(b';')?;
    }
    Ok(())
}

// METHOD PATH|QUERY|MINOR, whether the connection is kept, the fields and the body.
fn put_request(out: &mut Vec<u8>, request: &Request) -> Result<(), NoMemory> {
    put_part(out, request.method.as_bytes())?;
    out.push(b' ')?;
    put_part(out, request.path.as_bytes())?;
    out.push(b'|')?;
    put_part(out, request.query.as_slice())?;
    out.push(b'|')?;
    put_number(out, usize::from(request.minor))?;
    out.extend_from_slice(if request.keep { b" keep " } else { b" last " })?;
    put_fields(out, request.fields.as_slice())?;
    out.push(b'|')?;
    put_part(out, request.body.as_slice())?;
    out.push(b'\n')?;
    Ok(())
}

fn put_next(out: &mut Vec<u8>, next: &Next) -> Result<(), NoMemory> {
    match next {
        Next::Request(request) => put_request(out, request)?,
        Next::Bad(status) => put_number(out, usize::from(*status))?,
        Next::End => out.extend_from_slice(b"end")?,
        Next::Cut => out.extend_from_slice(b"cut")?,
        Next::ReadFault => out.extend_from_slice(b"fault")?,
        Next::NoMemory => return Err(NoMemory),
    }
    Ok(())
}

// All answers of a reader, where a source gives at most so many bytes at once and fails at one of its calls.
fn answers(alloc: Global, input: &[u8], most: usize, fails_at: u64) -> Result<Vec<u8>, Fail> {
    let mut source = BytesIn::new(
        Vec::from_slice(alloc, input)?,
        most.max(1),
        Vec::from_slice(alloc, &[fails_at])?,
    );
    let mut reader = Reader::new(alloc);
    let mut out = Vec::new(alloc);
    for _ in 0..2000 {
        if reader.is_spent() {
            break;
        }
        let next = reader.next(alloc, &mut source);
        put_next(&mut out, &next)?;
    }
    Ok(out)
}

// What comes in, and what is answered.
const CASES: &[(&str, &str)] = &[
    // Nothing, empty lines, and parts of a request.
    ("", "end"),
    ("\r\n\n\r\n", "end"),
    ("\r", "cut"),
    ("\n\r", "cut"),
    ("G", "cut"),
    ("GET / HTTP/1.1\r\nHost", "cut"),
    ("GET / HTTP/1.1\r\nHost: a\r\n", "cut"),
    ("GET / HTTP/1.1\r\nHost: a\r\n\r", "cut"),
    (
        "GET / HTTP/1.1\r\nHost: a\r\n\r\n",
        "GET /||1 keep Host=a;|\nend",
    ),
    (
        "GET / HTTP/1.1\r\nHost: a\r\n\r\n\r\n",
        "GET /||1 keep Host=a;|\nend",
    ),
    (
        "GET / HTTP/1.1\r\nHost: a\r\n\r\nG",
        "GET /||1 keep Host=a;|\ncut",
    ),
    ("G\x01\r\n", "cut"),
    // Line ends.
    ("GET / HTTP/1.1\nHost: a\n\n", "GET /||1 keep Host=a;|\nend"),
    (
        "GET / HTTP/1.1\r\nHost: a\n\r\n",
        "GET /||1 keep Host=a;|\nend",
    ),
    (
        "\r\n\n\r\nGET / HTTP/1.1\r\nHost: a\r\n\r\n",
        "GET /||1 keep Host=a;|\nend",
    ),
    ("GET / HTTP/1.1\r\r\nHost: a\r\n\r\n", "400"),
    ("GET / HTTP/1.1\r\nHost: a\r\r\n\r\n", "400"),
    ("\rGET / HTTP/1.1\r\nHost: a\r\n\r\n", "400"),
    ("\n\n", "end"),
    // One behind another.
    (
        "GET /a HTTP/1.1\r\nHost: a\r\n\r\nGET /b HTTP/1.1\r\nHost: b\r\n\r\n",
        "GET /a||1 keep Host=a;|\nGET /b||1 keep Host=b;|\nend",
    ),
    (
        "GET /a HTTP/1.1\r\nHost: a\r\n\r\n\r\n\nGET /b HTTP/1.1\r\nHost: b\r\n\r\n",
        "GET /a||1 keep Host=a;|\nGET /b||1 keep Host=b;|\nend",
    ),
    (
        "POST / HTTP/1.1\r\nHost: a\r\nContent-Length: 3\r\n\r\nabcGET /b HTTP/1.1\r\nHost: b\r\n\r\n",
        "POST /||1 keep Host=a;Content-Length=3;|abc\nGET /b||1 keep Host=b;|\nend",
    ),
    (
        "POST / HTTP/1.1\r\nHost: a\r\nContent-Length: 4\r\n\r\n\r\n\r\nGET /b HTTP/1.0\r\n\r\nGET /",
        "POST /||1 keep Host=a;Content-Length=4;|\r\n\r\n\nGET /b||0 last |\n",
    ),
    (
        "GET / HTTP/1.1\r\nHost: a\r\n\r\nBREW / HTTP/1.1\r\nHost: a\r\n\r\n",
        "GET /||1 keep Host=a;|\n501",
    ),
    // Versions.
    ("GET / HTTP/1.0\r\n\r\n", "GET /||0 last |\n"),
    ("GET / HTTP/2.0\r\n\r\n", "505"),
    ("GET / HTTP/1.2\r\nHost: a\r\n\r\n", "505"),
    ("GET / HTTP/0.9\r\n\r\n", "505"),
    ("GET / HTTP/1.10\r\nHost: a\r\n\r\n", "400"),
    ("GET / HTTP/1.x\r\nHost: a\r\n\r\n", "400"),
    ("GET / http/1.1\r\nHost: a\r\n\r\n", "400"),
    ("GET /\r\n\r\n", "400"),
    ("BREW x y HTTP/3.0\n\n", "505"),
    ("POST / HTTP/2.0\r\nContent-Length: x\r\n\r\n", "505"),
    // Methods.
    ("HEAD / HTTP/1.0\r\n\r\n", "HEAD /||0 last |\n"),
    ("PUT / HTTP/1.0\r\n\r\n", "PUT /||0 last |\n"),
    ("DELETE / HTTP/1.0\r\n\r\n", "DELETE /||0 last |\n"),
    ("OPTIONS / HTTP/1.0\r\n\r\n", "OPTIONS /||0 last |\n"),
    ("PATCH / HTTP/1.0\r\n\r\n", "PATCH /||0 last |\n"),
    ("TRACE / HTTP/1.1\r\n\r\n", "501"),
    ("get / HTTP/1.1\r\nHost: a\r\n\r\n", "501"),
    ("GETS x HTTP/1.1\r\n\r\n", "501"),
    (" GET / HTTP/1.1\r\nHost: a\r\n\r\n", "400"),
    ("G(T / HTTP/1.1\r\nHost: a\r\n\r\n", "400"),
    // Targets.
    ("OPTIONS * HTTP/1.1\r\nHost: a\r\n\r\n", "400"),
    ("GET http://a/ HTTP/1.1\r\nHost: a\r\n\r\n", "400"),
    ("GET  / HTTP/1.1\r\nHost: a\r\n\r\n", "400"),
    ("GET /a?b=c?d HTTP/1.0\r\n\r\n", "GET /a|b=c?d|0 last |\n"),
    ("GET /a? HTTP/1.0\r\n\r\n", "GET /a||0 last |\n"),
    (
        "GET /a%20b%2Fc/../%3f?%20 HTTP/1.0\r\n\r\n",
        "GET /a b/c/../?|%20|0 last |\n",
    ),
    ("GET /%zz%4 HTTP/1.0\r\n\r\n", "GET /%zz%4||0 last |\n"),
    (
        "GET /%ff%C3%A9 HTTP/1.0\r\n\r\n",
        "GET /\u{fffd}é||0 last |\n",
    ),
    // Host.
    ("GET / HTTP/1.1\r\n\r\n", "400"),
    ("GET / HTTP/1.1\r\nHost: a\r\nhost: a\r\n\r\n", "400"),
    (
        "GET / HTTP/1.1\r\nHOST:\r\n\r\n",
        "GET /||1 keep HOST=;|\nend",
    ),
    ("GET / HTTP/1.1\r\nHosts: a\r\n\r\n", "400"),
    (
        "GET / HTTP/1.0\r\nHost: a\r\n\r\n",
        "GET /||0 last Host=a;|\n",
    ),
    ("GET / HTTP/1.0\r\nHost: a\r\nHost: b\r\n\r\n", "400"),
    // Transfer-Encoding.
    (
        "POST / HTTP/1.1\r\nHost: a\r\ntransfer-encoding: chunked\r\n\r\n",
        "501",
    ),
    (
        "POST / HTTP/1.0\r\nTransfer-Encoding:\r\nContent-Length: x\r\n\r\n",
        "501",
    ),
    (
        "POST / HTTP/1.1\r\nTransfer-Encoding: chunked\r\n\r\n",
        "400",
    ),
    // Content-Length.
    (
        "PUT / HTTP/1.0\r\nContent-Length: 0\r\n\r\nabc",
        "PUT /||0 last Content-Length=0;|\n",
    ),
    (
        "PUT / HTTP/1.0\r\ncontent-length: \t03 \r\n\r\nabcd",
        "PUT /||0 last content-length=03;|abc\n",
    ),
    ("PUT / HTTP/1.0\r\nContent-Length: 3\r\n\r\nab", "cut"),
    (
        "PUT / HTTP/1.0\r\nContent-Length: 3\r\nContent-Length: 3\r\n\r\nabc",
        "400",
    ),
    ("PUT / HTTP/1.0\r\nContent-Length: 3, 3\r\n\r\nabc", "400"),
    ("PUT / HTTP/1.0\r\nContent-Length:\r\n\r\nabc", "400"),
    ("PUT / HTTP/1.0\r\nContent-Length: +3\r\n\r\nabc", "400"),
    ("PUT / HTTP/1.0\r\nContent-Length: -3\r\n\r\nabc", "400"),
    ("PUT / HTTP/1.0\r\nContent-Length: 3a\r\n\r\nabc", "400"),
    (
        "PUT / HTTP/1.0\r\nContent-Length: 99999999999999999999x\r\n\r\nabc",
        "400",
    ),
    ("PUT / HTTP/1.0\r\nContent-Length: 1048577\r\n\r\n", "413"),
    (
        "PUT / HTTP/1.0\r\nContent-Length: 99999999999999999999999\r\n\r\n",
        "413",
    ),
    (
        "PUT / HTTP/1.0\r\nContent-Length: 00000000000000000000003\r\n\r\nabc",
        "PUT /||0 last Content-Length=00000000000000000000003;|abc\n",
    ),
    // Fields.
    (
        "GET / HTTP/1.0\r\nX: a\tb é \t\r\n\r\n",
        "GET /||0 last X=a\tb é;|\n",
    ),
    ("GET / HTTP/1.0\r\nX: a\r\n b\r\n\r\n", "400"),
    ("GET / HTTP/1.0\r\nX : a\r\n\r\n", "400"),
    ("GET / HTTP/1.0\r\n: a\r\n\r\n", "400"),
    ("GET / HTTP/1.0\r\nX\r\n\r\n", "400"),
    ("GET / HTTP/1.0\r\nX: \x01\r\n\r\n", "400"),
    // Connection.
    (
        "GET / HTTP/1.1\r\nHost: a\r\nConnection: close\r\n\r\nGET /",
        "GET /||1 last Host=a;Connection=close;|\n",
    ),
    (
        "GET / HTTP/1.1\r\nHost: a\r\nconnection: x,\tcLoSe ,y\r\n\r\n",
        "GET /||1 last Host=a;connection=x,\tcLoSe ,y;|\n",
    ),
    (
        "GET / HTTP/1.1\r\nHost: a\r\nConnection: closed, clos\r\n\r\n",
        "GET /||1 keep Host=a;Connection=closed, clos;|\nend",
    ),
    (
        "GET / HTTP/1.1\r\nHost: a\r\nConnection: x\r\nConnection: ,close\r\n\r\n",
        "GET /||1 last Host=a;Connection=x;Connection=,close;|\n",
    ),
    (
        "GET / HTTP/1.0\r\nConnection: Keep-Alive\r\n\r\n",
        "GET /||0 keep Connection=Keep-Alive;|\nend",
    ),
    (
        "GET / HTTP/1.0\r\nConnection: keep-alive, close\r\n\r\n",
        "GET /||0 last Connection=keep-alive, close;|\n",
    ),
    (
        "GET / HTTP/1.0\r\nConnection: keep alive\r\n\r\n",
        "GET /||0 last Connection=keep alive;|\n",
    ),
];

// A beginning, bytes so many times, an end, and what is answered.
const SIZED: &[(&str, &[u8], usize, &str, &str)] = &[
    (
        "GET / HTTP/1.1\r\nHost: a\r\nX: ",
        b"b",
        16352,
        "\r\n\r\n",
        "GET /||1 keep Host=a;X=16352;|\nend",
    ),
    (
        "GET / HTTP/1.1\r\nHost: a\r\nX: ",
        b"b",
        16353,
        "\r\n\r\n",
        "400",
    ),
    ("GET / HTTP/1.1\r\nX: ", b"b", 16365, "", "400"),
    ("GET / HTTP/1.1\r\nX: ", b"b", 16364, "", "cut"),
    ("GET /", b"a", 16378, "", "cut"),
    ("GET /", b"a", 16379, "", "414"),
    ("GET /", b"a", 16378, "\n", "400"),
    ("", b"\n", 16383, "", "end"),
    ("", b"\n", 16384, "", "400"),
    ("", b"\n", 16383, "G", "414"),
    ("", b"\n", 16381, "\r\n", "end"),
    ("", b"\n", 16382, "\r\n", "400"),
    ("", b"\n", 16382, "\r\r", "414"),
    (
        "",
        b"\n",
        16357,
        "GET / HTTP/1.1\r\nHost: a\r\n\r\n",
        "GET /||1 keep Host=a;|\nend",
    ),
    ("", b"\n", 16358, "GET / HTTP/1.1\r\nHost: a\r\n\r\n", "400"),
    (
        "GET / HTTP/1.1\r\nHost: a\r\n",
        b"A: b\r\n",
        63,
        "\r\n",
        "GET /||1 keep 64|\nend",
    ),
    (
        "GET / HTTP/1.1\r\nHost: a\r\n",
        b"A: b\r\n",
        64,
        "\r\n",
        "400",
    ),
    (
        "GET / HTTP/1.0\r\nX: a",
        b"\xff",
        1,
        "\r\n\r\n",
        "GET /||0 last X=a\u{fffd};|\n",
    ),
    ("GET /a", b"\xff", 1, " HTTP/1.0\r\n\r\n", "400"),
    (
        "PUT / HTTP/1.1\r\nHost: a\r\nContent-Length: 1048576\r\n\r\n",
        b"z",
        1_048_576,
        "GET / HTTP/1.0\r\n\r\n",
        "PUT /||1 keep Host=a;Content-Length=1048576;|1048576\nGET /||0 last |\n",
    ),
    (
        "PUT / HTTP/1.1\r\nHost: a\r\nContent-Length: 1048576\r\n\r\n",
        b"z",
        1_048_575,
        "",
        "cut",
    ),
];

// Pieces that are as long as the reader asks for, of one byte, and of seven.
const PIECES: [usize; 3] = [usize::MAX, 1, 7];

// Fewer runs of the largest bodies.
const LARGE_PIECES: [usize; 3] = [usize::MAX, 1000, 777];

#[test]
fn each_case_has_its_answers_in_pieces_of_any_length(rt: HostRuntime) -> Result<(), Fail> {
    let alloc = rt.alloc();
    has_one_reading();
    stays_decided();
    answers_join();
    for (input, want) in CASES {
        for most in PIECES {
            let got = answers(alloc, input.as_bytes(), most, 0)?;
            assert_eq!(rt; got.as_slice(), want.as_bytes(), "at {input:?}");
        }
    }
    for (start, part, count, end, want) in SIZED {
        let mut input = Vec::from_slice(alloc, start.as_bytes())?;
        for _ in 0..*count {
            input.extend_from_slice(part)?;
        }
        input.extend_from_slice(end.as_bytes())?;
        let pieces = if *count < 100_000 {
            PIECES
        } else {
            LARGE_PIECES
        };
        for most in pieces {
            let got = answers(alloc, input.as_slice(), most, 0)?;
            assert_eq!(rt;
                got.as_slice(),
                want.as_bytes(),
                "at {start:?} {count} {end:?}"
            );
        }
    }
    Ok(())
}

const REQUEST: &[u8] = b"GET / HTTP/1.1\r\nHost: a\r\n\r\n";

#[test]
fn the_thousandth_request_is_the_last(rt: HostRuntime) -> Result<(), Fail> {
    let alloc = rt.alloc();
    let mut input = Vec::new(alloc);
    let mut want = Vec::new(alloc);
    for number in 1..1002 {
        input.extend_from_slice(REQUEST)?;
        if number < 1000 {
            want.extend_from_slice(b"GET /||1 keep Host=a;|\n")?;
        }
    }
    want.extend_from_slice(b"GET /||1 last Host=a;|\n")?;
    for most in PIECES {
        let got = answers(alloc, input.as_slice(), most, 0)?;
        assert_eq!(rt; got.as_slice(), want.as_slice());
    }
    Ok(())
}

// What comes in, how many bytes at once, at which call the source fails, and what is answered: what was decided before comes
// first, and no byte more is asked for.
const FAULTS: &[(&str, usize, u64, &str)] = &[
    ("", 7, 1, "fault"),
    ("GET / HTTP/1.1\r\nHost: a\r\n\r\n", 27, 1, "fault"),
    (
        "GET / HTTP/1.1\r\nHost: a\r\n\r\n",
        27,
        2,
        "GET /||1 keep Host=a;|\nfault",
    ),
    ("GET / HTTP/1.1\r\nHost: a\r\n\r\n", 7, 4, "fault"),
    (
        "GET / HTTP/1.1\r\nHost: a\r\n\r\n",
        7,
        5,
        "GET /||1 keep Host=a;|\nfault",
    ),
    ("GET / HTTP/1.0\r\n\r\n", 1, 18, "fault"),
    ("GET / HTTP/1.0\r\n\r\n", 1, 19, "GET /||0 last |\n"),
    ("GET / HTTP/2.0\r\n\r\n", 1, 19, "505"),
    ("GET / HTTP/1.1\r\n\r\n", 1, 19, "400"),
    (
        "PUT / HTTP/1.0\r\nContent-Length: 2\r\n\r\nab",
        1,
        40,
        "PUT /||0 last Content-Length=2;|ab\n",
    ),
    (
        "PUT / HTTP/1.0\r\nContent-Length: 2\r\n\r\nab",
        1,
        39,
        "fault",
    ),
    (
        "PUT / HTTP/1.0\r\nContent-Length: 9999999\r\n\r\nab",
        1,
        44,
        "413",
    ),
    (
        "GET / HTTP/1.1\r\nHost: a\r\n\r\nGET / HTTP/1.0\r\n\r\n",
        100,
        2,
        "GET /||1 keep Host=a;|\nGET /||0 last |\n",
    ),
];

#[test]
fn a_source_that_fails_behind_a_request_takes_none_away(rt: HostRuntime) -> Result<(), Fail> {
    let alloc = rt.alloc();
    for (input, most, fails_at, want) in FAULTS {
        let got = answers(alloc, input.as_bytes(), *most, *fails_at)?;
        assert_eq!(rt; got.as_slice(), want.as_bytes(), "at {input:?} {fails_at}");
    }
    Ok(())
}
