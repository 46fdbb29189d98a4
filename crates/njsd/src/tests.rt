// The command `call` over an outside in memory.
ghost use Rattle.std.specs.Prelude.{◌≡◌, ◌<◌, IfOk};
ghost use Rattle.conf_read.specs.Limits.{IsWithinLimits};

use super::*;
use conf_read::{Conf, Import};
use njs_conn::{SiteFault, build};
use njs_edge::{BytesIn, BytesOut, ListClock, MapFiles};
use njs_text::List;
use std::alloc::Global;
use std::test::Fail;

const HELLO: &str =
    "function hello(r) { r.return(200, \"Hello world!\"); } export default {hello};";

const GET: &str = "GET / HTTP/1.1\r\nHost: a\r\n\r\n";

const OK: &str =
    "HTTP/1.1 200 OK\r\nContent-Type: text/plain\r\nContent-Length: 12\r\nConnection: keep-alive\r\n\r\nHello world!";

const LAST: &str =
    "HTTP/1.1 200 OK\r\nContent-Type: text/plain\r\nContent-Length: 12\r\nConnection: close\r\n\r\nHello world!";

const FAILED: &str =
    "HTTP/1.1 500 Internal Server Error\r\nContent-Type: text/plain\r\nContent-Length: 0\r\nConnection: keep-alive\r\n\r\n";

const HEAD_ONLY: &str =
    "HTTP/1.1 200 OK\r\nContent-Type: text/plain\r\nContent-Length: 12\r\nConnection: keep-alive\r\n\r\n";

const BAD_REQUEST: &str =
    "HTTP/1.1 400 Bad Request\r\nContent-Type: text/plain\r\nContent-Length: 0\r\nConnection: close\r\n\r\n";

const TOO_LARGE: &str =
    "HTTP/1.1 413 Payload Too Large\r\nContent-Type: text/plain\r\nContent-Length: 0\r\nConnection: close\r\n\r\n";

const NOT_IMPLEMENTED: &str =
    "HTTP/1.1 501 Not Implemented\r\nContent-Type: text/plain\r\nContent-Length: 0\r\nConnection: close\r\n\r\n";

const OTHER_VERSION: &str =
    "HTTP/1.1 505 HTTP Version Not Supported\r\nContent-Type: text/plain\r\nContent-Length: 0\r\nConnection: close\r\n\r\n";

const USAGE: &str =
    "usage: njsd call FILE NAME | once CONF | check CONF | script FILE | load N | serve CONF\n";

/// What a run is given, and what it must answer.
struct Case {
    words: &'static [&'static str],
    input: &'static str,
    status: u8,
    output: &'static [&'static str],
    notes: &'static str,
}

const CASES: &[Case] = &[
    Case {
        words: &["call", "hello.js", "hello"],
        input: "GET / HTTP/1.1\r\nHost: a\r\n\r\n",
        status: 0,
        output: &[OK],
        notes: "",
    },
    Case {
        words: &["call", "hello.js", "hello"],
        input: "",
        status: 0,
        output: &[],
        notes: "",
    },
    Case {
        words: &["call", "hello.js", "hello"],
        input: "GET / HTTP/1.1\r\nHost: a\r\n\r\nGET /b?c=%20 HTTP/1.1\r\nHost: example.com:8000\r\n\r\n",
        status: 0,
        output: &[OK, OK],
        notes: "",
    },
    Case {
        words: &["call", "hello.js", "other"],
        input: "GET / HTTP/1.1\r\nHost: a\r\n\r\n",
        status: 0,
        output: &[FAILED],
        notes: "",
    },
    Case {
        words: &["call", "hello.js", "hello"],
        input: "POST / HTTP/1.1\r\nHost: a\r\nContent-Length: 3\r\n\r\nabcGET / HTTP/1.1\r\nHost: a\r\n\r\n",
        status: 0,
        output: &[OK, OK],
        notes: "",
    },
    Case {
        words: &["call", "hello.js", "hello"],
        input: "HEAD / HTTP/1.1\r\nHost: a\r\n\r\nGET / HTTP/1.1\r\nHost: a\r\n\r\n",
        status: 0,
        output: &[HEAD_ONLY, OK],
        notes: "",
    },
    Case {
        words: &["call", "hello.js", "hello"],
        input: "GET / HTTP/1.0\r\n\r\nGET / HTTP/1.1\r\nHost: a\r\n\r\n",
        status: 0,
        output: &[LAST],
        notes: "",
    },
    Case {
        words: &["call", "hello.js", "hello"],
        input: "GET / HTTP/1.0\r\nConnection: Keep-Alive\r\n\r\n",
        status: 0,
        output: &[OK],
        notes: "",
    },
    Case {
        words: &["call", "hello.js", "hello"],
        input: "GET / HTTP/1.1\r\nHost: a\r\n\r\nGET / HTTP/1.1\r\n\r\n",
        status: 0,
        output: &[OK, BAD_REQUEST],
        notes: "",
    },
    Case {
        words: &["call", "hello.js", "hello"],
        input: "TRACE / HTTP/1.1\r\nHost: a\r\n\r\n",
        status: 0,
        output: &[NOT_IMPLEMENTED],
        notes: "",
    },
    Case {
        words: &["call", "hello.js", "hello"],
        input: "GET / HTTP/2.0\r\nHost: a\r\n\r\n",
        status: 0,
        output: &[OTHER_VERSION],
        notes: "",
    },
    Case {
        words: &["call", "hello.js", "hello"],
        input: "POST / HTTP/1.1\r\nHost: a\r\nContent-Length: 1048577\r\n\r\n",
        status: 0,
        output: &[TOO_LARGE],
        notes: "",
    },
    Case {
        words: &["call", "hello.js", "hello"],
        input: "POST / HTTP/1.1\r\nHost: a\r\nContent-Length: 3\r\n\r\nab",
        status: 6,
        output: &[],
        notes: "cut\n",
    },
    Case {
        words: &["call", "hello.js", "hello"],
        input: "GET / HTTP/1.1\r\nHost",
        status: 6,
        output: &[],
        notes: "cut\n",
    },
    Case {
        words: &["call", "hello.js", "hello"],
        input: "GET / HTTP/1.1\r\nHost: a\r\n\r\nG",
        status: 6,
        output: &[OK],
        notes: "cut\n",
    },
    Case {
        words: &["call", "x.js", "h"],
        input: "GET / HTTP/1.1\r\nHost: a\r\n\r\n",
        status: 4,
        output: &[],
        notes: "script x.js: not built line 1\n",
    },
    Case {
        words: &["call", "y.js", "h"],
        input: "",
        status: 4,
        output: &[],
        notes: "script y.js: not built line 1\n",
    },
    Case {
        words: &["call", "other.js", "h"],
        input: "",
        status: 4,
        output: &[],
        notes: "script other.js: not built line 3\n",
    },
    Case {
        words: &["call", "open.js", "h"],
        input: "",
        status: 4,
        output: &[],
        notes: "script open.js: syntax line 2\n",
    },
    Case {
        words: &["call", "deep.js", "h"],
        input: "",
        status: 4,
        output: &[],
        notes: "script deep.js: too deep line 3\n",
    },
    Case {
        words: &["call", "early.js", "h"],
        input: "",
        status: 4,
        output: &[],
        notes: "script early.js: early return line 2\n",
    },
    Case {
        words: &["call", "latin.js", "h"],
        input: "",
        status: 4,
        output: &[],
        notes: "script latin.js: not utf-8 at 2\n",
    },
    Case {
        words: &["call", "none.js", "h"],
        input: "",
        status: 5,
        output: &[],
        notes: "file none.js: cannot be read\n",
    },
    Case {
        words: &[],
        input: "",
        status: 2,
        output: &[],
        notes: USAGE,
    },
    Case {
        words: &["call", "x.js"],
        input: "",
        status: 2,
        output: &[],
        notes: USAGE,
    },
    Case {
        words: &["call", "hello.js", "if"],
        input: "",
        status: 2,
        output: &[],
        notes: USAGE,
    },
];

fn text(alloc: Global, word: &str) -> Result<Text, NoMemory> {
    match Text::from_utf8(alloc, word.as_bytes()) {
        Ok(text) => Ok(text),
        Err(_) => Err(NoMemory),
    }
}

fn list(alloc: Global, words: &[&str]) -> Result<Vec<Text>, NoMemory> {
    let mut list = Vec::new(alloc);
    for word in words {
        list.push(text(alloc, word)?)?;
    }
    Ok(list)
}

fn joined(alloc: Global, pieces: &[&str]) -> Result<Vec<u8>, NoMemory> {
    let mut bytes = Vec::new(alloc);
    for piece in pieces {
        bytes.extend_from_slice(piece.as_bytes())?;
    }
    Ok(bytes)
}

/// 201 opening brackets, the last of them on the third line.
const DEEP: &str = concat!(
    "((((((((((((((((((((((((((((((((((((((((((((((((((",
    "((((((((((((((((((((((((((((((((((((((((((((((((((",
    "\n((((((((((((((((((((((((((((((((((((((((((((((((((",
    "((((((((((((((((((((((((((((((((((((((((((((((((((\n(",
);

/// The scripts, by the names of their files.
const SCRIPTS: &[(&str, &str)] = &[
    ("hello.js", HELLO),
    ("x.js", "1;"),
    ("y.js", "var a;"),
    (
        "other.js",
        "function h(r) {\n  r.return(\n    201, 'a');\n}\nexport default {h};",
    ),
    ("open.js", "var a;\nvar 1;"),
    ("deep.js", DEEP),
    ("early.js", "var eval_;\nreturn;\ndelete a;"),
];

// The scripts, and a file that isn't UTF-8.
fn files(alloc: Global) -> Result<MapFiles, NoMemory> {
    let mut contents = Vec::new(alloc);
    for (name, script) in SCRIPTS {
        let bytes = Vec::from_slice(alloc, script.as_bytes())?;
        contents.push((text(alloc, name)?, bytes))?;
    }
    let latin = Vec::from_slice(alloc, b"v \xe9")?;
    contents.push((text(alloc, "latin.js")?, latin))?;
    Ok(MapFiles::new(alloc, contents, Vec::new(alloc)))
}

/// What the program answers: its status, and what the sink and the notes got.
#[derive(Drop)]
struct RunResult {
    status: u8,
    sink: BytesOut,
    notes: BytesOut,
}

fn outcome<L: Ledger>(
    alloc: Global,
    blank: Blank,
    words: &[Text],
    mut files: MapFiles,
    mut source: BytesIn,
    mut sink: BytesOut,
    mut notes: BytesOut,
) -> RunResult
    requires name { blank.name ≡ L.name }
    requires parts { blank.parts ≡ L.parts }
    requires some { 0 < L.parts }
{
    let mut steps = Steps::<L>::new(blank);
    let mut clock = ListClock::new(&[]);
    let status = run(
        alloc,
        words,
        &mut files,
        &mut clock,
        &mut source,
        &mut sink,
        &mut notes,
        &mut steps,
    );
    RunResult {
        status: code(&status),
        sink,
        notes,
    }
}

fn source(alloc: Global, input: &[u8], most: usize, fails: &[u64]) -> Result<BytesIn, NoMemory>
    requires { 0 < most }
{
    let bytes = Vec::from_slice(alloc, input)?;
    let fails = Vec::from_slice(alloc, fails)?;
    Ok(BytesIn::new(bytes, most, fails))
}

fn sink(alloc: Global, most: usize, fails: &[u64]) -> Result<BytesOut, NoMemory>
    requires { 0 < most }
{
    let fails = Vec::from_slice(alloc, fails)?;
    Ok(BytesOut::new(alloc, most, fails))
}

#[test]
fn each_case_has_its_answer_in_pieces_of_any_length(rt: HostRuntime) -> Result<(), Fail> {
    let alloc = rt.alloc();
    for case in CASES {
        for most in [1usize, 7, 4096] {
            let words = list(alloc, case.words)?;
            let input = source(alloc, case.input.as_bytes(), most, &[])?;
            let output = sink(alloc, most, &[])?;
            let notes = sink(alloc, most, &[])?;
            let outcome = outcome::<Brand>(
                alloc,
                Blank::new(1),
                &words,
                files(alloc)?,
                input,
                output,
                notes,
            );
            assert_eq!(rt; outcome.status, case.status);
            assert_eq!(rt;
                outcome.sink.bytes(),
                joined(alloc, case.output)?.as_slice()
            );
            assert_eq!(rt; outcome.notes.bytes(), case.notes.as_bytes());
        }
    }
    Ok(())
}

// A file of one script, with blanks behind it up to so many bytes.
fn padded(alloc: Global, size: usize) -> Result<MapFiles, NoMemory> {
    let mut long = Vec::from_slice(alloc, HELLO.as_bytes())?;
    for _ in HELLO.len()..size {
        long.push(b' ')?;
    }
    let mut contents = Vec::new(alloc);
    contents.push((text(alloc, "long.js")?, long))?;
    Ok(MapFiles::new(alloc, contents, Vec::new(alloc)))
}

#[test]
fn a_script_has_at_most_1048576_bytes(rt: HostRuntime) -> Result<(), Fail> {
    let alloc = rt.alloc();
    let words = list(alloc, &["call", "long.js", "hello"])?;
    for (size, status, note) in [
        (1_048_576usize, 0u8, ""),
        (1_048_577, 4, "script long.js: too long\n"),
    ] {
        let input = source(alloc, b"", 7, &[])?;
        let output = sink(alloc, 7, &[])?;
        let notes = sink(alloc, 7, &[])?;
        let files = padded(alloc, size)?;
        let outcome = outcome::<Brand>(alloc, Blank::new(1), &words, files, input, output, notes);
        assert_eq!(rt; outcome.status, status);
        assert_eq!(rt; outcome.notes.bytes(), note.as_bytes());
    }
    Ok(())
}

#[test]
fn the_thousandth_request_closes(rt: HostRuntime) -> Result<(), Fail> {
    let alloc = rt.alloc();
    let words = list(alloc, &["call", "hello.js", "hello"])?;
    let mut requests = Vec::new(alloc);
    let mut answers = Vec::new(alloc);
    for _ in 0..999 {
        requests.extend_from_slice(GET.as_bytes())?;
        answers.extend_from_slice(OK.as_bytes())?;
    }
    requests.extend_from_slice(GET.as_bytes())?;
    requests.extend_from_slice(GET.as_bytes())?;
    answers.extend_from_slice(LAST.as_bytes())?;
    let input = source(alloc, &requests, 4096, &[])?;
    let output = sink(alloc, 4096, &[])?;
    let notes = sink(alloc, 4096, &[])?;
    let outcome = outcome::<Brand>(
        alloc,
        Blank::new(1),
        &words,
        files(alloc)?,
        input,
        output,
        notes,
    );
    assert_eq!(rt; outcome.status, 0);
    assert_eq!(rt; outcome.sink.bytes(), answers.as_slice());
    Ok(())
}

// A request of 27 bytes is read in four pieces of 7, and then the end.
#[test]
fn a_read_that_fails_at_any_number_is_a_read_fault(rt: HostRuntime) -> Result<(), Fail> {
    let alloc = rt.alloc();
    let words = list(alloc, &["call", "hello.js", "hello"])?;
    for (number, status, answer) in [
        (1u64, 7u8, ""),
        (2, 7, ""),
        (3, 7, ""),
        (4, 7, ""),
        (5, 7, OK),
        (6, 0, OK),
    ] {
        let input = source(alloc, GET.as_bytes(), 7, &[number])?;
        let output = sink(alloc, 4096, &[])?;
        let notes = sink(alloc, 4096, &[])?;
        let outcome = outcome::<Brand>(
            alloc,
            Blank::new(1),
            &words,
            files(alloc)?,
            input,
            output,
            notes,
        );
        assert_eq!(rt; outcome.status, status);
        assert_eq!(rt; outcome.sink.bytes(), answer.as_bytes());
        let note = if status == 0 { "" } else { "read fault\n" };
        assert_eq!(rt; outcome.notes.bytes(), note.as_bytes());
    }
    Ok(())
}

// A response of 101 bytes is written in eleven pieces of at most 10, and then flushed.
#[test]
fn a_write_that_fails_at_any_number_is_a_write_fault(rt: HostRuntime) -> Result<(), Fail> {
    let alloc = rt.alloc();
    let words = list(alloc, &["call", "hello.js", "hello"])?;
    for number in 1u64..14 {
        let input = source(alloc, GET.as_bytes(), 4096, &[])?;
        let output = sink(alloc, 10, &[number])?;
        let notes = sink(alloc, 4096, &[])?;
        let outcome = outcome::<Brand>(
            alloc,
            Blank::new(1),
            &words,
            files(alloc)?,
            input,
            output,
            notes,
        );
        let got = (10 * (number as usize - 1)).min(101);
        assert_eq!(rt; outcome.status, if number < 13 { 8 } else { 0 });
        assert_eq!(rt; outcome.sink.bytes(), &OK.as_bytes()[..got]);
        let note = if number < 13 { "write fault\n" } else { "" };
        assert_eq!(rt; outcome.notes.bytes(), note.as_bytes());
    }
    Ok(())
}

#[test]
fn notes_that_fail_change_no_status(rt: HostRuntime) -> Result<(), Fail> {
    let alloc = rt.alloc();
    let words = list(alloc, &["call", "none.js", "h"])?;
    let input = source(alloc, b"", 7, &[])?;
    let output = sink(alloc, 7, &[])?;
    let notes = sink(alloc, 9, &[2])?;
    let outcome = outcome::<Brand>(
        alloc,
        Blank::new(1),
        &words,
        files(alloc)?,
        input,
        output,
        notes,
    );
    assert_eq!(rt; outcome.status, 5);
    assert_eq!(rt; outcome.notes.bytes(), b"file none".as_slice());
    Ok(())
}

// One import for each file, and no location.
fn scripts(alloc: Global, first: &str, second: &str) -> Result<Conf, NoMemory>
    ensures { IfOk result IsWithinLimits }
{
    let mut imports = List::new(alloc);
    imports.push(Import {
        name: text(alloc, "a")?,
        file: text(alloc, first)?,
    })?;
    imports.push(Import {
        name: text(alloc, "b")?,
        file: text(alloc, second)?,
    })?;
    Ok(Conf {
        workers: 1,
        host: text(alloc, "localhost")?,
        port: 8000,
        fuel: 1,
        imports,
        zones: List::new(alloc),
        locations: List::new(alloc),
    })
}

// What building the site of two files answers: 0 for a site, 1 for a file and 2 for a script, with its name.
fn built(alloc: Global, first: &str, second: &str) -> Result<(u8, Text), NoMemory> {
    let mut files = files(alloc)?;
    match build(alloc, scripts(alloc, first, second)?, &mut files) {
        Ok(_) => Ok((0, text(alloc, "")?)),
        Err(SiteFault::File(file)) => Ok((1, file)),
        Err(SiteFault::Script(file, _)) => Ok((2, file)),
        Err(SiteFault::NoMemory) => Err(NoMemory),
    }
}

#[test]
fn all_files_are_read_before_the_scripts(rt: HostRuntime) -> Result<(), Fail> {
    let alloc = rt.alloc();
    for (first, second, kind, name) in [
        ("hello.js", "hello.js", 0u8, ""),
        ("x.js", "none.js", 1, "none.js"),
        ("none.js", "x.js", 1, "none.js"),
        ("hello.js", "latin.js", 2, "latin.js"),
        ("x.js", "latin.js", 2, "x.js"),
    ] {
        let (found, file) = built(alloc, first, second)?;
        assert_eq!(rt; found, kind);
        assert_eq!(rt; file.as_str(), name);
    }
    Ok(())
}
