// What the bytes that have come decide.
ghost use Rattle.std.specs.Prelude.{◌≡◌, ◌+◌, ◌<◌, ◌≤◌, length, take};
ghost use Rattle.http_in.specs.Head.{max_head};
ghost use Rattle.http_in.specs.Requests.{too_long_status};
ghost use Rattle.http_in.specs.Deciding.{IsPlace, FramedIs, start_of, IsProgress, DecidedIs};

use crate::head::{HeadEnd, MAX_HEAD, Place, begin, head_end};
use crate::judge::{Judged, judge};
use crate::request::Request;
use std::alloc::Global;

/// What is known of the bytes of the next request so far.
#[derive(Clone, Copy, Debug, PartialEq, Eq)]
pub(crate) struct Progress {
    /// How far the end of the head was looked for.
    pub(crate) place: Place,
    /// Fewer bytes decide nothing.
    pub(crate) need: usize,
}

/// Where a head stands.
#[derive(Clone, Copy, Debug, PartialEq, Eq)]
pub(crate) enum Framed {
    /// It begins at `.0` and has `.1` bytes.
    Head(usize, usize),
    /// It doesn't end here.
    Open(Place),
}

/// What the bytes decide.
#[derive(Drop)]
pub(crate) enum Decided {
    /// A request, which takes so many bytes.
    Request(Request, usize),
    Bad(u16),
    Undecided,
    NoMemory,
}

// Looks on for the end of the head.
fn frame(window: &[u8], place: Place) -> Framed
    requires { IsPlace place window.now }
    ensures { FramedIs result window.now }
{
    match begin(window, place) {
        Place::EmptyLines(count) => Framed::Open(Place::EmptyLines(count)),
        Place::Head(start, seen) => match head_end(&window[start + seen..]) {
            HeadEnd::At(len) => Framed::Head(start, seen + len),
            HeadEnd::Beyond(more) => Framed::Open(Place::Head(start, seen + more)),
        },
    }
}

fn start_of(place: Place) -> usize
    ensures { result ≡ start_of place }
{
    match place {
        Place::EmptyLines(count) => count,
        Place::Head(start, _) => start,
    }
}

// The status where no head ends in time. The bytes are those from the head's first on.
fn too_long_status(rest: &[u8]) -> u16
    ensures { result ≡ too_long_status rest.now }
{
    if rest.is_empty() || rest.contains(&b'\n') {
        400
    } else {
        414
    }
}

// What a head that ended and the bytes behind it decide.
fn decide_framed(
    alloc: Global,
    number: usize,
    bytes: &[u8],
    start: usize,
    len: usize,
    progress: &mut Progress,
) -> Decided
    requires number { number < 1000 }
    requires progress { IsProgress number progress.old bytes.now }
    requires framed { FramedIs (Framed.Head start len) (take max_head bytes.now) }
    requires within { start + len ≤ length bytes.now }
    requires small { start + len ≤ max_head }
    ensures { DecidedIs result number progress.new bytes.now }
{
    let end = start + len;
    match judge(alloc, number, &bytes[start..end], &bytes[end..]) {
        Judged::Request(request, body) => Decided::Request(request, end + body),
        Judged::Bad(status) => Decided::Bad(status),
        Judged::Wants(body) => {
            progress.need = end + body;
            Decided::Undecided
        }
        Judged::NoMemory => Decided::NoMemory,
    }
}

/// What the bytes decide, behind so many requests. The bytes that were looked at before aren't looked at again, but for the
/// head where the body came later.
pub(crate) fn decide(alloc: Global, number: usize, bytes: &[u8], progress: &mut Progress) -> Decided
    requires number { number < 1000 }
    requires progress { IsProgress number progress.old bytes.now }
    ensures { DecidedIs result number progress.new bytes.now }
{
    if bytes.len() < progress.need {
        return Decided::Undecided;
    }
    let window = &bytes[..bytes.len().min(MAX_HEAD)];
    match frame(window, progress.place) {
        Framed::Head(start, len) => decide_framed(alloc, number, bytes, start, len, progress),
        Framed::Open(place) => {
            progress.place = place;
            if bytes.len() < MAX_HEAD {
                Decided::Undecided
            } else {
                Decided::Bad(too_long_status(&window[start_of(place)..]))
            }
        }
    }
}
