// Where a head begins and ends.
ghost use Rattle.std.specs.Prelude.{◌≡◌, ◌↔◌, ℕ, ◌+◌, ◌≤◌, ◌==◌, ◌||◌, ◌&&◌, List, [], ◌++◌, length, drop, IsTrue};
ghost use Rattle.http_in.specs.Head.{starts_with_lf, behind_empty_lines};
ghost use Rattle.http_in.specs.Deciding.{has_begun, LineIs, HeadEndIs, PassesOver, IsPlace, IsOpenPlace, start_of};

/// The most bytes of a head, with the empty lines before it.
pub(crate) const MAX_HEAD: usize = 16_384;

/// How far the end of a head was looked for.
#[derive(Clone, Copy, Debug, PartialEq, Eq)]
pub(crate) enum Place {
    /// So many bytes are empty lines, and no head has begun behind them.
    EmptyLines(usize),
    /// A head begins at `.0`, and doesn't end with an empty line that begins before so many of its bytes.
    Head(usize, usize),
}

/// What stands at the beginning of a line.
#[derive(Clone, Copy, Debug, PartialEq, Eq)]
pub(crate) enum Line {
    /// An empty line of so many bytes.
    Empty(usize),
    Other,
    /// More bytes are needed to tell.
    Open,
}

/// Where a head ends.
#[derive(Clone, Copy, Debug, PartialEq, Eq)]
pub(crate) enum HeadEnd {
    At(usize),
    /// It doesn't end here, and need not be looked for before this place again.
    Beyond(usize),
}

fn starts_with_lf(bytes: &[u8]) -> bool
    ensures { result ≡ starts_with_lf bytes.now }
{
    matches!(bytes, [b'\n', ..])
}

// Whether the byte belongs to an empty line.
fn is_passed(byte: u8, rest: &[u8]) -> bool
    ensures { result ≡ (byte == 10 || (byte == 13 && starts_with_lf rest.now)) }
{
    byte == b'\n' || (byte == b'\r' && starts_with_lf(rest))
}

/// How many bytes the whole empty lines at the front have.
pub(crate) fn empty_lines(bytes: &[u8]) -> usize
    ensures within { result ≤ length bytes.now }
    ensures passes { PassesOver result bytes.now }
    ensures rest { behind_empty_lines bytes.now ≡ drop result bytes.now }
{
    for (index, byte) in bytes.iter().enumerate() {
        if !is_passed(*byte, &bytes[index + 1..]) {
            return index;
        }
    }
    bytes.len()
}

fn has_begun(bytes: &[u8]) -> bool
    ensures { result ≡ has_begun bytes.now }
{
    !matches!(bytes, [] | [b'\r'])
}

fn line_at(bytes: &[u8]) -> Line
    ensures { LineIs result bytes.now }
{
    match bytes {
        [b'\n', ..] => Line::Empty(1),
        [b'\r', b'\n', ..] => Line::Empty(2),
        [] | [b'\r'] => Line::Open,
        _ => Line::Other,
    }
}

/// Where the head ends whose lines these are.
pub(crate) fn head_end(bytes: &[u8]) -> HeadEnd
    ensures { HeadEndIs result bytes.now }
{
    for (index, byte) in bytes.iter().enumerate() {
        if *byte == b'\n' {
            match line_at(&bytes[index + 1..]) {
                Line::Empty(len) => return HeadEnd::At(index + 1 + len),
                Line::Open => return HeadEnd::Beyond(index),
                Line::Other => {}
            }
        }
    }
    HeadEnd::Beyond(bytes.len())
}

/// Passes over empty lines up to where the head begins.
pub(crate) fn begin(bytes: &[u8], place: Place) -> Place
    requires { IsPlace place bytes.now }
    ensures place { IsPlace result bytes.now }
    ensures start { behind_empty_lines bytes.now ≡ drop (start_of result) bytes.now }
    ensures open { IsOpenPlace result bytes.now }
{
    match place {
        Place::EmptyLines(count) => {
            let start = count + empty_lines(&bytes[count..]);
            if has_begun(&bytes[start..]) {
                Place::Head(start, 0)
            } else {
                Place::EmptyLines(start)
            }
        }
        Place::Head(..) => place,
    }
}

/// Whether the bytes are nothing but whole empty lines.
pub(crate) fn is_nothing(bytes: &[u8]) -> bool
    ensures { IsTrue result ↔ (behind_empty_lines bytes.now ≡ []) }
{
    empty_lines(bytes) == bytes.len()
}
