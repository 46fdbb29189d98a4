// The first line of a head, and the version in it.
ghost use Rattle.std.specs.Prelude.{◌≡◌, ◌≤◌, ◌==◌, length, take, drop};
ghost use Rattle.http_in.specs.Rules.{front_while, is_within_line, is_before_query, without_cr, first_line, is_other_version, ends_in_other_version};

// The bytes before the line's LF.
fn before_lf(bytes: &[u8]) -> &[u8]
    ensures { result.now ≡ front_while is_within_line bytes.now }
{
    let mut count = 0;
    for byte in bytes {
        if *byte == b'\n' {
            break;
        }
        count += 1;
    }
    &bytes[..count]
}

/// The bytes before the query's mark.
pub(crate) fn before_query(target: &[u8]) -> &[u8]
    ensures { result.now ≡ front_while is_before_query target.now }
{
    let mut count = 0;
    for byte in target {
        if *byte == b'?' {
            break;
        }
        count += 1;
    }
    &target[..count]
}

fn without_cr(line: &[u8]) -> &[u8]
    ensures { result.now ≡ without_cr line.now }
{
    if !line.is_empty() && line[line.len() - 1] == b'\r' {
        &line[..line.len() - 1]
    } else {
        line
    }
}

/// The first line without its end.
#[tactic(auto, unfolding(crate::specs::Rules::first_line))]
pub(crate) fn first_line(head: &[u8]) -> &[u8]
    ensures { result.now ≡ first_line head.now }
{
    without_cr(before_lf(head))
}

fn is_other_version(bytes: &[u8]) -> bool
    ensures { result ≡ is_other_version bytes.now }
{
    match bytes {
        [b' ', b'H', b'T', b'T', b'P', b'/', major, b'.', minor] => {
            major.is_ascii_digit()
                && minor.is_ascii_digit()
                && !(*major == b'1' && (*minor == b'0' || *minor == b'1'))
        }
        _ => false,
    }
}

/// Whether the line ends in a version of HTTP other than 1.0 and 1.1 (RFC 9112 §2.3).
#[tactic(auto, unfolding(crate::specs::Rules::ends_in_other_version))]
pub(crate) fn ends_in_other_version(line: &[u8]) -> bool
    ensures { result ≡ ends_in_other_version line.now }
{
    is_other_version(&line[line.len().saturating_sub(9)..])
}
