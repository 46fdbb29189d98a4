// Statuses of responses.
ghost use Rattle.std.specs.Prelude.{◌≡◌, ◌≤◌};
ghost use Rattle.std.specs.Option.{ForSome};
ghost use Rattle.njs_request.specs.Return.{is_answered, status_from};

// Those whose responses have no content, and those whose text is the place that they send to (RFC 9110 §15.3.5, §15.4).
const UNANSWERED: [u16; 7] = [204, 301, 302, 303, 304, 307, 308];

fn is_answered(status: u16) -> bool
    ensures { result ≡ is_answered status }
{
    200 <= status && status <= 599 && !UNANSWERED.contains(&status)
}

// The status that a number is, if it is one that is answered.
pub(crate) fn status_from(number: i64) -> Option<u16>
    ensures status { result ≡ status_from number }
    ensures low { ForSome result (λ status. 200 ≤ status) }
    ensures high { ForSome result (λ status. status ≤ 599) }
{
    let status = u16::try_from(number).ok()?;
    if is_answered(status) {
        Some(status)
    } else {
        None
    }
}
