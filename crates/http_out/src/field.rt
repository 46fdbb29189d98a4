// Which fields a reply may have.
ghost use Rattle.std.specs.Prelude.{◌≡◌, ◌↔◌, IsTrue};
ghost use Rattle.std.specs.List.{list_any};
ghost use Rattle.std.specs.Str.{str_eq_ignore_ascii_case};
ghost use Rattle.http_header.specs.FieldValue.{IsFieldValue};
ghost use Rattle.http_out.specs.Reply.{IsName, IsValue, stated_names};

use http_header::is_token;
use njs_text::Text;

const STATED_NAMES: [&str; 4] = [
    "Content-Type",
    "Content-Length",
    "Connection",
    "Transfer-Encoding",
];

// Whether the response states this field itself.
fn is_stated(name: &str) -> bool
    ensures { result ≡ list_any (λ stated. str_eq_ignore_ascii_case name.now stated) stated_names }
{
    STATED_NAMES
        .iter()
        .any(|stated| name.eq_ignore_ascii_case(stated))
}

// Whether the bytes are a field's value.
fn has_no_controls(bytes: &[u8]) -> bool
    ensures { IsTrue result ↔ IsFieldValue bytes.now }
{
    bytes
        .iter()
        .all(|b| *b == b'\t' || (*b >= b' ' && *b != 0x7f))
}

/// Whether a reply may have a further field of this name: it is a token (RFC 9110 §5.1), and isn't `Content-Type`,
/// `Content-Length`, `Connection` or `Transfer-Encoding` in any case, which a response states itself.
#[tactic(auto, unfolding(crate::specs::Reply::IsName))]
pub fn is_field_name(name: &Text) -> bool
    ensures { IsTrue result ↔ IsName name.now }
{
    is_token(name.as_bytes()) && !is_stated(name.as_str())
}

/// Whether a field may have this value, a reply's type included: it has no control characters but TAB (RFC 9110 §5.5).
#[tactic(auto, unfolding(crate::specs::Reply::IsValue))]
pub fn is_field_value(value: &Text) -> bool
    ensures { IsTrue result ↔ IsValue value.now }
{
    has_no_controls(value.as_bytes())
}
