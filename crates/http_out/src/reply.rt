// What a response is made from.
ghost use Rattle.std.specs.Prelude.{◌↔◌, IsTrue, All};
ghost use Rattle.http_out.specs.Reply.{IsField, IsReply};

use crate::{is_field_name, is_field_value};
use njs_text::{List, Text};

/// What a response is made from.
#[derive(Debug, Drop)]
pub struct Reply {
    /// The status code (RFC 9110 §15).
    pub status: u16,
    /// The type of the body, as `text/plain` (RFC 9110 §8.3). It isn't written for 204 and 304.
    pub kind: Text,
    /// Names and values of further fields, in the order in which they are written.
    pub fields: List<(Text, Text)>,
    /// The body, which is written as UTF-8. It isn't written for 204 and 304.
    pub body: Text,
}

fn are_fields(fields: &[(Text, Text)]) -> bool
    ensures { IsTrue result ↔ All IsField fields.now }
{
    for (name, value) in fields {
        if !is_field_name(name) || !is_field_value(value) {
            return false;
        }
    }
    true
}

impl Reply {
    /// Whether a response may be made from this: the status has three digits, there are at most 64 further fields, and
    /// `is_field_name` holds of their names and `is_field_value` of their values and of the type.
    pub fn is_valid(&self) -> bool
        ensures { IsTrue result ↔ IsReply self.now }
    {
        (100..1000).contains(&self.status)
            && is_field_value(&self.kind)
            && self.fields.len() <= 64
            && are_fields(self.fields.as_slice())
    }
}
