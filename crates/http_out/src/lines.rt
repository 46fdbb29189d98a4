// Lines that are put after the bytes so far.
ghost use Rattle.std.specs.Prelude.{◌≡◌, ◌≤◌, ◌<◌, ◌++◌, OnOk, map, length, decimal};
ghost use Rattle.http_out.specs.Message.{crlf, ended, ended_lines, IsLine};
ghost use Rattle.http_out.specs.Response.{phrase, status_line, field_line, further_line};
ghost use Rattle.http.specs.StatusCode.{code_digits};
ghost use Rattle.http_header.specs.FieldValue.{IsVisibleAscii};

use http::StatusCode;
use itoa::Buffer;
use njs_text::{NoMemory, Text};

const CRLF: &[u8] = b"\r\n";

// The digits and the phrase of a status.
#[tactic(auto, unfolding(crate::specs::Response::phrase))]
fn status_texts(status: u16) -> (&'static str, &'static str)
    requires low { 100 ≤ status }
    requires high { status < 1000 }
    ensures digits { result.0.now ≡ code_digits status }
    ensures phrase { result.1.now ≡ phrase status }
    ensures visible { IsVisibleAscii result.1.now }
{
    match StatusCode::from_u16(status) {
        Ok(code) => (code.as_str(), code.canonical_reason().unwrap_or("")),
        Err(_) => ("", ""),
    }
}

#[tactic(auto, unfolding(crate::specs::Message::crlf))]
pub(crate) fn put_line_end(bytes: &mut Vec<u8>) -> Result<(), NoMemory>
    ensures { OnOk result (bytes.new.items ≡ bytes.old.items ++ crlf) }
{
    Ok(bytes.extend_from_slice(CRLF)?)
}

pub(crate) fn put_status_line(bytes: &mut Vec<u8>, status: u16) -> Result<(), NoMemory>
    requires low { 100 ≤ status }
    requires high { status < 1000 }
    ensures bytes { OnOk result (bytes.new.items ≡ bytes.old.items ++ ended (status_line status)) }
    ensures line { OnOk result (IsLine (status_line status)) }
{
    let (digits, phrase) = status_texts(status);
    bytes.extend_from_slice(b"HTTP/1.1 ")?;
    bytes.extend_from_slice(digits.as_bytes())?;
    bytes.extend_from_slice(b" ")?;
    bytes.extend_from_slice(phrase.as_bytes())?;
    put_line_end(bytes)
}

pub(crate) fn put_field(bytes: &mut Vec<u8>, name: &str, value: &str) -> Result<(), NoMemory>
    ensures { OnOk result (bytes.new.items ≡ bytes.old.items ++ ended (field_line name.now value.now)) }
{
    bytes.extend_from_slice(name.as_bytes())?;
    bytes.extend_from_slice(b": ")?;
    bytes.extend_from_slice(value.as_bytes())?;
    put_line_end(bytes)
}

pub(crate) fn put_number(bytes: &mut Vec<u8>, name: &str, number: usize) -> Result<(), NoMemory>
    ensures { OnOk result (bytes.new.items ≡ bytes.old.items ++ ended (field_line name.now (decimal number))) }
{
    let mut buffer = Buffer::new();
    put_field(bytes, name, buffer.format(number))
}

pub(crate) fn put_further(bytes: &mut Vec<u8>, fields: &[(Text, Text)]) -> Result<(), NoMemory>
    ensures { OnOk result (bytes.new.items ≡ bytes.old.items ++ ended_lines (map further_line fields.now)) }
{
    for (name, value) in fields {
        put_field(bytes, name.as_str(), value.as_str())?;
    }
    Ok(())
}
