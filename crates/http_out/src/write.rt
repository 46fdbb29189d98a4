// The bytes of a response.
ghost use Rattle.std.specs.Prelude.{◌≡◌, ◌++◌, All, IfOk, OnOk};
ghost use Rattle.http_out.specs.Message.{ended, ended_lines, IsLine, ReadsAs};
ghost use Rattle.http_out.specs.Reply.{IsReply};
ghost use Rattle.http_out.specs.Response.{has_content, type_lines, length_lines, connection_line, connection_option, head_lines, content, response_bytes};

use crate::Reply;
use crate::lines::{put_field, put_further, put_line_end, put_number, put_status_line};
use njs_text::NoMemory;
use std::alloc::Global;

#[tactic(auto, unfolding(crate::specs::Response::has_content))]
fn has_content(status: u16) -> bool
    ensures { result ≡ has_content status }
{
    !matches!(status, 204 | 304)
}

fn put_type(bytes: &mut Vec<u8>, reply: &Reply) -> Result<(), NoMemory>
    ensures { OnOk result (bytes.new.items ≡ bytes.old.items ++ ended_lines (type_lines reply.now)) }
{
    if has_content(reply.status) {
        put_field(bytes, "Content-Type", reply.kind.as_str())?;
    }
    Ok(())
}

fn put_length(bytes: &mut Vec<u8>, reply: &Reply) -> Result<(), NoMemory>
    ensures bytes { OnOk result (bytes.new.items ≡ bytes.old.items ++ ended_lines (length_lines reply.now)) }
    ensures lines { OnOk result (All IsLine (length_lines reply.now)) }
{
    if has_content(reply.status) {
        put_number(bytes, "Content-Length", reply.body.as_bytes().len())?;
    }
    Ok(())
}

fn connection_option(keep: bool) -> &'static str
    ensures { result.now ≡ connection_option keep }
{
    if keep { "keep-alive" } else { "close" }
}

fn put_connection(bytes: &mut Vec<u8>, keep: bool) -> Result<(), NoMemory>
    ensures { OnOk result (bytes.new.items ≡ bytes.old.items ++ ended (connection_line keep)) }
{
    put_field(bytes, "Connection", connection_option(keep))
}

fn put_content(bytes: &mut Vec<u8>, reply: &Reply, head_only: bool) -> Result<(), NoMemory>
    ensures { OnOk result (bytes.new.items ≡ bytes.old.items ++ content reply.now head_only) }
{
    if has_content(reply.status) && !head_only {
        bytes.extend_from_slice(reply.body.as_bytes())?;
    }
    Ok(())
}

/// The bytes of a response (RFC 9112): the status line (§4), the fields (§5) `Content-Type`, those of the reply,
/// `Content-Length` and `Connection`, an empty line and the body (§6). Each line ends with CR LF. 204 and 304 have
/// neither type, length nor body. With `head_only`, for the method HEAD, the length stays and the body is left out
/// (RFC 9110 §9.3.2).
///
/// The phrase is the one that `http` gives, and empty where it has none. `Connection` is `keep-alive` with `keep`, else
/// `close`.
pub fn response(
    alloc: Global,
    reply: &Reply,
    keep: bool,
    head_only: bool,
) -> Result<Vec<u8>, NoMemory>
    requires { IsReply reply.now }
    ensures bytes { IfOk result (λ bytes. bytes.items ≡ response_bytes reply.now keep head_only) }
    ensures reading { IfOk result (λ bytes. ReadsAs bytes.items (head_lines reply.now keep) (content reply.now head_only)) }
{
    let mut bytes = Vec::new(alloc);
    put_status_line(&mut bytes, reply.status)?;
    put_type(&mut bytes, reply)?;
    put_further(&mut bytes, reply.fields.as_slice())?;
    put_length(&mut bytes, reply)?;
    put_connection(&mut bytes, keep)?;
    put_line_end(&mut bytes)?;
    put_content(&mut bytes, reply, head_only)?;
    Ok(bytes)
}
