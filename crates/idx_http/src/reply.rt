//! Heads of replies.
ghost use Rattle.std.specs.Prelude.{◌≡◌, ◌++◌, IsTrue, OnOk, OnErr, codes};
ghost use Rattle.std.specs.Fmt.{decimal};
ghost use Rattle.idx_http.specs.Reply.{is_reply_status, reason, media_type};
ghost use Rattle.idx_http.specs.Reply.{status_line, field_line, field_lines, reply_head};

use http::StatusCode;
use idx_outside::{Bytes, NoMemory};
use idx_text::write_number;
use std::alloc::Global;

/// The room for a head of the usual fields.
const HEAD_ROOM: usize = 512;

/// Appends the head of a reply whose body has `length` bytes: the line of the status, the fields `Content-Type` and
/// `Content-Length`, the extras, each a name and a value, and the empty line. At `NoMemory` the bytes are as they were.
#[tactic(auto, unfolding(crate::specs::Reply::reply_head, crate::specs::Reply::line))]
pub fn head_of(
    alloc: Global,
    status: u16,
    length: u64,
    extras: &Vec<(Bytes, Bytes)>,
    out: &mut Bytes,
) -> Result<(), NoMemory>
    requires { IsTrue (is_reply_status status) }
    ensures ok { OnOk result (out.new ≡ out.old ++ reply_head status length extras.now.items) }
    ensures err { OnErr result (out.new ≡ out.old) }
{
    let mut head = Bytes::with_capacity(alloc, HEAD_ROOM)?;
    write_status(status, &mut head)?;
    write_type(status, &mut head)?;
    write_length(length, &mut head)?;
    write_fields(extras.as_slice(), &mut head)?;
    head.append(b"\r\n")?;
    out.append(head.as_slice())
}

/// Appends the line of the status.
#[tactic(auto, unfolding(crate::specs::Reply::status_line, crate::specs::Reply::line))]
fn write_status(status: u16, out: &mut Bytes) -> Result<(), NoMemory>
    requires { IsTrue (is_reply_status status) }
    ensures { OnOk result (out.new ≡ out.old ++ status_line status) }
{
    out.append(b"HTTP/1.1 ")?;
    write_number(u64::from(status), out)?;
    out.push(b' ')?;
    out.append(reason_of(status).as_bytes())?;
    out.append(b"\r\n")
}

/// The phrase of the status.
#[tactic(auto, unfolding(crate::specs::Reply::reason))]
fn reason_of(status: u16) -> &'static str
    requires { IsTrue (is_reply_status status) }
    ensures { result.now ≡ reason status }
{
    match StatusCode::from_u16(status) {
        Ok(code) => code.canonical_reason().unwrap_or(""),
        Err(_) => unreachable!(),
    }
}

/// Appends the field that says what the body is.
fn write_type(status: u16, out: &mut Bytes) -> Result<(), NoMemory>
    ensures { OnOk result (out.new ≡ out.old ++ field_line (codes "Content-Type") (media_type status)) }
{
    write_field(b"Content-Type", media_type(status), out)
}

/// What the body is.
fn media_type(status: u16) -> &'static [u8]
    ensures { result.now ≡ media_type status }
{
    if status == 200 {
        b"application/octet-stream"
    } else {
        b"text/plain"
    }
}

/// Appends the field that says how many bytes the body has.
#[tactic(auto, unfolding(crate::specs::Reply::field_line, crate::specs::Reply::line))]
fn write_length(length: u64, out: &mut Bytes) -> Result<(), NoMemory>
    ensures { OnOk result (out.new ≡ out.old ++ field_line (codes "Content-Length") (decimal length)) }
{
    out.append(b"Content-Length: ")?;
    write_number(length, out)?;
    out.append(b"\r\n")
}

/// Appends a line for each field.
fn write_fields(fields: &[(Bytes, Bytes)], out: &mut Bytes) -> Result<(), NoMemory>
    ensures { OnOk result (out.new ≡ out.old ++ field_lines fields.now) }
{
    for field in fields {
        write_field(field.0.as_slice(), field.1.as_slice(), out)?;
    }
    Ok(())
}

/// Appends the line of a field.
#[tactic(auto, unfolding(crate::specs::Reply::field_line, crate::specs::Reply::line))]
fn write_field(name: &[u8], value: &[u8], out: &mut Bytes) -> Result<(), NoMemory>
    ensures { OnOk result (out.new ≡ out.old ++ field_line name.now value.now) }
{
    out.append(name)?;
    out.append(b": ")?;
    out.append(value)?;
    out.append(b"\r\n")
}
