//! The bytes of replies.
ghost use Rattle.std.specs.Prelude.{◌≡◌, ◌+◌, ◌<◌, ◌≤◌, ◌++◌, ◌∷◌, [], IfOk, OnOk, length, drop};
ghost use Rattle.std.specs.Fmt.{decimal};
ghost use Rattle.idx_plan.specs.Needed.{answer_bytes, answer_samples};
ghost use Rattle.idx_serve.specs.Texts.{answer_fields, answer_reply, dtype_of, refusal_fields, refusal_reply};

use crate::Refusal;
use idx_header::Header;
use idx_http::head_of;
use idx_outside::{Bytes, NoMemory};
use idx_plan::Ask;
use idx_session::ReplyText;
use idx_text::write_number;
use std::alloc::Global;

/// So many bytes of room stand in front of samples, for the head of their reply.
pub(crate) const HEAD_ROOM: usize = 512;

/// The reply of a refusal.
pub(crate) fn refusal_text(
    alloc: Global,
    refusal: Refusal,
    closes: bool,
) -> Result<ReplyText, NoMemory>
    ensures { IfOk result (λ text. text ≡ refusal_reply refusal closes) }
{
    let text = refusal.text();
    let fields = refusal_fields(alloc, refusal, closes)?;
    let mut reply = Bytes::with_capacity(alloc, HEAD_ROOM)?;
    head_of(
        alloc,
        refusal.status(),
        text.len() as u64 + 1,
        &fields,
        &mut reply,
    )?;
    reply.append(text)?;
    reply.push(b'\n')?;
    Ok(ReplyText::new(reply))
}

/// The fields of a refusal behind the first two.
fn refusal_fields(
    alloc: Global,
    refusal: Refusal,
    closes: bool,
) -> Result<Vec<(Bytes, Bytes)>, NoMemory>
    ensures { IfOk result (λ fields. fields.items ≡ refusal_fields refusal closes) }
{
    let mut fields = Vec::new(alloc);
    if refusal.status() == 405 {
        add(alloc, b"Allow", b"GET", &mut fields)?;
    }
    if closes {
        add(alloc, b"Connection", b"close", &mut fields)?;
    }
    Ok(fields)
}

/// The reply with samples, which stand behind the room for its head, out of the post of this number.
pub(crate) fn answer_text(
    alloc: Global,
    header: &Header,
    ask: &Ask,
    post: u64,
    closes: bool,
    samples: Bytes,
) -> Result<ReplyText, NoMemory>
    requires field { ask.now.field < length header.now.fields }
    requires many { length samples ≡ HEAD_ROOM + answer_bytes header.now ask.now }
    ensures { IfOk result (λ text. text ≡ answer_reply header.now ask.now post closes (drop HEAD_ROOM samples)) }
{
    let bytes = (samples.len() - HEAD_ROOM) as u64;
    let fields = answer_fields(
        alloc,
        header,
        ask,
        bytes / header.sample_bytes(ask.field),
        post,
        closes,
    )?;
    let mut head = Bytes::with_capacity(alloc, HEAD_ROOM)?;
    head_of(alloc, 200, bytes, &fields, &mut head)?;
    ReplyText::join(alloc, &head, samples, HEAD_ROOM)
}

/// The fields of an answer of so many samples behind the first two.
fn answer_fields(
    alloc: Global,
    header: &Header,
    ask: &Ask,
    samples: u64,
    post: u64,
    closes: bool,
) -> Result<Vec<(Bytes, Bytes)>, NoMemory>
    requires field { ask.now.field < length header.now.fields }
    requires samples { samples ≡ answer_samples header.now ask.now }
    ensures { IfOk result (λ fields. fields.items ≡ answer_fields header.now ask.now post closes) }
{
    let mut dtype = Bytes::new(alloc);
    header.write_type(ask.field, &mut dtype)?;
    let mut fields = Vec::new(alloc);
    add(alloc, b"visus-compression", b"raw", &mut fields)?;
    add(alloc, b"visus-dtype", dtype.as_slice(), &mut fields)?;
    add_number(alloc, b"visus-samples", samples, &mut fields)?;
    add_number(alloc, b"visus-post", post, &mut fields)?;
    if closes {
        add(alloc, b"Connection", b"close", &mut fields)?;
    }
    Ok(fields)
}

/// Appends a field that is a number.
fn add_number(
    alloc: Global,
    name: &[u8],
    number: u64,
    fields: &mut Vec<(Bytes, Bytes)>,
) -> Result<(), NoMemory>
    ensures { OnOk result (fields.new.items ≡ fields.old.items ++ (name.now, decimal number) ∷ []) }
{
    let mut value = Bytes::new(alloc);
    write_number(number, &mut value)?;
    add(alloc, name, value.as_slice(), fields)
}

/// Appends a field.
fn add(
    alloc: Global,
    name: &[u8],
    value: &[u8],
    fields: &mut Vec<(Bytes, Bytes)>,
) -> Result<(), NoMemory>
    ensures { OnOk result (fields.new.items ≡ fields.old.items ++ (name.now, value.now) ∷ []) }
{
    let field = (
        Bytes::from_slice(alloc, name)?,
        Bytes::from_slice(alloc, value)?,
    );
    fields.push(field)?;
    Ok(())
}
