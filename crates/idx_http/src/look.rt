//! What stands at the front of a buffer.
ghost use Rattle.std.specs.Prelude.{◌≡◌, ◌==◌, ◌*◌, ◌<◌, ◌≤◌, All, length, map};
ghost use Rattle.std.specs.List.{list_all};
ghost use Rattle.httparse.specs.Spans.{IsHeaderWithin, header_bytes};
ghost use Rattle.idx_http.specs.Heads.{head_limit};
ghost use Rattle.idx_http.specs.Read.{IsLook};
ghost use Rattle.idx_http.specs.Values.{announces, has_body, is_zeros};

use http1::fields::KnownFields;
use http1::text::eq_ignore_case;
use httparse::spans::{EMPTY_HEADER_SPAN, HeaderSpan, Span, parse_request};
use httparse::{Error, Status};

/// A buffer of up to 767 bytes, as most heads have, has fewer fields, since a field takes at least three bytes.
const FEW_FIELDS: usize = 256;

/// A buffer of up to 8,192 bytes has fewer fields.
const MANY_FIELDS: usize = 2731;

/// A head, as offsets into the buffer.
#[derive(Clone, Copy, Debug)]
pub(crate) struct Found {
    pub(crate) len: usize,
    pub(crate) fields: usize,
    pub(crate) get: bool,
    pub(crate) body: bool,
    pub(crate) close: bool,
    pub(crate) target: Span,
}

/// What stands at the front of a buffer.
#[derive(Clone, Copy, Debug)]
pub(crate) enum Look {
    /// A head.
    Whole(Found),
    /// No head, but more bytes may make one.
    Front,
    /// No bytes can follow that make a head.
    Bad,
}

/// What stands at the front of the buffer. The room to work in is on the stack, and little of it where the buffer is short.
pub(crate) fn look_at(buffer: &[u8]) -> Look
    requires { length buffer.now ≤ head_limit }
    ensures { IsLook buffer.now result }
{
    if buffer.len() < 3 * FEW_FIELDS {
        look_with(buffer, &mut [EMPTY_HEADER_SPAN; FEW_FIELDS])
    } else {
        look_at_long(buffer)
    }
}

/// The same for a long buffer. It is a call of its own, so that its 87 KiB of stack are touched only then.
#[inline(never)]
fn look_at_long(buffer: &[u8]) -> Look
    requires { length buffer.now ≤ head_limit }
    ensures { IsLook buffer.now result }
{
    look_with(buffer, &mut [EMPTY_HEADER_SPAN; MANY_FIELDS])
}

/// The same, with room for the fields of any buffer of this length.
fn look_with(buffer: &[u8], spans: &mut [HeaderSpan]) -> Look
    requires { length buffer.now < 3 * length spans.old }
    ensures { IsLook buffer.now result }
{
    match parse_request(buffer, spans) {
        Ok(Status::Complete(head)) => {
            let fields = &spans[..head.headers];
            let known = KnownFields::from_spans(buffer, fields);
            Look::Whole(Found {
                len: head.len,
                fields: head.headers,
                get: head.method.of(buffer) == b"GET".as_slice(),
                body: has_body(buffer, fields),
                close: head.version == 0 || known.close,
                target: head.path,
            })
        }
        Ok(Status::Partial) => Look::Front,
        Err(Error::TooManyHeaders) => unreachable!(),
        Err(_) => Look::Bad,
    }
}

/// Whether some field says that a body follows.
fn has_body(buffer: &[u8], fields: &[HeaderSpan]) -> bool
    requires { All (IsHeaderWithin (length buffer.now)) fields.now }
    ensures { result ≡ has_body (map (header_bytes buffer.now) fields.now) }
{
    let mut found = false;
    for field in fields {
        found |= announces(field.name.of(buffer), field.value.of(buffer));
    }
    found
}

/// Whether the field says that a body follows.
fn announces(name: &[u8], value: &[u8]) -> bool
    ensures { result ≡ announces (name.now, value.now) }
{
    eq_ignore_case(name, b"transfer-encoding")
        || (eq_ignore_case(name, b"content-length") && !is_zeros(value))
}

/// Whether it is one or more zeros.
fn is_zeros(value: &[u8]) -> bool
    ensures { result ≡ is_zeros value.now }
{
    !value.is_empty() && all_zeros(value)
}

/// Whether each byte is a zero.
fn all_zeros(value: &[u8]) -> bool
    ensures { result ≡ list_all (λ b. b == 48) value.now }
{
    value.iter().all(|b| *b == b'0')
}
