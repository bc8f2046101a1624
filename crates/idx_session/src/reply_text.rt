ghost use Rattle.std.specs.Prelude.{◌≡◌, ◌≤◌, ◌++◌, length, drop, IfOk};

use idx_outside::{Bytes, NoMemory};
use std::alloc::Global;
use std::marker::Model;

/// The bytes of a reply, which go out by one write.
#[derive(Drop)]
pub struct ReplyText {
    bytes: Bytes,
    start: usize,
}

impl Model for ReplyText {
    ghost use Rattle.std.specs.Prelude.{ℕ, ◌≤◌, List, length, drop};

    ghost Value = { List ℕ };

    ghost view = { λ text. drop text.start text.bytes };

    ghost invariant = { λ text. text.start ≤ length text.bytes };
}

impl ReplyText {
    /// These bytes. Takes no memory.
    pub fn new(bytes: Bytes) -> ReplyText
        ensures { result ≡ bytes }
    {
        ReplyText { bytes, start: 0 }
    }

    /// A head and the body behind it. The body stands behind so many bytes of room: where the head fits into them, nothing
    /// of the body is copied, and no memory is taken.
    pub fn join(
        alloc: Global,
        head: &Bytes,
        body: Bytes,
        room: usize,
    ) -> Result<ReplyText, NoMemory>
        requires { room ≤ length body }
        ensures { IfOk result (λ text. text ≡ head.now ++ drop room body) }
    {
        let count = head.len();
        if count > room {
            let mut bytes = Bytes::with_capacity(alloc, count)?;
            bytes.append(head.as_slice())?;
            bytes.append(&body.as_slice()[room..])?;
            return Ok(ReplyText::new(bytes));
        }
        let start = room - count;
        let mut bytes = body.into_vec();
        put(&mut bytes[start..room], head.as_slice());
        Ok(ReplyText {
            bytes: Bytes::from_vec(bytes),
            start,
        })
    }

    /// The bytes as a slice.
    pub fn as_slice(&self) -> &[u8]
        ensures { result.now ≡ self.now }
    {
        &self.bytes.as_slice()[self.start..]
    }
}

/// Writes the bytes over as many others.
fn put(into: &mut [u8], bytes: &[u8])
    requires { length into.old ≡ length bytes.now }
    ensures { into.new ≡ bytes.now }
{
    into.copy_from_slice(bytes);
}
