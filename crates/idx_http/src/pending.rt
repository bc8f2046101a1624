//! The bytes that were read from a link and not yet taken.
ghost use Rattle.std.specs.Prelude.{◌≡◌, ◌+◌, ◌<◌, ◌≤◌, [], length, drop, take};
ghost use Rattle.std.specs.Prelude.{IfOk, IfSome, OnOk, OnErr};
ghost use Rattle.idx_outside.specs.Cause.{MeetsOnce, NeverFalls, Rose};
ghost use Rattle.idx_outside.specs.Input.{behind, read_once_more};
ghost use Rattle.idx_http.specs.Heads.{head_limit, window};
ghost use Rattle.idx_http.specs.Read.{IsLook};

use crate::look::{Look, look_at};
use idx_outside::{Link, NoMemory, Outage};
use std::alloc::Global;
use std::marker::Model;

/// A head has at most so many bytes.
pub(crate) const HEAD_LIMIT: usize = 8192;

/// The bytes that were read from a link and not yet taken, with room for those of a head.
#[derive(Drop)]
pub struct Pending {
    buffer: Vec<u8>,
    len: usize,
}

impl Model for Pending {
    ghost use Rattle.std.specs.Prelude.{◌≡◌, ℕ, ◌≤◌, List, length, take};

    ghost Value = { List ℕ };

    ghost view = { λ p. take p.len p.buffer.items };

    ghost invariant = { λ p. (p.len ≤ length p.buffer.items) × (8192 ≤ length p.buffer.items) };
}

impl Pending {
    /// Nothing is kept.
    pub fn new(alloc: Global) -> Result<Pending, NoMemory>
        ensures { IfOk result (λ pending. pending ≡ []) }
    {
        Ok(Pending {
            buffer: vec![in alloc; 0u8; HEAD_LIMIT]?,
            len: 0,
        })
    }

    /// How many bytes are kept.
    pub(crate) fn len(&self) -> usize
        ensures { result ≡ length self.now }
    {
        self.len
    }

    /// The bytes that are kept.
    pub(crate) fn kept(&self) -> &[u8]
        ensures { result.now ≡ self.now }
    {
        &self.buffer[..self.len]
    }

    /// What stands at the front of what is kept.
    pub(crate) fn look(&self) -> Look
        ensures { IsLook (window self.now) result }
    {
        let len = self.len.min(HEAD_LIMIT);
        look_at(&self.buffer[..len])
    }

    /// Keeps some more bytes of the link: as many as it answers, and 0 exactly at the end of the input.
    pub(crate) fn fill<L: Link>(&mut self, link: &mut L) -> Result<usize, Outage>
        requires { length self.old < head_limit }
        ensures length { IfOk result (λ n. length self.new ≡ length self.old + n) }
        ensures input { behind self.new (L.incoming link.new) ≡ behind self.old (L.incoming link.old) }
        ensures end { IfOk result (λ n. n ≡ 0 → IfSome (L.incoming link.new) (λ bytes. bytes ≡ [])) }
        ensures none { IfOk result (λ n. n ≡ 0 → self.new ≡ self.old) }
        ensures held { OnErr result (self.new ≡ self.old) }
        ensures readings { L.readings link.new
            ≡ read_once_more (L.readings link.old) (L.incoming link.old) (L.written link.old) }
        ensures written { L.written link.new ≡ L.written link.old }
        ensures count { NeverFalls (L.faults link.old) (L.faults link.new) }
        ensures once { MeetsOnce (L.faults link.old) (L.faults link.new) }
        ensures quiet { OnOk result (L.faults link.new ≡ L.faults link.old) }
        ensures cause { OnErr result (Rose (L.faults link.old) (L.faults link.new)) }
    {
        let count = read_behind(link, self.buffer.as_mut_slice(), self.len)?;
        self.len += count;
        Ok(count)
    }

    /// Drops the first bytes.
    pub(crate) fn drop_front(&mut self, count: usize)
        requires { count ≤ length self.old }
        ensures { self.new ≡ drop count self.old }
    {
        self.buffer.copy_within(count..self.len, 0);
        self.len -= count;
    }
}

/// Reads into the buffer from place `len` on.
fn read_behind<L: Link>(link: &mut L, buffer: &mut [u8], len: usize) -> Result<usize, Outage>
    requires { len < length buffer.old }
    ensures front { take len buffer.new ≡ take len buffer.old }
    ensures within { IfOk result (λ n. len + n ≤ length buffer.old) }
    ensures given { IfOk result (λ n. L.incoming link.old
        ≡ behind (take n (drop len buffer.new)) (L.incoming link.new)) }
    ensures end { IfOk result (λ n. n ≡ 0 → IfSome (L.incoming link.old) (λ bytes. bytes ≡ [])) }
    ensures held { OnErr result (L.incoming link.new ≡ L.incoming link.old) }
    ensures readings { L.readings link.new
        ≡ read_once_more (L.readings link.old) (L.incoming link.old) (L.written link.old) }
    ensures written { L.written link.new ≡ L.written link.old }
    ensures count { NeverFalls (L.faults link.old) (L.faults link.new) }
    ensures once { MeetsOnce (L.faults link.old) (L.faults link.new) }
    ensures quiet { OnOk result (L.faults link.new ≡ L.faults link.old) }
    ensures cause { OnErr result (Rose (L.faults link.old) (L.faults link.new)) }
{
    link.read(&mut buffer[len..])
}
