//! Heads, one after another.
ghost use Rattle.std.specs.Prelude.{◌≡◌, ◌<◌, length, Some, IfSome};
ghost use Rattle.idx_outside.specs.Cause.{MeetsOnce, NeverFalls, Rose};
ghost use Rattle.idx_outside.specs.Input.{behind};
ghost use Rattle.idx_http.specs.Heads.{head_limit, window};
ghost use Rattle.idx_http.specs.Read.{IsHeadRead, IsLook, IsTaken, IsWanting, OnFault, ReadsFronts, UnlessFault};

use crate::Pending;
use crate::look::{Found, Look};
use crate::pending::HEAD_LIMIT;
use idx_outside::{Bytes, Link};
use std::alloc::Global;

/// A head has at most so many fields.
const FIELD_LIMIT: usize = 64;

/// What a server has to know of a head.
#[derive(Debug, Drop)]
pub struct Head {
    /// The method is GET.
    pub get: bool,
    /// A body follows.
    pub body: bool,
    /// The reply is to be the last one.
    pub close: bool,
    pub target: Bytes,
}

/// What stands next in the input of a link.
#[derive(Debug, Drop)]
pub enum HeadRead {
    Head(Head),
    /// The input has ended, with nothing kept.
    Ended,
    /// The input has ended inside a head.
    Cut { kept: u64 },
    /// No continuation makes it a head.
    Bad,
    /// It has too many bytes or fields.
    TooBig,
    /// The link failed.
    Fault { faults: u64 },
    NoMemory,
}

/// What stands next in the kept bytes followed by those of the link, however these come. A head is taken off; in every
/// other case the input stays as it was. The link is read only while the bytes that are kept only begin a head.
pub fn read_head<L: Link>(alloc: Global, link: &mut L, pending: &mut Pending) -> HeadRead
    ensures read { IfSome (behind pending.old (L.incoming link.old))
        (λ s. IsHeadRead s (behind pending.new (L.incoming link.new)) result) }
    ensures readings { ReadsFronts (behind pending.old (L.incoming link.old)) (L.written link.old)
        (L.readings link.old) (L.readings link.new) }
    ensures front { OnFault result (λ faults. IsWanting pending.new) }
    ensures written { L.written link.new ≡ L.written link.old }
    ensures count { NeverFalls (L.faults link.old) (L.faults link.new) }
    ensures once { MeetsOnce (L.faults link.old) (L.faults link.new) }
    ensures quiet { UnlessFault result (L.faults link.new ≡ L.faults link.old) }
    ensures cause { OnFault result (λ faults. Rose (L.faults link.old) (L.faults link.new)) }
    ensures faults { OnFault result (λ faults. faults ≡ L.faults link.new) }
{
    'heads: loop {
        match pending.look() {
            Look::Whole(found) => return take_head(alloc, pending, &found),
            Look::Bad => return HeadRead::Bad,
            Look::Front => {}
        }
        if pending.len() >= HEAD_LIMIT {
            return HeadRead::TooBig;
        }
        match pending.fill(link) {
            Ok(0) => return at_end(pending),
            Ok(_) => {}
            Err(_) => {
                return HeadRead::Fault {
                    faults: link.faults(),
                };
            }
        }
    }
}

/// Takes the head off what is kept.
fn take_head(alloc: Global, pending: &mut Pending, found: &Found) -> HeadRead
    requires { IsLook (window pending.old) (Look.Whole found.now) }
    ensures { IsTaken pending.old pending.new result }
{
    if found.fields > FIELD_LIMIT {
        return HeadRead::TooBig;
    }
    let Ok(target) = Bytes::from_slice(alloc, found.target.of(pending.kept())) else {
        return HeadRead::NoMemory;
    };
    pending.drop_front(found.len);
    HeadRead::Head(Head {
        get: found.get,
        body: found.body,
        close: found.close,
        target,
    })
}

/// What stands next where the input has ended behind what is kept.
fn at_end(pending: &Pending) -> HeadRead
    requires front { IsLook (window pending.now) Look.Front }
    requires short { length pending.now < head_limit }
    ensures read { IsHeadRead pending.now (Some pending.now) result }
    ensures sure { OnFault result (λ faults. ⊥) }
{
    match pending.len() {
        0 => HeadRead::Ended,
        len => HeadRead::Cut { kept: len as u64 },
    }
}
