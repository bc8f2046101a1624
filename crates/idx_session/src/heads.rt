//! The heads of a link, one after another.
ghost use Rattle.std.specs.Prelude.{◌≡◌, IfErr, IfSome, OnOk};
ghost use Rattle.idx_outside.specs.Cause.{MeetsOnce, NeverFalls};
ghost use Rattle.idx_outside.specs.Input.{behind};
ghost use Rattle.idx_http.specs.Read.{ReadsFronts};
ghost use Rattle.idx_session.specs.Session.{EndCounts, IsNext, Session};

use crate::one::{Step, answer_one};
use crate::{Asked, LinkEnd, Responder};
use idx_http::{HeadRead, Pending, read_head};
use idx_outside::{Link, Served};
use std::alloc::Global;

/// So many heads are answered on one link at most.
const HEADS: u32 = 65536;

/// Answers the heads of a link in order, until its input ends, a reply closes, or the link or memory fails. An entry is
/// appended for each head that was answered. A link is read for at most 65,536 heads of at most 8,192 bytes, and only
/// while no whole head is kept and all replies so far are written.
pub fn serve_heads<S, T, R, P: Responder<S, T, R>, L: Link>(
    alloc: Global,
    responder: &mut P,
    site: &S,
    turn: &mut T,
    reader: &mut R,
    link: &mut L,
    served: &mut Vec<Served>,
) -> LinkEnd
    requires ready { P.ready site.now turn.old }
    ensures ready { P.ready site.now turn.new }
    ensures session { Session (P.answers site.now) (P.lost site.now) (P.mark responder.old turn.old reader.old)
        (P.mark responder.new turn.new reader.new) (L.incoming link.old)
        (L.written link.old) (L.written link.new) (L.readings link.old) (L.readings link.new)
        served.old.items served.new.items result }
    ensures grew { P.grew turn.old reader.old turn.new reader.new }
    ensures count { NeverFalls (L.faults link.old) (L.faults link.new) }
    ensures once { MeetsOnce (L.faults link.old) (L.faults link.new) }
    ensures counts { EndCounts (L.faults link.old) (L.faults link.new) result }
{
    let Ok(mut pending) = Pending::new(alloc) else {
        return LinkEnd::NoMemory;
    };
    for number in 0..HEADS {
        let asked = match next_asked(alloc, link, &mut pending) {
            Ok(asked) => asked,
            Err(end) => return end,
        };
        let last = number == HEADS - 1;
        match answer_one(
            alloc, responder, site, turn, reader, link, served, asked, last,
        ) {
            Step::Open => {}
            Step::Closing => return LinkEnd::Closed,
            Step::Fault { faults } => return LinkEnd::LinkFault { faults },
            Step::NoMemory => return LinkEnd::NoMemory,
        }
    }
    unreachable!()
}

/// What asks next, or how the link ends where nothing does.
fn next_asked<L: Link>(alloc: Global, link: &mut L, pending: &mut Pending) -> Result<Asked, LinkEnd>
    ensures next { IfSome (behind pending.old (L.incoming link.old))
        (λ s. IsNext s (behind pending.new (L.incoming link.new)) result) }
    ensures readings { ReadsFronts (behind pending.old (L.incoming link.old)) (L.written link.old)
        (L.readings link.old) (L.readings link.new) }
    ensures written { L.written link.new ≡ L.written link.old }
    ensures count { NeverFalls (L.faults link.old) (L.faults link.new) }
    ensures once { MeetsOnce (L.faults link.old) (L.faults link.new) }
    ensures quiet { OnOk result (L.faults link.new ≡ L.faults link.old) }
    ensures counts { IfErr result (EndCounts (L.faults link.old) (L.faults link.new)) }
{
    match read_head(alloc, link, pending) {
        HeadRead::Head(head) => Ok(Asked::Head(head)),
        HeadRead::Bad => Ok(Asked::Bad),
        HeadRead::TooBig => Ok(Asked::TooBig),
        HeadRead::Ended => Err(LinkEnd::Closed),
        HeadRead::Cut { kept } => Err(LinkEnd::CutOff { kept }),
        HeadRead::Fault { faults } => Err(LinkEnd::LinkFault { faults }),
        HeadRead::NoMemory => Err(LinkEnd::NoMemory),
    }
}
