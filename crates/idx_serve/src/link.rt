ghost use Rattle.std.specs.Prelude.{◌≡◌, None};
ghost use Rattle.idx_outside.specs.Cause.{MeetsOnce, NeverFalls};
ghost use Rattle.idx_layout.specs.Shape.{shape_of};
ghost use Rattle.idx_session.specs.Entry.{mark_of, state_of};
ghost use Rattle.idx_session.specs.Session.{EndCounts};
ghost use Rattle.idx_serve.specs.Links.{IsServed};
ghost use Rattle.idx_serve.specs.Later.{IsLater};

use crate::Site;
use crate::answering::Answering;
use idx_hall::Hall;
use idx_outside::{Blocks, Link, Reader, Served};
use idx_session::{LinkEnd, serve_heads};
use idx_turn::Turn;
use std::alloc::Global;

/// Answers the heads of a link in order, until its input ends, a reply closes, or the link or memory fails. For each head that was
/// answered an entry is appended. What each reply is, and what it did to the hall and to the reader, follows from the state
/// that the replies before it left.
pub fn serve_link<E: Blocks + Drop, T: Turn<Hall<E>>, R: Reader<E::Leaf>, L: Link>(
    alloc: Global,
    site: &Site,
    turn: &mut T,
    reader: &mut R,
    link: &mut L,
    served: &mut Vec<Served>,
) -> LinkEnd
    requires shape { T.shape turn.old ≡ shape_of site.now.header }
    requires given { T.given turn.old ≡ None }
    ensures session { IsServed T.tells site.now
        (state_of (T.seen turn.old) (T.may_add turn.old) (R.faults reader.old) (R.reads reader.old)
        (T.kept turn.old) (T.holds turn.old))
        (state_of (T.seen turn.new) (T.may_add turn.new) (R.faults reader.new) (R.reads reader.new)
        (T.kept turn.new) (T.holds turn.new))
        (L.incoming link.old) (L.written link.old) (L.written link.new)
        (L.readings link.old) (L.readings link.new) served.old.items served.new.items result }
    ensures later { IsLater
        (state_of (T.seen turn.old) (T.may_add turn.old) (R.faults reader.old) (R.reads reader.old)
        (T.kept turn.old) (T.holds turn.old))
        (state_of (T.seen turn.new) (T.may_add turn.new) (R.faults reader.new) (R.reads reader.new)
        (T.kept turn.new) (T.holds turn.new))
        (T.shape turn.old) (T.shape turn.new) (T.lock turn.old) (T.lock turn.new) }
    ensures given { T.given turn.new ≡ None }
    ensures count { NeverFalls (L.faults link.old) (L.faults link.new) }
    ensures once { MeetsOnce (L.faults link.old) (L.faults link.new) }
    ensures counts { EndCounts (L.faults link.old) (L.faults link.new) result }
{
    let mut answering = Answering::new();
    serve_heads(alloc, &mut answering, site, turn, reader, link, served)
}
