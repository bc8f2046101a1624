//! The rule of a lock's queue, and what its calls tell.
ghost use Rattle.std.specs.Prelude.{◌≡◌, [], ⊤};
ghost use Rattle.idx_lock.specs.LockRule.{LockRule, Precedes, Took, gave, joined, newcomer, opening, spent, stands};

use crate::seat_view::SeatView;
use crossbeam_queue::protocol::{Join, Lesson, Outcome, Protocol, Split};
use idx_hall::Standing;

/// One writer, and one value that is in the queue or with one seat.
pub struct OneWriter;

impl<S: Standing> Protocol<S, SeatView> for OneWriter {
    ghost holds = { LockRule (stands S.shape S.capacity S.posts) };

    ghost first = { opening };
}

/// A pop: the seat holds the value, and has seen what it stands for.
pub struct Taking;

impl<S: Standing> Outcome<S, SeatView> for Taking {
    ghost then = { Took (stands S.shape S.capacity S.posts) };
}

impl<S: Standing> Lesson<S, SeatView> for Taking {
    ghost fact = { λ v items. ⊤ };
}

/// A push: the seat holds nothing, and has seen what the value stands for. It finds the queue empty.
pub struct Giving;

impl<S: Standing> Outcome<S, SeatView> for Giving {
    ghost then = { λ v value w. w ≡ gave (stands S.shape S.capacity S.posts) v value };
}

impl<S: Standing> Lesson<S, SeatView> for Giving {
    ghost fact = { λ v items. items ≡ [] };
}

/// A new seat of an old one, and two seats made one, which has seen all that either had.
pub struct Seats;

impl Split<SeatView> for Seats {
    ghost left = { λ v. v };

    ghost right = { newcomer };
}

impl Join<SeatView> for Seats {
    ghost both = { joined };

    ghost spent = { spent };
}

impl<S: Standing> Lesson<S, SeatView> for Seats {
    ghost fact = { λ v items. Precedes v.lesser v.seen };
}
