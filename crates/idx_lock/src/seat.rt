use crate::seat_view::SeatView;
use crossbeam_queue::Pass;
use std::marker::Model;

/// A place at a lock, which knows what it has seen, and holds nothing. It is seen as the lock that it is of, what it has
/// seen, and whether it is its lock's writer.
#[derive(Drop)]
pub struct Seat<S> {
    pub(crate) pass: Pass<S, SeatView>,
}

impl<S> Model for Seat<S> {
    ghost use Rattle.idx_lock.specs.Seats.{Rests, SeatValue, seat_of};

    ghost Value = { SeatValue };

    ghost view = { λ s. seat_of s.pass };

    ghost invariant = { λ s. Rests s.pass };
}
