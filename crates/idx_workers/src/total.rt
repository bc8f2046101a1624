//! What all workers came to.
ghost use Rattle.std.specs.Prelude.{◌≡◌, ◌∷◌, [], List};
ghost use Rattle.idx_lock.specs.Seats.{SeatValue};
ghost use Rattle.idx_serve.specs.declared.door.ServeEnd.{ServeEnd};
ghost use Rattle.idx_workers.specs.Workers.{IsTotal, Work, end_of, nothing_served, work};

use idx_serve::{ServeEnd, Summary};

/// What came of serving without memory for the workers.
pub(crate) fn nothing_served() -> Summary
    ensures { result ≡ nothing_served }
{
    Summary {
        links: 0,
        replies: 0,
        end: ServeEnd::NoMemory,
    }
}

/// What no workers come to.
pub(crate) fn no_works() -> Summary
    ensures { IsTotal [] result }
{
    Summary {
        links: 0,
        replies: 0,
        end: ServeEnd::Done,
    }
}

/// What some workers come to with one more in front of them.
pub(crate) fn with_first(first: Summary, rest: Summary) -> Summary
    ensures { (seat : SeatValue) (works : List Work) → IsTotal works rest → IsTotal (work seat first ∷ works) result }
{
    Summary {
        links: first.links.saturating_add(rest.links),
        replies: first.replies.saturating_add(rest.replies),
        end: end_with_first(first.end, rest.end),
    }
}

/// How some workers ended with one more in front of them.
fn end_with_first(first: ServeEnd, rest: ServeEnd) -> ServeEnd
    ensures { (ends : List ServeEnd) → rest ≡ end_of ends → result ≡ end_of (first ∷ ends) }
{
    match (first, rest) {
        (_, ServeEnd::NoMemory) => ServeEnd::NoMemory,
        (ServeEnd::Done, end) => end,
        (end, _) => end,
    }
}
