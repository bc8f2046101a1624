use std::time::Duration;

/// How long the peer of a link may let it wait, and a door the system.
#[derive(Clone, Copy, Debug)]
pub struct Patience {
    /// While no byte comes, and while none of a piece is taken.
    pub silence: Duration,
    /// From one piece that was written, or from the beginning, until the next one, however slowly bytes come in. It is
    /// looked at where the link is read.
    pub turn: Duration,
    /// For the write of a piece, and once more for each whole MiB of it that the system has taken, however slowly the peer
    /// takes the rest. It is looked at each time that the system has taken a part, which is at least once in `silence`.
    pub piece: Duration,
    /// For the pauses that a door makes, all together, while the system gives it no connection for a reason that passes by
    /// itself.
    pub refusals: Duration,
}

impl Patience {
    /// What a server has: 10 seconds of silence, 60 seconds to the next reply, 60 seconds for a reply and for each MiB of it,
    /// and 60 seconds until connections come again.
    pub fn of_a_server() -> Patience {
        Patience {
            silence: Duration::from_secs(10),
            turn: Duration::from_secs(60),
            piece: Duration::from_secs(60),
            refusals: Duration::from_secs(60),
        }
    }
}
