ghost use Rattle.std.specs.Prelude.{◌≡◌, ◌+◌, ◌^◌, ◌<◌};

use idx_outside::Fetched;

/// How the blocks of an answer came, each of them once.
#[derive(Clone, Copy, Debug, PartialEq, Eq)]
pub struct Report {
    /// The number of the published step that the answer is out of.
    pub post: u64,
    /// How many were cached.
    pub hits: u64,
    /// How many came by one read each.
    pub reads: u64,
    /// How many were not cached, and the step lacks. They are zeros, and cost no read.
    pub absent: u64,
}

impl Report {
    /// No block yet, of this step.
    pub(crate) fn new(post: u64) -> Report
        ensures { result ≡ record { post = post; hits = 0; reads = 0; absent = 0 } }
    {
        Report {
            post,
            hits: 0,
            reads: 0,
            absent: 0,
        }
    }

    /// With one block more, that was cached.
    pub(crate) fn with_hit(self) -> Report
        requires { self.hits < 2 ^ 63 }
        ensures { result ≡
            record { post = self.post; hits = self.hits + 1; reads = self.reads; absent = self.absent } }
    {
        Report {
            hits: self.hits + 1,
            ..self
        }
    }

    /// With one block more, that came so.
    pub(crate) fn with(self, fetched: Fetched) -> Report
        requires reads { self.reads < 2 ^ 63 }
        requires absent { self.absent < 2 ^ 63 }
        ensures read { fetched ≡ Fetched.Read → result ≡
            record { post = self.post; hits = self.hits; reads = self.reads + 1; absent = self.absent } }
        ensures absent { fetched ≡ Fetched.Absent → result ≡
            record { post = self.post; hits = self.hits; reads = self.reads; absent = self.absent + 1 } }
    {
        match fetched {
            Fetched::Read => Report {
                reads: self.reads + 1,
                ..self
            },
            Fetched::Absent => Report {
                absent: self.absent + 1,
                ..self
            },
        }
    }

    /// With the blocks of another round.
    pub(crate) fn with_round(self, round: &Report) -> Report
        requires hits { self.hits < 2 ^ 63 × round.now.hits < 2 ^ 63 }
        requires reads { self.reads < 2 ^ 63 × round.now.reads < 2 ^ 63 }
        requires absent { self.absent < 2 ^ 63 × round.now.absent < 2 ^ 63 }
        ensures { result ≡ record {
          post = self.post;
          hits = self.hits + round.now.hits;
          reads = self.reads + round.now.reads;
          absent = self.absent + round.now.absent;
        } }
    {
        Report {
            post: self.post,
            hits: self.hits + round.hits,
            reads: self.reads + round.reads,
            absent: self.absent + round.absent,
        }
    }
}
