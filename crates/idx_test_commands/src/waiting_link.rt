ghost use Rattle.std.specs.Prelude.{◌≤◌, None, length};

use crate::meeting::Meeting;
use idx_outside::{Door, Link, Outage, Served};

/// A link that waits before it gives its input, and gives its sign where it is written to. It tells nothing, and does not fail.
#[derive(Drop)]
pub(crate) struct WaitingLink<'a> {
    input: &'static [u8],
    meeting: Meeting<'a>,
}

impl<'a> WaitingLink<'a> {
    /// Moves the next bytes of the input to the front, and tells how many.
    fn give(&mut self, into: &mut [u8]) -> usize
        ensures { result ≤ length into.old }
    {
        let count = self.input.len().min(into.len());
        let (given, left) = self.input.split_at(count);
        let (front, _) = into.split_at_mut(count);
        front.copy_from_slice(given);
        self.input = left;
        count
    }
}

impl Link for WaitingLink<'_> {
    ghost incoming = { λ _. None };

    ghost written = { λ _. None };

    ghost readings = { λ _. None };

    ghost faults = { λ _. 0 };

    fn read(&mut self, into: &mut [u8]) -> Result<usize, Outage> {
        self.meeting.wait();
        Ok(self.give(into))
    }

    fn write(&mut self, _piece: &[u8]) -> Result<(), Outage> {
        self.meeting.give();
        Ok(())
    }

    fn faults(&self) -> u64 {
        0
    }
}

/// A door that hands out one link, or none more. It tells nothing, and does not fail.
#[derive(Drop)]
pub(crate) struct OneLink<'a> {
    link: Option<WaitingLink<'a>>,
    replies: usize,
}

impl<'a> OneLink<'a> {
    /// The door of a link with this input.
    pub(crate) fn new(input: &'static [u8], meeting: Meeting<'a>) -> OneLink<'a> {
        OneLink {
            link: Some(WaitingLink { input, meeting }),
            replies: 0,
        }
    }

    /// How many heads were answered on the link that came back.
    pub(crate) fn replies(&self) -> usize {
        self.replies
    }
}

impl<'a> Door for OneLink<'a> {
    type Link = WaitingLink<'a>;

    ghost told = { λ _. None };

    ghost faults = { λ _. 0 };

    fn accept(&mut self) -> Result<Option<WaitingLink<'a>>, Outage> {
        Ok(self.link.take())
    }

    fn finish(&mut self, _link: WaitingLink<'a>, served: Vec<Served>) {
        self.replies = served.len();
    }

    fn faults(&self) -> u64 {
        0
    }
}
