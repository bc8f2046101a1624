ghost use Rattle.std.specs.Prelude.{None};

use crate::meeting::Meeting;
use idx_outside::{Outage, Source};

/// A raw volume that waits at its first read, and then gives its sign. It tells nothing of its bytes.
#[derive(Drop)]
pub(crate) struct WaitingSource<'a> {
    bytes: &'static [u8],
    meeting: Meeting<'a>,
    asked: u64,
    faults: u64,
}

impl<'a> WaitingSource<'a> {
    /// The raw volume of these bytes.
    pub(crate) fn new(bytes: &'static [u8], meeting: Meeting<'a>) -> WaitingSource<'a> {
        WaitingSource {
            bytes,
            meeting,
            asked: 0,
            faults: 0,
        }
    }
}

impl Source for WaitingSource<'_> {
    ghost contents = { λ _. None };

    ghost asked = { λ s. s.asked };

    ghost faults = { λ s. s.faults };

    fn len(&mut self) -> Result<u64, Outage> {
        Ok(self.bytes.len() as u64)
    }

    fn read_at(&mut self, at: u64, into: &mut [u8]) -> Result<(), Outage> {
        self.asked = self.asked.wrapping_add(into.len() as u64);
        self.meeting.wait();
        self.meeting.give();
        match part(self.bytes, at, into.len()) {
            Some(found) if found.len() == into.len() => {
                into.copy_from_slice(found);
                Ok(())
            }
            _ => {
                self.faults = self.faults.saturating_add(1);
                Err(Outage)
            }
        }
    }

    fn faults(&self) -> u64 {
        self.faults
    }
}

/// So many bytes from a place on, where there are as many, and none else.
fn part(bytes: &[u8], at: u64, count: usize) -> Option<&[u8]> {
    let from = at as usize;
    let to = from.checked_add(count)?;
    bytes.get(from..to)
}
