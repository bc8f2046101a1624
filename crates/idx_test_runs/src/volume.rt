ghost use Rattle.std.specs.Prelude.{◌≡◌, None, OnErr, OnOk};
ghost use Rattle.idx_outside.specs.Cause.{MeetsOnce, NeverFalls, Rose};

use idx_outside::{Bytes, Outage, Source};

/// A raw volume in memory. Its calls `len` and `read_at` are numbered from 1, and those whose numbers were given fail, as does
/// one that reads past the end. It tells nothing of its bytes, so that no proof is needed that several hold the same.
#[derive(Drop)]
pub struct Volume {
    bytes: Bytes,
    fails: Vec<u64>,
    calls: u64,
    asked: u64,
    faults: u64,
}

impl Volume {
    /// `fails` are the numbers of the calls that are to fail.
    pub fn new(bytes: Bytes, fails: Vec<u64>) -> Volume {
        Volume {
            bytes,
            fails,
            calls: 0,
            asked: 0,
            faults: 0,
        }
    }

    /// How many bytes were asked for, modulo 2^64.
    pub fn asked(&self) -> u64 {
        self.asked
    }

    /// One more call, which fails where its number was given.
    fn call(&mut self) -> Result<(), Outage>
        ensures asked { self.new.asked ≡ self.old.asked }
        ensures count { NeverFalls self.old.faults self.new.faults }
        ensures once { MeetsOnce self.old.faults self.new.faults }
        ensures quiet { OnOk result (self.new.faults ≡ self.old.faults) }
        ensures cause { OnErr result (Rose self.old.faults self.new.faults) }
    {
        self.calls = self.calls.wrapping_add(1);
        if self.fails.contains(&self.calls) {
            return Err(self.fault());
        }
        Ok(())
    }

    /// One more fault.
    fn fault(&mut self) -> Outage
        ensures asked { self.new.asked ≡ self.old.asked }
        ensures count { NeverFalls self.old.faults self.new.faults }
        ensures once { MeetsOnce self.old.faults self.new.faults }
        ensures cause { Rose self.old.faults self.new.faults }
    {
        self.faults = self.faults.saturating_add(1);
        Outage
    }

    /// So many bytes from a place on, where there are as many.
    fn part(&self, at: u64, count: usize) -> Option<&[u8]> {
        let from = usize::try_from(at).ok()?;
        self.bytes.as_slice().get(from..from.checked_add(count)?)
    }
}

impl Source for Volume {
    ghost contents = { λ _. None };

    ghost asked = { λ s. s.asked };

    ghost faults = { λ s. s.faults };

    fn len(&mut self) -> Result<u64, Outage> {
        self.call()?;
        Ok(self.bytes.len() as u64)
    }

    fn read_at(&mut self, at: u64, into: &mut [u8]) -> Result<(), Outage> {
        self.asked = self.asked.wrapping_add(into.len() as u64);
        self.call()?;
        match self.part(at, into.len()) {
            Some(part) if part.len() == into.len() => {
                into.copy_from_slice(part);
                Ok(())
            }
            _ => Err(self.fault()),
        }
    }

    fn faults(&self) -> u64 {
        self.faults
    }
}
