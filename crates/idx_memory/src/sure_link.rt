ghost use Rattle.std.specs.Prelude.{◌≡◌, ◌<◌, ◌++◌, [], All, None, Ok, IsOk, IfOk, length, take, drop};
ghost use Rattle.idx_memory.specs.Links.{given, after_reading};

use crate::input::Input;
use idx_outside::{Bytes, Link, Outage};
use std::marker::Model;

/// A link in memory, of which nothing is told and no call of which fails. It drops what is written. A contract sees
/// what is still to come.
#[derive(Drop)]
pub struct SureLink {
    input: Input,
}

impl Model for SureLink {
    ghost use Rattle.idx_memory.specs.Links.{InputState};

    ghost Value = { InputState };

    ghost view = { λ s. s.input };
}

impl SureLink {
    /// Each read gives as many bytes as the next of `pieces` says, less where they do not fit or the input ends first;
    /// what did not fit comes with the next read. Once `pieces` are used up a read gives what fits. Takes no memory.
    pub fn new(input: Bytes, pieces: Vec<u64>) -> SureLink
        requires { All (λ piece. 0 < piece) pieces.items }
        ensures { result ≡ record { bytes = input; pieces = pieces.items } }
    {
        SureLink {
            input: Input::new(input, pieces),
        }
    }
}

impl Link for SureLink {
    ghost incoming = { λ _. None };

    ghost written = { λ _. None };

    ghost readings = { λ _. None };

    ghost faults = { λ _. 0 };

    fn read(&mut self, into: &mut [u8]) -> Result<usize, Outage>
        requires { 0 < length into.old }
        ensures sure { result ≡ Ok (given self.old (length into.old)) }
        ensures read { IfOk result (λ n. into.new ≡ take n self.old.bytes ++ drop n into.old) }
        ensures state { self.new ≡ after_reading (length into.old) self.old }
    {
        Ok(self.input.read(into))
    }

    fn write(&mut self, _piece: &[u8]) -> Result<(), Outage>
        ensures sure { IsOk result }
        ensures same { self.new ≡ self.old }
    {
        Ok(())
    }

    fn faults(&self) -> u64 {
        0
    }
}
