ghost use Rattle.std.specs.Prelude.{◌≡◌, None, Ok, drop, slice_get};

use crate::SureLink;
use idx_outside::{Door, Outage, Served};
use std::marker::Model;

/// A door in memory, of which nothing is told and no call of which fails. It drops what it takes back. A contract sees
/// the links that are still to come.
#[derive(Drop)]
pub struct SureDoor {
    coming: Vec<SureLink>,
}

impl Model for SureDoor {
    ghost use Rattle.std.specs.Prelude.{List};
    ghost use Rattle.idx_memory.specs.Links.{InputState};

    ghost Value = { List InputState };

    ghost view = { λ s. s.coming.items };
}

impl SureDoor {
    /// Takes no memory.
    pub fn new(links: Vec<SureLink>) -> SureDoor
        ensures { result ≡ links.items }
    {
        SureDoor { coming: links }
    }
}

impl Door for SureDoor {
    type Link = SureLink;

    ghost told = { λ _. None };

    ghost faults = { λ _. 0 };

    /// Takes no memory.
    fn accept(&mut self) -> Result<Option<SureLink>, Outage>
        ensures sure { result ≡ Ok (slice_get self.old 0) }
        ensures state { self.new ≡ drop 1 self.old }
    {
        if self.coming.is_empty() {
            return Ok(None);
        }
        Ok(Some(self.coming.remove(0)))
    }

    fn finish(&mut self, _link: SureLink, _served: Vec<Served>)
        ensures { self.new ≡ self.old }
    {}

    fn faults(&self) -> u64 {
        0
    }
}
