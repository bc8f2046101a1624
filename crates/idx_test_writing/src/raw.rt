ghost use Rattle.std.specs.Prelude.{◌≡◌, IfOk, None, vec_len};

use idx_outside::{NoMemory, Outage, Source};
use std::alloc::Global;

/// A raw volume of which nothing is told, and no call of which fails. Past its end there are zeros.
#[derive(Clone, Copy)]
pub(crate) struct Raw {
    bytes: &'static [u8],
    asked: u64,
}

impl Source for Raw {
    ghost contents = { λ _. None };

    ghost asked = { λ s. s.asked };

    ghost faults = { λ _. 0 };

    fn len(&mut self) -> Result<u64, Outage> {
        Ok(self.bytes.len() as u64)
    }

    fn read_at(&mut self, at: u64, into: &mut [u8]) -> Result<(), Outage> {
        self.asked = self.asked.wrapping_add(into.len() as u64);
        let from = self.bytes.len().min(at as usize);
        into.fill(0);
        for (place, byte) in into.iter_mut().zip(&self.bytes[from..]) {
            *place = *byte;
        }
        Ok(())
    }

    fn faults(&self) -> u64 {
        0
    }
}

/// So many raw volumes of these bytes.
pub(crate) fn raws_of(alloc: Global, bytes: &'static [u8], count: u32) -> Result<Vec<Raw>, NoMemory>
    ensures { IfOk result (λ raws. vec_len raws ≡ count) }
{
    Ok(vec![in alloc; Raw { bytes, asked: 0 }; count as usize]?)
}
