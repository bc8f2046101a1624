ghost use Rattle.std.specs.Prelude.{◌≡◌};
ghost use Rattle.std.specs.Iterator.{YieldsFirst, item_count};
ghost use Rattle.idx_header.specs.Header.{IsHeader};
ghost use Rattle.idx_layout.specs.Placing.{file_numbers};
ghost use Rattle.idx_layout.specs.OfHeader.{placing_of};

use crate::next_block::next_present;
use crate::places::file_of;
use idx_geom::Region;
use idx_header::Header;
use idx_hz::Mask;
use std::iter::FusedIterator;
use std::marker::Model;

/// The numbers, rising, of the files that have a present block, seen as the list of those that are left.
#[derive(Debug, Drop)]
pub struct Files {
    mask: Mask,
    region: Region,
    bits: u32,
    per_file: u64,
    next: u64,
}

impl Model for Files {
    ghost use Rattle.std.specs.Prelude.{ℕ, List, []};
    ghost use Rattle.idx_layout.specs.FileNumbers.{AreFiles, files_from};

    ghost Value = { List ℕ };

    ghost view = { λ f. files_from (record {
      mask = f.mask;
      region = f.region;
      bits = f.bits;
      per_file = f.per_file;
      sizes = [];
    }) f.next };

    ghost invariant = { λ f. AreFiles (record {
      mask = f.mask;
      region = f.region;
      bits = f.bits;
      per_file = f.per_file;
      sizes = [];
    }) f.next };
}

impl Files {
    /// The files of a header.
    pub(crate) fn of_header(header: &Header) -> Files
        ensures value { result ≡ file_numbers (placing_of header.now) }
        ensures valid { IsHeader header.now }
    {
        Files {
            mask: header.mask(),
            region: header.region(),
            bits: header.bits_per_block(),
            per_file: header.blocks_per_file(),
            next: 0,
        }
    }
}

impl Iterator for Files {
    type Item = u64;

    ghost next_gives = { YieldsFirst (λ left. left) };

    ghost remaining = { item_count (λ left. left) };

    fn next(&mut self) -> Option<u64> {
        let Some(block) = next_present(&self.mask, &self.region, self.bits, self.next) else {
            return None;
        };
        let file = file_of(block, self.per_file);
        self.next = file + self.per_file;
        Some(file)
    }
}

impl FusedIterator for Files {}
