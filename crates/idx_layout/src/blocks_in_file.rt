ghost use Rattle.std.specs.Prelude.{◌≡◌, ◌-◌, ◌≤◌, filter, length};
ghost use Rattle.std.specs.List.{range_with_len};
ghost use Rattle.std.specs.Iterator.{YieldsFirst, item_count};
ghost use Rattle.idx_geom.specs.Region.{upper_ends};
ghost use Rattle.idx_header.specs.Header.{IsHeader};
ghost use Rattle.idx_hz.specs.Mask.{HasAddress};
ghost use Rattle.idx_layout.specs.Placing.{has_point_in, present_blocks};
ghost use Rattle.idx_layout.specs.OfHeader.{placing_of};

use crate::next_block::next_present;
use idx_geom::Region;
use idx_header::Header;
use idx_hz::Mask;
use std::iter::FusedIterator;
use std::marker::Model;

/// The blocks of a range that have a point of a box, rising, seen as the list of those that are left; those of a file and
/// the dataset's box are the file's present blocks. Each takes as long as `next_present`.
#[derive(Debug, Drop)]
pub struct FileBlocks {
    mask: Mask,
    region: Region,
    bits: u32,
    next: u64,
    end: u64,
}

impl Model for FileBlocks {
    ghost use Rattle.std.specs.Prelude.{◌-◌, ◌≤◌, ℕ, List, filter, length};
    ghost use Rattle.std.specs.List.{range_with_len};
    ghost use Rattle.idx_geom.specs.Region.{upper_ends};
    ghost use Rattle.idx_hz.specs.Mask.{HasAddress};
    ghost use Rattle.idx_layout.specs.Placing.{has_point_in};

    ghost Value = { List ℕ };

    ghost view = { λ b. filter (has_point_in b.mask b.region b.bits) (range_with_len b.next (b.end - b.next)) };

    ghost invariant = { λ b. HasAddress b.mask (upper_ends b.region) × (b.bits ≤ length b.mask) };
}

impl FileBlocks {
    /// The present blocks of a file of a header.
    pub(crate) fn of_header(header: &Header, file: u64) -> FileBlocks
        ensures value { result ≡ present_blocks (placing_of header.now) file }
        ensures valid { IsHeader header.now }
    {
        FileBlocks::between(
            &header.mask(),
            &header.region(),
            header.bits_per_block(),
            file,
            file.saturating_add(header.blocks_per_file()),
        )
    }

    /// The blocks from `first` on and before `end` that have a point of a box.
    pub(crate) fn between(
        mask: &Mask,
        region: &Region,
        bits: u32,
        first: u64,
        end: u64,
    ) -> FileBlocks
        requires address { HasAddress mask.now (upper_ends region.now) }
        requires bits { bits ≤ length mask.now }
        ensures { result ≡
            filter (has_point_in mask.now region.now bits) (range_with_len first (end - first)) }
    {
        FileBlocks {
            mask: *mask,
            region: *region,
            bits,
            next: first,
            end,
        }
    }
}

impl Iterator for FileBlocks {
    type Item = u64;

    ghost next_gives = { YieldsFirst (λ left. left) };

    ghost remaining = { item_count (λ left. left) };

    fn next(&mut self) -> Option<u64> {
        let Some(block) = next_present(&self.mask, &self.region, self.bits, self.next) else {
            return None;
        };
        if block >= self.end {
            return None;
        }
        self.next = block + 1;
        Some(block)
    }
}

impl FusedIterator for FileBlocks {}
