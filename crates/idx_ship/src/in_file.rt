ghost use Rattle.std.specs.Prelude.{◌≡◌, ◌+◌, ◌-◌, ◌*◌, ◌^◌, ◌<◌, ◌≤◌, [], IfOk, OnOk, filter, length};
ghost use Rattle.std.specs.List.{range_with_len};
ghost use Rattle.idx_geom.specs.Region.{upper_ends};
ghost use Rattle.idx_hz.specs.Mask.{HasAddress, IsMask};
ghost use Rattle.idx_pieces.specs.Runs.{has_address};
ghost use Rattle.idx_ship.specs.Spans.{AreAdded, IsPrefix, block_addresses};

use crate::cut::{cut, cut_narrowed};
use crate::prefix::{Prefix, prefix_of};
use crate::span::Span;
use idx_geom::Region;
use idx_hz::Mask;
use idx_layout::blocks_in;
use idx_outside::NoMemory;
use std::alloc::Global;

/// The spans of the addresses that the points of a box have in a file, rising. Blocks have 2^bits addresses, and the file
/// `per_file` of them, from block `file` on. It takes a few tests for each block and each level; where the box is not a
/// whole box of one prefix, up to a few for each span and each digit.
pub(crate) fn spans_in_file(
    alloc: Global,
    mask: &Mask,
    region: &Region,
    bits: u32,
    file: u64,
    per_file: u64,
) -> Result<Vec<Span>, NoMemory>
    requires mask { IsMask mask.now }
    requires address { HasAddress mask.now (upper_ends region.now) }
    requires bits { bits ≤ length mask.now }
    requires few { bits ≤ 20 }
    requires end { file + per_file < 2 ^ 64 }
    ensures { IfOk result (λ spans. AreAdded mask.now (filter (has_address mask.now region.now)
        (range_with_len (file * 2 ^ bits) (per_file * 2 ^ bits))) [] spans.items) }
{
    let prefix = prefix_of(mask, region);
    let mut spans = Vec::new(alloc);
    for block in blocks_in(mask, region, bits, file, file + per_file) {
        cut_block(mask, region, &prefix, bits, block, &mut spans)?;
    }
    Ok(spans)
}

/// Appends the spans of the addresses that the points of a box have in a block of 2^bits addresses, rising. Block 0 has
/// the address 0, and behind it the levels 1 to `bits`, each of them as many addresses as there are before it.
fn cut_block(
    mask: &Mask,
    region: &Region,
    prefix: &Prefix,
    bits: u32,
    block: u64,
    spans: &mut Vec<Span>,
) -> Result<(), NoMemory>
    requires mask { IsMask mask.now }
    requires address { HasAddress mask.now (upper_ends region.now) }
    requires prefix { IsPrefix mask.now region.now prefix.now }
    requires bits { bits ≤ length mask.now }
    requires few { bits ≤ 20 }
    requires exists { block < 2 ^ (length mask.now - bits) }
    ensures { OnOk result (AreAdded mask.now (block_addresses mask.now region.now bits block)
        spans.old.items spans.new.items) }
{
    if block > 0 {
        return cut_narrowed(mask, region, prefix, bits, block, spans);
    }
    cut(mask, region, 0, 0, spans)?;
    for level in 0..bits {
        cut_narrowed(mask, region, prefix, level, 1, spans)?;
    }
    Ok(())
}
