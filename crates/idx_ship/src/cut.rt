ghost use Rattle.std.specs.Prelude.{◌≡◌, ◌-◌, ◌*◌, ◌^◌, ◌<◌, ◌≤◌, IsTrue, OnOk, length, true, false};
ghost use Rattle.std.specs.List.{range_with_len};
ghost use Rattle.idx_geom.specs.Region.{upper_ends};
ghost use Rattle.idx_hz.specs.Mask.{HasAddress, IsMask};
ghost use Rattle.idx_layout.specs.Placing.{has_point_in};
ghost use Rattle.idx_ship.specs.Spans.{AreAdded, IsPrefix, block_addresses};

use crate::prefix::{Prefix, narrow, only_address};
use crate::span::Span;
use idx_geom::Region;
use idx_grid::shape;
use idx_hz::Mask;
use idx_layout::has_point_in;
use idx_outside::NoMemory;

/// Appends the spans of the addresses that the points of a box have in a block of 2^bits addresses, where the Z addresses
/// of all of them begin with these digits: they are looked for in one part of it alone, where that can be told.
pub(crate) fn cut_narrowed(
    mask: &Mask,
    region: &Region,
    prefix: &Prefix,
    bits: u32,
    number: u64,
    spans: &mut Vec<Span>,
) -> Result<(), NoMemory>
    requires mask { IsMask mask.now }
    requires address { HasAddress mask.now (upper_ends region.now) }
    requires prefix { IsPrefix mask.now region.now prefix.now }
    requires bits { bits ≤ length mask.now }
    requires few { bits ≤ 20 }
    requires some { 1 ≤ number }
    requires exists { number < 2 ^ (length mask.now - bits) }
    ensures { OnOk result (AreAdded mask.now (block_addresses mask.now region.now bits number)
        spans.old.items spans.new.items) }
{
    let Some(part) = narrow(prefix, bits, number) else {
        return cut_coarse(mask, region, prefix, bits, number, spans);
    };
    if prefix.whole {
        spans.push(part)?;
        return Ok(());
    }
    cut(mask, region, part.bits, part.number, spans)
}

/// The same on a level so coarse that the points have at most one address in the block.
fn cut_coarse(
    mask: &Mask,
    region: &Region,
    prefix: &Prefix,
    bits: u32,
    number: u64,
    spans: &mut Vec<Span>,
) -> Result<(), NoMemory>
    requires mask { IsMask mask.now }
    requires address { HasAddress mask.now (upper_ends region.now) }
    requires prefix { IsPrefix mask.now region.now prefix.now }
    requires bits { bits ≤ length mask.now }
    requires few { bits ≤ 20 }
    requires some { 1 ≤ number }
    requires exists { number < 2 ^ (length mask.now - bits) }
    ensures { OnOk result (AreAdded mask.now (block_addresses mask.now region.now bits number)
        spans.old.items spans.new.items) }
{
    match only_address(prefix, bits, number) {
        Some(address) => cut(mask, region, 0, address, spans),
        None => cut(mask, region, bits, number, spans),
    }
}

/// Appends the spans of the addresses that the points of a box have in a block of 2^bits addresses: none where it has no
/// point there, the block where all of its addresses have one, and else those of its halves.
pub(crate) fn cut(
    mask: &Mask,
    region: &Region,
    bits: u32,
    number: u64,
    spans: &mut Vec<Span>,
) -> Result<(), NoMemory>
    requires mask { IsMask mask.now }
    requires address { HasAddress mask.now (upper_ends region.now) }
    requires bits { bits ≤ length mask.now }
    requires few { bits ≤ 20 }
    requires exists { number < 2 ^ (length mask.now - bits) }
    ensures { OnOk result (AreAdded mask.now (block_addresses mask.now region.now bits number)
        spans.old.items spans.new.items) }
{
    if !has_point_in(mask, region, bits, number) {
        return Ok(());
    }
    if is_whole(mask, region, bits, number) {
        spans.push(Span { bits, number })?;
        return Ok(());
    }
    cut(mask, region, bits - 1, 2 * number, spans)?;
    cut(mask, region, bits - 1, 2 * number + 1, spans)?;
    Ok(())
}

/// Whether each address of a block that has a point of a box is that of one.
fn is_whole(mask: &Mask, region: &Region, bits: u32, number: u64) -> bool
    requires address { HasAddress mask.now (upper_ends region.now) }
    requires bits { bits ≤ length mask.now }
    requires exists { number < 2 ^ (length mask.now - bits) }
    requires point { has_point_in mask.now region.now bits number ≡ true }
    ensures whole { IsTrue result →
        block_addresses mask.now region.now bits number ≡ range_with_len (number * 2 ^ bits) (2 ^ bits) }
    ensures one { result ≡ false → 1 ≤ bits }
{
    bits == 0 || region.holds(&shape(mask, region.axes(), bits, number).region)
}
