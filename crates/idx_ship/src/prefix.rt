//! What the Z addresses of a box have in common tells where its points are in a block.
ghost use Rattle.std.specs.Prelude.{◌^◌, ◌<◌, ◌≤◌, IfSome};
ghost use Rattle.idx_geom.specs.Region.{upper_ends};
ghost use Rattle.idx_hz.specs.Mask.{HasAddress, IsMask};
ghost use Rattle.idx_ship.specs.Spans.{IsNarrower, IsOnly, IsPrefix};

use crate::span::Span;
use idx_geom::Region;
use idx_grid::prefix_box;
use idx_hz::Mask;

/// Binary digits with which the Z addresses of all points of a box begin.
#[derive(Clone, Copy, Debug)]
pub(crate) struct Prefix {
    /// How many digits.
    pub(crate) digits: u32,
    /// The number that they make.
    pub(crate) front: u64,
    /// Whether each point whose Z address begins with them lies in the box.
    pub(crate) whole: bool,
}

/// The digits that the Z addresses of a box's two ends have in common; or none, should a point not have them.
pub(crate) fn prefix_of(mask: &Mask, region: &Region) -> Prefix
    requires mask { IsMask mask.now }
    requires address { HasAddress mask.now (upper_ends region.now) }
    ensures { IsPrefix mask.now region.now result }
{
    let axes = region.axes();
    let (first, last) = (mask.z_of(&region.lo()), mask.z_of(&region.hi()));
    let behind = (u64::BITS - (first ^ last).leading_zeros()).min(mask.len());
    let digits = mask.len() - behind;
    let front = first >> behind;
    let common = prefix_box(mask, axes, digits, front);
    if common.holds(region) {
        return Prefix {
            digits,
            front,
            whole: region.holds(&common),
        };
    }
    Prefix {
        digits: 0,
        front: 0,
        whole: false,
    }
}

/// The part of a block of 2^bits addresses in which all those are that points with these digits have there, where it can
/// be told.
pub(crate) fn narrow(prefix: &Prefix, bits: u32, number: u64) -> Option<Span>
    requires digits { prefix.now.digits ≤ 40 }
    requires front { prefix.now.front < 2 ^ prefix.now.digits }
    requires some { 1 ≤ number }
    ensures { IfSome result (IsNarrower prefix.now bits number) }
{
    let inner = (1 << prefix.digits) + prefix.front;
    let more = number.leading_zeros().saturating_sub(inner.leading_zeros());
    if more <= bits && more <= prefix.digits && inner >> more == number {
        return Some(Span {
            bits: bits - more,
            number: inner,
        });
    }
    None
}

/// The one address of a block of 2^bits addresses that a point with these digits may have there, where it can be told: on
/// levels so coarse that the digits are more than its addresses have.
pub(crate) fn only_address(prefix: &Prefix, bits: u32, number: u64) -> Option<u64>
    requires digits { prefix.now.digits ≤ 40 }
    requires front { prefix.now.front < 2 ^ prefix.now.digits }
    requires bits { bits ≤ 20 }
    requires some { 1 ≤ number }
    ensures { IfSome result (IsOnly prefix.now bits number) }
{
    let inner = (1 << prefix.digits) + prefix.front;
    let more = number.leading_zeros().saturating_sub(inner.leading_zeros());
    let less = more.saturating_sub(bits);
    if bits + less <= prefix.digits {
        let address = (1 << (prefix.digits - less)) + (prefix.front >> less);
        if address >> bits == number {
            return Some(address);
        }
    }
    None
}
