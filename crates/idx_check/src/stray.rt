//! Bytes of blocks that should be zeros, since no point of the box has their sample's address.
ghost use Rattle.std.specs.Prelude.{◌≡◌, ◌≢◌, ◌↔◌, ℕ, ◌+◌, ◌-◌, ◌*◌, ◌^◌, ◌<◌, ◌≤◌, IfSome, IfNone, IsTrue, None, length, slice_index, true};
ghost use Rattle.idx_geom.specs.Region.{upper_ends};
ghost use Rattle.idx_hz.specs.Mask.{HasAddress, IsMask};
ghost use Rattle.idx_check.specs.Cell.{IsCell};
ghost use Rattle.idx_check.specs.Stray.{IsFirstStray};
ghost use Rattle.idx_check.specs.Wanted.{is_address_of};

use crate::cell::{Cell, Level, Side};
use idx_geom::Region;
use idx_grid::grid_at;
use idx_hz::Mask;

/// The least place of a byte that should be a zero and is none, in the bytes of the samples of 2^bits addresses, of `size`
/// bytes each. `number` counts such runs of addresses.
pub(crate) fn first_stray(
    mask: &Mask,
    region: &Region,
    bits: u32,
    number: u64,
    size: usize,
    bytes: &[u8],
) -> Option<usize>
    requires mask { IsMask mask.now }
    requires address { HasAddress mask.now (upper_ends region.now) }
    requires bits { bits ≤ length mask.now }
    requires few_bits { bits ≤ 20 }
    requires exists { number < 2 ^ (length mask.now - bits) }
    requires some { 1 ≤ size }
    requires few { size ≤ 64 }
    requires room { length bytes.now ≡ size * 2 ^ bits }
    ensures { IsFirstStray mask.now region.now size (number * 2 ^ bits)
        (slice_index bytes.now) (length bytes.now) result }
{
    if number == 0 {
        stray_in_first(mask, region, bits, size, bytes)
    } else {
        stray_in_level(mask, region, bits, number, size, bytes)
    }
}

/// The same of the first addresses: the lowest one, and a run of each level behind it.
fn stray_in_first(
    mask: &Mask,
    region: &Region,
    bits: u32,
    size: usize,
    bytes: &[u8],
) -> Option<usize>
    requires mask { IsMask mask.now }
    requires address { HasAddress mask.now (upper_ends region.now) }
    requires bits { bits ≤ length mask.now }
    requires few_bits { bits ≤ 20 }
    requires some { 1 ≤ size }
    requires room { length bytes.now ≡ size * 2 ^ bits }
    ensures { IsFirstStray mask.now region.now size 0 (slice_index bytes.now) (length bytes.now) result }
{
    if bits == 0 {
        return stray_of_sample(mask, region, 0, bytes);
    }
    let half = size * address_count(bits - 1) as usize;
    let (low, high) = bytes.split_at(half);
    if let Some(place) = stray_in_first(mask, region, bits - 1, size, low) {
        return Some(place);
    }
    match stray_in_level(mask, region, bits - 1, 1, size, high) {
        Some(place) => Some(half + place),
        None => None,
    }
}

/// The same of a run of addresses of one level.
fn stray_in_level(
    mask: &Mask,
    region: &Region,
    bits: u32,
    number: u64,
    size: usize,
    bytes: &[u8],
) -> Option<usize>
    requires mask { IsMask mask.now }
    requires address { HasAddress mask.now (upper_ends region.now) }
    requires bits { bits ≤ length mask.now }
    requires few_bits { bits ≤ 20 }
    requires exists { number < 2 ^ (length mask.now - bits) }
    requires other { 1 ≤ number }
    requires some { 1 ≤ size }
    requires room { length bytes.now ≡ size * 2 ^ bits }
    ensures { IsFirstStray mask.now region.now size (number * 2 ^ bits)
        (slice_index bytes.now) (length bytes.now) result }
{
    let digits = number.ilog2();
    let grid = grid_at(mask, region.axes(), bits + digits + 1);
    let level = Level {
        mask: *mask,
        region: *region,
        lo: region.lo(),
        hi: region.hi(),
        step: grid.step,
    };
    let cell = level.cell_of(&grid.first, bits, digits, number);
    stray_in_cell(&level, &cell, 0, size, bytes)
}

/// The same of a cell: nothing is wrong where the box has all of its points, and each byte has to be a zero where it has
/// none. Else the halves of the cell are looked at. The axis is that on which the cell was halved last.
fn stray_in_cell(level: &Level, cell: &Cell, axis: u32, size: usize, bytes: &[u8]) -> Option<usize>
    requires mask { IsMask level.now.mask }
    requires address { HasAddress level.now.mask (upper_ends level.now.region) }
    requires cell { IsCell level.now cell.now }
    requires axis { axis < length level.now.region }
    requires few_axes { axis < 5 }
    requires few_bits { cell.now.bits ≤ 20 }
    requires some { 1 ≤ size }
    requires room { length bytes.now ≡ size * 2 ^ cell.now.bits }
    ensures { IsFirstStray level.now.mask level.now.region size (cell.now.number * 2 ^ cell.now.bits)
        (slice_index bytes.now) (length bytes.now) result }
{
    match level.side_of(cell, axis) {
        Side::Inside => None,
        Side::Outside => first_set(bytes),
        Side::Across => {
            let next = level.mask.axis(cell.digits + 1);
            let half = size * address_count(cell.bits - 1) as usize;
            let (low, high) = bytes.split_at(half);
            let mut lower = *cell;
            level.halve(&mut lower, next, 0);
            if let Some(place) = stray_in_cell(level, &lower, next, size, low) {
                return Some(place);
            }
            let mut upper = *cell;
            level.halve(&mut upper, next, 1);
            match stray_in_cell(level, &upper, next, size, high) {
                Some(place) => Some(half + place),
                None => None,
            }
        }
    }
}

/// How many addresses of so many bits there are.
pub(crate) fn address_count(bits: u32) -> u64
    requires { bits ≤ 20 }
    ensures value { result ≡ 2 ^ bits }
    ensures few { result ≤ 2 ^ 20 }
{
    1 << bits
}

/// The first byte of the sample of an address that should be a zero and is none.
fn stray_of_sample(mask: &Mask, region: &Region, address: u64, bytes: &[u8]) -> Option<usize>
    requires address { HasAddress mask.now (upper_ends region.now) }
    requires small { address < 2 ^ length mask.now }
    requires some { 1 ≤ length bytes.now }
    ensures { IsFirstStray mask.now region.now (length bytes.now) address
        (slice_index bytes.now) (length bytes.now) result }
{
    if is_address_of(mask, region, address) {
        None
    } else {
        first_set(bytes)
    }
}

/// Whether an address is that of a point of the box.
fn is_address_of(mask: &Mask, region: &Region, address: u64) -> bool
    requires address { HasAddress mask.now (upper_ends region.now) }
    requires small { address < 2 ^ length mask.now }
    ensures { result ≡ is_address_of mask.now region.now address }
{
    region.contains(&mask.point_of_hz(address, region.axes()))
}

/// The least place of a byte that is no zero.
fn first_set(bytes: &[u8]) -> Option<usize>
    ensures some { IfSome result (λ at. (at < length bytes.now) × (slice_index bytes.now at ≢ 0)
        × ((i : ℕ) → i < at → slice_index bytes.now i ≡ 0)) }
    ensures none { IfNone result ((i : ℕ) → i < length bytes.now → slice_index bytes.now i ≡ 0) }
{
    if are_zeros(bytes) {
        return None;
    }
    for at in 0..bytes.len() {
        if bytes[at] != 0 {
            return Some(at);
        }
    }
    None
}

/// Whether all bytes are zeros. Each is looked at, whatever was found before it, so that many are looked at together.
fn are_zeros(bytes: &[u8]) -> bool
    ensures { IsTrue result ↔ ((i : ℕ) → i < length bytes.now → slice_index bytes.now i ≡ 0) }
{
    let mut all = true;
    for at in 0..bytes.len() {
        if bytes[at] != 0 {
            all = false;
        }
    }
    all
}
