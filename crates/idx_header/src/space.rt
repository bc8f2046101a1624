ghost use Rattle.std.specs.Prelude.{◌≡◌, ◌<◌, ◌≤◌, ◌^◌, ℕ, List, [], ◌∷◌, IfErr, IfNone, IfOk, IfSome, MatchOption, Some, None, All, length, nat_le, take, false, true};
ghost use Rattle.std.specs.List.{list_all, zip};
ghost use Rattle.idx_geom.specs.Point.{IsCoordinates};
ghost use Rattle.idx_geom.specs.Region.{AreEnds, IsRegion, upper_ends};
ghost use Rattle.idx_hz.specs.Mask.{HasAddress, IsMask, NamesAxes};
ghost use Rattle.idx_hz.specs.MaskText.{mask_of};
ghost use Rattle.idx_header.specs.Box.{box_of, by_twos, fits_from, make_box, pairs_of, spare_from};
ghost use Rattle.idx_header.specs.Faults.{first_of};
ghost use Rattle.idx_header.specs.HeaderOf.{box_faults, box_of_header, mask_of_header};
ghost use Rattle.idx_header.specs.Keys.{lacks_key};

use crate::key::Key;
use crate::keys::standing;
use crate::{HeaderFault, HeaderKind};
use arrayvec::ArrayVec;
use idx_geom::{MAX_AXES, Point, Region};
use idx_hz::Mask;
use idx_text::{Section, read_numbers};

/// A box has at least so many axes.
const MIN_AXES: usize = 2;

/// The box and the mask.
#[derive(Clone, Copy, Debug)]
pub(crate) struct Space {
    pub(crate) region: Region,
    pub(crate) mask: Mask,
}

/// The box and the mask of their keys, without the trailing pairs that are dropped.
pub(crate) fn read_space(sections: &[Section]) -> Result<Space, HeaderFault>
    requires { lacks_key sections.now ≡ false }
    ensures ok { IfOk result (λ s. (first_of (box_faults sections.now) ≡ None)
        × (s.mask ≡ mask_of_header sections.now) × (s.region ≡ box_of_header sections.now)) }
    ensures region { IfOk result (λ s. IsRegion s.region) }
    ensures mask { IfOk result (λ s. IsMask s.mask) }
    ensures covered { IfOk result (λ s. HasAddress s.mask (upper_ends s.region)) }
    ensures whole { IfOk result (λ s. box_of s.region s.mask ≡ s.region) }
    ensures err { IfErr result (λ f. first_of (box_faults sections.now) ≡ Some f) }
{
    let section = standing(sections, Key::Box);
    let bits = standing(sections, Key::Bits);
    let Some(pairs) = read_pairs(section.value.as_slice()) else {
        return Err(HeaderFault::on(section.line, HeaderKind::BadBox));
    };
    let Some(mask) = read_mask(bits.value.as_slice(), pairs.len() as u32) else {
        return Err(HeaderFault::on(bits.line, HeaderKind::BadMask));
    };
    if !fits(pairs.as_slice(), &mask) {
        return Err(HeaderFault::on(section.line, HeaderKind::BoxOutsideMask));
    }
    let region = region_in(pairs.as_slice(), &mask);
    Ok(Space { region, mask })
}

/// The pairs of a box, as they are written.
fn read_pairs(text: &[u8]) -> Option<ArrayVec<(u64, u64), MAX_AXES>>
    ensures some { IfSome result (λ pairs. (pairs_of text.now ≡ Some pairs.items) × (make_box pairs.items ≡ true)) }
    ensures none { IfNone result (pairs_of text.now ≡ None) }
{
    let numbers = read_numbers(text)?;
    let pairs = by_twos(numbers.as_slice())?;
    if make_box(pairs.as_slice()) {
        Some(pairs)
    } else {
        None
    }
}

/// The numbers by twos, if none is left over.
fn by_twos(numbers: &[u64]) -> Option<ArrayVec<(u64, u64), MAX_AXES>>
    requires { length numbers.now ≤ 10 }
    ensures { MatchOption result (by_twos numbers.now ≡ None) (λ pairs. by_twos numbers.now ≡ Some pairs.items) }
{
    let mut pairs = ArrayVec::<(u64, u64), MAX_AXES>::new();
    let mut rest = numbers;
    while let [lo, hi, more @ ..] = rest {
        pairs.push((*lo, *hi));
        rest = more;
    }
    if !rest.is_empty() {
        return None;
    }
    Some(pairs)
}

/// Whether these are 2 to 5 pairs, in each of which the lower end is at most the upper one.
fn make_box(pairs: &[(u64, u64)]) -> bool
    ensures { result ≡ make_box pairs.now }
{
    pairs.len() >= MIN_AXES && pairs.len() <= MAX_AXES && are_ordered(pairs)
}

/// Whether each lower end is at most its upper one.
fn are_ordered(pairs: &[(u64, u64)]) -> bool
    ensures { result ≡ list_all (λ b. nat_le b.0 b.1) pairs.now }
{
    pairs.iter().all(|pair| pair.0 <= pair.1)
}

/// The mask of a text, if each digit names one of so many axes.
fn read_mask(text: &[u8], axes: u32) -> Option<Mask>
    ensures some { IfSome result (λ mask. (mask_of text.now ≡ Some mask) × IsMask mask × NamesAxes mask axes) }
    ensures none { IfNone result ((mask : List ℕ) → mask_of text.now ≡ Some mask → ¬ NamesAxes mask axes) }
{
    let Ok(mask) = Mask::parse(text) else {
        return None;
    };
    if !mask.names_axes(axes) {
        return None;
    }
    Some(mask)
}

/// Whether each upper end is below 2 to the number of its axis's digits.
fn fits(pairs: &[(u64, u64)], mask: &Mask) -> bool
    requires { length pairs.now ≤ 5 }
    ensures { result ≡ fits_from 0 pairs.now mask.now }
{
    for (axis, pair) in pairs.iter().enumerate() {
        if pair.1 >= 1 << mask.bits(axis as u32) {
            return false;
        }
    }
    true
}

/// The region of these pairs without the trailing ones that are dropped.
fn region_in(pairs: &[(u64, u64)], mask: &Mask) -> Region
    requires box_ends { make_box pairs.now ≡ true }
    requires mask { IsMask mask.now }
    requires named { NamesAxes mask.now (length pairs.now) }
    requires fits { fits_from 0 pairs.now mask.now ≡ true }
    ensures value { result ≡ box_of pairs.now mask.now }
    ensures valid { IsRegion result }
    ensures covered { HasAddress mask.now (upper_ends result) }
    ensures whole { box_of result mask.now ≡ result }
{
    region_of(&pairs[..kept(pairs, mask)])
}

/// How many pairs stay: those before the trailing ones that are dropped.
fn kept(pairs: &[(u64, u64)], mask: &Mask) -> usize
    requires { length pairs.now ≤ 5 }
    ensures few { result ≤ length pairs.now }
    ensures value { take result pairs.now ≡ box_of pairs.now mask.now }
{
    let mut kept = pairs.len();
    while kept > 0 && is_spare(pairs[kept - 1], kept - 1, mask) {
        kept -= 1;
    }
    kept
}

/// Whether a pair is dropped where it stands last.
fn is_spare(pair: (u64, u64), axis: usize, mask: &Mask) -> bool
    requires { axis < 5 }
    ensures { result ≡ spare_from axis (pair ∷ []) mask.now }
{
    pair.0 == 0 && pair.1 == 0 && axis >= MIN_AXES && mask.bits(axis as u32) == 0
}

/// The region of these pairs.
fn region_of(pairs: &[(u64, u64)]) -> Region
    requires region { IsRegion pairs.now }
    requires small { All (λ b. b.1 < 2 ^ 40) pairs.now }
    ensures { result ≡ pairs.now }
{
    let mut lower = ArrayVec::<u64, MAX_AXES>::new();
    let mut upper = ArrayVec::<u64, MAX_AXES>::new();
    for pair in pairs {
        lower.push(pair.0);
        upper.push(pair.1);
    }
    region_between(&lower, &upper)
}

/// The region between these ends.
fn region_between(lower: &[u64], upper: &[u64]) -> Region
    requires lower { IsCoordinates lower.now }
    requires upper { IsCoordinates upper.now }
    requires ends { AreEnds lower.now upper.now }
    ensures { result ≡ zip lower.now upper.now }
{
    let lo = Point::new(lower).unwrap();
    let hi = Point::new(upper).unwrap();
    Region::new(lo, hi).unwrap()
}
