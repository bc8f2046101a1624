ghost use Rattle.std.specs.Prelude.{◌≡◌, ◌≢◌, ◌↔◌, ℕ, ◌+◌, ◌-◌, ◌*◌, ◌%◌, ◌^◌, ◌<◌, ◌≤◌, List, [], ◌∷◌, length, map, slice_index, All, EachIndex, MatchOption, IsErrOf, IsTrue, codes};
ghost use Rattle.std.specs.Int.{bit_at};
ghost use Rattle.idx_geom.specs.Point.{IsAxes};
ghost use Rattle.idx_geom.specs.Region.{IsRegion, LiesIn, upper_ends};
ghost use Rattle.idx_hz.specs.Mask.{IsMask, NamesAxes, IsBelow, HasAddress, bit_count};
ghost use Rattle.idx_hz.specs.MaskText.{BeginsWithV, IsMaskDigit, IsFirstBad, IsFirstBadDigit, HasTooManyDigits, mask_text};
ghost use Rattle.idx_hz.specs.Address.{z_address, level_at, hz_at, hz_address};
ghost use Rattle.idx_hz.specs.Coordinate.{coordinate_at};

use crate::mask_fault::MaskFault;
use idx_geom::{MAX_AXES, Point, Region};
use std::marker::Model;

/// A mask has at most so many digits.
pub const MAX_DIGITS: usize = 40;

/// Which axis gives each binary digit of a Z address, from coarsest to finest (the bitmask of OpenVisus): one to forty
/// digits, each an axis 0 to 4, seen as their list.
#[derive(Clone, Copy, Debug, PartialEq, Eq)]
pub struct Mask {
    digits: [u8; MAX_DIGITS],
    len: u32,
}

impl Model for Mask {
    ghost use Rattle.std.specs.Prelude.{ℕ, List, take};
    ghost use Rattle.std.specs.Coded.{coded_list, coded_ℕ};

    ghost Value = { List ℕ };

    ghost coded = { coded_list coded_ℕ };

    ghost use Rattle.idx_hz.specs.MaskFields.{IsStored, fields, fields_again};

    ghost view = { λ m. take m.len m.digits };

    ghost invariant = { IsStored };

    ghost inverse = { fields };

    ghost inverse_ok = { fields_again };
}

impl Mask {
    /// The mask of a text: `V` and then one to forty digits, from coarsest to finest, each one of the characters `0` to
    /// `4`, the axis that it names. Of the faults of a text the first in the order of `MaskFault` is answered.
    pub fn parse(text: &[u8]) -> Result<Mask, MaskFault>
        ensures no_v { IsErrOf result MaskFault.NoV ↔ (¬ BeginsWithV text.now) }
        ensures empty { IsErrOf result MaskFault.Empty ↔ (text.now ≡ codes "V") }
        ensures bad_digit { (at : ℕ) → IsErrOf result (MaskFault.BadDigit at) ↔ IsFirstBadDigit text.now at }
        ensures too_long { IsErrOf result MaskFault.TooLong ↔ HasTooManyDigits text.now }
        ensures ok { (mask : List ℕ) → (result ≡ Ok mask) ↔ (IsMask mask × (text.now ≡ mask_text mask)) }
    {
        let [b'V', digits @ ..] = text else {
            return Err(MaskFault::NoV);
        };
        if digits.is_empty() {
            return Err(MaskFault::Empty);
        }
        if let Some(place) = bad_place(digits) {
            return Err(MaskFault::BadDigit {
                at: place as u64 + 1,
            });
        }
        if digits.len() > MAX_DIGITS {
            return Err(MaskFault::TooLong);
        }
        Ok(Mask::of_digits(digits))
    }

    /// How many digits the mask has, 1 to 40: the number of binary digits of its Z addresses.
    pub fn len(&self) -> u32
        ensures count { result ≡ length self.now }
        ensures valid { IsMask self.now }
    {
        self.len
    }

    /// The axis that the digit at a place names; place 1 is the coarsest digit, and `len` the finest.
    pub fn axis(&self, place: u32) -> u32
        requires first { 1 ≤ place }
        requires last { place ≤ length self.now }
        ensures value { result ≡ slice_index self.now (place - 1) }
        ensures small { result < 5 }
        ensures valid { IsMask self.now }
    {
        self.digits[place as usize - 1] as u32
    }

    /// How many bits an axis has: the number of its digits. A coordinate that has a Z address is below 2 to this number.
    #[tactic(auto, using(crate::proofs::MaskLemmas::bits_counted))]
    pub fn bits(&self, axis: u32) -> u32
        ensures count { result ≡ bit_count axis self.now }
        ensures few { result ≤ length self.now }
        ensures valid { IsMask self.now }
    {
        self.digits()
            .iter()
            .filter(|digit| **digit as u32 == axis)
            .count() as u32
    }

    /// Whether each digit names one of so many axes.
    pub fn names_axes(&self, axes: u32) -> bool
        ensures { IsTrue result ↔ NamesAxes self.now axes }
    {
        self.digits().iter().all(|digit| u32::from(*digit) < axes)
    }

    /// Whether a point lies below the mask's size: each coordinate is below 2 to its axis's bits.
    pub fn covers(&self, p: &Point) -> bool
        ensures { IsTrue result ↔ IsBelow self.now p.now }
    {
        (0..p.axes()).all(|axis| p.get(axis) < 1 << self.bits(axis))
    }

    /// Whether a point has a Z address: it has each axis that the mask names, and lies below the mask's size.
    pub fn has_address(&self, p: &Point) -> bool
        ensures { IsTrue result ↔ HasAddress self.now p.now }
    {
        self.names_axes(p.axes()) && self.covers(p)
    }

    /// Whether each point of a region has a Z address: its upper end does.
    pub fn holds(&self, region: &Region) -> bool
        ensures end { IsTrue result ↔ HasAddress self.now (upper_ends region.now) }
        ensures points { IsTrue result ↔ ((p : List ℕ) → LiesIn region.now p → HasAddress self.now p) }
    {
        self.holds_end(region)
    }

    /// The Z address of a point, below 2 to the number of digits: each digit gives the bit of its coordinate that it
    /// names, the coarsest digit the highest bit. For each axis its finest digit names bit 0, the one before it bit 1, and
    /// so on (Pascucci and Frank 2001).
    pub fn z_of(&self, p: &Point) -> u64
        requires { HasAddress self.now p.now }
        ensures value { result ≡ z_address self.now p.now }
        ensures small { result < 2 ^ length self.now }
    {
        let digits = self.digits();
        let mut z = 0;
        let mut used = [0; MAX_AXES];
        for place in (0..digits.len()).rev() {
            let axis = digits[place] as usize;
            let bit = bit_of(p, axis as u32, used[axis]);
            z = with_bit(bit, z, (digits.len() - 1 - place) as u32);
            used[axis] += 1;
        }
        z
    }

    /// The level of a Z address, 0 for the coarsest: the number of digits less the greatest q such that 2^q divides the
    /// address; 0 for the address 0 (Pascucci and Frank 2001).
    pub fn level_of(&self, z: u64) -> u32
        requires { z < 2 ^ length self.now }
        ensures value { result ≡ level_at (length self.now) z }
        ensures origin { (result ≡ 0) ↔ (z ≡ 0) }
        ensures divides { z % 2 ^ (length self.now - result) ≡ 0 }
        ensures greatest { 0 < z → z % 2 ^ (length self.now - result + 1) ≢ 0 }
        ensures deepest { result ≤ length self.now }
    {
        let digits = self.len();
        if z == 0 {
            0
        } else {
            digits - z.trailing_zeros()
        }
    }

    /// The hierarchical address of a point: a 1 is set in front of its Z address, and the lowest 1 and the zeros below
    /// it are shifted out (Pascucci and Frank 2001).
    pub fn hz_of(&self, p: &Point) -> u64
        requires { HasAddress self.now p.now }
        ensures value { result ≡ hz_address self.now p.now }
        ensures small { result < 2 ^ length self.now }
    {
        let marked = self.z_of(p) + (1 << self.len());
        marked >> (marked.trailing_zeros() + 1)
    }

    /// The point of so many axes that lies below the mask's size and has this Z address.
    pub fn point_of_z(&self, z: u64, axes: u32) -> Point
        requires small { z < 2 ^ length self.now }
        requires axes { IsAxes axes }
        requires named { NamesAxes self.now axes }
        ensures count { length result ≡ axes }
        ensures below { HasAddress self.now result }
        ensures address { z_address self.now result ≡ z }
        ensures only { (p : List ℕ) → length p ≡ axes → HasAddress self.now p → z_address self.now p ≡ z → p ≡ result }
    {
        let coordinates = self.coordinates_at(z);
        Point::new(&coordinates[..axes as usize]).unwrap()
    }

    /// The point of so many axes that lies below the mask's size and has this hierarchical address.
    pub fn point_of_hz(&self, address: u64, axes: u32) -> Point
        requires small { address < 2 ^ length self.now }
        requires axes { IsAxes axes }
        requires named { NamesAxes self.now axes }
        ensures count { length result ≡ axes }
        ensures below { HasAddress self.now result }
        ensures address { hz_address self.now result ≡ address }
        ensures only { (p : List ℕ) → length p ≡ axes → HasAddress self.now p →
            hz_address self.now p ≡ address → p ≡ result }
    {
        self.point_of_z(self.z_at(address), axes)
    }

    /// Whether the upper end of a region has a Z address.
    fn holds_end(&self, region: &Region) -> bool
        ensures end { IsTrue result ↔ HasAddress self.now (upper_ends region.now) }
        ensures valid { IsRegion region.now }
    {
        self.names_axes(region.axes()) && self.covers(&region.hi())
    }

    /// The Z address at a hierarchical address: a 1 behind the address, and zeros behind that, fill the digits, and the
    /// bit in front of them goes.
    fn z_at(&self, address: u64) -> u64
        requires { address < 2 ^ length self.now }
        ensures small { result < 2 ^ length self.now }
        ensures inverse { hz_at (length self.now) result ≡ address }
    {
        let digits = self.len();
        let used = u64::BITS - address.leading_zeros();
        ((2 * address + 1) << (digits - used)) - (1 << digits)
    }

    /// The coordinates at a Z address, and 0 on each axis that the mask does not name.
    fn coordinates_at(&self, z: u64) -> [u64; MAX_AXES]
        ensures room { length result ≡ 5 }
        ensures small { All (λ x. x < 2 ^ 40) result }
        ensures value { EachIndex result (λ axis. slice_index result axis ≡ coordinate_at self.now axis z) }
    {
        let digits = self.digits();
        let mut coordinates = [0; MAX_AXES];
        for (place, digit) in digits.iter().enumerate() {
            let axis = *digit as usize;
            let bit = binary_digit(z, (digits.len() - 1 - place) as u32);
            coordinates[axis] = 2 * coordinates[axis] + bit;
        }
        coordinates
    }

    /// The digits, from coarsest to finest.
    fn digits(&self) -> &[u8]
        ensures same { result.now ≡ self.now }
        ensures valid { IsMask result.now }
    {
        &self.digits[..self.len as usize]
    }

    /// The mask whose digits are these axes, from coarsest to finest.
    pub(crate) fn of_axes(axes: &[u8]) -> Mask
        requires { IsMask axes.now }
        ensures { result ≡ axes.now }
    {
        let mut digits = [0; MAX_DIGITS];
        digits[..axes.len()].copy_from_slice(axes);
        Mask {
            digits,
            len: axes.len() as u32,
        }
    }

    /// The mask of these characters.
    fn of_digits(digits: &[u8]) -> Mask
        requires some { 1 ≤ length digits.now }
        requires few { length digits.now ≤ MAX_DIGITS }
        requires digits { All IsMaskDigit digits.now }
        ensures text { map (λ d. d + 48) result ≡ digits.now }
        ensures valid { IsMask result }
    {
        let mut stored = [0; MAX_DIGITS];
        for (place, digit) in digits.iter().enumerate() {
            stored[place] = *digit - b'0';
        }
        Mask {
            digits: stored,
            len: digits.len() as u32,
        }
    }
}

/// The first place whose byte is not one of the characters `0` to `4`.
fn bad_place(bytes: &[u8]) -> Option<usize>
    ensures { MatchOption result (All IsMaskDigit bytes.now) (IsFirstBad bytes.now) }
{
    bytes.iter().position(|byte| !(b'0'..=b'4').contains(byte))
}

/// A bit of a coordinate; bit 0 is the lowest.
fn bit_of(p: &Point, axis: u32, number: u32) -> u64
    requires axis { axis < length p.now }
    requires number { number < 64 }
    ensures { result ≡ bit_at (slice_index p.now axis) number }
{
    p.get(axis) >> number & 1
}

/// A binary digit of a number; digit 0 is the lowest.
fn binary_digit(z: u64, number: u32) -> u64
    requires { number < 64 }
    ensures value { result ≡ bit_at z number }
    ensures bit { result < 2 }
{
    z >> number & 1
}

/// The number `z`, seen as so many binary digits, with one more bit in front of them.
fn with_bit(bit: u64, z: u64, digits: u32) -> u64
    requires bit { bit < 2 }
    requires digits { z < 2 ^ digits }
    requires few { digits < MAX_DIGITS }
    ensures { result ≡ bit * 2 ^ digits + z }
{
    bit << digits | z
}
