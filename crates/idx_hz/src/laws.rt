//! Laws of the definitions, each the contract of a function that does nothing.
ghost use Rattle.std.specs.Prelude.{◌≡◌, ℕ, ◌+◌, ◌-◌, ◌/◌, ◌%◌, ◌^◌, ◌<◌, ◌≤◌, ◌↔◌, EachIndex, IsTrue, List, Some, length, slice_index, take};
ghost use Rattle.idx_hz.specs.Mask.{IsMask, NamesAxes, HasAddress};
ghost use Rattle.idx_hz.specs.MaskText.{mask_of, mask_text};
ghost use Rattle.idx_hz.specs.Address.{level, hz_address};
ghost use Rattle.idx_hz.specs.Coordinate.{coordinate_at};
ghost use Rattle.idx_hz.specs.Stride.{stride, LiesOnStrides};
ghost use Rattle.idx_hz.specs.declared.mask_fault.MaskFault.{MaskFault};

use crate::{Mask, MaskFault};

/// Masks are equal exactly where their digits are, and faults of a text where they are one.
pub fn equal_masks_are_one()
    ensures masks { (a b : List ℕ) → IsTrue (⟦<Mask as PartialEq>⟧.eq a b) ↔ (a ≡ b) }
    ensures faults { (a b : MaskFault) → IsTrue (⟦<MaskFault as PartialEq>⟧.eq a b) ↔ (a ≡ b) }
{}

/// A text spells a mask exactly where it is the text of that mask.
pub fn texts_spell_masks()
    ensures { (text mask : List ℕ) → (mask_of text ≡ Some mask) ↔ (IsMask mask × (text ≡ mask_text mask)) }
{}

/// For each mask of M digits, and each number of axes that it fits, the hierarchical addresses are one to one from the
/// points below the mask's size onto the numbers below 2^M. Level h from 1 fills exactly the addresses 2^(h-1) to
/// 2^h - 1 (Pascucci and Frank 2001).
pub fn addresses_are_one_to_one()
    ensures within { (mask p : List ℕ) → HasAddress mask p → hz_address mask p < 2 ^ length mask }
    ensures apart { (mask p q : List ℕ) → HasAddress mask p → HasAddress mask q → length p ≡ length q →
        hz_address mask p ≡ hz_address mask q → p ≡ q }
    ensures onto { (mask : List ℕ) (axes address : ℕ) → NamesAxes mask axes → address < 2 ^ length mask →
        (p : List ℕ) × (length p ≡ axes) × HasAddress mask p × (hz_address mask p ≡ address) }

    ensures level_zero { (mask p : List ℕ) → HasAddress mask p → (level mask p ≡ 0) ↔ (hz_address mask p ≡ 0) }
    ensures level_range { (mask p : List ℕ) (h : ℕ) → HasAddress mask p → 1 ≤ h →
        (level mask p ≡ h) ↔ ((2 ^ (h - 1) ≤ hz_address mask p) × (hz_address mask p < 2 ^ h)) }
{}

/// The points of level at most h are those whose coordinates are multiples of the level's strides. The points of level
/// h from 1 are those of them whose coordinate on the axis of digit h is an odd multiple.
pub fn levels_are_grids()
    ensures coarser { (mask p : List ℕ) (h : ℕ) → NamesAxes mask (length p) →
        (level mask p ≤ h) ↔ LiesOnStrides mask h p }
    ensures exact { (mask p : List ℕ) (h : ℕ) → NamesAxes mask (length p) → 1 ≤ h → h ≤ length mask →
        let axis = slice_index mask (h - 1) in
        (level mask p ≡ h) ↔ (LiesOnStrides mask h p × (slice_index p axis / stride mask h axis % 2 ≡ 1)) }
{}

/// A block is 2^bits consecutive hierarchical addresses, and its number is their first one by 2^bits. Block 0 has the
/// points of level at most `bits`. A block whose number has k + 1 binary digits has the points of level bits + k + 1
/// that lie in a box: on each axis, those whose coordinate counts as many whole strides of level k as the mask's first
/// k digits give the axis of the number behind its highest 1.
pub fn blocks_are_boxes()
    ensures first { (mask p : List ℕ) (bits : ℕ) → HasAddress mask p →
        (hz_address mask p / 2 ^ bits ≡ 0) ↔ (level mask p ≤ bits) }
    ensures others { (mask p : List ℕ) (bits k block : ℕ) → HasAddress mask p → k ≤ length mask →
        2 ^ k ≤ block → block < 2 ^ (k + 1) →
        (hz_address mask p / 2 ^ bits ≡ block) ↔ ((level mask p ≡ bits + k + 1) ×
        EachIndex p (λ axis. slice_index p axis / stride mask k axis ≡
        coordinate_at (take k mask) axis (block - 2 ^ k))) }
{}
