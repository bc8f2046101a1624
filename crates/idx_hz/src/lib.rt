//! Masks, Z addresses and hierarchical Z addresses.
#![tactic(auto)]

mod examples;
mod guessed;
mod laws;
mod mask;
mod mask_fault;

pub use examples::{
    worked_addresses, worked_answers, worked_guesses, worked_strides, worked_texts,
};
pub use guessed::guess;
pub use laws::{
    addresses_are_one_to_one, blocks_are_boxes, equal_masks_are_one, levels_are_grids,
    texts_spell_masks,
};
pub use mask::{MAX_DIGITS, Mask};
pub use mask_fault::MaskFault;
