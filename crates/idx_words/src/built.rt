//! The header text that the words of `convert` ask for.
ghost use Rattle.std.specs.Prelude.{◌≡◌, ℕ, List, IfOk, MatchOption};
ghost use Rattle.idx_hz.specs.Guess.{guessed_mask};
ghost use Rattle.idx_words.specs.Built.{IsBits, IsBuilt, Guesses};

use crate::convert_words::ConvertWords;
use idx_header::mask_text;
use idx_hz::{Mask, guess};
use idx_outside::{Bytes, NoMemory};
use idx_text::{read_box, write_entry};
use std::alloc::Global;

impl ConvertWords<'_> {
    /// The header text in canonical layout, with each text as it was given on a line of its own.
    pub fn header_text(&self, alloc: Global) -> Result<Bytes, NoMemory>
        ensures { IfOk result (IsBuilt self.now) }
    {
        let bits = bits_text(alloc, self)?;
        let mut text = Bytes::new(alloc);
        write_entry(b"version", b"6", &mut text)?;
        write_entry(b"box", self.extent, &mut text)?;
        write_entry(b"fields", self.fields, &mut text)?;
        write_entry(b"bits", bits.as_slice(), &mut text)?;
        write_entry(b"bitsperblock", self.bits, &mut text)?;
        write_entry(b"blocksperfile", self.per_file, &mut text)?;
        write_entry(b"filename_template", self.template, &mut text)?;
        write_entry(b"time", self.time, &mut text)?;
        Ok(text)
    }
}

/// The text of the mask: the words' own; or that of the mask that is guessed of their box; or `V` alone.
fn bits_text(alloc: Global, words: &ConvertWords<'_>) -> Result<Bytes, NoMemory>
    ensures { IfOk result (IsBits words.now) }
{
    if words.mask != b"auto".as_slice() {
        return Bytes::from_slice(alloc, words.mask);
    }
    match guessed(words) {
        Some(mask) => mask_text(alloc, &mask),
        None => Bytes::from_slice(alloc, b"V"),
    }
}

/// The mask that is guessed of the words' box.
fn guessed(words: &ConvertWords<'_>) -> Option<Mask>
    ensures { MatchOption result
        ((box : List (ℕ × ℕ)) → ¬ Guesses words.now box)
        (λ mask. (box : List (ℕ × ℕ)) × (Guesses words.now box × (mask ≡ guessed_mask box))) }
{
    guess(&read_box(words.extent)?)
}
