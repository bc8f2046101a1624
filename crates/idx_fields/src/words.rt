//! The words of a text: its runs of bytes between blanks.
ghost use Rattle.std.specs.Prelude.{◌≡◌, ◌<◌, ◌≤◌, [], ◌∷◌, true, false, length, take, slice_index, All, IfSome, IfNone, MatchOption};
ghost use Rattle.idx_text.specs.Numbers.{is_blank, runs};

use idx_text::is_blank;

/// The first word of a text, and what stands behind it. `None` exactly where there is no word.
pub(crate) fn first_word(text: &[u8]) -> Option<(&[u8], &[u8])>
    ensures { MatchOption result (runs text.now ≡ []) (λ parts.
        (runs text.now ≡ parts.0.now ∷ runs parts.1.now) × (length parts.1.now < length text.now)) }
{
    let start = word_start(text)?;
    let rest = &text[start..];
    let end = word_end(rest);
    Some((&rest[..end], &rest[end..]))
}

/// The place of the first byte that is no blank.
fn word_start(text: &[u8]) -> Option<usize>
    ensures some { IfSome result (λ place. (place < length text.now)
        × All (λ b. is_blank b ≡ true) (take place text.now) × (is_blank (slice_index text.now place) ≡ false)) }
    ensures none { IfNone result (All (λ b. is_blank b ≡ true) text.now) }
{
    text.iter().position(|byte| !is_blank(*byte))
}

/// The place of the first blank, or the text's length where there is none.
fn word_end(text: &[u8]) -> usize
    ensures within { result ≤ length text.now }
    ensures word { All (λ b. is_blank b ≡ false) (take result text.now) }
    ensures behind { result < length text.now → is_blank (slice_index text.now result) ≡ true }
{
    text.iter()
        .position(|byte| is_blank(*byte))
        .unwrap_or(text.len())
}
