ghost use Rattle.std.specs.Prelude.{◌≡◌, ◌↔◌, ℕ, Some};
ghost use Rattle.idx_words.specs.QueryGrammar.{SpellsLevel};

use idx_text::read_number;

/// The number of a level that a word spells, at most 4,294,967,295. `None` exactly where it spells none.
pub(crate) fn read_level(word: &[u8]) -> Option<u32>
    ensures { (level : ℕ) → (result ≡ Some level) ↔ SpellsLevel word.now level }
{
    let number = read_number(word)?;
    u32::try_from(number).ok()
}
