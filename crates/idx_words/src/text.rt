ghost use Rattle.std.specs.Prelude.{◌≡◌};
ghost use Rattle.idx_words.specs.ConvertGrammar.{is_text};

use crate::path::is_path;

/// Whether a word is a text: 1 to 4,096 printable ASCII characters, and the first is neither `-` nor `(`.
#[tactic(auto, unfolding(crate::specs::ConvertGrammar::is_text))]
pub fn is_text(word: &[u8]) -> bool
    ensures { result ≡ is_text word.now }
{
    is_path(word) && word.first() != Some(&b'(')
}
