ghost use Rattle.std.specs.Prelude.{◌≡◌};
ghost use Rattle.std.specs.List.{list_all};
ghost use Rattle.idx_words.specs.PathWord.{is_path, is_printable};

const MAX_PATH_BYTES: usize = 4096;

/// Whether a word is a path: 1 to 4,096 printable ASCII characters, and the first is no `-`.
#[tactic(auto, unfolding(crate::specs::PathWord::is_path))]
pub fn is_path(word: &[u8]) -> bool
    ensures { result ≡ is_path word.now }
{
    if word.is_empty() || word.len() > MAX_PATH_BYTES {
        return false;
    }
    word[0] != b'-' && are_printable(word)
}

fn are_printable(word: &[u8]) -> bool
    ensures { result ≡ list_all is_printable word.now }
{
    word.iter().all(|byte| is_printable(*byte))
}

fn is_printable(byte: u8) -> bool
    ensures { result ≡ is_printable byte }
{
    0x20 <= byte && byte <= 0x7e
}
