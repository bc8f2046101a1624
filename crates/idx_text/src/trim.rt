ghost use Rattle.std.specs.Prelude.{◌≡◌};
ghost use Rattle.idx_text.specs.Trim.{from_first_word, to_last_word, trimmed};

use crate::numbers::is_blank;

/// The text without the blanks at its two ends. Takes no memory.
pub fn trim_blanks(text: &[u8]) -> &[u8]
    ensures { result.now ≡ trimmed text.now }
{
    trim_end(trim_start(text))
}

fn trim_start(text: &[u8]) -> &[u8]
    ensures { result.now ≡ from_first_word text.now }
{
    let mut rest = text;
    while let [first, more @ ..] = rest {
        if !is_blank(*first) {
            break;
        }
        rest = more;
    }
    rest
}

fn trim_end(text: &[u8]) -> &[u8]
    ensures { result.now ≡ to_last_word text.now }
{
    let mut rest = text;
    while let [more @ .., last] = rest {
        if !is_blank(*last) {
            break;
        }
        rest = more;
    }
    rest
}
