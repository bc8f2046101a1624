ghost use Rattle.std.specs.Prelude.{◌≡◌, ℕ, ◌^◌, ◌<◌, ◌++◌, Some, OnOk, OnErr};
ghost use Rattle.std.specs.Fmt.{decimal};
ghost use Rattle.idx_text.specs.Number.{number_of};

use idx_outside::{Bytes, NoMemory};
use itoa::Buffer;

const MAX_DIGITS: usize = 19;

/// The number that a word spells: 1 to 19 decimal digits without a sign. `None` exactly where it spells none.
#[tactic(auto, unfolding(crate::specs::Number::number_of))]
pub fn read_number(word: &[u8]) -> Option<u64>
    ensures { result ≡ number_of word.now }
{
    if word.is_empty() || word.len() > MAX_DIGITS {
        return None;
    }
    let mut value = 0;
    for byte in word {
        if *byte < b'0' || *byte > b'9' {
            return None;
        }
        value = 10 * value + u64::from(*byte - b'0');
    }
    Some(value)
}

/// Appends the number in decimal digits, without leading zeros. At `NoMemory` the bytes are as they were.
pub fn write_number(number: u64, out: &mut Bytes) -> Result<(), NoMemory>
    ensures ok { OnOk result (out.new ≡ out.old ++ decimal number) }
    ensures err { OnErr result (out.new ≡ out.old) }
{
    let mut buffer = Buffer::new();
    out.append(buffer.format(number).as_bytes())
}

/// A number that is written is read back: each below 10 to the 19.
pub fn number_reads_back()
    ensures { (n : ℕ) → n < 10 ^ 19 → number_of (decimal n) ≡ Some n }
{}
