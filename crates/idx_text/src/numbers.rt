ghost use Rattle.std.specs.Prelude.{◌≡◌, ◌<◌, ℕ, List, length, IfSome, IfNone, Some};
ghost use Rattle.idx_text.specs.Numbers.{is_blank, numbers_of};

use crate::number::read_number;
use arrayvec::ArrayVec;
use idx_geom::MAX_AXES;

/// The ends of a region of the most axes: no text lists more numbers that make one.
pub(crate) const MAX_NUMBERS: usize = 2 * MAX_AXES;

/// Whether the byte is a space or a tab.
pub fn is_blank(byte: u8) -> bool
    ensures { result ≡ is_blank byte }
{
    byte == b' ' || byte == b'\t'
}

/// The numbers that a text lists, separated by blanks. `None` exactly where a run of bytes between blanks is no number,
/// or there are more than ten.
pub fn read_numbers(text: &[u8]) -> Option<ArrayVec<u64, MAX_NUMBERS>>
    ensures some { IfSome result (λ numbers. numbers_of text.now ≡ Some numbers.items) }
    ensures none { IfNone result ((numbers : List ℕ) → numbers_of text.now ≡ Some numbers → 10 < length numbers) }
{
    let mut numbers = ArrayVec::new();
    for run in text.split(|byte| is_blank(*byte)) {
        if run.is_empty() {
            continue;
        }
        if numbers.is_full() {
            return None;
        }
        numbers.push(read_number(run)?);
    }
    Some(numbers)
}
