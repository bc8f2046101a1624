ghost use Rattle.std.specs.Prelude.{◌≡◌, ◌<◌, ◌++◌, OnOk, replicate, false};
ghost use Rattle.std.specs.Fmt.{digit_glyph};
ghost use Rattle.idx_names.specs.Numeral.{numeral};
ghost use Rattle.idx_names.specs.Pieces.{mark_base};

use crate::mark_kind::MarkKind;
use idx_outside::{Bytes, NoMemory};

/// A `u64` has at most so many digits in a base from ten on.
const MAX_DIGITS: usize = 20;

/// Appends a number with at least so many digits, in the base of the mark's kind.
pub(crate) fn append_numeral(
    out: &mut Bytes,
    kind: MarkKind,
    least: u8,
    number: u64,
) -> Result<(), NoMemory>
    ensures { OnOk result (out.new ≡ out.old ++ numeral (mark_base kind) least number) }
{
    let mut digits = [b'0'; MAX_DIGITS];
    let mut place = MAX_DIGITS;
    let mut rest = number;
    while rest > 0 {
        place -= 1;
        digits[place] = glyph((rest % kind.base()) as u8);
        rest /= kind.base();
    }
    append_zeros(out, usize::from(least).saturating_sub(MAX_DIGITS - place))?;
    out.append(&digits[place..])
}

/// Appends so many characters `0`.
fn append_zeros(out: &mut Bytes, count: usize) -> Result<(), NoMemory>
    ensures { OnOk result (out.new ≡ out.old ++ replicate count 48) }
{
    for _ in 0..count {
        out.push(b'0')?;
    }
    Ok(())
}

/// The character of a digit, `0` to `9` and then `a` to `f`.
fn glyph(digit: u8) -> u8
    requires { digit < 16 }
    ensures { result ≡ digit_glyph false digit }
{
    if digit < 10 {
        b'0' + digit
    } else {
        b'a' - 10 + digit
    }
}
