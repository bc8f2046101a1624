//! What would do in the place of a value of a header that is too small or over a limit.
use idx_header::{HeaderKind, mask_text};
use idx_hz::guess;
use idx_outside::Bytes;
use idx_progress::Shown;
use idx_text::{Document, read_box, read_number};
use std::alloc::Global;
use std::io::{self, Write};
use std::str;

/// Prints what would do in the place of the value of the key on this line of a header text; nothing where that is not
/// known.
pub(crate) fn print_remedy<W: Write>(
    alloc: Global,
    err: &mut W,
    text: &[u8],
    line: u64,
    kind: HeaderKind,
) -> io::Result<()> {
    let Ok(document) = Document::read(alloc, text) else {
        return Ok(());
    };
    match kind {
        HeaderKind::TemplateTooSmall => print_digits(err, digits_needed(&document)),
        HeaderKind::BoxOutsideMask => print_mask(err, guessed_mask(alloc, &document)),
        HeaderKind::OverLimit => print_limits(err, limits_of(key_on(&document, line))),
        _ => Ok(()),
    }
}

/// Prints how many digits the template needs.
fn print_digits<W: Write>(err: &mut W, needed: Option<u32>) -> io::Result<()> {
    match needed {
        Some(digits) => {
            writeln!(
                err,
                "  its marks need {digits} hexadecimal digits together, as ./%0{digits}x.bin has them"
            )
        }
        None => Ok(()),
    }
}

/// Prints the mask that has room for the box.
fn print_mask<W: Write>(err: &mut W, mask: Option<Bytes>) -> io::Result<()> {
    let Some(mask) = mask else {
        return Ok(());
    };
    match str::from_utf8(mask.as_slice()) {
        Ok(mask) => writeln!(err, "  the bits {} have room for this box", Shown(mask)),
        Err(_) => Ok(()),
    }
}

/// Prints the limits of a value.
fn print_limits<W: Write>(err: &mut W, limits: Option<&'static str>) -> io::Result<()> {
    match limits {
        Some(limits) => writeln!(err, "  {limits}"),
        None => Ok(()),
    }
}

/// The limits of the value of a key.
fn limits_of(key: &[u8]) -> Option<&'static str> {
    match key {
        b"fields" => Some("there are at most 64 fields, and a sample of one has at most 64 bytes"),
        b"bitsperblock" => Some(
            "it is 1 to 20, no more than the bits have digits and at most 24 less; a block has at most 2^24 bytes",
        ),
        b"blocksperfile" => Some(
            "it is 1 to 65536, and the table of a file has at most 2^24 bytes",
        ),
        b"time" => Some("there are at most 4096 steps"),
        _ => None,
    }
}

/// The key on this line; none where no key stands there.
fn key_on(document: &Document, line: u64) -> &[u8] {
    for section in &document.sections {
        if section.line == line {
            return section.key.as_slice();
        }
    }
    b""
}

/// The value of the first such key.
fn value_of<'d>(document: &'d Document, key: &[u8]) -> Option<&'d [u8]> {
    for section in &document.sections {
        if section.key.as_slice() == key {
            return Some(section.value.as_slice());
        }
    }
    None
}

/// How many hexadecimal digits the number of the last file of a header has.
fn digits_needed(document: &Document) -> Option<u32> {
    let mask = value_of(document, b"bits")?;
    let bits = read_number(value_of(document, b"bitsperblock")?)?;
    let per_file = read_number(value_of(document, b"blocksperfile")?)?;
    let digits = (mask.len() as u64).checked_sub(1)?.checked_sub(bits)?;
    let last = 1u64
        .checked_shl(u32::try_from(digits).ok()?)?
        .checked_sub(1)?;
    Some(hexadecimal_digits(last - last.checked_rem(per_file)?))
}

/// How many hexadecimal digits a number has.
fn hexadecimal_digits(number: u64) -> u32 {
    let bits = 64 - number.leading_zeros();
    bits.div_ceil(4).max(1)
}

/// The mask that is guessed of the box of a header; `None` where none is.
fn guessed_mask(alloc: Global, document: &Document) -> Option<Bytes> {
    let region = read_box(value_of(document, b"box")?)?;
    let mask = guess(&region)?;
    mask_text(alloc, &mask).ok()
}
