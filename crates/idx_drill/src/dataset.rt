//! The dataset of a drill: its header and its volume.
ghost use Rattle.std.specs.Prelude.{◌≡◌, ◌≤◌, IfOk};
ghost use Rattle.std.specs.Fmt.{decimal};
ghost use Rattle.idx_hz.specs.MaskText.{mask_text};
ghost use Rattle.idx_drill_model.specs.Drill.{drill_bits, drill_extent, drill_header, drill_mask, drill_text, drill_volume};

use idx_header::Header;
use idx_outside::{Bytes, NoMemory};
use idx_rowmajor::Layout;
use idx_text::write_number;
use idx_words::ConvertWords;
use std::alloc::Global;

/// A block has at most 2 to this many samples.
const MOST_BITS: u32 = 12;

/// The header of the drill of a number.
pub(crate) fn drill_header(alloc: Global, number: u32) -> Result<Header, NoMemory>
    requires some { 1 ≤ number }
    requires few { number ≤ 8 }
    ensures { IfOk result (λ header. header ≡ drill_header number) }
{
    let text = header_text(alloc, number)?;
    match Header::read(alloc, text.as_slice()) {
        Ok(header) => Ok(header),
        // The text reads, so that only memory was short.
        Err(_) => Err(NoMemory),
    }
}

/// The text of that header.
pub(crate) fn header_text(alloc: Global, number: u32) -> Result<Bytes, NoMemory>
    requires few { number ≤ 8 }
    ensures { IfOk result (λ text. text ≡ drill_text number) }
{
    let extent = extent_text(alloc, number)?;
    let mask = mask_text(alloc, number)?;
    let bits = bits_text(alloc, number)?;
    let words = ConvertWords {
        extent: extent.as_slice(),
        fields: b"a uint8",
        mask: mask.as_slice(),
        bits: bits.as_slice(),
        per_file: b"4",
        template: b"./%06x.bin",
        time: b"0 0 time%04d/",
        step: 0,
        ranks: 1,
        layout: Layout::Hz,
    };
    words.header_text(alloc)
}

/// The ends of the box: `0 X` for each axis.
fn extent_text(alloc: Global, number: u32) -> Result<Bytes, NoMemory>
    requires few { number ≤ 8 }
    ensures { IfOk result (λ text. text ≡ drill_extent number) }
{
    let end = (1 << number) - 1;
    let mut text = Bytes::new(alloc);
    text.append(b"0 ")?;
    write_number(end, &mut text)?;
    text.append(b" 0 ")?;
    write_number(end, &mut text)?;
    text.append(b" 0 ")?;
    write_number(end, &mut text)?;
    Ok(text)
}

/// The mask, whose digits take the axes in turn.
fn mask_text(alloc: Global, number: u32) -> Result<Bytes, NoMemory>
    ensures { IfOk result (λ text. text ≡ mask_text (drill_mask number)) }
{
    let mut text = Bytes::new(alloc);
    text.push(b'V')?;
    for _ in 0..number {
        text.append(b"012")?;
    }
    Ok(text)
}

/// How many bits the place of a sample in a block has.
fn bits_text(alloc: Global, number: u32) -> Result<Bytes, NoMemory>
    requires few { number ≤ 8 }
    ensures { IfOk result (λ text. text ≡ decimal (drill_bits number)) }
{
    let mut text = Bytes::new(alloc);
    write_number(u64::from(MOST_BITS.min(3 * number)), &mut text)?;
    Ok(text)
}

/// The volume of the drill of a number, one byte a sample, in row-major order.
pub(crate) fn drill_volume(alloc: Global, number: u32) -> Result<Bytes, NoMemory>
    requires few { number ≤ 8 }
    ensures { IfOk result (λ volume. volume ≡ drill_volume number) }
{
    let count: u64 = 1 << (3 * number);
    let mut volume = Bytes::with_capacity(alloc, count as usize)?;
    for place in 0..count {
        volume.push(((31 * place + u64::from(number)) % 256) as u8)?;
    }
    Ok(volume)
}
