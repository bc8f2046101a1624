ghost use Rattle.std.specs.Prelude.{◌≡◌, ◌++◌, ℕ, ◌<◌, ◌≤◌, length, IfOk, OnOk, flat_map, codes};
ghost use Rattle.std.specs.Fmt.{decimal};
ghost use Rattle.idx_fields.specs.Field.{field_at};
ghost use Rattle.idx_hz.specs.MaskText.{mask_text};
ghost use Rattle.idx_commands.specs.Summary.{line, box_line, ends_text, steps_line, field_line, order_lines, level_lines, block_lines, summary};

use idx_geom::Region;
use idx_header::Header;
use idx_hz::Mask;
use idx_outside::{Bytes, NoMemory};
use idx_text::write_number;
use std::alloc::Global;

/// The summary of a header: a line for each value, and one for each field.
#[tactic(auto, unfolding(crate::specs::Summary::summary))]
pub fn summary_of(alloc: Global, header: &Header) -> Result<Bytes, NoMemory>
    ensures { IfOk result (λ text. text ≡ summary header.now) }
{
    let mut text = Bytes::new(alloc);
    write_order(header, &mut text)?;
    write_levels(header, &mut text)?;
    write_blocks(header, &mut text)?;
    write_steps(header.steps(), &mut text)?;
    write_fields(header, &mut text)?;
    Ok(text)
}

/// Appends the lines of the box and the mask.
#[tactic(auto, unfolding(crate::specs::Summary::order_lines))]
fn write_order(header: &Header, out: &mut Bytes) -> Result<(), NoMemory>
    ensures { OnOk result (out.new ≡ out.old ++ order_lines header.now) }
{
    write_line(b"version", 6, out)?;
    write_line(b"axes", u64::from(header.axes()), out)?;
    write_box(&header.region(), out)?;
    write_mask(&header.mask(), out)
}

/// Appends the lines of the levels.
#[tactic(auto, unfolding(crate::specs::Summary::level_lines))]
fn write_levels(header: &Header, out: &mut Bytes) -> Result<(), NoMemory>
    ensures { OnOk result (out.new ≡ out.old ++ level_lines header.now) }
{
    write_line(b"levels", u64::from(header.max_level()), out)?;
    write_line(b"bitsperblock", u64::from(header.bits_per_block()), out)
}

/// Appends the lines of the blocks.
fn write_blocks(header: &Header, out: &mut Bytes) -> Result<(), NoMemory>
    ensures { OnOk result (out.new ≡ out.old ++ block_lines header.now) }
{
    write_line(b"blocksperfile", header.blocks_per_file(), out)?;
    write_line(b"blocks", header.block_count(), out)?;
    Ok(())
}

/// Appends the line of a number.
#[tactic(auto, unfolding(crate::specs::Summary::line))]
pub(crate) fn write_line(name: &[u8], number: u64, out: &mut Bytes) -> Result<(), NoMemory>
    ensures { OnOk result (out.new ≡ out.old ++ line name.now (decimal number)) }
{
    out.append(name)?;
    out.push(b' ')?;
    write_number(number, out)?;
    out.push(b'\n')
}

/// Appends the line of the box.
#[tactic(auto, unfolding(crate::specs::Summary::box_line))]
pub(crate) fn write_box(region: &Region, out: &mut Bytes) -> Result<(), NoMemory>
    ensures { OnOk result (out.new ≡ out.old ++ box_line region.now) }
{
    let (lo, hi) = (region.lo(), region.hi());
    out.append(b"box")?;
    for axis in 0..region.axes() {
        write_ends((lo.get(axis), hi.get(axis)), out)?;
    }
    out.push(b'\n')
}

/// Appends the ends of an axis, with a space before each.
#[tactic(auto, unfolding(crate::specs::Summary::ends_text))]
fn write_ends(ends: (u64, u64), out: &mut Bytes) -> Result<(), NoMemory>
    ensures { OnOk result (out.new ≡ out.old ++ ends_text ends) }
{
    out.push(b' ')?;
    write_number(ends.0, out)?;
    out.push(b' ')?;
    write_number(ends.1, out)
}

/// Appends the line of the mask.
#[tactic(auto, using(std::proofs::lemmas::List::map_more), unfolding(crate::specs::Summary::line))]
fn write_mask(mask: &Mask, out: &mut Bytes) -> Result<(), NoMemory>
    ensures { OnOk result (out.new ≡ out.old ++ line (codes "bits") (mask_text mask.now)) }
{
    out.append(b"bits V")?;
    for place in 0..mask.len() {
        out.push(b'0' + mask.axis(place + 1) as u8)?;
    }
    out.push(b'\n')
}

/// Appends the line of the steps.
#[tactic(auto, unfolding(crate::specs::Summary::steps_line, crate::specs::Summary::ends_text, crate::specs::Summary::line))]
fn write_steps(steps: Option<(u64, u64)>, out: &mut Bytes) -> Result<(), NoMemory>
    ensures { OnOk result (out.new ≡ out.old ++ steps_line steps) }
{
    out.append(b"steps")?;
    match steps {
        Some(ends) => write_ends(ends, out)?,
        None => out.append(b" none")?,
    }
    out.push(b'\n')
}

/// Appends the lines of the fields.
#[tactic(auto, using(crate::proofs::SummaryLemmas::flat_map_more))]
fn write_fields(header: &Header, out: &mut Bytes) -> Result<(), NoMemory>
    ensures { OnOk result (out.new ≡ out.old ++ flat_map field_line header.now.fields) }
{
    for i in 0..header.field_count() {
        write_field(header, i, out)?;
    }
    Ok(())
}

/// Appends the line of a field.
#[tactic(auto, unfolding(crate::specs::Summary::field_line, crate::specs::Summary::line))]
fn write_field(header: &Header, i: u32, out: &mut Bytes) -> Result<(), NoMemory>
    requires { i < length header.now.fields }
    ensures { OnOk result (out.new ≡ out.old ++ field_line (field_at header.now.fields i)) }
{
    out.append(b"field ")?;
    out.append(header.field_name(i))?;
    out.push(b' ')?;
    header.write_type(i, out)?;
    out.push(b' ')?;
    write_number(header.sample_bytes(i), out)?;
    out.push(b'\n')
}
