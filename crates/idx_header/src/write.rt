//! The canonical text of a header.
ghost use Rattle.std.specs.Prelude.{◌≡◌, ◌∷◌, ◌++◌, ◌<◌, [], map, length, IfOk, OnOk};
ghost use Rattle.std.specs.List.{slice_index_or};
ghost use Rattle.std.specs.Fmt.{decimal};
ghost use Rattle.idx_hz.specs.MaskText.{mask_text};
ghost use Rattle.idx_fields.specs.Fields.{fields_lines};
ghost use Rattle.idx_text.specs.Entries.{entry_text, entries_text, lines_text};
ghost use Rattle.idx_header.specs.Written.{box_text, entry, steps_entries, steps_text, template_line, text_of, unknown_entry};

use crate::key::Key;
use crate::{Header, Steps, Unknown};
use idx_fields::Fields;
use idx_geom::Region;
use idx_hz::Mask;
use idx_names::Template;
use idx_outside::{Bytes, NoMemory};
use idx_text::{write_key, write_line, write_number};
use std::alloc::Global;

/// The canonical text.
pub(crate) fn header_text(alloc: Global, header: &Header) -> Result<Bytes, NoMemory>
    ensures { IfOk result (λ text. text ≡ text_of header.now) }
{
    let mut text = Bytes::new(alloc);
    write_entry(Key::Version, b"6", &mut text)?;
    write_box(alloc, &header.region, &mut text)?;
    write_fields(&header.fields, &mut text)?;
    write_bits(alloc, &header.mask, &mut text)?;
    write_count(Key::BitsPerBlock, u64::from(header.block_bits), &mut text)?;
    write_count(Key::BlocksPerFile, header.blocks_per_file, &mut text)?;
    write_template(alloc, &header.template, &mut text)?;
    write_time(alloc, &header.steps, &mut text)?;
    write_unknowns(&header.unknown, &mut text)?;
    Ok(text)
}

/// Appends a known key whose value stands on one line.
fn write_entry(key: Key, line: &[u8], out: &mut Bytes) -> Result<(), NoMemory>
    ensures { OnOk result (out.new ≡ out.old ++ entry_text (entry key (line.now ∷ []))) }
{
    idx_text::write_entry(key.text(), line, out)
}

/// Appends a known key whose value is a number.
fn write_count(key: Key, number: u64, out: &mut Bytes) -> Result<(), NoMemory>
    ensures { OnOk result (out.new ≡ out.old ++ entry_text (entry key (decimal number ∷ []))) }
{
    write_key(key.text(), out)?;
    write_number(number, out)?;
    out.push(b'\n')
}

/// Appends the box.
fn write_box(alloc: Global, region: &Region, out: &mut Bytes) -> Result<(), NoMemory>
    ensures { OnOk result (out.new ≡ out.old ++ entry_text (entry Key.Box (box_text region.now ∷ []))) }
{
    let line = box_text(alloc, region)?;
    write_entry(Key::Box, line.as_slice(), out)
}

/// The ends of each axis.
fn box_text(alloc: Global, region: &Region) -> Result<Bytes, NoMemory>
    ensures { IfOk result (λ text. text ≡ box_text region.now) }
{
    let axes = region.axes();
    let mut text = Bytes::new(alloc);
    write_axis(region, 0, &mut text)?;
    for axis in 1..axes {
        text.push(b' ')?;
        write_axis(region, axis, &mut text)?;
    }
    Ok(text)
}

/// Appends the ends of an axis.
fn write_axis(region: &Region, axis: u32, out: &mut Bytes) -> Result<(), NoMemory>
    requires { axis < length region.now }
    ensures { OnOk result (out.new ≡ out.old ++ box_text (slice_index_or region.now axis (0, 0) ∷ [])) }
{
    write_number(region.lo().get(axis), out)?;
    out.push(b' ')?;
    write_number(region.hi().get(axis), out)
}

/// Appends the fields.
fn write_fields(fields: &Fields, out: &mut Bytes) -> Result<(), NoMemory>
    ensures { OnOk result (out.new ≡ out.old ++ entry_text (entry Key.Fields (fields_lines fields.now))) }
{
    write_key(Key::Fields.text(), out)?;
    write_field_lines(fields, out)
}

/// Appends the lines of the fields.
fn write_field_lines(fields: &Fields, out: &mut Bytes) -> Result<(), NoMemory>
    ensures { OnOk result (out.new ≡ out.old ++ lines_text (fields_lines fields.now)) }
{
    let count = fields.len();
    fields.write_field(0, out)?;
    out.push(b'\n')?;
    for i in 1..count {
        out.append(b"+ ")?;
        fields.write_field(i, out)?;
        out.push(b'\n')?;
    }
    Ok(())
}

/// Appends the mask.
fn write_bits(alloc: Global, mask: &Mask, out: &mut Bytes) -> Result<(), NoMemory>
    ensures { OnOk result (out.new ≡ out.old ++ entry_text (entry Key.Bits (mask_text mask.now ∷ []))) }
{
    let line = mask_text(alloc, mask)?;
    write_entry(Key::Bits, line.as_slice(), out)
}

/// The text of a mask as a header has it: `V`, and the axis of each digit, the coarsest first.
pub fn mask_text(alloc: Global, mask: &Mask) -> Result<Bytes, NoMemory>
    ensures { IfOk result (λ text. text ≡ mask_text mask.now) }
{
    let mut text = Bytes::from_slice(alloc, b"V")?;
    for i in 0..mask.len() {
        text.push(b'0' + mask.axis(i + 1) as u8)?;
    }
    Ok(text)
}

/// Appends the template.
fn write_template(alloc: Global, template: &Template, out: &mut Bytes) -> Result<(), NoMemory>
    ensures { OnOk result
        (out.new ≡ out.old ++ entry_text (entry Key.FilenameTemplate (template_line template.now ∷ []))) }
{
    let mut line = Bytes::from_slice(alloc, b"./")?;
    template.write(&mut line)?;
    write_entry(Key::FilenameTemplate, line.as_slice(), out)
}

/// Appends the steps where there are some.
fn write_time(alloc: Global, steps: &Option<Steps>, out: &mut Bytes) -> Result<(), NoMemory>
    ensures { OnOk result (out.new ≡ out.old ++ entries_text (steps_entries steps.now)) }
{
    match steps {
        Some(steps) => write_entry(Key::Time, steps_text(alloc, steps)?.as_slice(), out),
        None => Ok(()),
    }
}

/// The first step, the last step and the template of the folders.
fn steps_text(alloc: Global, steps: &Steps) -> Result<Bytes, NoMemory>
    ensures { IfOk result (λ text. text ≡ steps_text steps.now) }
{
    let mut text = Bytes::new(alloc);
    write_number(steps.first, &mut text)?;
    text.push(b' ')?;
    write_number(steps.last, &mut text)?;
    text.push(b' ')?;
    steps.template.write(&mut text)?;
    Ok(text)
}

/// Appends the other keys.
fn write_unknowns(unknowns: &[Unknown], out: &mut Bytes) -> Result<(), NoMemory>
    ensures { OnOk result (out.new ≡ out.old ++ entries_text (map unknown_entry unknowns.now)) }
{
    for unknown in unknowns {
        write_unknown(unknown, out)?;
    }
    Ok(())
}

/// Appends another key.
fn write_unknown(unknown: &Unknown, out: &mut Bytes) -> Result<(), NoMemory>
    ensures { OnOk result (out.new ≡ out.old ++ entry_text (unknown_entry unknown.now)) }
{
    write_key(unknown.key.as_slice(), out)?;
    if unknown.value.is_empty() {
        return Ok(());
    }
    write_line(unknown.value.as_slice(), out)
}
