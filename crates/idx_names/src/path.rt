ghost use Rattle.std.specs.Prelude.{◌≡◌, ◌≤◌, ◌/◌, ◌^◌, ◌++◌, IfOk, OnOk, Some, None};
ghost use Rattle.idx_names.specs.Pieces.{bits_of};
ghost use Rattle.idx_names.specs.TimeTemplate.{step_piece, folder_text};
ghost use Rattle.idx_names.specs.Path.{numbered, file_piece, bits_left, file_path, revision_mark, step_folder};

use crate::bits::{high_bits, low_bits};
use crate::mark_kind::MarkKind;
use crate::numeral::append_numeral;
use crate::piece::Piece;
use crate::pieces::bits_of;
use crate::{Template, TimeTemplate};
use idx_outside::{Bytes, NoMemory};
use std::alloc::Global;

/// The path of a file where there are no steps: the template's parts, joined by `/`. From the right, each mark takes the
/// next four bits of the file's number for each of its digits, in lower-case hexadecimal; the leftmost mark takes all
/// bits that are left.
pub fn file_path(alloc: Global, template: &Template, file: u64) -> Result<Bytes, NoMemory>
    ensures { IfOk result (λ path. path ≡ file_path template.now None file) }
{
    let mut name = Bytes::from_slice(alloc, template.above())?;
    append_numbered(&mut name, template, file)?;
    Ok(name)
}

/// The path of a file of a step at a revision: the step's folder at it, and behind it the part with the first mark and those
/// behind it, as in `file_path`.
pub fn file_path_of_step(
    alloc: Global,
    template: &Template,
    time: &TimeTemplate,
    step: u64,
    revision: u32,
    file: u64,
) -> Result<Bytes, NoMemory>
    ensures { IfOk result (λ path. path ≡ file_path template.now (Some (time.now, step, revision)) file) }
{
    let mut path = step_folder(alloc, template, time, step, revision)?;
    path.push(b'/')?;
    append_numbered(&mut path, template, file)?;
    Ok(path)
}

/// The path of the folder of a step at a revision: the template's parts before the first part with a mark, and then the
/// folder's name, in which the step's number is decimal with at least the digits of its mark. From revision 1 on, `.r`
/// and the revision in decimal follow the name.
pub fn step_folder(
    alloc: Global,
    template: &Template,
    time: &TimeTemplate,
    step: u64,
    revision: u32,
) -> Result<Bytes, NoMemory>
    ensures { IfOk result (λ path. path ≡ step_folder template.now time.now step revision) }
{
    let mut path = Bytes::from_slice(alloc, template.above())?;
    append_folder(&mut path, time.pieces(), step)?;
    append_revision(&mut path, revision)?;
    Ok(path)
}

/// Appends what stands behind the name of a step's folder at a revision: nothing at revision 0.
fn append_revision(path: &mut Bytes, revision: u32) -> Result<(), NoMemory>
    ensures { OnOk result (path.new ≡ path.old ++ revision_mark revision) }
{
    if revision == 0 {
        return Ok(());
    }
    path.append(b".r")?;
    append_numeral(path, MarkKind::Step, 1, u64::from(revision))
}

/// Appends the name of a step's folder.
fn append_folder(path: &mut Bytes, pieces: &[Piece], step: u64) -> Result<(), NoMemory>
    ensures { OnOk result (path.new ≡ path.old ++ folder_text step pieces.now) }
{
    for piece in pieces {
        append_step_piece(path, piece, step)?;
    }
    Ok(())
}

/// Appends a piece of the name of a step's folder.
fn append_step_piece(path: &mut Bytes, piece: &Piece, step: u64) -> Result<(), NoMemory>
    ensures { OnOk result (path.new ≡ path.old ++ step_piece step piece.now) }
{
    match piece {
        Piece::Byte(byte) => path.push(*byte),
        Piece::Mark(digits) => append_numeral(path, MarkKind::Step, *digits, step),
    }
}

/// Appends the template's parts from the first part with a mark on, with the digits of a file's number.
fn append_numbered(path: &mut Bytes, template: &Template, file: u64) -> Result<(), NoMemory>
    ensures { OnOk result (path.new ≡ path.old ++ numbered template.now.pieces file) }
{
    let pieces = template.pieces();
    let mut bits = bits_of(pieces);
    let mut left = file;
    for piece in pieces {
        bits -= piece.bits();
        append_file_piece(path, piece, high_bits(left, bits))?;
        left = bits_left(piece, left, bits);
    }
    Ok(())
}

/// Appends a piece of a file's path, with a number in the place of a mark.
fn append_file_piece(path: &mut Bytes, piece: &Piece, number: u64) -> Result<(), NoMemory>
    ensures { OnOk result (path.new ≡ path.old ++ file_piece piece.now number) }
{
    match piece {
        Piece::Byte(byte) => path.push(*byte),
        Piece::Mark(digits) => append_numeral(path, MarkKind::File, *digits, number),
    }
}

/// What is left of a number behind a piece: so many of its lowest bits behind a mark.
fn bits_left(piece: &Piece, number: u64, bits: u32) -> u64
    ensures { result ≡ bits_left piece.now number bits }
{
    match piece {
        Piece::Byte(_) => number,
        Piece::Mark(_) => low_bits(number, bits),
    }
}
