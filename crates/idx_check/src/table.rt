ghost use Rattle.std.specs.Prelude.{◌≡◌, ◌≢◌, ℕ, ◌+◌, ◌-◌, ◌<◌, ◌≤◌, min, Err, IfErr, IfOk, IfSome, IfNone, List, OnErr, OnOk, length, slice_index};
ghost use Rattle.idx_outside.specs.Cause.{AskedFor, MeetsOnce, NeverFalls, Rose};
ghost use Rattle.idx_header.specs.Header.{IsHeader, block_count};
ghost use Rattle.idx_table.specs.Row.{row_bytes};
ghost use Rattle.idx_table.specs.Table.{table_bytes};
ghost use Rattle.idx_layout.specs.Files.{row_count};
ghost use Rattle.idx_layout.specs.OfHeader.{placing_of};
ghost use Rattle.idx_check.specs.Form.{HasForm};
ghost use Rattle.idx_check.specs.Piece.{AskedUpTo, HasLength, IsOnTheWay};
ghost use Rattle.idx_check.specs.Pieces.{ReadsOn, read_to};
ghost use Rattle.idx_check.specs.Stray.{IsFirstBetween};

use crate::CheckFault;
use crate::piece::{Piece, Stretch};
use idx_header::Header;
use idx_layout::{file_rows, table_len};
use idx_outside::{Leaf, Reader};
use idx_rowmajor::Layout;
use idx_table::{ABSENT, ROW_BYTES, Row, write_row};

/// The least place of a byte of a file's table that is not the writer's. The file has `there` bytes.
pub(crate) fn wrong_in_table<L: Leaf, R: Reader<L>>(
    header: &Header,
    file: u64,
    there: u64,
    leaf: &L,
    piece: &mut Piece,
    reader: &mut R,
) -> Result<Option<u64>, CheckFault>
    requires exists { file < block_count header.now }
    requires length { HasLength (L.contents leaf.now) there }
    requires fresh { length piece.old.bytes.items ≡ piece.old.used }
    ensures found { IfOk result (λ found. IfSome (L.contents leaf.now) (λ bytes. (wanted : List ℕ) →
        HasForm (placing_of header.now) file bytes wanted → IsFirstBetween bytes wanted 0
        (table_bytes (row_count (placing_of header.now))) found)) }
    ensures fresh { IfOk result (λ found. IfNone found (length piece.new.bytes.items ≡ piece.new.used)) }
    ensures asked { IfOk result (λ found. IfNone found (AskedFor (R.asked reader.old) (R.asked reader.new)
        (min (table_bytes (row_count (placing_of header.now))) there))) }
    ensures pieces { OnOk result (ReadsOn R.reads R.asked reader.old reader.new 0
        (table_bytes (row_count (placing_of header.now)))) }
    ensures outage { IfErr result (λ fault. fault ≢ CheckFault.NoMemory →
        (fault ≡ CheckFault.StoreFault (R.faults reader.new)) × Rose (R.faults reader.old) (R.faults reader.new)) }
    ensures no_memory { result ≡ Err CheckFault.NoMemory → R.faults reader.new ≡ R.faults reader.old }
    ensures quiet { OnOk result (R.faults reader.new ≡ R.faults reader.old) }
    ensures count { NeverFalls (R.faults reader.old) (R.faults reader.new) }
    ensures once { MeetsOnce (R.faults reader.old) (R.faults reader.new) }
{
    let stretch = Stretch {
        there,
        unit: ROW_BYTES,
        end: table_len(header),
    };
    if let Some(place) = wrong_in_row(&ABSENT, stretch, 0, leaf, piece, reader)? {
        return Ok(Some(place));
    }
    let mut at = ROW_BYTES as u64;
    for row in file_rows(header, Layout::Hz, file) {
        if let Some(place) = wrong_in_row(&row, stretch, at, leaf, piece, reader)? {
            return Ok(Some(place));
        }
        at += ROW_BYTES as u64;
    }
    Ok(None)
}

/// The least place of a byte of the row of a table that begins at `at` which is not the writer's.
fn wrong_in_row<L: Leaf, R: Reader<L>>(
    row: &Row,
    stretch: Stretch,
    at: u64,
    leaf: &L,
    piece: &mut Piece,
    reader: &mut R,
) -> Result<Option<u64>, CheckFault>
    requires unit { stretch.unit ≡ ROW_BYTES }
    requires more { at + ROW_BYTES ≤ stretch.end }
    requires length { HasLength (L.contents leaf.now) stretch.there }
    requires way { IsOnTheWay (L.contents leaf.now) piece.old.bytes.items piece.old.used ROW_BYTES
        at (stretch.end - at) }
    ensures found { IfOk result (λ found. IfSome (L.contents leaf.now) (λ bytes. (wanted : List ℕ) →
        ((i : ℕ) → i < ROW_BYTES → slice_index wanted (at + i) ≡ slice_index (row_bytes row.now) i) →
        IsFirstBetween bytes wanted at (at + ROW_BYTES) found)) }
    ensures way { IfOk result (λ found. IfNone found (IsOnTheWay (L.contents leaf.now)
        piece.new.bytes.items piece.new.used ROW_BYTES (at + ROW_BYTES) (stretch.end - (at + ROW_BYTES)))) }
    ensures asked { (before : ℕ) →
        AskedUpTo before (R.asked reader.old) piece.old.bytes.items piece.old.used at stretch.there →
        IfOk result (λ found. IfNone found (AskedUpTo before (R.asked reader.new)
        piece.new.bytes.items piece.new.used (at + ROW_BYTES) stretch.there)) }
    ensures pieces { IfOk result (λ found. IfNone found (ReadsOn R.reads R.asked reader.old reader.new
        (read_to at piece.old.bytes.items piece.old.used)
        (read_to (at + ROW_BYTES) piece.new.bytes.items piece.new.used))) }
    ensures ended { IfOk result (λ found. IfSome found (λ _. ReadsOn R.reads R.asked reader.old reader.new
        (read_to at piece.old.bytes.items piece.old.used) stretch.end)) }
    ensures outage { IfErr result (λ fault. fault ≢ CheckFault.NoMemory →
        (fault ≡ CheckFault.StoreFault (R.faults reader.new)) × Rose (R.faults reader.old) (R.faults reader.new)) }
    ensures no_memory { result ≡ Err CheckFault.NoMemory → R.faults reader.new ≡ R.faults reader.old }
    ensures quiet { OnOk result (R.faults reader.new ≡ R.faults reader.old) }
    ensures count { NeverFalls (R.faults reader.old) (R.faults reader.new) }
    ensures once { MeetsOnce (R.faults reader.old) (R.faults reader.new) }
{
    piece.look_ahead(stretch, at, leaf, reader)?;
    let from = piece.used;
    piece.used += ROW_BYTES;
    match other_byte(row, &piece.bytes[from..from + ROW_BYTES]) {
        Some(place) => Ok(Some(at + place as u64)),
        None => Ok(None),
    }
}

/// The first byte that is not that of a row.
fn other_byte(row: &Row, bytes: &[u8]) -> Option<usize>
    requires { length bytes.now ≡ ROW_BYTES }
    ensures { IsFirstBetween bytes.now (row_bytes row.now) 0 ROW_BYTES result }
{
    let mut text = [0; ROW_BYTES];
    write_row(row, &mut text);
    for i in 0..ROW_BYTES {
        if bytes[i] != text[i] {
            return Some(i);
        }
    }
    None
}
