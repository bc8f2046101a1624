ghost use Rattle.std.specs.Prelude.{◌≡◌, ◌≢◌, ℕ, ◌<◌, ◌≤◌, min, Err, None, Ok, Some, IfErr, IfOk, IfSome, List, OnErr, OnOk, length};
ghost use Rattle.idx_outside.specs.Cause.{AskedFor, MeetsOnce, NeverFalls, Rose};
ghost use Rattle.idx_header.specs.Header.{block_count};
ghost use Rattle.idx_layout.specs.Files.{length_of_file};
ghost use Rattle.idx_layout.specs.OfHeader.{placing_of};
ghost use Rattle.idx_check.specs.Difference.{first_difference};
ghost use Rattle.idx_check.specs.Form.{HasForm};
ghost use Rattle.idx_check.specs.Piece.{HasLength};
ghost use Rattle.idx_check.specs.Pieces.{ReadsOn};
ghost use Rattle.idx_check.specs.Stray.{IsFirstBetween, first_end};
ghost use Rattle.idx_check.specs.Wanted.{wanted_bytes};

use crate::CheckFault;
use crate::blocks::wrong_in_blocks;
use crate::piece::Piece;
use crate::table::wrong_in_table;
use idx_header::Header;
use idx_layout::file_len;
use idx_outside::{Leaf, Reader};

/// The least place at which a file differs from what it should be, or that only one of the two has; `None` exactly where
/// they are the same. Reads the file once, from its beginning on, by pieces.
pub(crate) fn wrong_byte<L: Leaf, R: Reader<L>>(
    header: &Header,
    file: u64,
    leaf: &L,
    piece: &mut Piece,
    reader: &mut R,
) -> Result<Option<u64>, CheckFault>
    requires exists { file < block_count header.now }
    ensures found { IfOk result (λ found. IfSome (L.contents leaf.now) (λ bytes.
        found ≡ first_difference bytes (wanted_bytes (placing_of header.now) file bytes))) }
    ensures whole { result ≡ Ok None →
        AskedFor (R.asked reader.old) (R.asked reader.new) (length_of_file (placing_of header.now) file) }
    ensures pieces { OnOk result (ReadsOn R.reads R.asked reader.old reader.new 0
        (length_of_file (placing_of header.now) file)) }
    ensures outage { IfErr result (λ fault. fault ≢ CheckFault.NoMemory →
        (fault ≡ CheckFault.StoreFault (R.faults reader.new)) × Rose (R.faults reader.old) (R.faults reader.new)) }
    ensures no_memory { result ≡ Err CheckFault.NoMemory → R.faults reader.new ≡ R.faults reader.old }
    ensures quiet { OnOk result (R.faults reader.new ≡ R.faults reader.old) }
    ensures count { NeverFalls (R.faults reader.old) (R.faults reader.new) }
    ensures once { MeetsOnce (R.faults reader.old) (R.faults reader.new) }
{
    let there = leaf.len();
    piece.used = piece.bytes.len();
    let found = wrong_place(header, file, there, leaf, piece, reader)?;
    Ok(first_of(found, there, file_len(header, file)))
}

/// The same of the bytes alone, without the lengths: behind its end, at `there`, the file goes on with zeros.
fn wrong_place<L: Leaf, R: Reader<L>>(
    header: &Header,
    file: u64,
    there: u64,
    leaf: &L,
    piece: &mut Piece,
    reader: &mut R,
) -> Result<Option<u64>, CheckFault>
    requires exists { file < block_count header.now }
    requires length { HasLength (L.contents leaf.now) there }
    requires fresh { length piece.old.bytes.items ≡ piece.old.used }
    ensures found { IfOk result (λ found. IfSome (L.contents leaf.now) (λ bytes. (wanted : List ℕ) →
        HasForm (placing_of header.now) file bytes wanted → IsFirstBetween bytes wanted 0
        (length_of_file (placing_of header.now) file) found)) }
    ensures asked { result ≡ Ok None → AskedFor (R.asked reader.old) (R.asked reader.new)
        (min (length_of_file (placing_of header.now) file) there) }
    ensures pieces { OnOk result (ReadsOn R.reads R.asked reader.old reader.new 0
        (length_of_file (placing_of header.now) file)) }
    ensures outage { IfErr result (λ fault. fault ≢ CheckFault.NoMemory →
        (fault ≡ CheckFault.StoreFault (R.faults reader.new)) × Rose (R.faults reader.old) (R.faults reader.new)) }
    ensures no_memory { result ≡ Err CheckFault.NoMemory → R.faults reader.new ≡ R.faults reader.old }
    ensures quiet { OnOk result (R.faults reader.new ≡ R.faults reader.old) }
    ensures count { NeverFalls (R.faults reader.old) (R.faults reader.new) }
    ensures once { MeetsOnce (R.faults reader.old) (R.faults reader.new) }
{
    let found = wrong_in_table(header, file, there, leaf, piece, reader)?;
    if found.is_some() {
        return Ok(found);
    }
    wrong_in_blocks(header, file, there, leaf, piece, reader)
}

/// The first difference of two texts of these lengths, where the bytes that both have, and zeros behind them, differ there.
fn first_of(found: Option<u64>, there: u64, wanted: u64) -> Option<u64>
    ensures same { there ≡ wanted → result ≡ found }
    ensures ended { there ≢ wanted → result ≡ Some (first_end found (min there wanted)) }
{
    if there == wanted {
        return found;
    }
    let end = there.min(wanted);
    match found {
        Some(place) => Some(place.min(end)),
        None => Some(end),
    }
}
