ghost use Rattle.std.specs.Prelude.{◌≡◌, ◌≢◌, ℕ, ◌+◌, ◌-◌, ◌*◌, ◌^◌, ◌<◌, ◌≤◌, min, Err, IfErr, IfOk, IfSome, IfNone, IsTrue, List, OnErr, OnOk, length, slice_index, sum_by};
ghost use Rattle.std.specs.List.{range_with_len};
ghost use Rattle.idx_outside.specs.Cause.{AskedFor, MeetsOnce, NeverFalls, Rose};
ghost use Rattle.idx_header.specs.Header.{IsHeader, block_count, sample_bytes_of};
ghost use Rattle.idx_table.specs.Table.{table_bytes};
ghost use Rattle.idx_layout.specs.Files.{length_of_file, row_count};
ghost use Rattle.idx_layout.specs.OfHeader.{placing_of};
ghost use Rattle.idx_layout.specs.Placing.{block_bytes, present_blocks};
ghost use Rattle.idx_check.specs.Form.{HasForm};
ghost use Rattle.idx_check.specs.Piece.{AskedUpTo, HasLength, IsOnTheWay};
ghost use Rattle.idx_check.specs.Pieces.{ReadsOn, read_to};
ghost use Rattle.idx_check.specs.Stray.{IsFirstBetween, IsFirstStray};

use crate::CheckFault;
use crate::piece::{PIECE, Piece, Stretch};
use crate::stray::{address_count, first_stray};
use idx_header::Header;
use idx_layout::{file_blocks, present_in_file, table_len};
use idx_outside::{Leaf, Reader};

/// The least place of a byte of a file's blocks that should be a zero and is none. The file has `there` bytes.
pub(crate) fn wrong_in_blocks<L: Leaf, R: Reader<L>>(
    header: &Header,
    file: u64,
    there: u64,
    leaf: &L,
    piece: &mut Piece,
    reader: &mut R,
) -> Result<Option<u64>, CheckFault>
    requires exists { file < block_count header.now }
    requires length { HasLength (L.contents leaf.now) there }
    requires fresh { length piece.old.bytes.items ≡ piece.old.used }
    ensures found { IfOk result (λ found. IfSome (L.contents leaf.now) (λ bytes. (wanted : List ℕ) →
        HasForm (placing_of header.now) file bytes wanted → IsFirstBetween bytes wanted (table_bytes (row_count (placing_of header.now))) (length_of_file (placing_of header.now) file) found)) }
    ensures asked { (before : ℕ) →
        AskedFor before (R.asked reader.old) (min (table_bytes (row_count (placing_of header.now))) there) →
        IfOk result (λ found. IfNone found (AskedFor before (R.asked reader.new)
        (min (length_of_file (placing_of header.now) file) there))) }
    ensures pieces { OnOk result (ReadsOn R.reads R.asked reader.old reader.new
        (table_bytes (row_count (placing_of header.now))) (length_of_file (placing_of header.now) file)) }
    ensures outage { IfErr result (λ fault. fault ≢ CheckFault.NoMemory →
        (fault ≡ CheckFault.StoreFault (R.faults reader.new)) × Rose (R.faults reader.old) (R.faults reader.new)) }
    ensures no_memory { result ≡ Err CheckFault.NoMemory → R.faults reader.new ≡ R.faults reader.old }
    ensures quiet { OnOk result (R.faults reader.new ≡ R.faults reader.old) }
    ensures count { NeverFalls (R.faults reader.old) (R.faults reader.new) }
    ensures once { MeetsOnce (R.faults reader.old) (R.faults reader.new) }
{
    let present = present_in_file(header, file);
    let mut at = table_len(header);
    for field in 0..header.field_count() {
        let end = at + header.block_bytes(field) * present;
        let found = wrong_in_field(header, file, field, there, at, end, leaf, piece, reader)?;
        if found.is_some() {
            return Ok(found);
        }
        at = end;
    }
    Ok(None)
}

/// The same of the blocks of one field, which stand from `at` on and before `end`.
fn wrong_in_field<L: Leaf, R: Reader<L>>(
    header: &Header,
    file: u64,
    field: u32,
    there: u64,
    at: u64,
    end: u64,
    leaf: &L,
    piece: &mut Piece,
    reader: &mut R,
) -> Result<Option<u64>, CheckFault>
    requires valid { IsHeader header.now }
    requires exists { file < block_count header.now }
    requires field { field < length header.now.fields }
    requires length { HasLength (L.contents leaf.now) there }
    requires begins { at ≡ table_bytes (row_count (placing_of header.now)) +
        sum_by (block_bytes (placing_of header.now)) (range_with_len 0 field)
        * length (present_blocks (placing_of header.now) file) }
    requires ends { end ≡ at + block_bytes (placing_of header.now) field
        * length (present_blocks (placing_of header.now) file) }
    requires fresh { length piece.old.bytes.items ≡ piece.old.used }
    ensures found { IfOk result (λ found. IfSome (L.contents leaf.now) (λ bytes. (wanted : List ℕ) →
        HasForm (placing_of header.now) file bytes wanted → IsFirstBetween bytes wanted at end found)) }
    ensures fresh { IfOk result (λ found. IfNone found (length piece.new.bytes.items ≡ piece.new.used)) }
    ensures asked { (before : ℕ) → AskedFor before (R.asked reader.old) (min at there) →
        IfOk result (λ found. IfNone found (AskedFor before (R.asked reader.new) (min end there))) }
    ensures pieces { OnOk result (ReadsOn R.reads R.asked reader.old reader.new at end) }
    ensures outage { IfErr result (λ fault. fault ≢ CheckFault.NoMemory →
        (fault ≡ CheckFault.StoreFault (R.faults reader.new)) × Rose (R.faults reader.old) (R.faults reader.new)) }
    ensures no_memory { result ≡ Err CheckFault.NoMemory → R.faults reader.new ≡ R.faults reader.old }
    ensures quiet { OnOk result (R.faults reader.new ≡ R.faults reader.old) }
    ensures count { NeverFalls (R.faults reader.old) (R.faults reader.new) }
    ensures once { MeetsOnce (R.faults reader.old) (R.faults reader.new) }
{
    let run = run_of(header, field);
    let stretch = Stretch {
        there,
        unit: run.bytes,
        end,
    };
    let mut next = at;
    for block in file_blocks(header, file) {
        let found = wrong_in_block(header, run, block, stretch, next, leaf, piece, reader)?;
        if let Some(place) = found {
            return Ok(Some(next + place));
        }
        next += header.block_bytes(field);
    }
    Ok(None)
}

/// A run of addresses, of which a block is made and which is read at once.
#[derive(Clone, Copy)]
struct Run {
    /// How many bytes a sample has.
    size: usize,
    /// There are 2 to this number addresses in it.
    bits: u32,
    /// How many bytes its samples have.
    bytes: usize,
}

/// The run of addresses of a field's blocks that are read at once: a block, or the half of it, or the half of that and so
/// on, that has no more bytes than are read at once.
fn run_of(header: &Header, field: u32) -> Run
    requires field { field < length header.now.fields }
    ensures size { result.size ≡ sample_bytes_of header.now field }
    ensures bits { result.bits ≤ header.now.block_bits }
    ensures bytes { result.bytes ≡ result.size * 2 ^ result.bits }
    ensures few { result.bytes ≤ PIECE }
    ensures some { 1 ≤ result.size }
    ensures small { result.size ≤ 64 }
{
    let size = header.sample_bytes(field) as usize;
    let bits = header.bits_per_block().min((PIECE / size).ilog2());
    Run {
        size,
        bits,
        bytes: size * address_count(bits) as usize,
    }
}

/// The same of a present block, which begins at `at`: the place is one of the block.
fn wrong_in_block<L: Leaf, R: Reader<L>>(
    header: &Header,
    run: Run,
    block: u64,
    stretch: Stretch,
    at: u64,
    leaf: &L,
    piece: &mut Piece,
    reader: &mut R,
) -> Result<Option<u64>, CheckFault>
    requires exists { block < block_count header.now }
    requires bits { run.bits ≤ header.now.block_bits }
    requires some { 1 ≤ run.size }
    requires small { run.size ≤ 64 }
    requires run { run.bytes ≡ run.size * 2 ^ run.bits }
    requires few { run.bytes ≤ PIECE }
    requires unit { stretch.unit ≡ run.bytes }
    requires more { at + run.size * 2 ^ header.now.block_bits ≤ stretch.end }
    requires length { HasLength (L.contents leaf.now) stretch.there }
    requires way { IsOnTheWay (L.contents leaf.now) piece.old.bytes.items piece.old.used run.bytes
        at (stretch.end - at) }
    ensures found { IfOk result (λ found. IfSome (L.contents leaf.now) (λ bytes.
        IsFirstStray header.now.mask header.now.box run.size (block * 2 ^ header.now.block_bits)
        (λ i. slice_index bytes (at + i)) (run.size * 2 ^ header.now.block_bits) found)) }
    ensures within { IfOk result (λ found. IfSome found (λ place.
        place < run.size * 2 ^ header.now.block_bits)) }
    ensures way { IfOk result (λ found. IfNone found (IsOnTheWay (L.contents leaf.now)
        piece.new.bytes.items piece.new.used run.bytes (at + run.size * 2 ^ header.now.block_bits)
        (stretch.end - (at + run.size * 2 ^ header.now.block_bits)))) }
    ensures asked { (before : ℕ) →
        AskedUpTo before (R.asked reader.old) piece.old.bytes.items piece.old.used at stretch.there →
        IfOk result (λ found. IfNone found (AskedUpTo before (R.asked reader.new)
        piece.new.bytes.items piece.new.used (at + run.size * 2 ^ header.now.block_bits) stretch.there)) }
    ensures pieces { IfOk result (λ found. IfNone found (ReadsOn R.reads R.asked reader.old reader.new
        (read_to at piece.old.bytes.items piece.old.used)
        (read_to (at + run.size * 2 ^ header.now.block_bits) piece.new.bytes.items piece.new.used))) }
    ensures ended { IfOk result (λ found. IfSome found (λ _. ReadsOn R.reads R.asked reader.old reader.new
        (read_to at piece.old.bytes.items piece.old.used) stretch.end)) }
    ensures outage { IfErr result (λ fault. fault ≢ CheckFault.NoMemory →
        (fault ≡ CheckFault.StoreFault (R.faults reader.new)) × Rose (R.faults reader.old) (R.faults reader.new)) }
    ensures no_memory { result ≡ Err CheckFault.NoMemory → R.faults reader.new ≡ R.faults reader.old }
    ensures quiet { OnOk result (R.faults reader.new ≡ R.faults reader.old) }
    ensures count { NeverFalls (R.faults reader.old) (R.faults reader.new) }
    ensures once { MeetsOnce (R.faults reader.old) (R.faults reader.new) }
{
    let (mask, region) = (header.mask(), header.region());
    let runs = address_count(header.bits_per_block() - run.bits);
    let mut next = at;
    for k in 0..runs {
        piece.look_ahead(stretch, next, leaf, reader)?;
        let from = piece.used;
        piece.used += run.bytes;
        let number = block * runs + k;
        let bytes = &piece.bytes[from..from + run.bytes];
        if let Some(place) = first_stray(&mask, &region, run.bits, number, run.size, bytes) {
            return Ok(Some(next - at + place as u64));
        }
        next += run.bytes as u64;
    }
    Ok(None)
}
