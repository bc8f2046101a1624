ghost use Rattle.std.specs.Option.{option_map};
ghost use Rattle.std.specs.Prelude.{◌≡◌, ◌≢◌, ◌↔◌, ℕ, ◌+◌, ◌*◌, ◌^◌, ◌<◌, ◌≤◌, Err, None, Ok, Some, IfErr, IfOk, IfSome, IfNone, OnErr, OnOk, if◌then◌else◌};
ghost use Rattle.idx_outside.specs.Cause.{AskedFor, MeetsOnce, NeverFalls, Rose};
ghost use Rattle.idx_outside.specs.Files.{StillAdmits, file_at, stored_at};
ghost use Rattle.idx_outside.specs.declared.bay_call.BayCall.{BayCall};
ghost use Rattle.idx_header.specs.Header.{IsHeader, block_count};
ghost use Rattle.idx_header.specs.Names.{file_name};
ghost use Rattle.idx_layout.specs.OfHeader.{placing_of};
ghost use Rattle.idx_edition.specs.Loaded.{counts};
ghost use Rattle.idx_check.specs.Cause.{IsCheckCause};
ghost use Rattle.idx_check.specs.Pieces.{ReadsOn, most_asked};
ghost use Rattle.idx_check.specs.Verdict.{file_count, is_written, verdict_of, wrong_there, written_length};

use crate::file::wrong_byte;
use crate::piece::Piece;
use crate::{CheckFault, Verdict, WrongKind};
use idx_header::Header;
use idx_layout::{file_len, present_in_file};
use idx_outside::{Bay, BayFault, Leaf, Reader};
use std::alloc::Global;

/// Says whether the files of a step are exactly those that the writer writes in hierarchical order for some volume, or
/// which is the first that is not, and where: a file that is missing, one that should not be there, or the first wrong
/// byte. Asks the bay for each file that the dataset can have, and reads each file of the step once, from its beginning on,
/// by pieces of at most 65,536 bytes. Where nothing is wrong each byte was asked for once. It changes nothing.
pub fn check_step<B: Bay, R: Reader<B::Leaf>>(
    alloc: Global,
    header: &Header,
    time: u64,
    bay: &mut B,
    reader: &mut R,
) -> Result<Verdict, CheckFault>
    ensures verdict { IfOk result (λ verdict. IfSome (B.files bay.old) (λ files.
        verdict ≡ verdict_of header.now time files)) }
    ensures whole { (files bytes : ℕ) → result ≡ Ok (Verdict.Same files bytes) →
        AskedFor (R.asked reader.old) (R.asked reader.new) bytes }
    ensures pieces { IfOk result (λ verdict. ReadsOn R.reads R.asked reader.old reader.new 0
        (most_asked (placing_of header.now) verdict)) }
    ensures cause { IfErr result (IsCheckCause
        (counts B.faults B.failed R.faults bay.old bay.new reader.old reader.new)) }
    ensures quiet { OnOk result (B.faults bay.new ≡ B.faults bay.old) }
    ensures reader_quiet { OnOk result (R.faults reader.new ≡ R.faults reader.old) }
    ensures count { NeverFalls (B.faults bay.old) (B.faults bay.new) }
    ensures once { MeetsOnce (B.faults bay.old) (B.faults bay.new) }
    ensures reader_count { NeverFalls (R.faults reader.old) (R.faults reader.new) }
    ensures reader_once { MeetsOnce (R.faults reader.old) (R.faults reader.new) }
    ensures header { B.header bay.new ≡ B.header bay.old }
    ensures files { B.files bay.new ≡ B.files bay.old }
    ensures admits { StillAdmits B.admits bay.old bay.new }
    ensures begun { B.begun bay.new ≡ B.begun bay.old }
    ensures changes { B.changes bay.new ≡ B.changes bay.old }
    ensures failed { OnOk result (B.failed bay.new ≡ B.failed bay.old) }
{
    let mut piece = Piece::new(alloc);
    let mut sum = Sum { files: 0, bytes: 0 };
    for i in 0..all_files(header) {
        let file = i * header.blocks_per_file();
        let wrong = wrong_with(alloc, header, time, file, bay, &mut piece, reader)?;
        if let Some(first) = wrong {
            return Ok(Verdict::Wrong {
                file,
                at: first.at,
                why: first.why,
            });
        }
        sum = sum.with_file(header, file);
    }
    Ok(Verdict::Same {
        files: sum.files,
        bytes: sum.bytes,
    })
}

/// How many files were found as they should be, and how many bytes they have in all.
#[derive(Clone, Copy)]
struct Sum {
    files: u64,
    bytes: u64,
}

impl Sum {
    /// The same with the file of a number, if the writer writes it.
    fn with_file(self, header: &Header, file: u64) -> Sum
        requires exists { file < block_count header.now }
        requires multiple { (i : ℕ) × (file ≡ header.now.blocks_per_file * i) }
        requires few_files { self.files ≤ 2 ^ 32 }
        requires few_bytes { self.bytes ≤ 2 ^ 60 }
        ensures files { result.files ≡ self.files + (if is_written (placing_of header.now) file then 1 else 0) }
        ensures bytes { result.bytes ≡ self.bytes + written_length (placing_of header.now) file }
    {
        if is_written(header, file) {
            Sum {
                files: self.files + 1,
                bytes: self.bytes + file_len(header, file),
            }
        } else {
            self
        }
    }
}

/// Where a file is wrong first, and how.
#[derive(Clone, Copy)]
struct Wrong {
    at: u64,
    why: WrongKind,
}

/// How many files all blocks of a dataset would take, present or not.
fn all_files(header: &Header) -> u64
    ensures value { result ≡ file_count (placing_of header.now) }
    ensures valid { IsHeader header.now }
{
    header.block_count().div_ceil(header.blocks_per_file())
}

/// Whether the writer writes the file of a number.
fn is_written(header: &Header, file: u64) -> bool
    requires exists { file < block_count header.now }
    requires multiple { (i : ℕ) × (file ≡ header.now.blocks_per_file * i) }
    ensures value { result ≡ is_written (placing_of header.now) file }
    ensures valid { IsHeader header.now }
{
    present_in_file(header, file) > 0
}

/// What is wrong with the file of a number, if anything.
fn wrong_with<B: Bay, R: Reader<B::Leaf>>(
    alloc: Global,
    header: &Header,
    time: u64,
    file: u64,
    bay: &mut B,
    piece: &mut Piece,
    reader: &mut R,
) -> Result<Option<Wrong>, CheckFault>
    requires exists { file < block_count header.now }
    requires multiple { (i : ℕ) × (file ≡ header.now.blocks_per_file * i) }
    ensures found { IfOk result (λ wrong. IfSome (B.files bay.old) (λ files.
        option_map (λ w. Verdict.Wrong file w.at w.why) wrong ≡
        wrong_there (placing_of header.now) file (file_at (file_name header.now time file) files))) }
    ensures whole { result ≡ Ok None → AskedFor (R.asked reader.old) (R.asked reader.new)
        (written_length (placing_of header.now) file) }
    ensures pieces { OnOk result (ReadsOn R.reads R.asked reader.old reader.new 0
        (written_length (placing_of header.now) file)) }
    ensures cause { IfErr result (IsCheckCause
        (counts B.faults B.failed R.faults bay.old bay.new reader.old reader.new)) }
    ensures quiet { OnOk result (B.faults bay.new ≡ B.faults bay.old) }
    ensures reader_quiet { OnOk result (R.faults reader.new ≡ R.faults reader.old) }
    ensures count { NeverFalls (B.faults bay.old) (B.faults bay.new) }
    ensures once { MeetsOnce (B.faults bay.old) (B.faults bay.new) }
    ensures reader_count { NeverFalls (R.faults reader.old) (R.faults reader.new) }
    ensures reader_once { MeetsOnce (R.faults reader.old) (R.faults reader.new) }
    ensures header { B.header bay.new ≡ B.header bay.old }
    ensures files { B.files bay.new ≡ B.files bay.old }
    ensures admits { StillAdmits B.admits bay.old bay.new }
    ensures begun { B.begun bay.new ≡ B.begun bay.old }
    ensures changes { B.changes bay.new ≡ B.changes bay.old }
    ensures failed { OnOk result (B.failed bay.new ≡ B.failed bay.old) }
{
    let path = header.file_name(alloc, time, file)?;
    match leaf_of(path.as_slice(), bay)? {
        Some(leaf) => wrong_in_file(header, file, &leaf, piece, reader),
        None => Ok(missing(header, file)),
    }
}

/// What is wrong with a file that is not there.
fn missing(header: &Header, file: u64) -> Option<Wrong>
    requires exists { file < block_count header.now }
    requires multiple { (i : ℕ) × (file ≡ header.now.blocks_per_file * i) }
    ensures found { option_map (λ w. Verdict.Wrong file w.at w.why) result ≡
        wrong_there (placing_of header.now) file None }
    ensures none { result ≡ None → written_length (placing_of header.now) file ≡ 0 }
{
    if is_written(header, file) {
        Some(Wrong {
            at: 0,
            why: WrongKind::Missing,
        })
    } else {
        None
    }
}

/// What is wrong with a file that is there.
fn wrong_in_file<L: Leaf, R: Reader<L>>(
    header: &Header,
    file: u64,
    leaf: &L,
    piece: &mut Piece,
    reader: &mut R,
) -> Result<Option<Wrong>, CheckFault>
    requires exists { file < block_count header.now }
    requires multiple { (i : ℕ) × (file ≡ header.now.blocks_per_file * i) }
    ensures found { IfOk result (λ wrong. IfSome (L.contents leaf.now) (λ bytes.
        option_map (λ w. Verdict.Wrong file w.at w.why) wrong ≡
        wrong_there (placing_of header.now) file (Some bytes))) }
    ensures whole { result ≡ Ok None → AskedFor (R.asked reader.old) (R.asked reader.new)
        (written_length (placing_of header.now) file) }
    ensures pieces { OnOk result (ReadsOn R.reads R.asked reader.old reader.new 0
        (written_length (placing_of header.now) file)) }
    ensures outage { IfErr result (λ fault. fault ≢ CheckFault.NoMemory →
        (fault ≡ CheckFault.StoreFault (R.faults reader.new)) × Rose (R.faults reader.old) (R.faults reader.new)) }
    ensures no_memory { result ≡ Err CheckFault.NoMemory → R.faults reader.new ≡ R.faults reader.old }
    ensures quiet { OnOk result (R.faults reader.new ≡ R.faults reader.old) }
    ensures count { NeverFalls (R.faults reader.old) (R.faults reader.new) }
    ensures once { MeetsOnce (R.faults reader.old) (R.faults reader.new) }
{
    if !is_written(header, file) {
        return Ok(Some(Wrong {
            at: 0,
            why: WrongKind::Extra,
        }));
    }
    match wrong_byte(header, file, leaf, piece, reader)? {
        Some(at) => Ok(Some(Wrong {
            at,
            why: WrongKind::Byte,
        })),
        None => Ok(None),
    }
}

/// The committed file of a path, if there is one.
fn leaf_of<B: Bay>(path: &[u8], bay: &mut B) -> Result<Option<B::Leaf>, CheckFault>
    ensures found { IfOk result (λ found. IfSome found
        (λ leaf. B.Leaf.contents leaf ≡ stored_at path.now (B.files bay.old))) }
    ensures none { IfOk result (λ found. IfSome (B.files bay.old)
        (λ files. (found ≡ None) ↔ (file_at path.now files ≡ None))) }
    ensures outage { IfErr result (λ fault. fault ≢ CheckFault.NoMemory →
        (fault ≡ CheckFault.StoreFault (B.faults bay.new)) × Rose (B.faults bay.old) (B.faults bay.new)) }
    ensures no_memory { result ≡ Err CheckFault.NoMemory → B.faults bay.new ≡ B.faults bay.old }
    ensures called { IfErr result (λ fault. fault ≢ CheckFault.NoMemory → B.failed bay.new ≡ Some BayCall.Leaf) }
    ensures uncalled { result ≡ Err CheckFault.NoMemory → B.failed bay.new ≡ B.failed bay.old }
    ensures quiet { OnOk result (B.faults bay.new ≡ B.faults bay.old) }
    ensures count { NeverFalls (B.faults bay.old) (B.faults bay.new) }
    ensures once { MeetsOnce (B.faults bay.old) (B.faults bay.new) }
    ensures header { B.header bay.new ≡ B.header bay.old }
    ensures files { B.files bay.new ≡ B.files bay.old }
    ensures admits { StillAdmits B.admits bay.old bay.new }
    ensures begun { B.begun bay.new ≡ B.begun bay.old }
    ensures changes { B.changes bay.new ≡ B.changes bay.old }
    ensures failed { OnOk result (B.failed bay.new ≡ B.failed bay.old) }
{
    match bay.leaf(path) {
        Ok(found) => Ok(found),
        Err(BayFault::Outage) => Err(CheckFault::StoreFault {
            faults: bay.faults(),
        }),
        Err(BayFault::NoMemory) => Err(CheckFault::NoMemory),
    }
}
