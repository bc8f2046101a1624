ghost use Rattle.std.specs.Prelude.{◌≡◌, ◌≢◌, ◌↔◌, ◌⊎◌, ◌+◌, ◌*◌, ◌%◌, ◌^◌, ◌<◌, ◌≤◌, min, None, Some, Err, IfErr, IfOk, IfSome, IsTrue, OnErr, OnOk, length, take};
ghost use Rattle.std.specs.Option.{ForSome, option_map};
ghost use Rattle.idx_outside.specs.Cause.{AskedFor, MadeReads, MeetsOnce, NeverFalls, Rose};
ghost use Rattle.idx_outside.specs.Files.{HasStep as HasCommitted, StillAdmits, entry_shown, file_at, stored_at};
ghost use Rattle.idx_outside.specs.declared.bay_call.BayCall.{BayCall};
ghost use Rattle.idx_table.specs.Table.{first_fault, rows_of, table_bytes};
ghost use Rattle.idx_header.specs.Header.{IsHeader};
ghost use Rattle.idx_header.specs.Names.{file_name, step_folder};
ghost use Rattle.idx_layout.specs.Files.{row_count};
ghost use Rattle.idx_layout.specs.OfHeader.{placing_of};
ghost use Rattle.idx_layout.specs.Shape.{block_lengths};
ghost use Rattle.idx_edition.specs.Asked.{AskedAtMost};
ghost use Rattle.idx_edition.specs.Stored.{fault_of_bytes, fault_of_file};
ghost use Rattle.idx_edition.specs.Tables.{EndWithin, IsTable};
ghost use Rattle.idx_edition.specs.Loaded.{IsCause, IsReadCause, counts, table_at};
ghost use Rattle.idx_edition.specs.Reads.{ReadsOne};

use crate::LoadFault;
use crate::lengths::row_count;
use crate::rows::Rows;
use idx_header::Header;
use idx_layout::table_len;
use idx_outside::{Bay, BayFault, Bytes, Leaf, Reader};
use idx_table::Table;
use std::alloc::Global;

/// Whether the folder of a step stands. Where the header has no time it does.
pub(crate) fn folder_stands<B: Bay>(
    alloc: Global,
    header: &Header,
    time: u64,
    bay: &mut B,
) -> Result<bool, LoadFault>
    ensures stands { IfOk result (λ stands. IfSome (B.files bay.old) (λ files. IsTrue stands ↔
        IfSome (step_folder header.now time) (λ folder. HasCommitted folder files))) }
    ensures untimed { IfOk result (λ stands. step_folder header.now time ≡ None → IsTrue stands) }
    ensures outage { IfErr result (λ fault. fault ≢ LoadFault.NoMemory →
        (fault ≡ LoadFault.StoreFault (B.faults bay.new)) × Rose (B.faults bay.old) (B.faults bay.new)) }
    ensures no_memory { result ≡ Err LoadFault.NoMemory → B.faults bay.new ≡ B.faults bay.old }
    ensures failed { IfErr result (λ fault. fault ≢ LoadFault.NoMemory → B.failed bay.new ≡ Some BayCall.HasStep) }
    ensures unfailed { result ≡ Err LoadFault.NoMemory → B.failed bay.new ≡ B.failed bay.old }
    ensures kept { OnOk result (B.failed bay.new ≡ B.failed bay.old) }
    ensures quiet { OnOk result (B.faults bay.new ≡ B.faults bay.old) }
    ensures count { NeverFalls (B.faults bay.old) (B.faults bay.new) }
    ensures once { MeetsOnce (B.faults bay.old) (B.faults bay.new) }
    ensures header { B.header bay.new ≡ B.header bay.old }
    ensures files { B.files bay.new ≡ B.files bay.old }
    ensures admits { StillAdmits B.admits bay.old bay.new }
    ensures begun { B.begun bay.new ≡ B.begun bay.old }
    ensures changes { B.changes bay.new ≡ B.changes bay.old }
{
    let Some(folder) = header.step_folder(alloc, time)? else {
        return Ok(true);
    };
    match bay.has_step(folder.as_slice()) {
        Ok(stands) => Ok(stands),
        Err(_) => Err(LoadFault::StoreFault {
            faults: bay.faults(),
        }),
    }
}

/// A file of a step with the rows of its table, if it is there.
pub(crate) fn open_file<B: Bay, R: Reader<B::Leaf>>(
    alloc: Global,
    header: &Header,
    time: u64,
    file: u64,
    lengths: &Vec<u64>,
    front: &mut Vec<u8>,
    bay: &mut B,
    reader: &mut R,
) -> Result<Option<(Rows, (Bytes, B::Leaf))>, LoadFault>
    requires { lengths.now.items ≡ block_lengths (placing_of header.now) }
    ensures found { IfOk result (λ found. IfSome (B.files bay.old) (λ files.
        option_map (λ found. (found.0, entry_shown B.Leaf.contents found.1)) found
        ≡ table_at header.now time files file)) }
    ensures sound { IfOk result (λ found. IfSome (B.files bay.old) (λ files.
        fault_of_file header.now time files file ≡ None)) }
    ensures table { IfOk result (λ found. IfSome found (λ found.
        IsTable lengths.now.items header.now.blocks_per_file found.0)) }
    ensures ends { IfOk result (λ found. IfSome found (λ found.
        ForSome (B.Leaf.contents found.1.1) (λ bytes. EndWithin found.0 (length bytes)))) }
    ensures cause { IfErr result (IsCause (λ bad. IfSome (B.files bay.old) (λ files.
        fault_of_file header.now time files file ≡ Some bad))
        (counts B.faults B.failed R.faults bay.old bay.new reader.old reader.new)) }
    ensures kept { OnOk result (B.failed bay.new ≡ B.failed bay.old) }
    ensures few_reads { OnErr result
        (ReadsOne header.now time (B.files bay.old) file (R.reads reader.old) (R.reads reader.new)) }
    ensures no_read { IfOk result (λ found. found ≡ None → reader.new ≡ reader.old) }
    ensures one_read { IfOk result (λ found. IfSome found (λ _.
        R.reads reader.new ≡ (R.reads reader.old + 1) % 2 ^ 64)) }
    ensures asked { IfOk result (λ found. IfSome found (λ _.
        AskedAtMost (R.asked reader.old) (R.asked reader.new) (table_bytes (row_count (placing_of header.now))))) }
    ensures quiet { OnOk result (B.faults bay.new ≡ B.faults bay.old) }
    ensures reader_quiet { OnOk result (R.faults reader.new ≡ R.faults reader.old) }
    ensures count { NeverFalls (B.faults bay.old) (B.faults bay.new) }
    ensures once { MeetsOnce (B.faults bay.old) (B.faults bay.new) }
    ensures reader_count { NeverFalls (R.faults reader.old) (R.faults reader.new) }
    ensures reader_once { MeetsOnce (R.faults reader.old) (R.faults reader.new) }
    ensures header { B.header bay.new ≡ B.header bay.old }
    ensures files { B.files bay.new ≡ B.files bay.old }
    ensures admits { StillAdmits B.admits bay.old bay.new }
    ensures begun { B.begun bay.new ≡ B.begun bay.old }
    ensures changes { B.changes bay.new ≡ B.changes bay.old }
{
    let path = header.file_name(alloc, time, file)?;
    let Some(leaf) = find_leaf(path.as_slice(), bay)? else {
        return Ok(None);
    };
    let rows = read_rows(alloc, header, file, lengths, &leaf, front, reader)?;
    Ok(Some((rows, (path, leaf))))
}

/// The committed file of a path, if there is one.
fn find_leaf<B: Bay>(path: &[u8], bay: &mut B) -> Result<Option<B::Leaf>, LoadFault>
    ensures found { IfOk result (λ found. IfSome found
        (λ leaf. B.Leaf.contents leaf ≡ stored_at path.now (B.files bay.old))) }
    ensures none { IfOk result (λ found. IfSome (B.files bay.old)
        (λ files. (found ≡ None) ↔ (file_at path.now files ≡ None))) }
    ensures outage { IfErr result (λ fault. fault ≢ LoadFault.NoMemory →
        (fault ≡ LoadFault.StoreFault (B.faults bay.new)) × Rose (B.faults bay.old) (B.faults bay.new)) }
    ensures no_memory { result ≡ Err LoadFault.NoMemory → B.faults bay.new ≡ B.faults bay.old }
    ensures failed { IfErr result (λ fault. fault ≢ LoadFault.NoMemory → B.failed bay.new ≡ Some BayCall.Leaf) }
    ensures unfailed { result ≡ Err LoadFault.NoMemory → B.failed bay.new ≡ B.failed bay.old }
    ensures kept { OnOk result (B.failed bay.new ≡ B.failed bay.old) }
    ensures quiet { OnOk result (B.faults bay.new ≡ B.faults bay.old) }
    ensures count { NeverFalls (B.faults bay.old) (B.faults bay.new) }
    ensures once { MeetsOnce (B.faults bay.old) (B.faults bay.new) }
    ensures header { B.header bay.new ≡ B.header bay.old }
    ensures files { B.files bay.new ≡ B.files bay.old }
    ensures admits { StillAdmits B.admits bay.old bay.new }
    ensures begun { B.begun bay.new ≡ B.begun bay.old }
    ensures changes { B.changes bay.new ≡ B.changes bay.old }
{
    match bay.leaf(path) {
        Ok(found) => Ok(found),
        Err(BayFault::Outage) => Err(LoadFault::StoreFault {
            faults: bay.faults(),
        }),
        Err(BayFault::NoMemory) => Err(LoadFault::NoMemory),
    }
}

/// The rows of the table of a file, by one read into `front`.
fn read_rows<L: Leaf, R: Reader<L>>(
    alloc: Global,
    header: &Header,
    file: u64,
    lengths: &Vec<u64>,
    leaf: &L,
    front: &mut Vec<u8>,
    reader: &mut R,
) -> Result<Rows, LoadFault>
    requires { lengths.now.items ≡ block_lengths (placing_of header.now) }
    ensures rows { IfOk result (λ rows. IfSome (L.contents leaf.now) (λ bytes.
        rows ≡ rows_of bytes (row_count (placing_of header.now)))) }
    ensures sound { IfOk result (λ rows. IfSome (L.contents leaf.now) (λ bytes.
        fault_of_bytes (placing_of header.now) file (Some bytes) ≡ None)) }
    ensures table { IfOk result (IsTable lengths.now.items header.now.blocks_per_file) }
    ensures ends { IfOk result (λ rows. ForSome (L.contents leaf.now) (λ bytes. EndWithin rows (length bytes))) }
    ensures cause { IfErr result (IsReadCause (λ bad. IfSome (L.contents leaf.now) (λ bytes.
        fault_of_bytes (placing_of header.now) file (Some bytes) ≡ Some bad))
        (R.faults reader.old) (R.faults reader.new)) }
    ensures few_reads { OnErr result ((R.reads reader.new ≡ R.reads reader.old)
        ⊎ (R.reads reader.new ≡ (R.reads reader.old + 1) % 2 ^ 64)) }
    ensures one_read { OnOk result (R.reads reader.new ≡ (R.reads reader.old + 1) % 2 ^ 64) }
    ensures asked { OnOk result (AskedAtMost (R.asked reader.old) (R.asked reader.new)
        (table_bytes (row_count (placing_of header.now)))) }
    ensures quiet { OnOk result (R.faults reader.new ≡ R.faults reader.old) }
    ensures count { NeverFalls (R.faults reader.old) (R.faults reader.new) }
    ensures once { MeetsOnce (R.faults reader.old) (R.faults reader.new) }
{
    let len = leaf.len();
    read_front(table_len(header).min(len), leaf, front, reader)?;
    match Table::read(alloc, front, row_count(header), lengths, len) {
        Ok(table) => Ok(Rows::of_table(alloc, &table)?),
        Err(fault) => Err(LoadFault::of_table(file, fault)),
    }
}

/// Reads the first bytes of a file, so many, into `front`.
fn read_front<L: Leaf, R: Reader<L>>(
    count: u64,
    leaf: &L,
    front: &mut Vec<u8>,
    reader: &mut R,
) -> Result<(), LoadFault>
    requires { ForSome (L.contents leaf.now) (λ bytes. count ≤ length bytes) }
    ensures bytes { OnOk result (IfSome (L.contents leaf.now) (λ bytes. front.new.items ≡ take count bytes)) }
    ensures length { OnOk result (length front.new.items ≡ count) }
    ensures outage { IfErr result (λ fault. fault ≢ LoadFault.NoMemory →
        (fault ≡ LoadFault.StoreFault (R.faults reader.new)) × Rose (R.faults reader.old) (R.faults reader.new)) }
    ensures no_memory { result ≡ Err LoadFault.NoMemory → R.faults reader.new ≡ R.faults reader.old }
    ensures few_reads { OnErr result ((R.reads reader.new ≡ R.reads reader.old)
        ⊎ (R.reads reader.new ≡ (R.reads reader.old + 1) % 2 ^ 64)) }
    ensures one_read { OnOk result (R.reads reader.new ≡ (R.reads reader.old + 1) % 2 ^ 64) }
    ensures asked { OnOk result (AskedFor (R.asked reader.old) (R.asked reader.new) count) }
    ensures quiet { OnOk result (R.faults reader.new ≡ R.faults reader.old) }
    ensures count { NeverFalls (R.faults reader.old) (R.faults reader.new) }
    ensures once { MeetsOnce (R.faults reader.old) (R.faults reader.new) }
{
    front.resize(count as usize, 0)?;
    match reader.read_at(leaf, 0, front) {
        Ok(()) => Ok(()),
        Err(_) => Err(LoadFault::StoreFault {
            faults: reader.faults(),
        }),
    }
}
