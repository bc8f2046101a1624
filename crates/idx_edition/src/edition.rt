ghost use Rattle.std.specs.Prelude.{◌≡◌, ◌≢◌, ◌↔◌, ℕ, ◌+◌, ◌*◌, ◌<◌, ◌≤◌, List, [], ◌∷◌, ◌++◌, None, Ok, Some, IfErr, IfOk, IfSome, OnErr, OnOk, length};
ghost use Rattle.std.specs.Option.{ForSome};
ghost use Rattle.idx_outside.specs.Cause.{MadeReads, MeetsOnce, NeverFalls};
ghost use Rattle.idx_geom.specs.Region.{points};
ghost use Rattle.idx_geom.specs.Volume.{IsVolume};
ghost use Rattle.idx_outside.specs.Files.{StillAdmits, known_files, shown};
ghost use Rattle.idx_outside.specs.declared.mem_file.MemFile.{MemFile};
ghost use Rattle.idx_header.specs.Header.{HasTime, IsHeader};
ghost use Rattle.idx_header.specs.Names.{step_folder};
ghost use Rattle.idx_table.specs.Table.{table_bytes};
ghost use Rattle.idx_rowmajor.specs.declared.layout.Layout.{Layout};
ghost use Rattle.idx_layout.specs.Placing.{is_present};
ghost use Rattle.idx_layout.specs.Files.{row_count};
ghost use Rattle.idx_layout.specs.OfHeader.{placing_of};
ghost use Rattle.idx_layout.specs.Shape.{shape_of};
ghost use Rattle.idx_layout.specs.Step.{step_files};
ghost use Rattle.idx_edition.specs.Asked.{AskedAtMost};
ghost use Rattle.idx_edition.specs.Stored.{HasFiles, Stands};
ghost use Rattle.idx_edition.specs.Tables.{AreTablesOf, has_in_tables, shape_in, stored_in};
ghost use Rattle.idx_edition.specs.Loaded.{AreWritten, HoldsStored, IsLoadCause, IsOpenCause, IsWrittenBlock, OfBlocks, counts};
ghost use Rattle.idx_edition.specs.Reads.{ReadsFiles, most_reads};

use crate::LoadFault;
use crate::lengths::block_lengths;
use crate::load::{folder_stands, open_file};
use crate::rows::Rows;
use crate::tables::Tables;
use idx_header::Header;
use idx_layout::files;
use idx_outside::{Bay, Blocks, Bytes, Fetched, Leaf, NoMemory, Outage, Reader};
use idx_rowmajor::Layout;
use std::alloc::Global;

/// The files of one step with their tables, and a copy of the dataset's header: the step as blocks.
#[derive(Drop)]
pub struct Edition<L: Leaf> {
    pub(crate) time: u64,
    pub(crate) tables: Tables,
    pub(crate) leaves: Vec<(Bytes, L)>,
    ghost fits: { AreTablesOf tables.tables (shown L.contents leaves.items) },
}

impl<L: Leaf> Edition<L> {
    /// The edition of the files of a step as the writer lays them out in hierarchical order, with their paths, in the
    /// order of their numbers. Makes no read.
    pub fn of_leaves(
        alloc: Global,
        header: &Header,
        time: u64,
        leaves: Vec<(Bytes, L)>,
    ) -> Result<Edition<L>, NoMemory>
        requires written { ∥ ((volume : _) ×
            AreWritten Layout.Hz header.now time volume (shown L.contents leaves.items)) ∥₁ }
        ensures time { IfOk result (λ edition. edition.time ≡ time) }
        ensures own_header { IfOk result (λ edition. edition.tables.header ≡ header.now) }
        ensures shape { IfOk result (λ edition. shape_in edition.tables ≡ shape_of header.now) }
        ensures has { IfOk result (λ edition. OfBlocks (shape_of header.now)
            (λ field block. has_in_tables edition.tables field block ≡ is_present (placing_of header.now) block)) }
        ensures stored { IfOk result (λ edition. (volume : _) →
            AreWritten Layout.Hz header.now time volume (shown L.contents leaves.items) →
            ForSome (stored_in edition.tables (shown L.contents edition.leaves.items)) (λ stored.
            OfBlocks (shape_of header.now) (λ field block.
            IsWrittenBlock header.now volume field block (stored field block)))) }
        ensures holds { IfOk result (λ edition. (volume : _) (files : List MemFile) →
            IsVolume (placing_of header.now).sizes (length (points header.now.box)) volume →
            HasFiles Layout.Hz header.now time volume files →
            shown L.contents leaves.items ≡ known_files (Some files) (step_files Layout.Hz header.now volume time) →
            HoldsStored header.now time files (shape_in edition.tables) (has_in_tables edition.tables)
            (stored_in edition.tables (shown L.contents edition.leaves.items))
            (shown L.contents edition.leaves.items)) }
        ensures leaves { IfOk result (λ edition. edition.leaves.items ≡ leaves.items) }
        ensures valid { IfOk result (λ _. IsHeader header.now) }
    {
        Edition::of_leaves_as(alloc, header, time, leaves, Layout::Hz)
    }

    /// The edition of the files of a step as the writer lays them out in a layout, with their paths, in the order of their
    /// numbers. Makes no read.
    pub fn of_leaves_as(
        alloc: Global,
        header: &Header,
        time: u64,
        leaves: Vec<(Bytes, L)>,
        layout: Layout,
    ) -> Result<Edition<L>, NoMemory>
        requires written { ∥ ((volume : _) ×
            AreWritten layout header.now time volume (shown L.contents leaves.items)) ∥₁ }
        ensures time { IfOk result (λ edition. edition.time ≡ time) }
        ensures own_header { IfOk result (λ edition. edition.tables.header ≡ header.now) }
        ensures shape { IfOk result (λ edition. shape_in edition.tables ≡ shape_of header.now) }
        ensures has { IfOk result (λ edition. OfBlocks (shape_of header.now)
            (λ field block. has_in_tables edition.tables field block ≡ is_present (placing_of header.now) block)) }
        ensures stored { IfOk result (λ edition. (volume : _) →
            AreWritten layout header.now time volume (shown L.contents leaves.items) →
            ForSome (stored_in edition.tables (shown L.contents edition.leaves.items)) (λ stored.
            OfBlocks (shape_of header.now) (λ field block.
            IsWrittenBlock header.now volume field block (stored field block)))) }
        ensures holds { IfOk result (λ edition. (volume : _) (files : List MemFile) →
            IsVolume (placing_of header.now).sizes (length (points header.now.box)) volume →
            HasFiles layout header.now time volume files →
            shown L.contents leaves.items ≡ known_files (Some files) (step_files layout header.now volume time) →
            HoldsStored header.now time files (shape_in edition.tables) (has_in_tables edition.tables)
            (stored_in edition.tables (shown L.contents edition.leaves.items))
            (shown L.contents edition.leaves.items)) }
        ensures leaves { IfOk result (λ edition. edition.leaves.items ≡ leaves.items) }
        ensures valid { IfOk result (λ _. IsHeader header.now) }
    {
        let tables = Tables::of_header(alloc, header, layout)?;
        Ok(Edition {
            time,
            tables,
            leaves,
        })
    }

    /// Opens a step: asks the bay for each file that the writer would write, and reads the table of each that is there,
    /// by one read. `None` exactly where the header lacks the step, or has a time and no step of its folder stands. A
    /// file that is not there, and a row of size 0, mean absent blocks.
    pub fn load<B: Bay<Leaf = L>, R: Reader<L>>(
        alloc: Global,
        header: &Header,
        time: u64,
        bay: &mut B,
        reader: &mut R,
    ) -> Result<Option<Edition<L>>, LoadFault>
        ensures time { IfOk result (λ loaded. IfSome loaded (λ edition. edition.time ≡ time)) }
        ensures own_header { IfOk result (λ loaded. IfSome loaded (λ edition.
            edition.tables.header ≡ header.now)) }
        ensures shape { IfOk result (λ loaded. IfSome loaded (λ edition.
            shape_in edition.tables ≡ shape_of header.now)) }
        ensures holds { IfOk result (λ loaded. IfSome loaded (λ edition. IfSome (B.files bay.old) (λ files.
            HoldsStored header.now time files (shape_in edition.tables) (has_in_tables edition.tables)
            (stored_in edition.tables (shown L.contents edition.leaves.items))
            (shown L.contents edition.leaves.items)))) }
        ensures none { IfOk result (λ loaded. IfSome (B.files bay.old)
            (λ files. (loaded ≡ None) ↔ (¬ Stands header.now time files))) }
        ensures stands { IfOk result (λ loaded.
            loaded ≢ None → IfSome (B.files bay.old) (Stands header.now time)) }
        ensures lacks { ¬ HasTime header.now time →
            (result ≡ Ok None) × (bay.new ≡ bay.old) × (reader.new ≡ reader.old) }
        ensures untimed { IfOk result (λ loaded.
            HasTime header.now time → step_folder header.now time ≡ None → loaded ≢ None) }
        ensures cause { IfErr result (IsLoadCause header.now time (B.files bay.old)
            (counts B.faults B.failed R.faults bay.old bay.new reader.old reader.new)) }
        ensures few_reads { OnErr result
            (ReadsFiles header.now time (B.files bay.old) (R.reads reader.old) (R.reads reader.new)) }
        ensures reads { IfOk result (λ loaded. IfSome loaded (λ edition.
            MadeReads (R.reads reader.old) (R.reads reader.new) (length edition.leaves.items))) }
        ensures few { IfOk result (λ loaded. IfSome loaded (λ edition.
            length edition.leaves.items ≤ most_reads header.now time (B.files bay.old))) }
        ensures asked { IfOk result (λ loaded. IfSome loaded (λ edition.
            AskedAtMost (R.asked reader.old) (R.asked reader.new)
            (length edition.leaves.items * table_bytes (row_count (placing_of header.now))))) }
        ensures no_read { result ≡ Ok None → reader.new ≡ reader.old }
        ensures quiet { OnOk result (B.faults bay.new ≡ B.faults bay.old) }
        ensures reader_quiet { OnOk result (R.faults reader.new ≡ R.faults reader.old) }
        ensures count { NeverFalls (B.faults bay.old) (B.faults bay.new) }
        ensures once { MeetsOnce (B.faults bay.old) (B.faults bay.new) }
        ensures reader_count { NeverFalls (R.faults reader.old) (R.faults reader.new) }
        ensures reader_once { MeetsOnce (R.faults reader.old) (R.faults reader.new) }
        ensures header { B.header bay.new ≡ B.header bay.old }
        ensures files { B.files bay.new ≡ B.files bay.old }
        ensures admits { StillAdmits B.admits bay.old bay.new }
        ensures begun { B.begun bay.new ≡ B.begun bay.old }
        ensures changes { B.changes bay.new ≡ B.changes bay.old }
        ensures failed { OnOk result (B.failed bay.new ≡ B.failed bay.old) }
    {
        if !header.has_time(time) {
            return Ok(None);
        }
        if !folder_stands(alloc, header, time, bay)? {
            return Ok(None);
        }
        Ok(Some(Edition::open_files(alloc, header, time, bay, reader)?))
    }

    /// Opens the files of a step that are there.
    fn open_files<B: Bay<Leaf = L>, R: Reader<L>>(
        alloc: Global,
        header: &Header,
        time: u64,
        bay: &mut B,
        reader: &mut R,
    ) -> Result<Edition<L>, LoadFault>
        ensures time { IfOk result (λ edition. edition.time ≡ time) }
        ensures own_header { IfOk result (λ edition. edition.tables.header ≡ header.now) }
        ensures shape { IfOk result (λ edition. shape_in edition.tables ≡ shape_of header.now) }
        ensures holds { IfOk result (λ edition. IfSome (B.files bay.old) (λ files.
            HoldsStored header.now time files (shape_in edition.tables) (has_in_tables edition.tables)
            (stored_in edition.tables (shown L.contents edition.leaves.items))
            (shown L.contents edition.leaves.items))) }
        ensures cause { IfErr result (IsOpenCause header.now time (B.files bay.old)
            (counts B.faults B.failed R.faults bay.old bay.new reader.old reader.new)) }
        ensures few_reads { OnErr result
            (ReadsFiles header.now time (B.files bay.old) (R.reads reader.old) (R.reads reader.new)) }
        ensures reads { IfOk result (λ edition.
            MadeReads (R.reads reader.old) (R.reads reader.new) (length edition.leaves.items)) }
        ensures few { IfOk result (λ edition.
            length edition.leaves.items ≤ most_reads header.now time (B.files bay.old)) }
        ensures asked { IfOk result (λ edition. AskedAtMost (R.asked reader.old) (R.asked reader.new)
            (length edition.leaves.items * table_bytes (row_count (placing_of header.now)))) }
        ensures quiet { OnOk result (B.faults bay.new ≡ B.faults bay.old) }
        ensures reader_quiet { OnOk result (R.faults reader.new ≡ R.faults reader.old) }
        ensures count { NeverFalls (B.faults bay.old) (B.faults bay.new) }
        ensures once { MeetsOnce (B.faults bay.old) (B.faults bay.new) }
        ensures reader_count { NeverFalls (R.faults reader.old) (R.faults reader.new) }
        ensures reader_once { MeetsOnce (R.faults reader.old) (R.faults reader.new) }
        ensures header { B.header bay.new ≡ B.header bay.old }
        ensures files { B.files bay.new ≡ B.files bay.old }
        ensures admits { StillAdmits B.admits bay.old bay.new }
        ensures begun { B.begun bay.new ≡ B.begun bay.old }
        ensures changes { B.changes bay.new ≡ B.changes bay.old }
        ensures failed { OnOk result (B.failed bay.new ≡ B.failed bay.old) }
    {
        let lengths = block_lengths(alloc, header)?;
        let mut front = Vec::new(alloc);
        let (mut numbers, mut tables) = (Vec::new(alloc), Vec::new(alloc));
        let mut leaves = Vec::new(alloc);
        for file in files(header) {
            let found = open_file(alloc, header, time, file, &lengths, &mut front, bay, reader)?;
            let Some((rows, leaf)) = found else {
                continue;
            };
            push_found(&mut numbers, &mut tables, &mut leaves, file, rows, leaf)?;
        }
        let copy = header.copy(alloc)?;
        Ok(Edition {
            time,
            tables: Tables::of_files(copy, numbers, tables),
            leaves,
        })
    }

    /// The step's files, with their paths, in the order of their numbers. Takes no memory.
    pub fn leaves(&self) -> &Vec<(Bytes, L)>
        ensures { result.now.items ≡ self.now.leaves.items }
    {
        &self.leaves
    }
}

/// Appends what was found of a file: its number, the rows of its table, and the file with its path.
fn push_found<L: Leaf>(
    numbers: &mut Vec<u64>,
    tables: &mut Vec<Rows>,
    leaves: &mut Vec<(Bytes, L)>,
    file: u64,
    rows: Rows,
    leaf: (Bytes, L),
) -> Result<(), NoMemory>
    ensures numbers { OnOk result (numbers.new.items ≡ numbers.old.items ++ file ∷ []) }
    ensures tables { OnOk result (tables.new.items ≡ tables.old.items ++ rows ∷ []) }
    ensures leaves { OnOk result (leaves.new.items ≡ leaves.old.items ++ leaf ∷ []) }
{
    numbers.push(file)?;
    tables.push(rows)?;
    leaves.push(leaf)?;
    Ok(())
}

impl<L: Leaf> Blocks for Edition<L> {
    type Leaf = L;

    ghost time = { λ s. s.time };

    ghost shape = { λ s. shape_in s.tables };

    ghost has = { λ s. has_in_tables s.tables };

    ghost stored = { λ s. stored_in s.tables (shown L.contents s.leaves.items) };

    fn time(&self) -> u64 {
        self.time
    }

    /// Finds the block's file by a binary search among the numbers of the files that are there. Samples that stand in
    /// row-major order are put into hierarchical order in place.
    fn fetch<R: Reader<L>>(
        &self,
        reader: &mut R,
        field: u32,
        block: u64,
        into: &mut [u8],
    ) -> Result<Fetched, Outage> {
        let Some(place) = self.tables.find(field, block) else {
            into.fill(0);
            return Ok(Fetched::Absent);
        };
        let (_, leaf) = &self.leaves[place.file];
        reader.read_at(leaf, place.offset, into)?;
        self.tables.put_in_hz_order(field, block, place.flags, into);
        Ok(Fetched::Read)
    }
}
