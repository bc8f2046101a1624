ghost use Rattle.std.specs.Prelude.{◌≡◌, ℕ, ◌^◌, ◌<◌, ◌≤◌, [], All, Contains, IfErr, IfOk, MatchResult, None, OnErr, OnOk, Some, length};
ghost use Rattle.std.specs.Prelude.{max, min};
ghost use Rattle.idx_header.specs.Header.{block_bytes};
ghost use Rattle.idx_rowmajor.specs.declared.layout.Layout.{Layout};
ghost use Rattle.idx_layout.specs.Files.{length_of_file};
ghost use Rattle.idx_layout.specs.Placing.{file_numbers};
ghost use Rattle.idx_layout.specs.OfHeader.{placing_of};
ghost use Rattle.idx_pieces.specs.Runs.{IsRun};
ghost use Rattle.std.specs.Option.{ForSome, is_some, option_map};
ghost use Rattle.idx_outside.specs.Cause.{Rose, counted};
ghost use Rattle.idx_outside.specs.Files.{retold};
ghost use Rattle.idx_dock.specs.Content.{dock_bytes, dock_bytes_as};
ghost use Rattle.idx_dock.specs.Dock.{FitsDock, IsDivision, awaited_at, IsDock, is_open_at, missing, new_dock, unwanted, with_shipment};

use crate::awaited::copies;
use crate::awaiting::{
    await_pieces, awaits_behind, awaits_up_to, deliver_to, find_piece, first_missing,
};
use crate::content::write_file;
use crate::{Awaited, Unwanted};
use idx_header::Header;
use idx_layout::file_len;
use idx_outside::{Draft, NoMemory, Outage};
use idx_pieces::{Piece, Shipment};
use idx_rowmajor::Layout;
use std::alloc::Global;
use std::marker::Model;

/// A buffer has no more bytes than this. They fit a processor's cache.
const LONGEST_BUFFER: u64 = 1 << 18;

/// A buffer has no fewer bytes than this: a row of the table, zeros of a gap and most runs fit it.
const SHORTEST_BUFFER: u64 = 1 << 10;

/// The aggregator of one file: the pieces with a point in it, by rising id, each with its samples once they were
/// delivered. No sample is copied before the file is written. Memory is taken by `new` and by `reserve` alone.
#[derive(Debug, Drop)]
pub struct Dock {
    header: Header,
    file: u64,
    awaited: Vec<Awaited>,
    passed: Vec<usize>,
    buffer: Vec<u8>,
    rows: Vec<u8>,
}

impl Model for Dock {
    ghost use Rattle.std.specs.Prelude.{vec_len};
    ghost use Rattle.idx_dock.specs.Dock.{DockValue, IsDock, dock_of};
    ghost use Rattle.idx_dock.specs.Room.{HasRoom};

    ghost Value = { DockValue };

    ghost view = { λ d. dock_of d.header d.file d.awaited.items };

    ghost invariant = { λ d. IsDock (dock_of d.header d.file d.awaited.items)
        × HasRoom (vec_len d.awaited) (vec_len d.passed) d.buffer.items };
}

impl Dock {
    /// The dock of a file of a dataset, which awaits those pieces of a division that have a point in the file. Nothing was
    /// delivered to it.
    pub fn new(
        alloc: Global,
        header: &Header,
        pieces: &Vec<Piece>,
        file: u64,
    ) -> Result<Dock, NoMemory>
        requires file { Contains (file_numbers (placing_of header.now)) file }
        requires division { IsDivision header.now pieces.now.items }
        ensures { IfOk result (λ dock. dock ≡ new_dock header.now pieces.now.items file) }
    {
        let end = file + header.blocks_per_file();
        let awaited = await_pieces(alloc, header, pieces, file, end)?;
        let passed = vec![in alloc; 0usize; awaited.len()]?;
        Ok(Dock {
            header: header.copy(alloc)?,
            file,
            awaited,
            passed,
            buffer: Vec::new(alloc),
            rows: Vec::new(alloc),
        })
    }

    /// Takes the memory for writing the file with its blocks in a layout: the buffer through which what is short is
    /// gathered, without which each run is written by itself, and for `Layout::Rows` also the room in which `write_rows`
    /// puts a block together, without which it finds and writes each sample by itself, which is slow. Answers `NoMemory`
    /// where there is no room for them; the dock can be written all the same.
    pub fn reserve(&mut self, alloc: Global, layout: Layout) -> Result<(), NoMemory>
        ensures { self.new ≡ self.old }
    {
        self.buffer = Vec::with_capacity(alloc, buffer_len(&self.header, self.file))?;
        if layout == Layout::Rows {
            self.rows = Vec::with_capacity(alloc, longest_block(&self.header))?;
        }
        Ok(())
    }

    /// An equal dock, without a buffer: the same pieces, each with a copy of what was delivered of it. Answers `NoMemory`
    /// where there is no room for it.
    pub fn copy(&self, alloc: Global) -> Result<Dock, NoMemory>
        ensures { IfOk result (λ dock. dock ≡ self.now) }
    {
        let awaited = copies(alloc, &self.awaited)?;
        let passed = vec![in alloc; 0usize; awaited.len()]?;
        Ok(Dock {
            header: self.header.copy(alloc)?,
            file: self.file,
            awaited,
            passed,
            buffer: Vec::new(alloc),
            rows: Vec::new(alloc),
        })
    }

    /// The number of the file, which is that of its first block.
    pub fn file(&self) -> u64
        ensures value { result ≡ self.now.file }
        ensures valid { IsDock self.now }
    {
        self.file
    }

    /// Keeps the samples of a piece, in whatever order pieces come. `Stranger` exactly where the shipment is for another
    /// file or of a piece that is not awaited, `Double` exactly where the piece was delivered before. After a refusal the
    /// dock is as it was, and the shipment comes back. Takes no memory: the runs are moved.
    pub fn deliver(&mut self, shipment: Shipment) -> Result<(), (Shipment, Unwanted)>
        requires runs { All (IsRun self.old.header shipment.file) shipment.runs }
        requires piece { FitsDock self.old shipment }
        ensures cases { MatchResult result (λ _. unwanted self.old shipment ≡ None)
            (λ back. unwanted self.old shipment ≡ Some back.1) }
        ensures kept { OnOk result (self.new ≡ with_shipment shipment self.old) }
        ensures back { IfErr result (λ back. back.0 ≡ shipment) }
        ensures same { OnErr result (self.new ≡ self.old) }
    {
        if shipment.file != self.file {
            return Err((shipment, Unwanted::Stranger));
        }
        deliver_to(&mut self.awaited, shipment)
    }

    /// The least awaited piece of which nothing was delivered. Takes no memory.
    pub fn missing(&self) -> Option<u64>
        ensures { result ≡ missing self.now }
    {
        first_missing(&self.awaited)
    }

    /// Whether the samples of a piece came. `None` exactly where the piece is not awaited. Takes no memory.
    pub fn has_piece(&self, piece: u64) -> Option<bool>
        ensures { result ≡ option_map (λ a. is_some a.runs) (awaited_at self.now piece) }
    {
        let awaited = find_piece(&self.awaited, piece)?;
        Some(awaited.runs.is_some())
    }

    /// Whether a piece with an id up to this one is awaited, and one behind it. Takes no memory.
    pub fn is_open_at(&self, id: u64) -> bool
        ensures { result ≡ is_open_at id self.now }
    {
        awaits_up_to(&self.awaited, id) && awaits_behind(&self.awaited, id)
    }

    /// Appends the file to a draft, and seals it: the table, and for each field the present blocks, with the delivered
    /// samples at their addresses and zeros elsewhere. After `Outage`, of the one call on the draft that failed, the draft
    /// comes back: nothing is tried again. Takes no memory.
    pub fn write<D: Draft>(self, draft: D) -> Result<D::Leaf, (D, Outage)>
        requires complete { missing self ≡ None }
        requires empty { ForSome (D.contents draft) (λ bytes. bytes ≡ []) }
        ensures contents { IfOk result (λ leaf. D.Leaf.contents leaf ≡ retold (D.contents draft) (dock_bytes self)) }
        ensures unfailed { IfOk result (λ leaf. D.Leaf.faults leaf ≡ D.faults draft) }
        ensures path { IfOk result (λ leaf. D.Leaf.path leaf ≡ D.path draft) }
        ensures outage { IfErr result (λ back. Rose (D.faults draft) (D.faults back.0)) }
        ensures once { IfErr result (λ back. D.faults back.0 ≡ counted (D.faults draft)) }
        ensures same_path { IfErr result (λ back. D.path back.0 ≡ D.path draft) }
    {
        self.write_as(Layout::Hz, draft)
    }

    /// Appends the file to a draft as `write` does, but with the samples of each block in the row-major order of their
    /// points, axis 0 fastest, and the rows of the table say so (the row-major layout of the blocks of IDX files). Takes
    /// no memory.
    pub fn write_rows<D: Draft>(self, draft: D) -> Result<D::Leaf, (D, Outage)>
        requires complete { missing self ≡ None }
        requires empty { ForSome (D.contents draft) (λ bytes. bytes ≡ []) }
        ensures contents { IfOk result (λ leaf. D.Leaf.contents leaf ≡
            retold (D.contents draft) (dock_bytes_as Layout.Rows self)) }
        ensures unfailed { IfOk result (λ leaf. D.Leaf.faults leaf ≡ D.faults draft) }
        ensures path { IfOk result (λ leaf. D.Leaf.path leaf ≡ D.path draft) }
        ensures outage { IfErr result (λ back. Rose (D.faults draft) (D.faults back.0)) }
        ensures once { IfErr result (λ back. D.faults back.0 ≡ counted (D.faults draft)) }
        ensures same_path { IfErr result (λ back. D.path back.0 ≡ D.path draft) }
    {
        self.write_as(Layout::Rows, draft)
    }

    /// What both do: the blocks stand in a layout.
    fn write_as<D: Draft>(self, layout: Layout, draft: D) -> Result<D::Leaf, (D, Outage)>
        requires complete { missing self ≡ None }
        requires empty { ForSome (D.contents draft) (λ bytes. bytes ≡ []) }
        ensures contents { IfOk result (λ leaf. D.Leaf.contents leaf ≡
            retold (D.contents draft) (dock_bytes_as layout self)) }
        ensures unfailed { IfOk result (λ leaf. D.Leaf.faults leaf ≡ D.faults draft) }
        ensures path { IfOk result (λ leaf. D.Leaf.path leaf ≡ D.path draft) }
        ensures outage { IfErr result (λ back. Rose (D.faults draft) (D.faults back.0)) }
        ensures once { IfErr result (λ back. D.faults back.0 ≡ counted (D.faults draft)) }
        ensures same_path { IfErr result (λ back. D.path back.0 ≡ D.path draft) }
    {
        let Dock {
            header,
            file,
            awaited,
            mut passed,
            mut buffer,
            mut rows,
        } = self;
        let mut draft = draft;
        match write_file(
            &header,
            layout,
            file,
            &awaited,
            &mut passed,
            &mut rows,
            &mut buffer,
            &mut draft,
        ) {
            Ok(()) => draft.seal(),
            Err(outage) => Err((draft, outage)),
        }
    }
}

/// How many bytes the buffer of a file's dock has: as many as the file, within limits.
fn buffer_len(header: &Header, file: u64) -> usize
    ensures { result ≡ max 1024 (min 262144 (length_of_file (placing_of header.now) file)) }
{
    file_len(header, file)
        .min(LONGEST_BUFFER)
        .max(SHORTEST_BUFFER) as usize
}

/// How many bytes the longest block of a field has.
fn longest_block(header: &Header) -> usize
    ensures holds { (field : ℕ) → field < length header.now.fields → block_bytes header.now field ≤ result }
    ensures few { result ≤ 2 ^ 24 }
{
    let mut longest = 0;
    for field in 0..header.field_count() {
        longest = header.block_bytes(field).max(longest);
    }
    longest as usize
}
