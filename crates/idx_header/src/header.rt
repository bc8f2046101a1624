ghost use Rattle.std.specs.Prelude.{◌≡◌, ◌≢◌, ◌↔◌, ◌*◌, ◌^◌, ◌<◌, ◌≤◌, ◌++◌, ℕ, length, Some, None, Ok, Err, IsTrue, IfOk, IfErr, IfNone, OnOk, OnErr, sum, map};
ghost use Rattle.idx_fields.specs.Field.{field_at, sample_bytes};
ghost use Rattle.idx_fields.specs.FieldType.{canonical_type};
ghost use Rattle.idx_geom.specs.Region.{points, upper_ends};
ghost use Rattle.idx_hz.specs.Mask.{HasAddress};
ghost use Rattle.idx_outside.specs.Calls.{last_failed};
ghost use Rattle.idx_outside.specs.declared.bay_call.BayCall.{BayCall};
ghost use Rattle.idx_header.specs.Header.{IsHeader, Agree, HasTime, at_revision, ends_of, block_count, block_bytes, file_of, sample_bytes_of, volume_bytes};
ghost use Rattle.idx_header.specs.HeaderOf.{header_of};
ghost use Rattle.idx_header.specs.Names.{file_name, step_folder};
ghost use Rattle.idx_header.specs.OfBay.{Gives, GivesStanding, IsFaultOf, IsFaultOfSome, IsRefusal, OnlyAsks, asked_quietly};
ghost use Rattle.idx_header.specs.Written.{text_of};

use crate::blocks::block_bytes;
use crate::copy::copy_at;
use crate::of_bay::{bay_text, read_text};
use crate::read::read_header;
use crate::write::header_text;
use crate::{HeaderFault, HeaderKind, HeaderRefusal, Steps, Unknown};
use idx_fields::Fields;
use idx_geom::Region;
use idx_hz::Mask;
use idx_names::Template;
use idx_outside::{Bay, Bytes, NoMemory};
use std::alloc::Global;
use std::marker::Model;

/// The header of a dataset (OpenVisus IDX, version 6), at a revision of its steps: one that was read is at revision 0.
#[derive(Debug, Drop)]
pub struct Header {
    pub(crate) region: Region,
    pub(crate) mask: Mask,
    pub(crate) fields: Fields,
    pub(crate) block_bits: u32,
    pub(crate) blocks_per_file: u64,
    pub(crate) template: Template,
    pub(crate) steps: Option<Steps>,
    pub(crate) unknown: Vec<Unknown>,
    pub(crate) revision: u32,
}

impl Model for Header {
    ghost use Rattle.idx_header.specs.Header.{HeaderValue, IsHeader};

    ghost Value = { HeaderValue };

    ghost view = { λ h. record {
      box = h.region;
      mask = h.mask;
      fields = h.fields;
      block_bits = h.block_bits;
      blocks_per_file = h.blocks_per_file;
      template = h.template;
      steps = h.steps;
      unknown = h.unknown.items;
      revision = h.revision;
    } };

    ghost invariant = { λ h. IsHeader (record {
      box = h.region;
      mask = h.mask;
      fields = h.fields;
      block_bits = h.block_bits;
      blocks_per_file = h.blocks_per_file;
      template = h.template;
      steps = h.steps;
      unknown = h.unknown.items;
      revision = h.revision;
    }) };
}

impl Header {
    /// The header of a text, or the first fault of it in the order of the format, with its line. Takes memory in
    /// proportion to the text.
    pub fn read(alloc: Global, text: &[u8]) -> Result<Header, HeaderFault>
        ensures ok { IfOk result (λ header. header_of text.now ≡ Ok header) }
        ensures fault { IfErr result (λ fault. fault.kind ≢ HeaderKind.NoMemory → header_of text.now ≡ Err fault) }
        ensures valid { IfOk result IsHeader }
    {
        read_header(alloc, text)
    }

    /// The header of a bay. An empty text, as where no header stands, is refused like any other.
    pub fn of_bay<B: Bay>(alloc: Global, bay: &mut B) -> Result<Header, HeaderRefusal>
        ensures gives { IfOk result (Gives (B.header bay.old)) }
        ensures refused { IfErr result (IsRefusal IsFaultOf (B.header bay.old) (B.faults bay.old) (B.faults bay.new)) }
        ensures asks { OnlyAsks B.header B.files B.admits B.faults bay.old bay.new result }
        ensures begun { B.begun bay.new ≡ B.begun bay.old }
        ensures changes { B.changes bay.new ≡ B.changes bay.old }
        ensures failed { B.failed bay.new ≡ last_failed BayCall.Header (asked_quietly result) (B.failed bay.old) }
    {
        let text = bay_text(alloc, bay)?;
        read_text(alloc, text.as_slice())
    }

    /// The header of a bay where one stands: `None` exactly where the text is empty.
    pub fn standing<B: Bay>(alloc: Global, bay: &mut B) -> Result<Option<Header>, HeaderRefusal>
        ensures gives { IfOk result (GivesStanding (B.header bay.old)) }
        ensures refused { IfErr result
            (IsRefusal IsFaultOfSome (B.header bay.old) (B.faults bay.old) (B.faults bay.new)) }
        ensures asks { OnlyAsks B.header B.files B.admits B.faults bay.old bay.new result }
        ensures begun { B.begun bay.new ≡ B.begun bay.old }
        ensures changes { B.changes bay.new ≡ B.changes bay.old }
        ensures failed { B.failed bay.new ≡ last_failed BayCall.Header (asked_quietly result) (B.failed bay.old) }
    {
        let text = bay_text(alloc, bay)?;
        if text.is_empty() {
            return Ok(None);
        }
        Ok(Some(read_text(alloc, text.as_slice())?))
    }

    /// Appends the canonical text. At `NoMemory` the bytes are as they were.
    pub fn write(&self, out: &mut Bytes) -> Result<(), NoMemory>
        ensures ok { OnOk result (out.new ≡ out.old ++ text_of self.now) }
        ensures err { OnErr result (out.new ≡ out.old) }
    {
        let text = header_text(*self.unknown.allocator(), self)?;
        out.append(text.as_slice())
    }

    /// Whether all values are equal, attribute words, the keys that have no effect and the revision apart.
    pub fn agrees(&self, other: &Header) -> bool
        ensures { IsTrue result ↔ Agree self.now other.now }
    {
        agree(self, other)
    }

    /// An equal header.
    pub fn copy(&self, alloc: Global) -> Result<Header, NoMemory>
        ensures { IfOk result (λ copy. copy ≡ self.now) }
    {
        copy_at(alloc, self, self.revision)
    }

    /// How many axes the box has, 2 to 5.
    pub fn axes(&self) -> u32
        ensures count { result ≡ length self.now.box }
        ensures valid { IsHeader self.now }
    {
        self.region.axes()
    }

    /// The box: inclusive ends of each axis.
    pub fn region(&self) -> Region
        ensures value { result ≡ self.now.box }
        ensures covered { HasAddress self.now.mask (upper_ends result) }
    {
        self.region
    }

    /// The mask.
    pub fn mask(&self) -> Mask
        ensures value { result ≡ self.now.mask }
        ensures valid { IsHeader self.now }
    {
        self.mask
    }

    /// The finest level: the number of the mask's digits, 1 to 40.
    pub fn max_level(&self) -> u32
        ensures value { result ≡ length self.now.mask }
        ensures some { 1 ≤ result }
        ensures few { result ≤ 40 }
    {
        self.mask.len()
    }

    /// How many bits the place of a sample in its block has, 1 to 20 and at most `max_level`.
    pub fn bits_per_block(&self) -> u32
        ensures value { result ≡ self.now.block_bits }
        ensures some { 1 ≤ result }
        ensures few { result ≤ 20 }
        ensures within { result ≤ length self.now.mask }
    {
        self.block_bits
    }

    /// How many blocks a file holds, 1 to 65,536.
    pub fn blocks_per_file(&self) -> u64
        ensures value { result ≡ self.now.blocks_per_file }
        ensures some { 1 ≤ result }
        ensures few { result ≤ 65536 }
        ensures valid { IsHeader self.now }
    {
        self.blocks_per_file
    }

    /// How many blocks there are, present or not: 2 to the power of `max_level` less `bits_per_block`, at most 2^24.
    #[tactic(auto, using(crate::proofs::BoundLemmas::few_blocks))]
    pub fn block_count(&self) -> u64
        ensures value { result ≡ block_count self.now }
        ensures few { result ≤ 2 ^ 24 }
        ensures valid { IsHeader self.now }
    {
        1 << (self.mask.len() - self.block_bits)
    }

    /// How many fields there are, 1 to 64.
    pub fn field_count(&self) -> u32
        ensures count { result ≡ length self.now.fields }
        ensures some { 1 ≤ result }
        ensures few { result ≤ 64 }
    {
        self.fields.len()
    }

    /// The name of a field; fields are numbered from 0.
    pub fn field_name(&self, i: u32) -> &[u8]
        requires { i < length self.now.fields }
        ensures { result.now ≡ (field_at self.now.fields i).name }
    {
        self.fields.name(i)
    }

    /// How many bytes a sample of a field has, 1 to 64.
    pub fn sample_bytes(&self, i: u32) -> u64
        requires { i < length self.now.fields }
        ensures value { result ≡ sample_bytes_of self.now i }
        ensures some { 1 ≤ result }
        ensures few { result ≤ 64 }
    {
        self.fields.sample_bytes(i)
    }

    /// How many bytes a block of a field has, at most 2^24.
    pub fn block_bytes(&self, i: u32) -> u64
        requires { i < length self.now.fields }
        ensures value { result ≡ block_bytes self.now i }
        ensures few { result ≤ 2 ^ 24 }
    {
        block_bytes(self.fields.sample_bytes(i), self.block_bits)
    }

    /// How many bytes the raw input has: the samples of the box, field after field. At most 2^52.
    pub fn volume_bytes(&self) -> u64
        ensures value { result ≡ volume_bytes self.now }
        ensures few { result ≤ 2 ^ 52 }
    {
        self.region.count() * total_bytes(&self.fields)
    }

    /// The first and the last step. `None` exactly where the header has no time.
    pub fn steps(&self) -> Option<(u64, u64)>
        ensures { result ≡ ends_of self.now.steps }
    {
        match &self.steps {
            Some(steps) => Some((steps.first, steps.last)),
            None => None,
        }
    }

    /// Whether the header has a step; without a time the only step is 0.
    pub fn has_time(&self, step: u64) -> bool
        ensures { IsTrue result ↔ HasTime self.now step }
    {
        match &self.steps {
            Some(steps) => steps.first <= step && step <= steps.last,
            None => step == 0,
        }
    }

    /// The number of the field that has this name. `None` exactly where no field has it.
    pub fn find_field(&self, name: &[u8]) -> Option<u32>
        ensures some { (i : ℕ) → (result ≡ Some i) ↔
            ((i < length self.now.fields) × ((field_at self.now.fields i).name ≡ name.now)) }
        ensures none { IfNone result ((i : ℕ) → i < length self.now.fields →
            (field_at self.now.fields i).name ≢ name.now) }
    {
        self.fields.find(name)
    }

    /// Appends the canonical type of a field: its base, and behind it the count in brackets where that is not 1. At
    /// `NoMemory` the bytes are as they were.
    pub fn write_type(&self, i: u32, out: &mut Bytes) -> Result<(), NoMemory>
        requires { i < length self.now.fields }
        ensures ok { OnOk result (out.new ≡
            out.old ++ canonical_type (field_at self.now.fields i).base (field_at self.now.fields i).count) }
        ensures err { OnErr result (out.new ≡ out.old) }
    {
        self.fields.write_type(i, out)
    }

    /// The path of a file of a step at the header's revision, by the template's parts; a file's number is that of its
    /// first block.
    #[tactic(auto, unfolding(crate::specs::Names::file_name))]
    pub fn file_name(&self, alloc: Global, step: u64, file: u64) -> Result<Bytes, NoMemory>
        ensures { IfOk result (λ path. path ≡ file_name self.now step file) }
    {
        match &self.steps {
            Some(steps) => idx_names::file_path_of_step(
                alloc,
                &self.template,
                &steps.template,
                step,
                self.revision,
                file,
            ),
            None => idx_names::file_path(alloc, &self.template, file),
        }
    }

    /// The path of a step's folder at the header's revision. `None` exactly where the header has no time.
    pub fn step_folder(&self, alloc: Global, step: u64) -> Result<Option<Bytes>, NoMemory>
        ensures { IfOk result (λ folder. folder ≡ step_folder self.now step) }
    {
        self.folder_at(alloc, step, self.revision)
    }

    /// The path of a step's folder at a revision. `None` exactly where the header has no time.
    #[tactic(auto, unfolding(crate::specs::Names::step_folder))]
    pub(crate) fn folder_at(
        &self,
        alloc: Global,
        step: u64,
        revision: u32,
    ) -> Result<Option<Bytes>, NoMemory>
        ensures { IfOk result (λ folder. folder ≡ step_folder (at_revision revision self.now) step) }
    {
        match &self.steps {
            Some(steps) => Ok(Some(idx_names::step_folder(
                alloc,
                &self.template,
                &steps.template,
                step,
                revision,
            )?)),
            None => Ok(None),
        }
    }
}

/// How many bytes a sample of each field has, all together.
fn total_bytes(fields: &Fields) -> u64
    ensures value { result ≡ sum (map sample_bytes fields.now) }
    ensures few { result ≤ 4096 }
{
    let mut total = 0;
    for i in 0..fields.len() {
        total += fields.sample_bytes(i);
    }
    total
}

/// Whether all values of two headers are equal, attribute words, the keys that have no effect and the revision apart.
fn agree(these: &Header, those: &Header) -> bool
    ensures { IsTrue result ↔ Agree these.now those.now }
{
    if !same_region(&these.region, &those.region) || these.mask != those.mask {
        return false;
    }
    if !these.fields.agrees(&those.fields) || !these.template.equals(&those.template) {
        return false;
    }
    if these.block_bits != those.block_bits || these.blocks_per_file != those.blocks_per_file {
        return false;
    }
    same_steps(&these.steps, &those.steps)
}

fn same_region(these: &Region, those: &Region) -> bool
    ensures { IsTrue result ↔ (these.now ≡ those.now) }
{
    these.lo() == those.lo() && these.hi() == those.hi()
}

fn same_steps(these: &Option<Steps>, those: &Option<Steps>) -> bool
    ensures { IsTrue result ↔ (these.now ≡ those.now) }
{
    match (these, those) {
        (None, None) => true,
        (Some(a), Some(b)) => {
            a.first == b.first && a.last == b.last && a.template.equals(&b.template)
        }
        _ => false,
    }
}
