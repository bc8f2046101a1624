ghost use Rattle.std.specs.Prelude.{◌≡◌, ℕ, ◌-◌, ◌*◌, ◌<◌, ◌≤◌, All, List, OnOk, Option, length, map};
ghost use Rattle.idx_geom.specs.Region.{points};
ghost use Rattle.idx_header.specs.Header.{sample_bytes_of};
ghost use Rattle.idx_pieces.specs.Filling.{Appends};
ghost use Rattle.idx_pieces.specs.Reading.{HoldsUpTo, IsFrom, IsReady, IsWindowOf, heading};

use crate::Parcel;
use crate::append::append_window;
use crate::cursor::Cursor;
use idx_geom::Region;
use idx_header::Header;
use idx_outside::NoMemory;

/// A parcel while it is filled: of the field that is read, the samples before the cursor are there.
#[derive(Debug, Drop)]
pub(crate) struct Filling {
    /// The parcel.
    pub(crate) parcel: Parcel,
    /// The first sample that is not there.
    pub(crate) cursor: Cursor,
}

impl Filling {
    /// Appends what a window has of the parcel.
    fn append(
        &mut self,
        extent: &Region,
        window: &[u8],
        from: u64,
        to: u64,
        size: u64,
    ) -> Result<(), NoMemory>
        requires ready { IsReady extent.now from self.old }
        requires window { length window.now ≡ (to - from) * size }
        requires some { 1 ≤ size }
        ensures ready { OnOk result (IsReady extent.now to self.new) }
        ensures heading { OnOk result (heading self.new ≡ heading self.old) }
        ensures appends { OnOk result (Appends size from window.now extent.now self.old.parcel.region
            self.old.parcel.bytes self.new.parcel.bytes self.old.cursor.done self.new.cursor.done) }
    {
        let bytes = &mut self.parcel.bytes;
        let region = &self.parcel.region;
        self.cursor = append_window(bytes, self.cursor, extent, region, window, from, to, size)?;
        Ok(())
    }

    /// Sets the cursor to the first sample.
    fn rewind(&mut self, extent: &Region)
        requires ready { IsReady extent.now 0 self.old }
        ensures ready { IsReady extent.now 0 self.new }
        ensures first { self.new.cursor.done ≡ 0 }
        ensures parcel { self.new.parcel ≡ self.old.parcel }
    {
        self.cursor = Cursor::at(extent, &self.parcel.region, 0);
    }

    /// The sooner of a place and that of the cursor, where it is not behind the last sample.
    fn sooner(&self, place: u64) -> u64
        ensures from { IsFrom result self.now }
        ensures sooner { result ≤ place }
        ensures least { (low : ℕ) → low ≤ place → IsFrom low self.now → low ≤ result }
    {
        if self.cursor.done < self.parcel.region.count() {
            place.min(self.cursor.place)
        } else {
            place
        }
    }
}

/// The least place that a cursor has, or `end` where each stands behind its last sample.
pub(crate) fn next_place(parts: &Vec<Filling>, end: u64) -> u64
    ensures from { All (IsFrom result) parts.now.items }
    ensures within { result ≤ end }
    ensures least { (low : ℕ) → low ≤ end → All (IsFrom low) parts.now.items → low ≤ result }
{
    let mut next = end;
    'parts: for i in 0..parts.len() {
        next = parts[i].sooner(next);
    }
    next
}

/// Appends what a window has of each parcel. The window has the samples of a field from a place on and below another.
pub(crate) fn append_all(
    parts: &mut Vec<Filling>,
    header: &Header,
    field: u32,
    window: &[u8],
    from: u64,
    to: u64,
) -> Result<(), NoMemory>
    requires field { field < length header.now.fields }
    requires ready { All (IsReady header.now.box from) parts.old.items }
    requires window { length window.now ≡ (to - from) * sample_bytes_of header.now field }
    ensures ready { OnOk result (All (IsReady header.now.box to) parts.new.items) }
    ensures headings { OnOk result (map heading parts.new.items ≡ map heading parts.old.items) }
    ensures held { OnOk result ((told : Option (List ℕ)) → IsWindowOf header.now told field from window.now →
        All (HoldsUpTo header.now told field) parts.old.items →
        All (HoldsUpTo header.now told field) parts.new.items) }
{
    let extent = header.region();
    let size = header.sample_bytes(field);
    'parts: for i in 0..parts.len() {
        parts[i].append(&extent, window, from, to, size)?;
    }
    Ok(())
}

/// Sets each cursor to the first sample.
pub(crate) fn rewind_all(parts: &mut Vec<Filling>, extent: &Region)
    requires ready { All (IsReady extent.now 0) parts.old.items }
    ensures ready { All (IsReady extent.now 0) parts.new.items }
    ensures first { All (λ f. f.cursor.done ≡ 0) parts.new.items }
    ensures parcels { map (λ f. f.parcel) parts.new.items ≡ map (λ f. f.parcel) parts.old.items }
{
    'parts: for i in 0..parts.len() {
        parts[i].rewind(extent);
    }
}
