ghost use Rattle.std.specs.Prelude.{◌≡◌, ℕ, ◌+◌, ◌-◌, ◌*◌, ◌^◌, ◌<◌, ◌≤◌, All, IfSome, List, OnOk, Option, drop, length, map, take};
ghost use Rattle.std.specs.Option.{ForSome};
ghost use Rattle.idx_geom.specs.Region.{points};
ghost use Rattle.idx_header.specs.Header.{sample_bytes_of, volume_bytes};
ghost use Rattle.idx_pieces.specs.RawReads.{AsksAtMost, HasVolume, KeepsRaw};
ghost use Rattle.idx_pieces.specs.Reading.{EndsBelow, HoldsUpTo, IsDone, IsFrom, IsReady, field_start, heading};

use crate::RawRefusal;
use crate::filling::{Filling, append_all, next_place};
use idx_header::Header;
use idx_outside::Source;

/// Reads a field's samples into parcels, window by window, in rising order: no window is read that no parcel needs.
/// `start` is where the field begins among the raw bytes; no parcel has a place at `end` or behind it.
pub(crate) fn read_field<V: Source>(
    raw: &mut V,
    parts: &mut Vec<Filling>,
    header: &Header,
    field: u32,
    start: u64,
    end: u64,
    window: &mut [u8],
) -> Result<(), RawRefusal>
    requires field { field < length header.now.fields }
    requires start { start ≡ field_start header.now field }
    requires ready { All (IsReady header.now.box 0) parts.old.items }
    requires ends { All (EndsBelow header.now.box end) parts.old.items }
    requires end { end ≤ length (points header.now.box) }
    requires window { 64 ≤ length window.old }
    requires small { volume_bytes header.now ≤ 2 ^ 52 }
    requires volume { HasVolume header.now (V.contents raw.old) }
    ensures ready { OnOk result (All (IsReady header.now.box 0) parts.new.items) }
    ensures done { OnOk result (All IsDone parts.new.items) }
    ensures headings { OnOk result (map heading parts.new.items ≡ map heading parts.old.items) }
    ensures held { OnOk result (All (HoldsUpTo header.now (V.contents raw.old) field) parts.old.items →
        All (HoldsUpTo header.now (V.contents raw.old) field) parts.new.items) }
    ensures raw { KeepsRaw (V.contents raw.old) (V.contents raw.new) (V.faults raw.old) (V.faults raw.new) result }
    ensures asked { (low : ℕ) → All (IsFrom low) parts.old.items → low ≤ end →
        AsksAtMost (V.asked raw.old) (V.asked raw.new) (sample_bytes_of header.now field * (end - low)) }
{
    let size = header.sample_bytes(field);
    let most = window.len() as u64 / size;
    let mut at = next_place(parts, end);
    'windows: while at < end {
        let to = at + most.min(end - at);
        let bytes = &mut window[..((to - at) * size) as usize];
        read_window(raw, start + at * size, bytes)?;
        if append_all(parts, header, field, bytes, at, to).is_err() {
            return Err(RawRefusal::NoMemory);
        }
        at = next_place(parts, end);
    }
    Ok(())
}

/// Fills a window with the bytes from a place on.
fn read_window<V: Source>(raw: &mut V, at: u64, window: &mut [u8]) -> Result<(), RawRefusal>
    requires { ForSome (V.contents raw.old) (λ bytes. at + length window.old ≤ length bytes) }
    ensures read { OnOk result (IfSome (V.contents raw.old)
        (λ bytes. window.new ≡ take (length window.old) (drop at bytes))) }
    ensures raw { KeepsRaw (V.contents raw.old) (V.contents raw.new) (V.faults raw.old) (V.faults raw.new) result }
    ensures asked { AsksAtMost (V.asked raw.old) (V.asked raw.new) (length window.old) }
{
    match raw.read_at(at, window) {
        Ok(()) => Ok(()),
        Err(_) => Err(RawRefusal::RawFault {
            faults: raw.faults(),
        }),
    }
}
