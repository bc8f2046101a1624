ghost use Rattle.std.specs.Prelude.{◌≡◌, ◌-◌, ◌*◌, ◌^◌, ◌<◌, ◌≤◌, ◌++◌, All, IfOk, OnOk, length, map};
ghost use Rattle.std.specs.List.{flat_map};
ghost use Rattle.idx_geom.specs.Region.{points, upper_ends};
ghost use Rattle.idx_hz.specs.Mask.{HasAddress, IsMask};
ghost use Rattle.idx_header.specs.Header.{IsHeader};
ghost use Rattle.idx_block.specs.Stored.{stored};
ghost use Rattle.idx_pieces.specs.Samples.{region_bytes};
ghost use Rattle.idx_ship.specs.Spans.{IsSpan, span_addresses};
ghost use Rattle.idx_ship.specs.Made.{file_runs, run_made};

use crate::span::Span;
use idx_block::{fill_by_addresses, fill_by_lanes};
use idx_geom::Region;
use idx_header::Header;
use idx_hz::Mask;
use idx_outside::{Bytes, NoMemory};
use idx_pieces::Run;
use std::alloc::Global;

/// The runs of a file over these spans: field after field, one for each span. `bytes` has the samples of the box, field
/// after field, each in row-major order, axis 0 fastest.
pub(crate) fn runs_over(
    alloc: Global,
    header: &Header,
    region: &Region,
    bytes: &[u8],
    spans: &[Span],
) -> Result<Vec<Run>, NoMemory>
    requires valid { IsHeader header.now }
    requires address { HasAddress header.now.mask (upper_ends region.now) }
    requires bytes { length bytes.now ≡ region_bytes header.now region.now }
    requires spans { All (IsSpan header.now.mask) spans.now }
    ensures { IfOk result (λ runs. runs.items ≡ file_runs header.now region.now bytes.now spans.now) }
{
    let mask = header.mask();
    let points = region.count();
    let mut runs = Vec::new(alloc);
    let mut rest = bytes;
    for field in 0..header.field_count() {
        let size = header.sample_bytes(field);
        let (samples, behind) = rest.split_at((points * size) as usize);
        push_runs(
            alloc,
            &mask,
            region,
            field,
            size as usize,
            samples,
            spans,
            &mut runs,
        )?;
        rest = behind;
    }
    Ok(runs)
}

/// Appends the runs of a field over these spans, whose samples, of `size` bytes, are those of the box.
fn push_runs(
    alloc: Global,
    mask: &Mask,
    region: &Region,
    field: u32,
    size: usize,
    samples: &[u8],
    spans: &[Span],
    runs: &mut Vec<Run>,
) -> Result<(), NoMemory>
    requires mask { IsMask mask.now }
    requires address { HasAddress mask.now (upper_ends region.now) }
    requires some { 1 ≤ size }
    requires few { size ≤ 64 }
    requires samples { length samples.now ≡ size * length (points region.now) }
    requires spans { All (IsSpan mask.now) spans.now }
    ensures { OnOk result (runs.new.items ≡
        runs.old.items ++ map (run_made mask.now region.now size samples.now field) spans.now) }
{
    for span in spans {
        let run = run_over(alloc, mask, region, field, size, samples, span)?;
        runs.push(run)?;
    }
    Ok(())
}

/// The run of a field over a span.
fn run_over(
    alloc: Global,
    mask: &Mask,
    region: &Region,
    field: u32,
    size: usize,
    samples: &[u8],
    span: &Span,
) -> Result<Run, NoMemory>
    requires mask { IsMask mask.now }
    requires address { HasAddress mask.now (upper_ends region.now) }
    requires some { 1 ≤ size }
    requires few { size ≤ 64 }
    requires samples { length samples.now ≡ size * length (points region.now) }
    requires span { IsSpan mask.now span.now }
    ensures { IfOk result (λ run. run ≡ run_made mask.now region.now size samples.now field span.now) }
{
    let count = span.len();
    let Ok(mut bytes) = Vec::from_elem(alloc, 0u8, size * count as usize) else {
        return Err(NoMemory);
    };
    fill(mask, region, span, size, samples, &mut bytes);
    Ok(Run {
        field,
        first: span.number * count,
        bytes: Bytes::from_vec(bytes),
    })
}

/// Makes the bytes of a span: address by address where that is address 0, the only one of its level.
fn fill(mask: &Mask, region: &Region, span: &Span, size: usize, samples: &[u8], into: &mut [u8])
    requires mask { IsMask mask.now }
    requires address { HasAddress mask.now (upper_ends region.now) }
    requires some { 1 ≤ size }
    requires few { size ≤ 64 }
    requires samples { length samples.now ≡ size * length (points region.now) }
    requires span { IsSpan mask.now span.now }
    requires room { length into.old ≡ size * 2 ^ span.now.bits }
    ensures { into.new ≡ flat_map (stored mask.now region.now size samples.now) (span_addresses span.now) }
{
    if span.number == 0 {
        fill_by_addresses(mask, region, span.bits, span.number, size, samples, into);
    } else {
        fill_by_lanes(mask, region, span.bits, span.number, size, samples, into);
    }
}
