//! How many bytes of files are begun and not complete at a time.
ghost use Rattle.std.specs.Prelude.{◌≡◌, ◌-◌, ◌^◌, ◌≤◌, All, IfOk, IsTrue, if◌then◌else◌, length, map, min};
ghost use Rattle.idx_layout.specs.Files.{length_of_file};
ghost use Rattle.idx_layout.specs.OfHeader.{placing_of};
ghost use Rattle.idx_gather.specs.Streams.{OpenAtMost, open_bytes};

use idx_dock::Dock;
use idx_header::Header;
use idx_layout::file_len;
use idx_outside::NoMemory;
use idx_pieces::Piece;
use std::alloc::Global;

/// So many bytes of files may be begun and not complete at a time: 2^30.
const MOST_OPEN: u64 = 1 << 30;

/// Whether no more than 2^30 bytes of the files of docks are begun and not complete at a time, where these pieces are
/// delivered one after another.
pub(crate) fn opens_few(
    alloc: Global,
    header: &Header,
    pieces: &[Piece],
    docks: &[Dock],
) -> Result<bool, NoMemory>
    ensures { IfOk result (λ few. IsTrue few → OpenAtMost header.now (2 ^ 30) pieces.now docks.now) }
{
    let lengths = lengths_of(alloc, header, docks)?;
    for piece in pieces {
        if open_bytes(header, docks, &lengths, piece.id) > MOST_OPEN {
            return Ok(false);
        }
    }
    Ok(true)
}

/// How many bytes the file of each dock has.
fn lengths_of(alloc: Global, header: &Header, docks: &[Dock]) -> Result<Vec<u64>, NoMemory>
    ensures { IfOk result (λ lengths. lengths.items ≡
        map (λ d. length_of_file (placing_of header.now) d.file) docks.now) }
{
    let mut lengths = Vec::with_capacity(alloc, docks.len())?;
    for dock in docks {
        lengths.push(file_len(header, dock.file()))?;
    }
    Ok(lengths)
}

/// How many bytes the files have that are begun and not complete behind a piece, or 2^64 - 1 where they have more.
fn open_bytes(header: &Header, docks: &[Dock], lengths: &[u64], id: u64) -> u64
    requires lengths { lengths.now ≡ map (λ d. length_of_file (placing_of header.now) d.file) docks.now }
    ensures { result ≡ min (2 ^ 64 - 1) (open_bytes header.now docks.now id) }
{
    let mut bytes: u64 = 0;
    for i in 0..docks.len() {
        bytes = bytes.saturating_add(length_if(docks[i].is_open_at(id), lengths[i]));
    }
    bytes
}

/// A length, or 0 where it does not count.
fn length_if(counts: bool, length: u64) -> u64
    ensures { result ≡ if counts then length else 0 }
{
    if counts { length } else { 0 }
}
