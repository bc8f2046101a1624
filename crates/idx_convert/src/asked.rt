ghost use Rattle.std.specs.Prelude.{◌≡◌, ◌≢◌, ◌↔◌, ◌^◌, Err, IfErr, IfOk, IsTrue, find, nat_lt};
ghost use Rattle.idx_gather.specs.Gather.{HasFolder, file_lengths, too_large};
ghost use Rattle.idx_convert.specs.Convert.{AsksFor, IsCause};
ghost use Rattle.idx_convert.specs.Known.{Known};

use crate::ConvertFault;
use idx_header::Header;
use idx_layout::{file_len, files};
use std::alloc::Global;

/// The samples of a step take at most so many bytes.
pub const MAX_VOLUME: u64 = 1 << 36;

/// A file of a step has at most so many bytes.
pub const MAX_FILE: u64 = 1 << 32;

/// The header of the text that is asked for, if it has the step, its samples are few enough and none of its files is too
/// long. Nothing else has a part in the cause of a refusal.
pub(crate) fn asked_header(alloc: Global, text: &[u8], step: u64) -> Result<Header, ConvertFault>
    ensures asked { IfOk result (λ header. AsksFor text.now step header) }
    ensures cause { (k : Known) → IfErr result (IsCause text.now step k) }
    ensures only { result ≢ Err ConvertFault.StoreFault }
{
    let header = Header::read(alloc, text)?;
    if !has_folder(&header, step) {
        return Err(ConvertFault::NoStep);
    }
    match too_large(&header) {
        Some(bytes) => Err(ConvertFault::TooLarge { bytes }),
        None => Ok(header),
    }
}

/// How many bytes the samples of a step take, where they are too many to write; else how many the first of its files has
/// that is too long.
pub fn too_large(header: &Header) -> Option<u64>
    ensures { result ≡ too_large header.now }
{
    let bytes = header.volume_bytes();
    if bytes > MAX_VOLUME {
        Some(bytes)
    } else {
        too_long(header)
    }
}

/// How many bytes the first file of a step has, by rising number, that is too long to write.
fn too_long(header: &Header) -> Option<u64>
    ensures { result ≡ find (nat_lt (2 ^ 32)) (file_lengths header.now) }
{
    files(header)
        .map(|file| file_len(header, file))
        .find(|bytes| *bytes > MAX_FILE)
}

/// Whether the header has a time, and the step.
pub fn has_folder(header: &Header, step: u64) -> bool
    ensures { IsTrue result ↔ HasFolder header.now step }
{
    header.steps().is_some() && header.has_time(step)
}
