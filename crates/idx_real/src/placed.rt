//! Files that are read by places: the calls of std of which a real source is made.
ghost use Rattle.std.specs.Prelude.{◌≡◌, ◌<◌, ◌≤◌, length, IfSome, IfOk, OnOk};
ghost use Rattle.idx_real.specs.Placed.{known_bytes, WasReadAt};

use crate::Reason;
use std::io::{Read, Seek, SeekFrom};

/// The number of bytes of a file.
pub(crate) fn length_of<F: Seek>(file: &mut F) -> Result<u64, Reason>
    ensures { IfOk result (λ n.
        IfSome (known_bytes (F.stream_position file.old) (F.stream_bytes file.old)) (λ bytes. n ≡ length bytes)) }
{
    Ok(file.seek(SeekFrom::End(0))?)
}

/// Fills `into` with the file's bytes from place `at` on. A range that passes the file's end is a fault, also an empty
/// one.
pub fn read_range<F: Read + Seek>(file: &mut F, at: u64, into: &mut [u8]) -> Result<(), Reason>
    ensures { OnOk result (WasReadAt F.remaining F.stream_position F.stream_bytes file.old at into.new) }
{
    if into.is_empty() {
        reaches(file, at)
    } else {
        read_piece(file, at, into)
    }
}

/// Fails where the file has fewer bytes.
fn reaches<F: Seek>(file: &mut F, count: u64) -> Result<(), Reason>
    ensures { OnOk result (IfSome (known_bytes (F.stream_position file.old) (F.stream_bytes file.old))
        (λ bytes. count ≤ length bytes)) }
{
    if length_of(file)? < count {
        return Err(Reason::EndsEarly);
    }
    Ok(())
}

/// Fills `into`, which has room for a byte at least.
fn read_piece<F: Read + Seek>(file: &mut F, at: u64, into: &mut [u8]) -> Result<(), Reason>
    requires { 0 < length into.old }
    ensures { OnOk result (WasReadAt F.remaining F.stream_position F.stream_bytes file.old at into.new) }
{
    file.seek(SeekFrom::Start(at))?;
    Ok(file.read_exact(into)?)
}
