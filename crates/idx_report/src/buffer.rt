ghost use Rattle.std.specs.Prelude.{◌≡◌, [], IfOk};

use std::alloc::{AllocError, Global};

/// So many bytes are a little less than the largest size by which the C library learns to keep what is freed.
const LONG: usize = 33_500_000;

/// A buffer of just under 32 MiB, no page of which is touched before it is written, or an empty one. The C library gives
/// what is freed back to the system, and clears it anew when it is wanted again, for all sizes from 128 KiB on until
/// a larger one was freed, at most 32 MiB: so where this one was freed, replies and the parts of a volume use the same
/// memory one after another.
pub fn long_buffer(alloc: Global) -> Vec<u8>
    ensures { result.items ≡ [] }
{
    match Vec::with_capacity(alloc, LONG) {
        Ok(buffer) => buffer,
        Err(_) => Vec::new(alloc),
    }
}

/// So many such buffers have room for the pieces of a batch, for the runs that are made of them, and for what files that
/// miss something hold: 640 MiB.
const MOST_BUFFERS: usize = 20;

/// More than any vector that was freed before, so that it gets memory behind all others.
const LAST: usize = 1 << 16;

/// An empty buffer, in front of which there are 640 MiB of free memory, no page of which was touched, or less where there
/// is less. The C library gives nothing of that back to the system as long as the buffer behind it is kept: so until then
/// vectors of any size use the same pages one after another, also those of more than 32 MiB.
pub fn room_keeper(alloc: Global) -> Vec<u8>
    ensures { result.items ≡ [] }
{
    match behind_room(alloc) {
        Ok(keeper) => keeper,
        Err(_) => Vec::new(alloc),
    }
}

/// A buffer that is made behind many others, which are freed then.
fn behind_room(alloc: Global) -> Result<Vec<u8>, AllocError>
    ensures { IfOk result (λ keeper. keeper.items ≡ []) }
{
    let mut buffers = Vec::with_capacity(alloc, MOST_BUFFERS)?;
    for _made in 0..MOST_BUFFERS {
        buffers.push(long_buffer(alloc))?;
    }
    Vec::with_capacity(alloc, LAST)
}
