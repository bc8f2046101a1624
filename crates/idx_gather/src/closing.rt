//! The end of a window: its sealed files in the order of their numbers, behind those that were sealed before.
ghost use Rattle.std.specs.Prelude.{◌≡◌, ◌<◌, ℕ, [], IfOk, List, Option, drop, length, map};
ghost use Rattle.std.specs.List.Sorted.{IsNonDecreasingBy, IsPermutation};
ghost use Rattle.idx_outside.specs.Files.{shown};
ghost use Rattle.idx_outside.specs.declared.mem_file.MemFile.{MemFile};
ghost use Rattle.idx_gather.specs.States.{AreFirstFiles};
ghost use Rattle.idx_gather.specs.Streams.{AreOpen, AreSealed, numbered};

use crate::Opening;
use crate::stream::Stream;
use idx_outside::{Bytes, Leaf, NoMemory};
use std::alloc::Global;

/// The step with the files of a window sealed, all of which are.
pub(crate) fn close_stream<L: Leaf>(
    alloc: Global,
    stream: Stream<L>,
) -> Result<Opening<L>, NoMemory>
    requires all { stream.docks.items ≡ [] }
    requires some { 0 < length stream.sealed.items }
    requires state { AreOpen stream.opening.header stream.opening.pieces.items
        (drop (length stream.opening.leaves.items) stream.opening.files.items)
        (map (λ entry. entry.0) stream.sealed.items) stream.left.items stream.docks.items }
    requires sealed { (known : Option (List MemFile)) × ((told : Option (List ℕ)) ×
        AreSealed stream.opening.layout stream.opening.header stream.opening.step known told stream.opening.files.items
        (shown L.contents stream.opening.leaves.items) (numbered L.contents stream.sealed.items)) }
    ensures same_header { IfOk result (λ done. done.header ≡ stream.opening.header) }
    ensures same_step { IfOk result (λ done. done.step ≡ stream.opening.step) }
    ensures same_ranks { IfOk result (λ done. done.ranks ≡ stream.opening.ranks) }
    ensures same_room { IfOk result (λ done. done.room ≡ stream.opening.room) }
    ensures same_layout { IfOk result (λ done. done.layout ≡ stream.opening.layout) }
    ensures same_pieces { IfOk result (λ done. done.pieces ≡ stream.opening.pieces) }
    ensures same_files { IfOk result (λ done. done.files ≡ stream.opening.files) }
    ensures more { IfOk result (λ done. length stream.opening.leaves.items < length done.leaves.items) }
    ensures first { IfOk result (λ done. (known : Option (List MemFile)) (told : Option (List ℕ)) →
        AreSealed stream.opening.layout stream.opening.header stream.opening.step known told stream.opening.files.items
        (shown L.contents stream.opening.leaves.items) (numbered L.contents stream.sealed.items) →
        AreFirstFiles stream.opening.layout stream.opening.header stream.opening.step known told stream.opening.files.items
        (shown L.contents done.leaves.items)) }
{
    let Stream {
        mut opening,
        docks: _docks,
        left: _left,
        mut sealed,
    } = stream;
    by_number(&mut sealed);
    let mut leaves = leaves_of(alloc, sealed)?;
    match opening.leaves.append(&mut leaves) {
        Ok(()) => Ok(opening),
        Err(_) => Err(NoMemory),
    }
}

/// Puts sealed files in the order of their numbers. Takes no memory.
fn by_number<L: Leaf>(sealed: &mut Vec<(u64, (Bytes, L))>)
    ensures same { IsPermutation sealed.old.items sealed.new.items }
    ensures rising { IsNonDecreasingBy (λ entry. entry.0) sealed.new.items }
{
    sealed.sort_unstable_by_key(|entry| entry.0);
}

/// Sealed files without their numbers.
fn leaves_of<L: Leaf>(
    alloc: Global,
    sealed: Vec<(u64, (Bytes, L))>,
) -> Result<Vec<(Bytes, L)>, NoMemory>
    ensures { IfOk result (λ leaves. leaves.items ≡ map (λ entry. entry.1) sealed.items) }
{
    let mut leaves = Vec::with_capacity(alloc, sealed.len())?;
    for (_, leaf) in sealed {
        leaves.push(leaf)?;
    }
    Ok(leaves)
}
