// What a bay in memory finds in its files, and what it makes of leaves.
ghost use Rattle.std.specs.Prelude.{◌≡◌, ◌↔◌, ◌<◌, Some, None, length, map, drop, slice_index_or, IsTrue, IfOk, MatchOption};
ghost use Rattle.idx_outside.specs.Files.{HasStep, file_at, leaf_files};
ghost use Rattle.std.specs.Option.{option_map};
ghost use Rattle.idx_memory.specs.Memory.{file_at_path, next_draft};
ghost use Rattle.idx_outside.specs.declared.mem_file.MemFile.{MemFile};

use crate::MemLeaf;
use idx_outside::{Bytes, MemFile, NoMemory};
use std::alloc::Global;

/// Whether some file is of this folder.
#[tactic(auto, using(crate::proofs::SearchLemmas::searching))]
pub(crate) fn has_folder(files: &[MemFile], folder: &[u8]) -> bool
    ensures { IsTrue result ↔ HasStep folder.now files.now }
{
    for file in files {
        if file.folder.as_slice() == folder {
            return true;
        }
    }
    false
}

/// A copy of the bytes of the first file of this path; `None` where there is none.
pub(crate) fn copy_of(
    alloc: Global,
    files: &[MemFile],
    path: &[u8],
) -> Result<Option<Bytes>, NoMemory>
    ensures { IfOk result (λ found. found ≡ file_at path.now files.now) }
{
    match place_of(files, path) {
        Some(place) => Ok(Some(Bytes::from_slice(alloc, files[place].bytes.as_slice())?)),
        None => Ok(None),
    }
}

/// The first file of this path, with its path and a copy of its bytes; `None` where there is none.
pub(crate) fn leaf_of(
    alloc: Global,
    files: &[MemFile],
    path: &[u8],
) -> Result<Option<MemLeaf>, NoMemory>
    ensures { IfOk result (λ found. found ≡ option_map (file_at_path path.now) (file_at path.now files.now)) }
{
    match copy_of(alloc, files, path)? {
        Some(bytes) => {
            let path = Bytes::from_slice(alloc, path)?;
            Ok(Some(MemLeaf::at(path, bytes, 0)))
        }
        None => Ok(None),
    }
}

/// The place of the first file of this path.
#[tactic(auto, using(crate::proofs::SearchLemmas::searching))]
fn place_of(files: &[MemFile], path: &[u8]) -> Option<usize>
    ensures { MatchOption result (file_at path.now files.now ≡ None)
        (λ place. (place < length files.now) × ((d : MemFile) → file_at path.now files.now ≡ Some (slice_index_or files.now place d).bytes)) }
{
    for (place, file) in files.iter().enumerate() {
        if file.path.as_slice() == path {
            return Some(place);
        }
    }
    None
}

/// The files of leaves.
pub(crate) fn files_of_leaves(
    alloc: Global,
    folder: &[u8],
    leaves: &Vec<(Bytes, MemLeaf)>,
) -> Result<Vec<MemFile>, NoMemory>
    ensures { IfOk result (λ files. files.items ≡ leaf_files (λ leaf. Some leaf.bytes) folder.now leaves.now.items) }
{
    let mut files = Vec::new(alloc);
    for (path, leaf) in leaves {
        let file = MemFile {
            folder: Bytes::from_slice(alloc, folder)?,
            path: Bytes::from_slice(alloc, path.as_slice())?,
            bytes: Bytes::from_slice(alloc, leaf.bytes().as_slice())?,
        };
        files.push(file)?;
    }
    Ok(files)
}

/// The numbers of the failing calls of the next draft, which are taken out; none where no list is left.
pub(crate) fn take_next(drafts: &mut Vec<Vec<u64>>) -> Vec<u64>
    ensures next { result.items ≡ next_draft (map (λ fails. fails.items) drafts.old.items) }
    ensures rest { map (λ fails. fails.items) drafts.new.items ≡ drop 1 (map (λ fails. fails.items) drafts.old.items) }
{
    if drafts.is_empty() {
        Vec::new(*drafts.allocator())
    } else {
        drafts.remove(0)
    }
}
