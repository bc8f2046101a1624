ghost use Rattle.std.specs.Prelude.{◌≡◌, ◌<◌, [], IfOk, IfSome, length, slice_index};
ghost use Rattle.idx_outside.specs.Files.{files_of};
ghost use Rattle.idx_header.specs.Header.{HasTime};
ghost use Rattle.idx_layout.specs.Shape.{shape_of};
ghost use Rattle.idx_hall.specs.Posts.{post_of};
ghost use Rattle.idx_board.specs.Standing.{step_post};
ghost use Rattle.idx_core_forms.specs.Step.{AreStepFiles};

use crate::{HeldLeaf, HeldReader};
use idx_edition::Edition;
use idx_header::Header;
use idx_outside::{Blocks, Bytes, NoMemory, Outage};
use std::alloc::Global;

/// The step that the files of a volume make, which were written in hierarchical order, with their paths and in the order
/// of their numbers. Makes no read. `NoMemory` where there is no room for the step's tables.
pub fn edition_of(
    alloc: Global,
    header: &Header,
    time: u64,
    leaves: Vec<(Bytes, HeldLeaf)>,
) -> Result<Edition<HeldLeaf>, NoMemory>
    requires timed { HasTime header.now time }
    requires written { ∥ AreStepFiles header.now time leaves.items ∥₁ }
    ensures time { IfOk result (λ edition. ⟦<Edition<HeldLeaf> as Blocks>⟧.time edition ≡ time) }
    ensures shape { IfOk result (λ edition. ⟦<Edition<HeldLeaf> as Blocks>⟧.shape edition ≡ shape_of header.now) }
    ensures post { IfOk result (λ edition. post_of (shape_of header.now)
        (⟦<Edition<HeldLeaf> as Blocks>⟧.time edition) (⟦<Edition<HeldLeaf> as Blocks>⟧.has edition)
        (⟦<Edition<HeldLeaf> as Blocks>⟧.stored edition) ≡ step_post (files_of [] leaves.items) time header.now) }
{
    let edition = Edition::of_leaves(alloc, header, time, leaves)?;
    Ok(edition)
}

/// The bytes of a block of a field, both counted from 0, of a step of the header's dataset; zeros where the step lacks the
/// block. `NoMemory` where there is no room for them.
pub fn read_block(
    alloc: Global,
    header: &Header,
    edition: &Edition<HeldLeaf>,
    field: u32,
    block: u64,
) -> Result<Bytes, NoMemory>
    requires shape { ⟦<Edition<HeldLeaf> as Blocks>⟧.shape edition.now ≡ shape_of header.now }
    requires field { field < length (⟦<Edition<HeldLeaf> as Blocks>⟧.shape edition.now).lengths }
    requires block { block < (⟦<Edition<HeldLeaf> as Blocks>⟧.shape edition.now).blocks }
    ensures stored { IfOk result (λ bytes.
        IfSome (⟦<Edition<HeldLeaf> as Blocks>⟧.stored edition.now) (λ stored. bytes ≡ stored field block)) }
    ensures length { IfOk result (λ bytes.
        length bytes ≡ slice_index (⟦<Edition<HeldLeaf> as Blocks>⟧.shape edition.now).lengths field) }
{
    let mut bytes = Bytes::zeros(alloc, header.block_bytes(field) as usize)?;
    match edition.fetch(&mut HeldReader::new(), field, block, bytes.as_mut_slice()) {
        Ok(_) => Ok(bytes),
        Err(Outage) => unreachable!(),
    }
}
