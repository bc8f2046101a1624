//! A question reads a block that was not found.
ghost use Rattle.std.specs.Prelude.{◌≡◌, ◌<◌, IfOk, IfSome, Some, length, slice_get, true};
ghost use Rattle.std.specs.Arc.{arc_value};
ghost use Rattle.idx_layout.specs.Shape.{shape_of};
ghost use Rattle.idx_events.specs.Queries.{can_read, content_of, read};
ghost use Rattle.idx_core_asks.specs.Asked.{AskedValue};
ghost use Rattle.idx_core_asks.specs.Asking.{IsAsking, MayRead};

use crate::{Asked, HeldBlock};
use idx_core_layers::{Division, StepRefusal};
use idx_hall::Hall;
use idx_header::Header;
use idx_outside::{Blocks, Bytes, NoMemory, Reader};
use std::alloc::Global;
use std::sync::Arc;

/// The question of a number reads a block of its round, the least that was not found and not read yet, from the post that it
/// noted. A reader that fails is want of memory here.
pub fn read_in<E: Blocks + Drop, R: Reader<E::Leaf>>(
    alloc: Global,
    below: &Division,
    hall: &Hall<E>,
    reader: &mut R,
    asked: &mut Vec<Asked>,
    query: u64,
    block: u64,
) -> Result<(), StepRefusal>
    requires { (x : AskedValue) → slice_get asked.old.items query ≡ Some x → can_read block x.query ≡ true →
        MayRead below.now hall.now x.query block }
    ensures { IsAsking (can_read block) (λ x. hall.now) (read hall.now.board block) query
        asked.old.items hall.now result asked.new.items hall.now }
{
    let place = query as usize;
    if place >= asked.len() {
        return Err(StepRefusal::NotEnabled);
    }
    if !asked[place].can_read(block) {
        return Err(StepRefusal::NotEnabled);
    }
    let bytes = match content(alloc, below, hall, reader, &asked[place], block) {
        Ok(bytes) => bytes,
        Err(_) => return Err(StepRefusal::NoMemory),
    };
    match asked[place].load(HeldBlock::new(block, bytes)) {
        Ok(()) => Ok(()),
        Err(_) => Err(StepRefusal::NoMemory),
    }
}

/// The bytes of a block in the post that a question noted.
fn content<E: Blocks + Drop, R: Reader<E::Leaf>>(
    alloc: Global,
    below: &Division,
    hall: &Hall<E>,
    reader: &mut R,
    asked: &Asked,
    block: u64,
) -> Result<Arc<Bytes>, NoMemory>
    requires { MayRead below.now hall.now asked.now.query block }
    ensures { IfOk result (λ bytes. arc_value bytes ≡ content_of hall.now.board asked.now.query block) }
{
    let Some(post) = asked.post() else {
        unreachable!()
    };
    let field = asked.ask().field;
    let edition = hall.edition(post);
    let bytes = fetched::<E, R>(alloc, below.header(), edition, reader, field, block)?;
    Ok(Arc::new(alloc, bytes)?)
}

/// The bytes of a block of a step.
fn fetched<E: Blocks, R: Reader<E::Leaf>>(
    alloc: Global,
    header: &Header,
    edition: &E,
    reader: &mut R,
    field: u32,
    block: u64,
) -> Result<Bytes, NoMemory>
    requires shape { E.shape edition.now ≡ shape_of header.now }
    requires field { field < length header.now.fields }
    requires block { block < (E.shape edition.now).blocks }
    ensures { IfOk result (λ bytes. IfSome (E.stored edition.now) (λ stored. bytes ≡ stored field block)) }
{
    let mut bytes = Bytes::zeros(alloc, header.block_bytes(field) as usize)?;
    match edition.fetch(reader, field, block, bytes.as_mut_slice()) {
        Ok(_) => Ok(bytes),
        Err(_) => Err(NoMemory),
    }
}
