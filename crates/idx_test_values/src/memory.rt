//! Code over any form of each trait, at the forms in memory that never fail.
ghost use Rattle.std.specs.Prelude.{◌≡◌, ◌≤◌, [], ◌∷◌, length, IfOk, OnOk};
ghost use Rattle.std.specs.Option.{ForSome};
ghost use Rattle.idx_outside.specs.Files.{added, known_with, file_of, stored_at, HasStep, LiesIn};

use idx_memory::*;
use idx_outside::{
    Bay, BayFault, Bytes, Door, Draft, Leaf, Link, MemFile, NoMemory, Outage, Reader, Served, Sink,
};
use std::alloc::Global;
use std::test::Fail;

mod notes;
mod progress;

fn bytes_of(alloc: Global, bytes: &[u8]) -> Result<Bytes, NoMemory>
    ensures { IfOk result (λ copy. copy ≡ bytes.now) }
{
    Bytes::from_slice(alloc, bytes)
}

/// A file in the folder last begun; a draft that fails is given up.
fn write_file<B: Bay>(bay: &mut B, path: &[u8], bytes: &[u8]) -> Result<B::Leaf, BayFault>
    requires { B.admits bay.old path.now }
    ensures leaf { IfOk result (λ leaf. B.Leaf.contents leaf ≡ known_with (B.files bay.old) bytes.now) }
    ensures named { IfOk result (λ leaf. ForSome (B.Leaf.path leaf) (λ told. told ≡ path.now)) }
    ensures files { B.files bay.new ≡ B.files bay.old }
{
    let mut draft = bay.create(path)?;
    if draft.append(bytes).is_err() {
        bay.retire(draft);
        return Err(BayFault::Outage);
    }
    match draft.seal() {
        Ok(leaf) => Ok(leaf),
        Err((draft, _)) => {
            bay.retire(draft);
            Err(BayFault::Outage)
        }
    }
}

/// A step of one file, under a header of this text.
fn save<B: Bay>(
    alloc: Global,
    bay: &mut B,
    text: &[u8],
    path: &[u8],
    bytes: &[u8],
) -> Result<(), BayFault>
    requires new { ForSome (B.files bay.old) (λ files. ¬ (HasStep (116 ∷ []) files)) }
    requires within { LiesIn (116 ∷ []) path.now }
    ensures { OnOk result (B.files bay.new
        ≡ added (B.files bay.old) (file_of (116 ∷ []) (path.now, bytes.now) ∷ [])) }
{
    bay.set_header(text)?;
    bay.begin_step(b"t")?;
    let leaf = write_file(bay, path, bytes)?;
    let path = Bytes::from_slice(alloc, path)?;
    let mut leaves = Vec::new(alloc);
    leaves.push((path, leaf))?;
    bay.commit(b"t", &leaves)
}

/// The first two bytes of a committed file; none where it does not stand. Threads may be sent what it needs.
fn file_front<B: Bay + Send, R: Reader<B::Leaf> + Send>(
    bay: &mut B,
    reader: &mut R,
    path: &[u8],
) -> Result<Option<[u8; 2]>, BayFault>
where
    B::Leaf: Send + Sync,
    B::Draft: Send,
    requires { ForSome (stored_at path.now (B.files bay.old)) (λ bytes. 2 ≤ length bytes) }
{
    let Some(leaf) = bay.leaf(path)? else {
        return Ok(None);
    };
    let mut into = [0u8; 2];
    reader.read_at(&leaf, 0, &mut into)?;
    Ok(Some(into))
}

/// The file `t/0` of step `t`, with two bytes.
fn one_file(alloc: Global) -> Result<Vec<MemFile>, Fail>
    ensures { IfOk result (λ files. files.items ≡ file_of (116 ∷ []) (116 ∷ 47 ∷ 48 ∷ [], 1 ∷ 2 ∷ []) ∷ []) }
{
    let file = MemFile {
        folder: bytes_of(alloc, &[116])?,
        path: bytes_of(alloc, &[116, 47, 48])?,
        bytes: bytes_of(alloc, &[1, 2])?,
    };
    Ok(vec![in alloc; file]?)
}

/// The file of a bay that never fails, which keeps what it was made with and no step that is saved.
fn sure_front(alloc: Global) -> Result<Option<[u8; 2]>, Fail> {
    let mut bay = SureBay::new(Bytes::new(alloc), one_file(alloc)?);
    save(alloc, &mut bay, b"text", &[116, 47, 49], &[7])?;
    Ok(file_front(&mut bay, &mut SureReader::new(), &[116, 47, 48])?)
}

#[test]
fn sure_forms_of_a_step_never_fail(rt: HostRuntime) -> Result<(), Fail> {
    assert!(rt; sure_front(rt.alloc())? == Some([1, 2]));
    Ok(())
}

/// Reads at most four bytes of the next link, writes them again and gives the link back; tells how many they were.
fn echo<D: Door + Send>(alloc: Global, door: &mut D) -> Result<Option<usize>, Outage>
where
    D::Link: Drop,
{
    let Some(mut link) = door.accept()? else {
        return Ok(None);
    };
    let mut into = [0u8; 4];
    let count = link.read(&mut into)?;
    link.write(&into[..count])?;
    door.finish(link, Vec::<Served>::new(alloc));
    Ok(Some(count))
}

/// A door of one link of three bytes, which come two at a time.
fn sure_door(alloc: Global) -> Result<SureDoor, Fail> {
    let link = SureLink::new(bytes_of(alloc, b"abc")?, Vec::from_slice(alloc, &[2])?);
    Ok(SureDoor::new(vec![in alloc; link]?))
}

#[test]
fn sure_doors_and_links_never_fail(rt: HostRuntime) -> Result<(), Fail> {
    let mut door = sure_door(rt.alloc())?;
    for want in [Some(2), None] {
        assert!(rt; echo(rt.alloc(), &mut door) == Ok(want));
    }
    Ok(())
}

/// Writes to a sink three times, and tells whether each was taken.
fn takes_all<K: Sink>(sink: &mut K) -> bool {
    sink.write(&[1]).is_ok() && sink.write(&[]).is_ok() && sink.write(&[2, 3]).is_ok()
}

#[test]
fn sure_sinks_never_fail(rt: HostRuntime) {
    assert!(rt; takes_all(&mut SureSink::new()));
}
