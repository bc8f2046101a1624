//! The states through which a step is gathered in bounded memory, call by call.
ghost use Rattle.std.specs.Prelude.{◌≡◌, [], IsSome};
ghost use Rattle.idx_header.specs.Header.{HasTime};
ghost use Rattle.idx_header.specs.Names.{step_folder};
ghost use Rattle.idx_test_writing.specs.Ready.{HasTime-prop};

use crate::dataset::{BASE, Dataset, FIELDS, SPARSE, bay_of};
use crate::raw::raws_of;
use idx_gather::{Docking, Opening};
use idx_memory::{MemBay, MemLeaf};
use idx_outside::FreeGate;
use idx_pieces::rank_regions;
use idx_rowmajor::Layout;
use std::alloc::Global;
use std::process::Abort;
use std::test::Fail;
use std::thread::Threads;

/// A step of which some files are sealed, and the bay in which it is begun.
#[derive(Drop)]
struct Opened {
    opening: Opening<MemLeaf>,
    ranks: u32,
    bay: MemBay,
    ghost same: { ranks ≡ opening.ranks },
    ghost timed: { IsSome opening.header.steps },
    ghost has: { HasTime opening.header opening.step } by { HasTime-prop opening.header opening.step },
    ghost begun: { bay.begun ≡ step_folder opening.header opening.step },
    ghost files: { bay.files ≡ [] },
}

/// The same with the aggregators of its next files.
#[derive(Drop)]
struct Docked {
    docking: Docking<MemLeaf>,
    ranks: u32,
    bay: MemBay,
    ghost same: { ranks ≡ docking.opening.ranks },
    ghost timed: { IsSome docking.opening.header.steps },
    ghost has: { HasTime docking.opening.header docking.opening.step } by { HasTime-prop docking.opening.header docking.opening.step },
    ghost begun: { bay.begun ≡ step_folder docking.opening.header docking.opening.step },
    ghost files: { bay.files ≡ [] },
}

impl Docked {
    /// Reads and ships the next batch.
    fn batch<R: Threads + Sync + Abort>(
        self,
        rt: &R,
        alloc: Global,
        bytes: &'static [u8],
    ) -> Result<Docked, Fail> {
        assert!(rt; !self.docking.is_full());
        let Docked {
            docking,
            ranks,
            bay,
        } = self;
        let mut raws = raws_of(alloc, bytes, ranks)?;
        let parcelled = docking.parcel(rt, alloc, &mut raws, &FreeGate)?;
        let docking = parcelled.ship(rt, alloc, &FreeGate)?;
        Ok(Docked {
            docking,
            ranks,
            bay,
        })
    }

    /// Seals the files, which miss nothing.
    fn seal<R: Threads + Sync + Abort>(self, rt: &R, alloc: Global) -> Result<Opened, Fail> {
        assert!(rt; self.docking.is_full());
        let Docked {
            docking,
            ranks,
            mut bay,
        } = self;
        let opening = docking.seal(rt, alloc, &mut bay, &FreeGate)?;
        Ok(Opened {
            opening,
            ranks,
            bay,
        })
    }
}

impl Opened {
    /// The step 0 of a dataset, of which nothing is sealed.
    fn new(
        alloc: Global,
        rt: &impl Abort,
        dataset: &Dataset,
        ranks: u32,
        room: u64,
    ) -> Result<Opened, Fail> {
        assert!(rt; 1 <= ranks && ranks <= 256 && 1 <= room);
        let header = dataset.header(alloc, rt);
        let bay = bay_of(alloc, rt, &header, 0)?;
        let opening = Opening::new(alloc, &header, 0, ranks, room, Layout::Hz)?;
        Ok(Opened {
            opening,
            ranks,
            bay,
        })
    }

    /// Seals the next window, which is of so many batches.
    fn window<R: Threads + Sync + Abort>(
        self,
        rt: &R,
        alloc: Global,
        bytes: &'static [u8],
        batches: u32,
    ) -> Result<Opened, Fail> {
        assert!(rt; !self.opening.is_sealed());
        let Opened {
            opening,
            ranks,
            bay,
        } = self;
        let docking = opening.dock(alloc)?;
        let mut docked = Docked {
            docking,
            ranks,
            bay,
        };
        for _ in 0..batches {
            docked = docked.batch(rt, alloc, bytes)?;
        }
        docked.seal(rt, alloc)
    }

    /// Commits the step, of which every file is sealed, and gives the bay.
    fn commit(self, alloc: Global, rt: &impl Abort) -> Result<MemBay, Fail> {
        assert!(rt; self.opening.is_sealed());
        let Opened {
            opening,
            ranks: _ranks,
            mut bay,
        } = self;
        let edition = opening.finish().commit(alloc, &mut bay)?;
        assert!(rt; edition.leaves().len() == bay.committed().len());
        Ok(bay)
    }
}

/// Whether exactly the step 0 stands once it was gathered by so many ranks within so much room, in windows of so many
/// batches.
fn gathers<R: Threads + Sync + Abort>(
    rt: &R,
    alloc: Global,
    ranks: u32,
    (dataset, room, windows): (&Dataset, u64, &[u32]),
) -> Result<bool, Fail> {
    let mut opened = Opened::new(alloc, rt, dataset, ranks, room)?;
    for &batches in windows {
        opened = opened.window(rt, alloc, dataset.raw, batches)?;
    }
    let bay = opened.commit(alloc, rt)?;
    Ok(dataset.is_step(alloc, bay.committed())?)
}

/// Of how many batches each window is within some room: a piece has one point, and a file 8 of the 16 points, or one of
/// the two. A file of the base has 128 bytes.
static WINDOWS: [(&Dataset, u64, &[u32]); 9] = [
    (&BASE, 1, &[8, 8]),
    (&BASE, 3, &[3, 3]),
    (&BASE, 4, &[2, 2]),
    (&BASE, 8, &[1, 1]),
    (&BASE, 128, &[1, 1]),
    (&BASE, 255, &[1, 1]),
    (&BASE, 256, &[1]),
    (&FIELDS, 12, &[2, 2]),
    (&SPARSE, 1, &[1, 1]),
];

#[test]
fn windows_and_batches_keep_to_the_room(rt: HostRuntime) -> Result<(), Fail> {
    for case in &WINDOWS {
        for &ranks in &[1, 2, 3, 8] {
            assert!(rt; gathers(&rt, rt.alloc(), ranks, *case)?);
        }
    }
    Ok(())
}

#[test]
fn a_box_is_divided_among_ranks(rt: HostRuntime) -> Result<(), Fail> {
    let region = BASE.header(rt.alloc(), &rt).region();
    assert!(rt; rank_regions(rt.alloc(), &region, 3)?.len() == 3);
    Ok(())
}
