ghost use Rattle.std.specs.Prelude.{◌≡◌, ℕ, ◌<◌, ◌^◌, All, slice_index_or, vec_len};
ghost use Rattle.idx_ranks.specs.Jobs.{MayRead, Reads};
ghost use Rattle.idx_ranks.specs.declared.job.Job.{Job as AJob};

use idx_geom::Region;
use idx_header::Header;
use idx_outside::{Gate, GatePlace, Source};
use idx_pieces::{Parcel, Piece, RawRefusal, read_rank};
use std::alloc::Global;
use std::thread;
use std::thread::Threads;

/// What a worker does: it reads what a rank has of some pieces. Before that, what was read is `NoMemory`.
pub(crate) struct Job<V> {
    /// The raw volume.
    pub(crate) raw: V,
    /// The part of the box that the rank has, where it has one.
    pub(crate) region: Option<Region>,
    /// The number of the rank, from 0.
    pub(crate) rank: u32,
    /// What was read: a parcel for each piece that the rank has a part of. A rank without a part has none.
    pub(crate) read: Result<Vec<Parcel>, RawRefusal>,
}

impl<V: Source> Job<V> {
    /// Reads the parts. The raw volume of a rank without a part is not touched.
    fn run(&mut self, alloc: Global, header: &Header, pieces: &Vec<Piece>)
        requires { MayRead V.contents header.now pieces.now.items self.old }
        ensures { Reads V.contents V.faults V.asked header.now pieces.now.items self.old self.new }
    {
        match self.region {
            Some(region) => {
                self.read = read_rank(alloc, &mut self.raw, header, &region, self.rank, pieces);
            }
            None => {
                self.read = Ok(Vec::new(alloc));
            }
        }
    }
}

/// Runs all jobs, each in a thread of its own where one can be had.
pub(crate) fn run_all<V: Source + Send, G: Gate, R: Threads + Sync>(
    rt: &R,
    alloc: Global,
    header: &Header,
    pieces: &Vec<Piece>,
    jobs: &mut Vec<Job<V>>,
    gate: &G,
)
    requires few { vec_len jobs.old < 2 ^ 32 }
    requires some { 0 < vec_len jobs.old }
    requires may { All (MayRead V.contents header.now pieces.now.items) jobs.old.items }
    ensures number { vec_len jobs.new ≡ vec_len jobs.old }
    ensures each { (i : ℕ) (d : AJob V) → i < vec_len jobs.old →
        Reads V.contents V.faults V.asked header.now pieces.now.items
        (slice_index_or jobs.old.items i d) (slice_index_or jobs.new.items i d) }
{
    let threads = jobs.len();
    thread::for_each_mut(
        rt,
        jobs.as_mut_slice(),
        threads,
        &|i: usize, job: &mut Job<V>|
            requires { (i < 2 ^ 32) × MayRead V.contents header.now pieces.now.items job.old }
            ensures { Reads V.contents V.faults V.asked header.entry.now pieces.entry.now.items job.old job.new }
        {
            job.run(alloc, header, pieces);
            gate.pass(GatePlace::Parcelled, i as u32);
        },
    );
}
