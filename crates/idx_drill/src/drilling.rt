//! A drill: a run over a made dataset, and the same event by event.
ghost use Rattle.std.specs.Prelude.{◌≡◌, ◌≤◌, IfOk, OnOk};
ghost use Rattle.idx_drill.specs.Drilled.{IsReplayed, drill_value};

use crate::dataset::{drill_header, drill_volume};
use crate::events::drill_events;
use crate::level::{Level, levels_of};
use crate::questions::{ask_all, drill_asks};
use crate::replaying::{has_answers, replayed};
use crate::writing::write_step;
use idx_core::World;
use idx_geom::Region;
use idx_outside::{Bytes, NoMemory};
use std::alloc::Global;
use std::marker::Model;
use std::thread::Threads;

/// What a drill says of itself.
#[derive(Drop)]
pub struct Drilled {
    extent: Region,
    levels: Vec<Level>,
    ranks: u64,
    files: u64,
    bytes: u64,
    reads: u64,
    events: u64,
    world: World,
}

impl Model for Drilled {
    ghost use Rattle.idx_drill.specs.Drilled.{DrillValue};

    ghost Value = { DrillValue };

    ghost view = { λ d. record { box = d.extent; levels = d.levels.items; ranks = d.ranks; files = d.files; bytes = d.bytes; reads = d.reads; events = d.events; world = d.world } };
}

impl Drilled {
    /// The box of the dataset.
    pub fn extent(&self) -> Region
        ensures { result ≡ self.now.box }
    {
        self.extent
    }

    /// Of each level, coarsest first, how many samples it has, and the sum of their bytes.
    pub fn levels(&self) -> &[Level]
        ensures { result.now ≡ self.now.levels }
    {
        self.levels.as_slice()
    }

    /// How many ranks wrote the step.
    pub fn ranks(&self) -> u64
        ensures { result ≡ self.now.ranks }
    {
        self.ranks
    }

    /// How many files the step has.
    pub fn files(&self) -> u64
        ensures { result ≡ self.now.files }
    {
        self.files
    }

    /// How many bytes these have together.
    pub fn bytes(&self) -> u64
        ensures { result ≡ self.now.bytes }
    {
        self.bytes
    }

    /// How many blocks were read for all questions.
    pub fn reads(&self) -> u64
        ensures { result ≡ self.now.reads }
    {
        self.reads
    }

    /// How many events there were.
    pub fn events(&self) -> u64
        ensures { result ≡ self.now.events }
    {
        self.events
    }

    /// The world in which the events were done.
    pub fn world(&self) -> &World
        ensures { result.now ≡ self.now.world }
    {
        &self.world
    }
}

/// The drill of a number, 1 to 8: a volume of 2 to that number points along each of three axes is made, written by four ranks,
/// each in a thread of its own, into a store in memory, published, and asked for each of its levels, coarsest first. The same
/// is done again event by event (`replay`), and the answers are compared: they are the same. What is said of the levels is
/// counted in the answers of that world, which is kept.
pub fn drill<T: Threads + Sync>(rt: &T, alloc: Global, number: u32) -> Result<Drilled, NoMemory>
    requires some { 1 ≤ number }
    requires few { number ≤ 8 }
    ensures value { IfOk result (λ drilled. drilled ≡ drill_value number) }
    ensures replayed { OnOk result (IsReplayed number) }
{
    let header = drill_header(alloc, number)?;
    let volume = drill_volume(alloc, number)?;
    let asks = drill_asks(alloc, number, &header)?;
    let step = write_step(rt, alloc, number, &header, &volume)?;
    let run = ask_all(alloc, number, &header, &asks, step.hall)?;
    let events = drill_events(alloc, number, &header)?;
    let world = replayed(alloc, number, &header, volume, &asks, &events)?;
    if !has_answers(&world, &run.answers) {
        unreachable!();
    }
    Ok(Drilled {
        extent: header.region(),
        levels: levels_of(alloc, number, &header, &world)?,
        ranks: step.ranks,
        files: step.files,
        bytes: step.bytes,
        reads: run.reads,
        events: events.len() as u64,
        world,
    })
}
