ghost use Rattle.std.specs.Prelude.{◌≡◌, ◌≤◌, IfOk, None, [], option_copied, slice_get};
ghost use Rattle.std.specs.Option.{IsSome, option_map_or};
ghost use Rattle.idx_events.specs.Events.{effect};
ghost use Rattle.idx_events.specs.Volumes.{sealed_files};
ghost use Rattle.idx_events.specs.WorldOk.{WorldOk};
ghost use Rattle.idx_events.specs.declared.event.Event.TheVariants.{Give, Ship, Write, Publish, Abandon, Look, Read, Fill, Evict, Answer};
ghost use Rattle.idx_core_layers.specs.Division.{layers_of};
ghost use Rattle.idx_core_model.specs.Headline.{HeadlineHolds};
ghost use Rattle.idx_core.specs.NewWorld.{IsNewWorld};
ghost use Rattle.idx_core.specs.World.{IsReplay, IsStep};

use crate::WorldRefusal;
use crate::publishing::publish_in;
use crate::taking::{ask_all, empty_hall, steps_of, wrong_volume};
use idx_core_asks::{Asked, answer_in, fill_in, look_in, read_in};
use idx_core_forms::{HeldLeaf, HeldReader};
use idx_core_layers::{Division, StepRefusal};
use idx_core_steps::{Step, abandon_in, give_in, ship_in, write_in};
use idx_edition::Edition;
use idx_events::Event;
use idx_gather::gather_room;
use idx_hall::Hall;
use idx_header::Header;
use idx_outside::{Bytes, NoMemory};
use idx_pieces::piece_digits;
use idx_plan::Ask;
use std::alloc::Global;
use std::marker::Model;

/// A dataset with the revisions of its timesteps that are written, the published steps and the cache of their blocks, and
/// the questions that are asked. What holds of every world that events lead to is its invariant.
#[derive(Drop)]
pub struct World {
    below: Division,
    steps: Vec<Step>,
    hall: Hall<Edition<HeldLeaf>>,
    asked: Vec<Asked>,
}

impl Model for World {
    ghost use Rattle.idx_core.specs.World.{CoreValue, IsCore, core_of};

    ghost Value = { CoreValue };

    ghost view = { λ w. core_of w.below w.steps.items w.hall w.asked.items };

    ghost invariant = { λ w. IsCore w.below w.steps.items w.hall w.asked.items };
}

impl World {
    /// A new world of a dataset, whose box is divided into pieces and among so many ranks: of volumes, each with its
    /// timestep and raw bytes, and of questions, with a cache of so many blocks. The volumes of a timestep are its revisions,
    /// in order. Nothing was given, shipped, written or published, and nothing was looked for.
    ///
    /// Answers `WrongVolume` at the first volume that has another length than the dataset's, or a timestep that the dataset
    /// lacks, or 256 of its timestep before it; where there is none, `WrongAsk` at the first question that names no field,
    /// has other axes or has no plan; and `NoMemory`.
    pub fn new(
        alloc: Global,
        header: &Header,
        ranks: u32,
        volumes: &Vec<(u64, Bytes)>,
        asks: &Vec<Ask>,
        capacity: u32,
    ) -> Result<World, WorldRefusal>
        requires time { IsSome header.now.steps }
        requires ranks_some { 1 ≤ ranks }
        requires ranks_few { ranks ≤ 256 }
        requires some { 1 ≤ capacity }
        requires few { capacity ≤ 65536 }
        ensures { IsNewWorld header.now ranks volumes.now.items asks.now.items capacity result }
    {
        if let Some(at) = wrong_volume(header, volumes) {
            return Err(WorldRefusal::WrongVolume { at });
        }
        let digits = piece_digits(header, gather_room());
        let below = Division::new(alloc, header, digits, ranks)?;
        let asked = ask_all(alloc, &below, asks)?;
        let steps = steps_of(alloc, &below, volumes)?;
        let hall = empty_hall(alloc, below.header(), capacity)?;
        Ok(World {
            below,
            steps,
            hall,
            asked,
        })
    }

    /// The written files of the volume of a place, from 0, by rising number, each with its path and bytes; none where there
    /// is no such volume.
    pub fn files_of(&self, alloc: Global, volume: u64) -> Result<Vec<(Bytes, HeldLeaf)>, NoMemory>
        ensures { IfOk result (λ files. files.items ≡
            option_map_or (λ v. sealed_files v.slots) (slice_get self.now.world.volumes volume) []) }
    {
        match self.steps.get(volume as usize) {
            Some(step) => step.written_files(alloc),
            None => Ok(Vec::new(alloc)),
        }
    }

    /// The answer to the question of a number, from 0: the samples that it asks for, of the published volume of its post.
    /// `None` exactly where it has not been answered, or where there is no such question.
    pub fn answer_of(&self, query: u64) -> Option<&Bytes>
        ensures { option_copied result ≡
            option_map_or (λ x. x.answer) (slice_get self.now.world.queries query) None }
    {
        match self.asked.get(query as usize) {
            Some(asked) => asked.answer(),
            None => None,
        }
    }

    fn give(&mut self, time: u64, revision: u64, rank: u64, piece: u64) -> Result<(), StepRefusal>
        ensures layers { self.new.layers ≡ self.old.layers }
        ensures step { IsStep (layers_of self.old.layers) self.old.world (Give time revision rank piece) result self.new.world }
    {
        give_in(&self.below, &mut self.steps, time, revision, rank, piece)
    }

    fn ship(
        &mut self,
        alloc: Global,
        time: u64,
        revision: u64,
        piece: u64,
        file: u64,
    ) -> Result<(), StepRefusal>
        ensures layers { self.new.layers ≡ self.old.layers }
        ensures step { IsStep (layers_of self.old.layers) self.old.world (Ship time revision piece file) result self.new.world }
    {
        ship_in(
            alloc,
            &self.below,
            &mut self.steps,
            time,
            revision,
            piece,
            file,
        )
    }

    fn write(
        &mut self,
        alloc: Global,
        time: u64,
        revision: u64,
        file: u64,
    ) -> Result<(), StepRefusal>
        ensures layers { self.new.layers ≡ self.old.layers }
        ensures step { IsStep (layers_of self.old.layers) self.old.world (Write time revision file) result self.new.world }
    {
        write_in(alloc, &self.below, &mut self.steps, time, revision, file)
    }

    fn publish(&mut self, alloc: Global, time: u64, revision: u64) -> Result<(), StepRefusal>
        ensures layers { self.new.layers ≡ self.old.layers }
        ensures step { IsStep (layers_of self.old.layers) self.old.world (Publish time revision) result self.new.world }
    {
        publish_in(
            alloc,
            &self.below,
            &mut self.steps,
            &mut self.hall,
            time,
            revision,
        )
    }

    fn abandon(&mut self, time: u64, revision: u64) -> Result<(), StepRefusal>
        ensures layers { self.new.layers ≡ self.old.layers }
        ensures step { IsStep (layers_of self.old.layers) self.old.world (Abandon time revision) result self.new.world }
    {
        abandon_in(&mut self.steps, time, revision)
    }

    fn look(&mut self, alloc: Global, query: u64) -> Result<(), StepRefusal>
        ensures layers { self.new.layers ≡ self.old.layers }
        ensures step { IsStep (layers_of self.old.layers) self.old.world (Look query) result self.new.world }
    {
        look_in(alloc, &self.below, &mut self.hall, &mut self.asked, query)
    }

    fn read(&mut self, alloc: Global, query: u64, block: u64) -> Result<(), StepRefusal>
        ensures layers { self.new.layers ≡ self.old.layers }
        ensures step { IsStep (layers_of self.old.layers) self.old.world (Read query block) result self.new.world }
    {
        let mut reader = HeldReader::new();
        read_in(
            alloc,
            &self.below,
            &self.hall,
            &mut reader,
            &mut self.asked,
            query,
            block,
        )
    }

    fn fill(&mut self, alloc: Global, query: u64) -> Result<(), StepRefusal>
        ensures layers { self.new.layers ≡ self.old.layers }
        ensures step { IsStep (layers_of self.old.layers) self.old.world (Fill query) result self.new.world }
    {
        fill_in(alloc, &mut self.hall, &mut self.asked, query)
    }

    fn answer(&mut self, alloc: Global, query: u64) -> Result<(), StepRefusal>
        ensures layers { self.new.layers ≡ self.old.layers }
        ensures step { IsStep (layers_of self.old.layers) self.old.world (Answer query) result self.new.world }
    {
        answer_in(alloc, &self.below, &mut self.asked, query)
    }

    fn evict(&mut self, count: u64)
        ensures layers { self.new.layers ≡ self.old.layers }
        ensures step { self.new.world ≡ effect (layers_of self.old.layers) self.old.world (Evict count) }
    {
        self.hall.evict(count);
    }

    /// Does exactly what the event does where it may happen. After `NotEnabled`, which comes exactly where it may not, and
    /// after `NoMemory` the world is as it was.
    pub(crate) fn step(&mut self, alloc: Global, event: &Event) -> Result<(), StepRefusal>
        ensures layers { self.new.layers ≡ self.old.layers }
        ensures step { IsStep (layers_of self.old.layers) self.old.world event.now result self.new.world }
    {
        match *event {
            Event::Give {
                time,
                revision,
                rank,
                piece,
            } => self.give(time, revision, rank, piece),
            Event::Ship {
                time,
                revision,
                piece,
                file,
            } => self.ship(alloc, time, revision, piece, file),
            Event::Write {
                time,
                revision,
                file,
            } => self.write(alloc, time, revision, file),
            Event::Publish { time, revision } => self.publish(alloc, time, revision),
            Event::Abandon { time, revision } => self.abandon(time, revision),
            Event::Look { query } => self.look(alloc, query),
            Event::Read { query, block } => self.read(alloc, query, block),
            Event::Fill { query } => self.fill(alloc, query),
            Event::Evict { count } => {
                self.evict(count);
                Ok(())
            }
            Event::Answer { query } => self.answer(alloc, query),
        }
    }

    /// Does the events one after another. Where one is refused, it answers the place of that one and why, and the world is as
    /// it was before it.
    pub(crate) fn replay(
        &mut self,
        alloc: Global,
        events: &[Event],
    ) -> Result<(), (u64, StepRefusal)>
        ensures layers { self.new.layers ≡ self.old.layers }
        ensures replay { IsReplay (layers_of self.old.layers) self.old.world events.now result self.new.world }
    {
        for i in 0..events.len() {
            if let Err(refusal) = self.step(alloc, &events[i]) {
                return Err((i as u64, refusal));
            }
        }
        Ok(())
    }
}

/// What holds of every world: published files are byte for byte those that one rank writes, each cached entry is its
/// published block, and each answer is exactly what was asked for. What every event keeps holds too.
pub fn holds_headline(world: &World)
    ensures headline { HeadlineHolds world.now.layers.header world.now.world }
    ensures kept { WorldOk (layers_of world.now.layers) world.now.world }
{
    let _ = &world.below;
}
