//! The questions of a drill, and their answers in a run.
ghost use Rattle.std.specs.Prelude.{◌≡◌, ◌≤◌, ◌+◌, IfOk, IsSomeAnd, OnOk, length};
ghost use Rattle.idx_drill_model.specs.Blocks.{new_blocks};
ghost use Rattle.idx_drill_model.specs.Drill.{drill_ask, drill_asks, drill_depth, drill_header};
ghost use Rattle.idx_drill.specs.Drilled.{drill_answer};
ghost use Rattle.idx_drill.specs.Runs.{IsAskedBelow, answers_below, reads_below};

use idx_edition::Edition;
use idx_hall::Hall;
use idx_header::Header;
use idx_memory::{MemLeaf, MemReader};
use idx_outside::{Bytes, NoMemory};
use idx_plan::Ask;
use idx_query::{QueryFault, answer};
use idx_turn::Solo;
use std::alloc::Global;

/// The hall of a run, with its one owner.
type OwnHall = Solo<Hall<Edition<MemLeaf>>>;

/// What a run answered: the answer to the question for each level, and how many blocks were read for all of them.
#[derive(Drop)]
pub(crate) struct Answered {
    pub(crate) answers: Vec<Bytes>,
    pub(crate) reads: u64,
}

/// The questions: for each level the samples that have it, of the whole box.
pub(crate) fn drill_asks(alloc: Global, number: u32, header: &Header) -> Result<Vec<Ask>, NoMemory>
    requires header { header.now ≡ drill_header number }
    ensures { IfOk result (λ asks. asks.items ≡ drill_asks number) }
{
    let mut asks = Vec::new(alloc);
    for level in 0..header.max_level() + 1 {
        asks.push(Ask {
            time: 0,
            field: 0,
            region: header.region(),
            lo: level,
            hi: level,
        })?;
    }
    Ok(asks)
}

/// Asks for each level in turn in a hall in which the step of the drill alone was published, and nothing is cached.
pub(crate) fn ask_all(
    alloc: Global,
    number: u32,
    header: &Header,
    asks: &Vec<Ask>,
    hall: Hall<Edition<MemLeaf>>,
) -> Result<Answered, NoMemory>
    requires some { 1 ≤ number }
    requires few { number ≤ 8 }
    requires header { header.now ≡ drill_header number }
    requires asks { asks.now.items ≡ drill_asks number }
    requires hall { IsAskedBelow number 0 hall }
    ensures answers { IfOk result (λ run. run.answers.items ≡ answers_below number (drill_depth number + 1)) }
    ensures reads { IfOk result (λ run. run.reads ≡ reads_below number (drill_depth number + 1)) }
{
    let mut turn = Solo::new(hall);
    let mut reader = MemReader::new(Vec::new(alloc));
    let mut answers = Vec::new(alloc);
    let mut reads = 0;
    for level in 0..asks.len() {
        let (samples, read) = ask_level(
            alloc,
            number,
            level as u32,
            header,
            &asks[level],
            &mut turn,
            &mut reader,
        )?;
        answers.push(samples)?;
        reads += read;
    }
    Ok(Answered { answers, reads })
}

/// Asks for a level: its samples, and how many blocks were read.
fn ask_level(
    alloc: Global,
    number: u32,
    level: u32,
    header: &Header,
    ask: &Ask,
    turn: &mut OwnHall,
    reader: &mut MemReader,
) -> Result<(Bytes, u64), NoMemory>
    requires some { 1 ≤ number }
    requires few { number ≤ 8 }
    requires level { level ≤ drill_depth number }
    requires header { header.now ≡ drill_header number }
    requires ask { ask.now ≡ drill_ask number level }
    requires hall { IsSomeAnd turn.old.kept (IsAskedBelow number level) }
    ensures answer { IfOk result (λ answered. answered.0 ≡ drill_answer number level) }
    ensures reads { IfOk result (λ answered. answered.1 ≡ length (new_blocks number level)) }
    ensures hall { OnOk result (IsSomeAnd turn.new.kept (IsAskedBelow number (level + 1))) }
{
    let mut samples = Bytes::new(alloc);
    match answer(alloc, header, ask, turn, reader, &mut samples) {
        Ok(report) => Ok((samples, report.reads)),
        Err(QueryFault::Plan(_)) => unreachable!(),
        Err(QueryFault::NotPublished { .. }) => unreachable!(),
        Err(QueryFault::NoMemory | QueryFault::StoreFault { .. }) => Err(NoMemory),
    }
}
