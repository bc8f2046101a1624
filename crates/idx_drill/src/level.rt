//! What a drill says of a level.
ghost use Rattle.std.specs.Prelude.{◌≡◌, ◌≤◌, ◌^◌, IfOk, length, map, sum};
ghost use Rattle.idx_drill_model.specs.Drill.{drill_depth, drill_header};
ghost use Rattle.idx_drill.specs.Drilled.{drill_level, drill_levels, level_of};
ghost use Rattle.idx_drill.specs.Runs.{AreAnswered};

use idx_core::World;
use idx_header::Header;
use idx_outside::{Bytes, NoMemory};
use std::alloc::Global;

/// A level: how many samples have it, and the sum of their bytes.
#[derive(Clone, Copy, Debug, PartialEq, Eq)]
pub struct Level {
    /// The level, from 0.
    pub level: u32,
    /// How many samples have it.
    pub samples: u64,
    /// The sum of these samples, each one byte.
    pub sum: u64,
}

/// What is said of each level, by the answers that the questions for all levels have in a world.
pub(crate) fn levels_of(
    alloc: Global,
    number: u32,
    header: &Header,
    world: &World,
) -> Result<Vec<Level>, NoMemory>
    requires few { number ≤ 8 }
    requires header { header.now ≡ drill_header number }
    requires answers { AreAnswered number world.now.world.queries }
    ensures { IfOk result (λ levels. levels.items ≡ map (drill_level number) (drill_levels number)) }
{
    let mut levels = Vec::new(alloc);
    for level in 0..header.max_level() + 1 {
        levels.push(level_at(number, level, world))?;
    }
    Ok(levels)
}

/// What is said of a level, by the answer that its question has in a world.
fn level_at(number: u32, level: u32, world: &World) -> Level
    requires few { number ≤ 8 }
    requires level { level ≤ drill_depth number }
    requires answers { AreAnswered number world.now.world.queries }
    ensures { result ≡ drill_level number level }
{
    match world.answer_of(u64::from(level)) {
        Some(samples) => level_of(level, samples),
        None => unreachable!(),
    }
}

/// What is said of a level, by the samples that have it.
fn level_of(level: u32, samples: &Bytes) -> Level
    requires few { length samples.now ≤ 2 ^ 24 }
    ensures { result ≡ level_of level samples.now }
{
    Level {
        level,
        samples: samples.len() as u64,
        sum: sum_of(samples),
    }
}

/// The sum of so many bytes.
fn sum_of(bytes: &Bytes) -> u64
    requires few { length bytes.now ≤ 2 ^ 24 }
    ensures { result ≡ sum bytes.now }
{
    let mut sum = 0;
    for byte in bytes.as_slice() {
        sum += u64::from(*byte);
    }
    sum
}
