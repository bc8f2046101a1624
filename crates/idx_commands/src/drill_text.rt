ghost use Rattle.std.specs.Prelude.{◌≡◌, ◌++◌, IfOk, OnOk, flat_map};
ghost use Rattle.idx_commands.specs.DrillRun.{count_lines, drilled_text, level_line};

use crate::summary::{write_box, write_line};
use idx_drill::{Drilled, Level};
use idx_outside::{Bytes, NoMemory};
use idx_text::write_number;
use std::alloc::Global;

/// What a drill writes of itself: the lines of its box, of each level, of the files, the reads and the events.
#[tactic(auto, unfolding(crate::specs::DrillRun::drilled_text))]
pub fn drill_text(alloc: Global, drilled: &Drilled) -> Result<Bytes, NoMemory>
    ensures { IfOk result (λ text. text ≡ drilled_text drilled.now) }
{
    let mut text = Bytes::new(alloc);
    write_box(&drilled.extent(), &mut text)?;
    write_levels(drilled.levels(), &mut text)?;
    write_counts(drilled, &mut text)?;
    Ok(text)
}

/// Appends the lines of the levels.
#[tactic(auto, using(crate::proofs::SummaryLemmas::flat_map_more))]
fn write_levels(levels: &[Level], out: &mut Bytes) -> Result<(), NoMemory>
    ensures { OnOk result (out.new ≡ out.old ++ flat_map level_line levels.now) }
{
    for level in levels {
        write_level(level, out)?;
    }
    Ok(())
}

/// Appends the line of a level.
#[tactic(auto, unfolding(crate::specs::DrillRun::level_line))]
fn write_level(level: &Level, out: &mut Bytes) -> Result<(), NoMemory>
    ensures { OnOk result (out.new ≡ out.old ++ level_line level.now) }
{
    out.append(b"level ")?;
    write_number(u64::from(level.level), out)?;
    out.append(b" samples ")?;
    write_number(level.samples, out)?;
    out.append(b" sum ")?;
    write_number(level.sum, out)?;
    out.push(b'\n')
}

/// Appends the lines of the files, the reads and the events.
#[tactic(auto, unfolding(crate::specs::DrillRun::count_lines))]
fn write_counts(drilled: &Drilled, out: &mut Bytes) -> Result<(), NoMemory>
    ensures { OnOk result (out.new ≡ out.old ++ count_lines drilled.now) }
{
    out.append(b"files ")?;
    write_number(drilled.files(), out)?;
    out.append(b" bytes ")?;
    write_number(drilled.bytes(), out)?;
    out.push(b'\n')?;
    write_line(b"reads", drilled.reads(), out)?;
    write_line(b"events", drilled.events(), out)
}
