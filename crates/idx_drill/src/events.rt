//! The events of a drill's run, in order.
ghost use Rattle.std.specs.Prelude.{◌≡◌, ◌++◌, ◌-◌, ◌≤◌, All, IfOk, OnOk, filter, map};
ghost use Rattle.std.specs.List.{flat_map, range_with_len};
ghost use Rattle.idx_geom.specs.Region.{upper_ends};
ghost use Rattle.idx_hz.specs.Mask.{HasAddress};
ghost use Rattle.idx_layout.specs.OfHeader.{placing_of};
ghost use Rattle.idx_layout.specs.Placing.{file_numbers};
ghost use Rattle.idx_dock.specs.Dock.{reaches};
ghost use Rattle.idx_events.specs.Lists.{has};
ghost use Rattle.idx_events.specs.declared.event.Event.TheVariants.{Give, Ship, Write};
ghost use Rattle.idx_drill_events.specs.Lists.{all_asked, asked, loads};
ghost use Rattle.idx_drill_model.specs.Blocks.{new_blocks};
ghost use Rattle.idx_drill_model.specs.Drill.{drill_bits, drill_depth, drill_header};
ghost use Rattle.idx_drill.specs.Drilled.{drill_events, drill_questions, drill_ranks};

use crate::writing::RANKS;
use idx_dock::reaches;
use idx_events::Event;
use idx_gather::gather_room;
use idx_header::Header;
use idx_layout::files;
use idx_outside::NoMemory;
use idx_pieces::{Piece, piece_digits, pieces};
use std::alloc::Global;

/// The events of the drill of a number: the step is written and published, and then each level is asked for.
pub(crate) fn drill_events(
    alloc: Global,
    number: u32,
    header: &Header,
) -> Result<Vec<Event>, NoMemory>
    requires some { 1 ≤ number }
    requires few { number ≤ 8 }
    requires header { header.now ≡ drill_header number }
    ensures { IfOk result (λ events. events.items ≡ drill_events number) }
{
    let pieces = pieces(alloc, header, piece_digits(header, gather_room()), RANKS)?;
    let mut events = Vec::new(alloc);
    give_all(&pieces, &mut events)?;
    ship_all(header, &pieces, &mut events)?;
    write_all(header, &mut events)?;
    events.push(Event::Publish {
        time: 0,
        revision: 0,
    })?;
    ask_all(number, header, &mut events)?;
    Ok(events)
}

/// Each rank gives its parts, by rank and then by piece.
fn give_all(pieces: &Vec<Piece>, events: &mut Vec<Event>) -> Result<(), NoMemory>
    ensures { OnOk result (events.new.items ≡ events.old.items ++ flat_map (λ rank.
        map (λ piece. Give 0 0 rank piece.id) (filter (λ piece. has rank piece.ranks) pieces.now.items))
        (range_with_len 0 drill_ranks)) }
{
    for rank in 0..RANKS {
        give_parts(rank, pieces, events)?;
    }
    Ok(())
}

/// A rank gives its parts, by piece.
fn give_parts(rank: u32, pieces: &Vec<Piece>, events: &mut Vec<Event>) -> Result<(), NoMemory>
    ensures { OnOk result (events.new.items ≡ events.old.items ++
        map (λ piece. Give 0 0 rank piece.id) (filter (λ piece. has rank piece.ranks) pieces.now.items)) }
{
    for piece in pieces {
        if has_rank(piece, rank) {
            events.push(Event::Give {
                time: 0,
                revision: 0,
                rank: u64::from(rank),
                piece: piece.id,
            })?;
        }
    }
    Ok(())
}

/// Whether a rank has a part of a piece.
fn has_rank(piece: &Piece, rank: u32) -> bool
    ensures { result ≡ has rank piece.now.ranks }
{
    piece.ranks.as_slice().contains(&rank)
}

/// Each piece is shipped to the files in which it has a point, by piece and then by file.
fn ship_all(header: &Header, pieces: &Vec<Piece>, events: &mut Vec<Event>) -> Result<(), NoMemory>
    requires { All (λ piece. HasAddress header.now.mask (upper_ends piece.region)) pieces.now.items }
    ensures { OnOk result (events.new.items ≡ events.old.items ++ flat_map (λ piece.
        map (λ file. Ship 0 0 piece.id file) (filter (reaches header.now piece.region)
        (file_numbers (placing_of header.now)))) pieces.now.items) }
{
    for piece in pieces {
        ship_piece(header, piece, events)?;
    }
    Ok(())
}

/// A piece is shipped to the files in which it has a point, by file.
fn ship_piece(header: &Header, piece: &Piece, events: &mut Vec<Event>) -> Result<(), NoMemory>
    requires { HasAddress header.now.mask (upper_ends piece.now.region) }
    ensures { OnOk result (events.new.items ≡ events.old.items ++
        map (λ file. Ship 0 0 piece.now.id file) (filter (reaches header.now piece.now.region)
        (file_numbers (placing_of header.now)))) }
{
    for file in files(header) {
        if reaches(header, &piece.region, file, file + header.blocks_per_file()) {
            events.push(Event::Ship {
                time: 0,
                revision: 0,
                piece: piece.id,
                file,
            })?;
        }
    }
    Ok(())
}

/// Each file is written.
fn write_all(header: &Header, events: &mut Vec<Event>) -> Result<(), NoMemory>
    ensures { OnOk result (events.new.items ≡ events.old.items ++
        map (λ file. Write 0 0 file) (file_numbers (placing_of header.now))) }
{
    for file in files(header) {
        events.push(Event::Write {
            time: 0,
            revision: 0,
            file,
        })?;
    }
    Ok(())
}

/// Each level is asked for, coarsest first.
fn ask_all(number: u32, header: &Header, events: &mut Vec<Event>) -> Result<(), NoMemory>
    requires few { number ≤ 8 }
    requires header { header.now ≡ drill_header number }
    ensures { OnOk result (events.new.items ≡ events.old.items ++ all_asked 0 (drill_questions number)) }
{
    for level in 0..header.max_level() + 1 {
        ask_level(number, header, level, events)?;
    }
    Ok(())
}

/// A level is asked for: the question of its number looks for its blocks, reads those that no coarser level needs, and
/// puts them into the cache, if there are any; and it is answered.
fn ask_level(
    number: u32,
    header: &Header,
    level: u32,
    events: &mut Vec<Event>,
) -> Result<(), NoMemory>
    requires few { number ≤ 8 }
    requires level { level ≤ drill_depth number }
    requires header { header.now ≡ drill_header number }
    ensures { OnOk result (events.new.items ≡ events.old.items ++ asked level (new_blocks number level)) }
{
    let query = u64::from(level);
    events.push(Event::Look { query })?;
    let (first, end) = new_blocks(number, header.bits_per_block(), level);
    load_blocks(query, first, end, events)?;
    events.push(Event::Answer { query })?;
    Ok(())
}

/// The blocks from a number on and before another are read and put into the cache, if there are any.
fn load_blocks(query: u64, first: u64, end: u64, events: &mut Vec<Event>) -> Result<(), NoMemory>
    ensures { OnOk result (events.new.items ≡ events.old.items ++ loads query (range_with_len first (end - first))) }
{
    if end <= first {
        return Ok(());
    }
    for block in first..end {
        events.push(Event::Read { query, block })?;
    }
    events.push(Event::Fill { query })?;
    Ok(())
}

/// The blocks that a level needs and no coarser one does: from a number on and before another, where a block has 2 to
/// so many samples.
fn new_blocks(number: u32, bits: u32, level: u32) -> (u64, u64)
    requires few { number ≤ 8 }
    requires bits { bits ≡ drill_bits number }
    requires level { level ≤ drill_depth number }
    ensures { range_with_len result.0 (result.1 - result.0) ≡ new_blocks number level }
{
    if level == 0 {
        (0, 1)
    } else if level <= bits {
        (0, 0)
    } else {
        let first = 1 << (level - 1 - bits);
        (first, 2 * first)
    }
}
