//! Which of the delivered runs is written next.
ghost use Rattle.std.specs.Prelude.{◌≡◌, ℕ, ◌+◌, ◌*◌, ◌^◌, ◌<◌, ◌≤◌, All, IsTrue, List, length, slice_get, slice_index_or, true};
ghost use Rattle.std.specs.Option.{option_copied};
ghost use Rattle.idx_header.specs.Header.{IsHeader, block_count};
ghost use Rattle.idx_pieces.specs.declared.run.Run.{Run as RunValue};
ghost use Rattle.idx_pieces.specs.Runs.{IsRun, run_length};
ghost use Rattle.idx_dock.specs.Content.{runs_in};
ghost use Rattle.idx_dock.specs.Next.{ArePassed, AreWritable, BeginsBy, IsNext, IsPassed, RiseIn, earlier_of, is_left, runs_of};

use crate::Awaited;
use idx_header::Header;
use idx_pieces::Run;

/// The run that is written next: the least, by its first address, of those with a sample of a field at an address or
/// behind it. Of each piece so many runs are known to have none. The piece whose turn it is, by its place, is asked first:
/// where its run has the sample at the address, no other run has, and then it is the next piece's turn.
pub(crate) fn next_run<'a>(
    header: &Header,
    file: u64,
    field: u32,
    from: u64,
    awaited: &'a [Awaited],
    passed: &mut [usize],
    turn: &mut usize,
) -> Option<&'a Run>
    requires writable { AreWritable header.now file awaited.now }
    requires passed { ArePassed header.now field from awaited.now passed.old }
    ensures next { IsNext header.now field from (runs_in awaited.now) (option_copied result) }
    ensures passed { ArePassed header.now field from awaited.now passed.new }
{
    let place = *turn;
    if place < awaited.len() {
        let run = next_of_piece(
            header,
            file,
            field,
            from,
            &awaited[place],
            &mut passed[place],
        );
        if begins_by(run, from) {
            *turn = place + 1;
            return run;
        }
    }
    least_run(header, file, field, from, awaited, passed, turn)
}

/// The same, out of the runs of all pieces.
fn least_run<'a>(
    header: &Header,
    file: u64,
    field: u32,
    from: u64,
    awaited: &'a [Awaited],
    passed: &mut [usize],
    turn: &mut usize,
) -> Option<&'a Run>
    requires writable { AreWritable header.now file awaited.now }
    requires passed { ArePassed header.now field from awaited.now passed.old }
    ensures next { IsNext header.now field from (runs_in awaited.now) (option_copied result) }
    ensures passed { ArePassed header.now field from awaited.now passed.new }
{
    let mut next = None;
    for i in 0..awaited.len() {
        let run = next_of_piece(header, file, field, from, &awaited[i], &mut passed[i]);
        if begins_by(run, from) {
            *turn = i + 1;
            return run;
        }
        next = earlier(next, run);
    }
    next
}

/// Whether there is a run, and it begins at an address or before it.
fn begins_by(run: Option<&Run>, from: u64) -> bool
    ensures { IsTrue result → BeginsBy from (option_copied run.entry) }
{
    match run {
        Some(run) => run.first <= from,
        None => false,
    }
}

/// The same of the runs of one piece.
fn next_of_piece<'a>(
    header: &Header,
    file: u64,
    field: u32,
    from: u64,
    awaited: &'a Awaited,
    passed: &mut usize,
) -> Option<&'a Run>
    requires valid { IsHeader header.now }
    requires exists { file < block_count header.now }
    requires runs { All (IsRun header.now file) (runs_of awaited.now) }
    requires rise { RiseIn header.now field (runs_of awaited.now) }
    requires passed { IsPassed header.now field from (runs_of awaited.now) passed.old }
    ensures next { IsNext header.now field from (runs_of awaited.now) (option_copied result) }
    ensures passed { IsPassed header.now field from (runs_of awaited.now) passed.new }
{
    let runs = runs_of(awaited);
    let place = pass(header, file, field, from, runs, *passed);
    *passed = place;
    run_at(runs, place)
}

/// The run at a place, if there is one.
fn run_at(runs: &[Run], place: usize) -> Option<&Run>
    ensures { option_copied result ≡ slice_get runs.now place }
{
    runs.get(place)
}

/// The runs of a piece.
fn runs_of(awaited: &Awaited) -> &[Run]
    ensures { result.now ≡ runs_of awaited.now }
{
    match &awaited.runs {
        Some(runs) => runs.as_slice(),
        None => &[],
    }
}

/// The first place, from one on, of a run with a sample of a field at an address or behind it, or the number of runs.
fn pass(header: &Header, file: u64, field: u32, from: u64, runs: &[Run], place: usize) -> usize
    requires valid { IsHeader header.now }
    requires exists { file < block_count header.now }
    requires runs { All (IsRun header.now file) runs.now }
    requires passed { IsPassed header.now field from runs.now place }
    ensures passed { IsPassed header.now field from runs.now result }
    ensures left { (d : RunValue) → result < length runs.now → is_left header.now field from (slice_index_or runs.now result d) ≡ true }
{
    let mut place = place;
    while place < runs.len() && !is_left(header, file, field, from, &runs[place]) {
        place += 1;
    }
    place
}

/// Whether a run has a sample of a field at an address or behind it.
fn is_left(header: &Header, file: u64, field: u32, from: u64, run: &Run) -> bool
    requires valid { IsHeader header.now }
    requires exists { file < block_count header.now }
    requires run { IsRun header.now file run.now }
    ensures { result ≡ is_left header.now field from run.now }
{
    run.field == field && from < end_of(header, file, run)
}

/// The address behind a run.
pub(crate) fn end_of(header: &Header, file: u64, run: &Run) -> u64
    requires valid { IsHeader header.now }
    requires exists { file < block_count header.now }
    requires run { IsRun header.now file run.now }
    ensures value { result ≡ run.now.first + run_length header.now run.now }
    ensures few { result ≤ 2 ^ 50 }
{
    run.first + run.bytes.len() as u64 / header.sample_bytes(run.field)
}

/// That of two runs which begins first.
fn earlier<'a>(one: Option<&'a Run>, other: Option<&'a Run>) -> Option<&'a Run>
    ensures { option_copied result ≡ earlier_of (option_copied one.entry) (option_copied other.entry) }
{
    match (one, other) {
        (Some(one), Some(other)) if other.first < one.first => Some(other),
        (Some(one), _) => Some(one),
        (None, other) => other,
    }
}
