//! The program: it gives the words of the command line, files, standard output and sockets to `run`, and prints how the
//! run ended.
#![tactic(auto)]

ghost use Rattle.std.specs.Prelude.{◌<◌, vec_len};

mod announced_door;
mod kept_room;
mod outside;
mod server_notes;
mod standard_places;
mod work_line;

use idx_commands::{Cause, Done, run};
use idx_progress::WatchedBay;
use idx_real::{Sockets, StdSink};
use idx_report::{Hints, clear_work, report, text_asked_for, write_text};
use kept_room::kept_room;
use outside::{
    StdDoor, dataset_files, file_readers, last_fault, raw_files, refused_header, tcp_doors,
    wrong_file,
};
use server_notes::{server_notes, shared_notes};
use standard_places::hold_standard_places;
use std::alloc::AllocError;
use std::io::ErrorKind;
use std::process::ExitCode;
use std::sync::Wait;
use std::thread::Threads;
use std::{env, io};
use work_line::show_work;

fn main(rt: HostRuntime) -> ExitCode {
    let _places = hold_standard_places(&rt);
    match given_words(&rt) {
        Ok(words) => match text_asked_for(&words) {
            Some(text) => give_text(&rt, text),
            None => match tcp_doors(&rt, rt, &words) {
                Ok(doors) => give_run(&rt, &rt, &words, doors),
                Err(AllocError) => give_up(&rt, Cause::NoMemory),
            },
        },
        Err(e) if e.kind() == ErrorKind::OutOfMemory => give_up(&rt, Cause::NoMemory),
        Err(_) => give_up(&rt, Cause::Usage { at: 0 }),
    }
}

/// The words behind the program's name. Words that are not UTF-8 are an error.
fn given_words(rt: &HostRuntime) -> io::Result<Vec<String>> {
    Ok(env::args(rt)?.skip(1).collect(rt.alloc())?)
}

/// Writes a text to standard output.
fn give_text(rt: &HostRuntime, text: &str) -> ExitCode {
    let mut out = StdSink::new(rt.stdout());
    let done = write_text(&mut out, text);
    let hints = Hints::of_fault(out.last_fault());
    report(rt.alloc(), &mut rt.stderr(), done, &[], hints)
}

/// Does what the words ask for, over files, standard output and these doors, with threads of this runtime.
fn give_run<T: Threads + Wait + Sync, R: Sockets + Send>(
    rt: &HostRuntime,
    threads: &T,
    words: &[String],
    doors: Vec<StdDoor<R>>,
) -> ExitCode
    requires { 0 < vec_len doors }
{
    match run_over_files(rt, threads, words, doors) {
        Ok(status) => status,
        Err(AllocError) => give_up(rt, Cause::NoMemory),
    }
}

/// The same, where there is memory for the objects of the outside.
fn run_over_files<T: Threads + Wait + Sync, R: Sockets + Send>(
    rt: &HostRuntime,
    threads: &T,
    words: &[String],
    mut doors: Vec<StdDoor<R>>,
) -> Result<ExitCode, AllocError>
    requires { 0 < vec_len doors }
{
    let mut raws = raw_files(rt, words)?;
    let files = dataset_files(rt, words)?;
    let line = show_work(rt, words);
    let notes = server_notes(rt, words);
    let mut readers = file_readers(rt, words, &line, &notes)?;
    let mut out = StdSink::new(rt.stdout());
    let mut bay = WatchedBay::new(rt.alloc(), files, line, shared_notes(&notes));
    let _room = kept_room(rt, words);
    let done = run(
        threads,
        rt.alloc(),
        words,
        &mut raws,
        &mut bay,
        &mut readers,
        &mut out,
        &mut doors,
    );
    let mut err = rt.stderr();
    if bay.is_watched() {
        clear_work(&mut err);
    }
    let fault = last_fault(done.cause, &raws, bay.bay(), &readers, &out, &doors);
    let header = refused_header(rt, words, done.cause);
    let wrong = wrong_file(rt, words, done.cause);
    let hints = Hints {
        header: header.as_slice(),
        wrong: wrong.as_ref(),
        fault,
    };
    Ok(report(rt.alloc(), &mut err, done, words, hints))
}

/// Ends before anything was done.
fn give_up(rt: &HostRuntime, cause: Cause) -> ExitCode {
    let hints = Hints::of_fault(None);
    report(rt.alloc(), &mut rt.stderr(), Done::of(cause), &[], hints)
}
