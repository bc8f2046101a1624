//! Runs over the forms of a setting.
use crate::forms::{Forms, forms_of};
use crate::object::{Fail, Object};
use crate::outcome::push_outcome;
use crate::setting::{Setting, copies};
use anyhow::{Context, Result};
use idx_commands::{Done, run};
use idx_memory::MemBay;
use std::alloc::{AllocError, Global};
use std::sync::Wait;
use std::thread::Threads;

/// Runs, and keeps the header and the files that stand afterwards. Gives what is to be printed.
pub fn run_once<T: Threads + Wait + Sync>(
    rt: &T,
    alloc: Global,
    setting: &mut Setting,
) -> Result<String> {
    let mut report = format!(in alloc; "== {}\n", setting.name)?;
    let bay = run_over(rt, alloc, setting, &mut report)?;
    keep(alloc, setting, &bay)?;
    Ok(report)
}

fn keep(alloc: Global, setting: &mut Setting, bay: &MemBay) -> Result<(), AllocError> {
    setting.header = Vec::from_slice(alloc, bay.header_text().as_slice())?;
    setting.files = copies(alloc, bay.committed())?;
    Ok(())
}

/// Runs once for each of so many calls of an object, which then fails beside those of the setting, and keeps nothing.
/// Gives what is to be printed.
pub fn run_each<T: Threads + Wait + Sync>(
    rt: &T,
    alloc: Global,
    setting: &mut Setting,
    (object, name): (Object, &str),
    count: u64,
) -> Result<String> {
    let mut report = String::new(alloc);
    for call in 1..=count {
        let outcome = outcome_with(rt, alloc, setting, Fail { object, call })?;
        write!(report, "== {}: {name} {call}\n{outcome}", setting.name)?;
    }
    Ok(report)
}

/// Runs once for each call of an object from one to another, which then fails beside those of the setting, and keeps nothing. All
/// these runs end alike. Gives what is to be printed of the first, and of each that ends otherwise.
pub fn run_alike<T: Threads + Wait + Sync>(
    rt: &T,
    alloc: Global,
    setting: &mut Setting,
    (object, name): (Object, &str),
    (first, last): (u64, u64),
) -> Result<String> {
    let mut report = format!(in alloc; "== {}: {name} {first} to {last}\n", setting.name)?;
    let wanted = outcome_with(
        rt,
        alloc,
        setting,
        Fail {
            object,
            call: first,
        },
    )?;
    report.push_str(wanted.as_str())?;
    for call in first..=last {
        let outcome = outcome_with(rt, alloc, setting, Fail { object, call })?;
        if outcome.as_str() != wanted.as_str() {
            write!(report, "other at {call}\n{outcome}")?;
        }
    }
    Ok(report)
}

/// How a run ends in which this call fails beside those of the setting.
fn outcome_with<T: Threads + Wait + Sync>(
    rt: &T,
    alloc: Global,
    setting: &mut Setting,
    fail: Fail,
) -> Result<String> {
    let mut outcome = String::new(alloc);
    setting.fails.push(fail)?;
    let _ = run_over(rt, alloc, setting, &mut outcome)?;
    let _ = setting.fails.pop();
    Ok(outcome)
}

/// Runs, appends how it ended, and gives the bay.
fn run_over<T: Threads + Wait + Sync>(
    rt: &T,
    alloc: Global,
    setting: &Setting,
    report: &mut String,
) -> Result<MemBay> {
    let mut forms = forms_of(alloc, setting)?;
    let done = done_over(rt, alloc, &setting.words, &mut forms).context(
        "no raw volume or no reader",
    )?;
    push_outcome(report, done, &forms, setting)?;
    Ok(forms.bay)
}

/// How a run on these words over forms ends, where there are a raw volume, a reader and a door.
fn done_over<T: Threads + Wait + Sync>(
    rt: &T,
    alloc: Global,
    words: &[String],
    forms: &mut Forms,
) -> Option<Done> {
    if forms.raws.is_empty() || forms.readers.is_empty() || forms.doors.is_empty() {
        return None;
    }
    let done = run(
        rt,
        alloc,
        words,
        &mut forms.raws,
        &mut forms.bay,
        &mut forms.readers,
        &mut forms.out,
        &mut forms.doors,
    );
    Some(done)
}
