//! Reads a table of worlds and of events in them from standard input, does the events, and prints which were refused
//! and how each question is answered.
#![tactic(auto)]

mod event_row;
mod outcome;
mod row;
mod setting;

use anyhow::{Context, Result};
use row::follow;
use setting::Setting;
use std::io::{BufRead, BufReader};

fn main(rt: HostRuntime) -> Result<()> {
    let mut setting = Setting::new(rt.alloc());
    let rows = BufReader::new(rt.alloc(), rt.stdin())?.lines(rt.alloc());
    for (number, row) in rows.enumerate() {
        let report = follow(rt.alloc(), &mut setting, row?.as_str()).context(format_args!(
            "row {number}, counted from 0"
        ))?;
        print!(rt; "{report}")?;
    }
    Ok(())
}
