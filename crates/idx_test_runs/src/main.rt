//! Reads a table of cases from standard input, runs each over forms in memory, and prints how it ended and what it left.
#![tactic(auto)]

mod bytes_text;
mod forms;
mod link_rows;
mod object;
mod outcome;
mod replies;
mod row;
mod running;
mod setting;
mod volume;

use anyhow::{Context, Result};
use row::follow;
use setting::Setting;
use std::io::{BufRead, BufReader};

fn main(rt: HostRuntime) -> Result<()> {
    let mut setting = Setting::new(rt.alloc());
    let rows = BufReader::new(rt.alloc(), rt.stdin())?.lines(rt.alloc());
    for (number, row) in rows.enumerate() {
        let report = follow(&rt, rt.alloc(), &mut setting, row?.as_str()).context(format_args!(
            "row {number}, counted from 0"
        ))?;
        print!(rt; "{report}")?;
    }
    Ok(())
}
