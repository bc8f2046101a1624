//! A law of `run`, a question asked twice; tests of runs whose threads wait for each other, and of lines that no run shows.
#![tactic(auto)]

mod laws;
#[cfg(test)]
mod meeting;
#[cfg(test)]
mod notice;
#[cfg(test)]
mod setting;
#[cfg(test)]
mod threads;
#[cfg(test)]
mod waiting_link;
#[cfg(test)]
mod waiting_reader;
#[cfg(test)]
mod waiting_source;

pub use laws::ask_twice;
