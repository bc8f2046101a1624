//! A timestep is written, and published in a hall while others serve it.
#![tactic(auto)]

mod ingest_end;
mod ingesting;
mod publishing;

pub use ingest_end::IngestEnd;
pub use ingesting::ingest;
