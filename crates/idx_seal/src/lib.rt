//! Complete aggregators are written to drafts by worker threads, and sealed; or all drafts are given up (PIDX, Kumar et
//! al.).
#![tactic(auto)]

mod giving_up;
mod job;
mod leaves;
mod opening;
mod row;
mod seal;
mod writing;
mod written;

pub use seal::seal_docks;
