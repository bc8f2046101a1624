//! Worker threads serve a dataset while a timestep of it is gathered out of raw volumes and published beside them.
#![tactic(auto)]

mod beginning;
mod beside;
mod checking;
mod finding;
mod hosting;
mod live_end;
mod live_fault;
mod loading;
mod opening;
mod pair;
mod sides;

pub use hosting::host_live;
pub use live_end::Live;
pub use live_fault::LiveFault;
