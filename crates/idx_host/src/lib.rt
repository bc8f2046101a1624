//! The work of `serve`: a dataset is served at several doors, each by a worker thread. Its header is read, the
//! timesteps that are there are published, and each door's connections are served one after another.
#![tactic(auto)]

mod host_fault;
mod hosting;
mod opening;

pub use host_fault::HostFault;
pub use hosting::host;
