//! The samples of pieces on their way to the aggregators of files: worker threads put pieces into hierarchical order,
//! and what they made is handed to the docks of the files (PIDX, Kumar et al.).
#![tactic(auto)]

mod delivery;
mod job;
mod laws;
mod shipping;
mod workers;

pub use laws::{docks_become_complete, docks_stay_ready, gains_add_up, new_docks_are_ready};
pub use shipping::ship_loads;
