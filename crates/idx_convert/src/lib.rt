//! Writes a step of a dataset out of raw volumes that hold the same, under a header that is asked for, or says why not.
#![tactic(auto)]

mod adding;
mod asked;
mod convert_fault;
mod converting;
mod faults;
mod first_raws;
mod place;
mod standing;

pub use asked::{MAX_FILE, MAX_VOLUME, has_folder, too_large};
pub use convert_fault::ConvertFault;
pub use converting::convert;
pub use first_raws::move_last;
