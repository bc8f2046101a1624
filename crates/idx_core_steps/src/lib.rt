//! The revisions of timesteps that are being written, and what the events of writing do to them.
#![tactic(auto)]

mod changes;
mod edition;
mod pairs;
mod phases;
mod sealed_file;
mod slot;
mod step;

pub use changes::{abandon_in, give_in, has_later, ship_in, step_at, write_in};
pub use edition::edition_of_step;
pub use sealed_file::SealedFile;
pub use slot::Slot;
pub use step::Step;
