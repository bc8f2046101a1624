//! Whether the files of a timestep are exactly the writer's.
#![tactic(auto)]

mod blocks;
mod cell;
mod check_fault;
mod checking;
mod examples;
mod file;
mod laws;
mod piece;
mod refused_check;
mod step;
mod stray;
mod table;
mod verdict;

pub use check_fault::CheckFault;
pub use checking::check;
pub use examples::{worked_differences, worked_files, worked_verdicts};
pub use laws::{nothing_is_wrong_with_written_files_alone, wanted_bytes_are_the_files_own};
pub use refused_check::RefusedCheck;
pub use step::check_step;
pub use verdict::{Verdict, WrongKind};
