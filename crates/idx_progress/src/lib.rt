//! What is said on standard error while a command runs. How far a conversion or a check is: a bay whose drafts tell how much
//! they were given, a reader that tells how much it read, and a line on a terminal that says so. What goes wrong in a server,
//! and what it publishes: a reader, a door and the same bay that say so, in lines of their own.
#![tactic(auto)]

mod line;
mod noted_paths;
mod notes;
mod noting_door;
mod noting_reader;
mod shown;
mod tally;
mod watched_bay;
mod watched_draft;
mod watched_reader;

pub use line::{Line, write_progress};
pub use noted_paths::{Naming, NotedPaths};
pub use notes::{Note, Notes};
pub use noting_door::NotingDoor;
pub use noting_reader::NotingReader;
pub use shown::Shown;
pub use tally::{Progress, Tally};
pub use watched_bay::WatchedBay;
pub use watched_draft::WatchedDraft;
pub use watched_reader::WatchedReader;
