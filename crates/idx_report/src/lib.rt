//! What main asks of its words, and what is printed of a run for people.
#![tactic(auto)]

mod buffer;
mod hints;
mod notice;
mod numbers;
mod paths;
mod plain_words;
mod printing;
mod remedy;
mod usage;
mod work_line;
mod wrong_file;

pub use buffer::{long_buffer, room_keeper};
pub use hints::Hints;
pub use notice::{Notice, standing_steps, write_notice};
pub use numbers::{links_of, ranks_of, share_of, workers_of};
pub use paths::{dataset_path, door_address, raw_path};
pub use printing::{print_cause, report};
pub use usage::{text_asked_for, write_text};
pub use work_line::{clear_work, write_check, write_work};
pub use wrong_file::{WrongFile, look_again};
