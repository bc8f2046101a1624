//! `run`, and the commands: what each does with raw volumes, a dataset, an output and doors, and how it ends.
#![tactic(auto)]

mod causes;
mod check;
mod convert;
mod cut;
mod drill;
mod drill_text;
mod examples;
mod info;
mod kind_text;
mod laws;
mod live;
mod query;
mod running;
mod serve;
mod site_name;
mod summary;
mod totals;

pub use causes::{Cause, Done};
pub use cut::run_cut;
pub use examples::{worked_cut, worked_names, worked_summary, worked_totals};
pub use idx_convert::{MAX_FILE, MAX_VOLUME};
pub use idx_plan::MAX_ANSWER;
pub use info::run_info;
pub use laws::answers_say_what_was_written;
pub use query::run_query;
pub use running::run;
