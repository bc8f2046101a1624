//! Replies to requests, out of published timesteps that are taken in turn; and the connections of one door.
#![tactic(auto)]

mod answering;
mod door;
mod found;
mod laws;
mod link;
mod making;
mod question;
mod refusal;
mod site;
mod texts;

pub use door::{ServeEnd, Summary, serve_door};
pub use laws::{answers_are_of_the_newest_post, entries_hold_of_longer_boards};
pub use link::serve_link;
pub use refusal::Refusal;
pub use site::Site;
