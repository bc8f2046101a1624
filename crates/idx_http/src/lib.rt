//! Heads of requests, read from a link however their bytes come, and heads of replies.
#![tactic(auto)]

mod examples;
mod head;
mod laws;
mod look;
mod pending;
mod reply;

pub use examples::{worked_bodies, worked_closes, worked_reasons, worked_replies};
pub use head::{Head, HeadRead, read_head};
pub use laws::{one_answer, replies_read_back};
pub use pending::Pending;
pub use reply::head_of;
