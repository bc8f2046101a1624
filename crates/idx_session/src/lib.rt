//! A connection is served: its requests are answered one after another, by whatever makes the replies.
#![tactic(auto)]

mod answered;
mod asked;
mod heads;
mod link_end;
mod one;
mod reply_text;
mod responder;

pub use answered::Answered;
pub use asked::Asked;
pub use heads::serve_heads;
pub use link_end::LinkEnd;
pub use reply_text::ReplyText;
pub use responder::Responder;
