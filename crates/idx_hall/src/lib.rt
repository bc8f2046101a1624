//! The published steps of a dataset and the bounded cache of their blocks, as plain lists with one owner.
#![tactic(auto)]

mod block;
mod block_name;
mod board;
mod caching;
mod examples;
mod hall;
mod key;
mod laws;
mod least;
mod looked;
mod publish_refusal;
mod published;
mod spare;
mod standing;

pub use block_name::BlockName;
pub use examples::worked_hall;
pub use hall::Hall;
pub use key::Key;
pub use laws::{newest_posts, newest_rises};
pub use least::LEAST_BYTES;
pub use looked::Looked;
pub use publish_refusal::PublishRefusal;
pub use standing::Standing;
