//! A bounded cache of pairs, the most recently used first, over `lru` with a slot for each pair that there may be.
#![tactic(auto)]

mod cache;
mod examples;
mod index;
mod slots;

pub use cache::Cache;
pub use examples::worked_cache;
