//! The header of a dataset: its grammar both ways, what follows from its values, and the names of its files.
#![tactic(auto)]

mod blocks;
mod copy;
mod examples;
mod field_list;
mod header;
mod header_fault;
mod header_kind;
mod header_refusal;
mod key;
mod keys;
mod laws;
mod of_bay;
mod read;
mod revisions;
mod space;
mod steps;
mod template;
mod time;
mod unknown;
mod unknowns;
mod version;
mod write;

pub use examples::{worked_headers, worked_revisions};
pub use header::Header;
pub use header_fault::HeaderFault;
pub use header_kind::HeaderKind;
pub use header_refusal::HeaderRefusal;
pub use laws::{names_differ, revisions_are_counted, texts_read_back};
pub use steps::Steps;
pub use unknown::Unknown;
pub use write::mask_text;
