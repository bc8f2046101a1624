//! The words of a command line: which command they give, and where the first is wrong or missing.
#![tactic(auto)]

mod built;
mod check;
mod command;
mod convert;
mod convert_word;
mod convert_words;
mod cut;
mod cut_word;
mod cut_words;
mod drill;
mod examples;
mod given;
mod info;
mod ingest_words;
mod laws;
mod layout_word;
mod level;
mod misread;
mod options;
mod path;
mod query;
mod query_word;
mod query_words;
mod serve;
mod serve_options;
mod serve_words;
mod setting;
mod settings;
mod text;
mod words;

pub use command::Command;
pub use convert_words::ConvertWords;
pub use cut_words::CutWords;
pub use examples::{worked_check, worked_ingest, worked_layout, worked_options, worked_words};
pub use given::{given_path, third_word};
pub use ingest_words::IngestWords;
pub use laws::{built_texts_are_one, places_are_one};
pub use misread::Misread;
pub use path::is_path;
pub use query_words::QueryWords;
pub use serve_words::ServeWords;
pub use text::is_text;
pub use words::read_words;
