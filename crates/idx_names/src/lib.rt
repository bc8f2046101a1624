//! The names of a dataset's files: templates with marks for the numbers of files and steps, and the paths that they make.
#![tactic(auto)]

mod bits;
mod examples;
mod laws;
mod mark_kind;
mod numeral;
mod parts;
mod path;
mod piece;
mod pieces;
mod template;
mod time_template;

pub use examples::{worked_paths, worked_templates, worked_time_templates};
pub use laws::{
    marks_are_filled_from_the_right, paths_are_not_empty, paths_differ, texts_are_words,
    texts_read_back, time_texts_read_back,
};
pub use path::{file_path, file_path_of_step, step_folder};
pub use piece::Piece;
pub use template::Template;
pub use time_template::TimeTemplate;
