//! Numbers and boxes as they stand in words, and the lines of a header's text.
#![tactic(auto)]

mod box_text;
mod document;
mod entry;
mod examples;
mod laws;
mod line;
mod number;
mod numbers;
mod section;
mod text_fault;
mod trim;

pub use box_text::read_box;
pub use document::Document;
pub use entry::{write_entry, write_key, write_line};
pub use examples::{worked_lines, worked_texts};
pub use laws::entries_read_back;
pub use number::{number_reads_back, read_number, write_number};
pub use numbers::{is_blank, read_numbers};
pub use section::Section;
pub use text_fault::TextFault;
pub use trim::trim_blanks;
