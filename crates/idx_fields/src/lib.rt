//! The fields of a dataset as its header gives them: names, types and attribute words.
#![tactic(auto)]

mod base;
mod examples;
mod field_list;
mod field_type;
mod fields;
mod fields_fault;
mod laws;
mod stored_field;
mod words;

pub use base::Base;
pub use examples::{worked_faults, worked_fields, worked_types};
pub use fields::Fields;
pub use fields_fault::FieldsFault;
pub use laws::{fields_read_back, fields_stand_on_lines, listed_fields_are_fields};
