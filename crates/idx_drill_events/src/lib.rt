//! A step that is written whole and questions of one round as lists of events, and the laws that they may happen.
#![tactic(auto)]

mod examples;
mod laws;

pub use examples::worked_drill;
pub use laws::{
    drill_is_right, joined_lists, one_question_more, questions_are_answered, step_is_written,
};
