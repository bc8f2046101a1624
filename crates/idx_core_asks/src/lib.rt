//! The questions that are asked of a dataset, and the events of asking: look, read, fill, answer.
#![tactic(auto)]

mod answering;
mod asked;
mod filling;
mod held_block;
mod looking;
mod progress;
mod reading;
mod round;

pub use answering::answer_in;
pub use asked::Asked;
pub use filling::fill_in;
pub use held_block::HeldBlock;
pub use looking::look_in;
pub use progress::Progress;
pub use reading::read_in;
pub use round::Round;
