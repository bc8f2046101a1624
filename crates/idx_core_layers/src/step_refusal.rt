use thiserror::Error;

/// Why an event did not happen; nothing has changed then.
#[derive(Clone, Copy, Debug, Error, PartialEq, Eq)]
pub enum StepRefusal {
    /// It may not happen as things are.
    #[error("not enabled")]
    NotEnabled,
    /// There was not enough memory.
    #[error("no memory")]
    NoMemory,
}
