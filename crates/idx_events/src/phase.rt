/// How far a timestep's revision is.
#[derive(Clone, Copy, Debug, PartialEq, Eq)]
pub enum Phase {
    /// It is being written.
    Staged,
    /// It was published.
    Published,
    /// It was given up, for good.
    Abandoned,
}
