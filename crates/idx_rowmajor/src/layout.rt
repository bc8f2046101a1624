/// The order of the samples of a block in a file.
#[derive(Clone, Copy, Debug, PartialEq, Eq)]
pub enum Layout {
    /// Hierarchical Z order: sample after sample by their addresses (Pascucci and Frank 2001).
    Hz,
    /// The row-major order of their points, axis 0 fastest.
    Rows,
}
