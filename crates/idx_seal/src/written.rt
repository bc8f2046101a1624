use idx_dock::Dock;

/// A file of a row, and what became of it.
pub(crate) enum Written<D, L> {
    /// The dock is still to be written to the draft.
    Open(Dock, D),
    /// The dock was written, and the draft sealed.
    Sealed(L),
    /// A call on the draft failed.
    Failed(D),
}

impl<D, L> Written<D, L> {
    /// Whether the draft was sealed.
    pub(crate) fn is_sealed(&self) -> bool {
        match self {
            Written::Sealed(_) => true,
            Written::Open(_, _) | Written::Failed(_) => false,
        }
    }
}
