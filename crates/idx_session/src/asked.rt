use idx_http::Head;

/// What asks for a reply.
#[derive(Debug, Drop)]
pub enum Asked {
    /// A head.
    Head(Head),
    /// Bytes that no continuation makes a head.
    Bad,
    /// A head of too many bytes or fields.
    TooBig,
}
