/// How a link ended.
#[derive(Clone, Copy, Debug, PartialEq, Eq)]
pub enum LinkEnd {
    /// The input ended between heads, or a reply closed.
    Closed,
    /// The input ended inside a head, of which so many bytes had come.
    CutOff { kept: u64 },
    /// The link failed. Its count of faults is now this.
    LinkFault { faults: u64 },
    /// There was no memory.
    NoMemory,
}
