use idx_header::Header;
use idx_outside::Bytes;

/// A dataset that is served.
#[derive(Drop)]
pub struct Site {
    /// Its header.
    pub header: Header,
    /// The name that requests ask for it by.
    pub name: Bytes,
}
