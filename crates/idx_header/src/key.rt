ghost use Rattle.std.specs.Prelude.{◌≡◌};
ghost use Rattle.idx_header.specs.Keys.{key_text};

/// A key that a header is known by.
#[derive(Clone, Copy, Debug, PartialEq, Eq)]
pub enum Key {
    Version,
    Box,
    Fields,
    Bits,
    BitsPerBlock,
    BlocksPerFile,
    FilenameTemplate,
    Time,
}

impl Key {
    /// What stands between the parentheses of the key's line.
    pub(crate) fn text(self) -> &'static [u8]
        ensures { result.now ≡ key_text self }
    {
        match self {
            Key::Version => b"version",
            Key::Box => b"box",
            Key::Fields => b"fields",
            Key::Bits => b"bits",
            Key::BitsPerBlock => b"bitsperblock",
            Key::BlocksPerFile => b"blocksperfile",
            Key::FilenameTemplate => b"filename_template",
            Key::Time => b"time",
        }
    }
}
