/// How a file of a step is not the writer's.
#[derive(Clone, Copy, Debug, PartialEq, Eq)]
pub enum WrongKind {
    /// The writer writes it, and it is not there.
    Missing,
    /// The writer does not write it, and it is there.
    Extra,
    /// A byte of it is another one than the writer writes, or it is shorter or longer than the writer's.
    Byte,
}

/// Whether the files of a step are the writer's.
#[derive(Clone, Copy, Debug, PartialEq, Eq)]
pub enum Verdict {
    /// They are: so many files, with so many bytes in all.
    Same {
        files: u64,
        bytes: u64,
    },
    /// This is the first one that is not.
    Wrong {
        /// The file's number, which is that of its first block.
        file: u64,
        /// The place of the first wrong byte, counted from the file's beginning; 0 of a file that is missing or extra.
        at: u64,
        /// How it is wrong.
        why: WrongKind,
    },
}
