use thiserror::Error;

/// Why a table is not read.
#[derive(Clone, Copy, Debug, PartialEq, Eq, Error)]
#[error("the table of a file's blocks is faulty")]
pub struct TableFault {
    /// The first faulty row, counted from 0; of no meaning for want of memory.
    pub row: u64,
    /// What is wrong with it.
    pub kind: TableKind,
}

/// What is wrong with a row of a table. The first in this order that applies is answered.
#[derive(Clone, Copy, Debug, PartialEq, Eq, Error)]
pub enum TableKind {
    /// Some byte of the row stands at or past the file's end.
    #[error("the file ends before the row does")]
    CutShort,
    /// The block is compressed: its flags are neither 0 nor 16.
    #[error("the block is compressed")]
    Compressed,
    /// The size is not that of the field's blocks.
    #[error("the block has another size than the field's blocks")]
    WrongSize,
    /// The block begins inside the table, or ends past the file's end.
    #[error("the block does not lie between the table and the file's end")]
    OutsideFile,
    /// There was no memory.
    #[error("not enough memory")]
    NoMemory,
}
