ghost use Rattle.std.specs.Prelude.{◌≡◌, length};
ghost use Rattle.idx_table.specs.Row.{row_of, row_bytes};

use byteorder::{BigEndian, ByteOrder};

/// How many words of 32 bits a row has.
const WORDS: usize = 10;

/// How many bytes a row has. The table begins with as many bytes of 0.
pub const ROW_BYTES: usize = 4 * WORDS;

/// The flags of a block whose samples are raw and in hierarchical Z order.
pub const RAW: u32 = 0;

/// The flags of a block whose samples are raw and in row-major order.
pub const ROW_MAJOR: u32 = 16;

/// The row of a block that its file lacks.
pub const ABSENT: Row = Row {
    offset: 0,
    size: 0,
    flags: RAW,
};

/// Where in its file a block stands, as the table's row says.
#[derive(Clone, Copy, Debug, PartialEq, Eq)]
pub struct Row {
    /// The place of the block's first byte, counted from the file's beginning.
    pub offset: u64,
    /// How many bytes the block has; 0 where the file lacks the block.
    pub size: u32,
    /// How the samples are stored: `RAW` or `ROW_MAJOR`, or compressed.
    pub flags: u32,
}

/// The row in ten words of 32 bits, big-endian: word 2 is the low half of the offset, word 3 its high half, word 4 the
/// size and word 5 the flags. The other words are passed over.
pub fn read_row(bytes: &[u8; ROW_BYTES]) -> Row
    ensures { result ≡ row_of bytes.now }
{
    row_in(bytes)
}

/// Writes the ten words of a row, those that have no meaning as 0.
pub fn write_row(row: &Row, into: &mut [u8; ROW_BYTES])
    ensures { into.new ≡ row_bytes row.now }
{
    let offset_low = (row.offset & 0xffff_ffff) as u32;
    let offset_high = (row.offset >> 32) as u32;
    let words = [
        0,
        0,
        offset_low,
        offset_high,
        row.size,
        row.flags,
        0,
        0,
        0,
        0,
    ];
    BigEndian::write_u32_into(&words, into);
}

/// The row in so many bytes of a file.
pub(crate) fn row_in(bytes: &[u8]) -> Row
    requires { length bytes.now ≡ ROW_BYTES }
    ensures { result ≡ row_of bytes.now }
{
    let offset_low = BigEndian::read_u32(&bytes[8..]);
    let offset_high = BigEndian::read_u32(&bytes[12..]);
    Row {
        offset: u64::from(offset_low) | u64::from(offset_high) << 32,
        size: BigEndian::read_u32(&bytes[16..]),
        flags: BigEndian::read_u32(&bytes[20..]),
    }
}
