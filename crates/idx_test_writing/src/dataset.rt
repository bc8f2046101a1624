//! The datasets of the cases, and the files of the step that is gathered out of each.
ghost use Rattle.std.specs.Prelude.{◌≡◌, [], IfOk};
ghost use Rattle.idx_test_writing.specs.Ready.{IsBegun};

use idx_header::Header;
use idx_memory::MemBay;
use idx_outside::{Bay, Bytes, MemFile, NoMemory};
use std::alloc::Global;
use std::process::Abort;
use std::test::Fail;

/// A dataset, a raw volume of it, and the two files of the step that is gathered out of it.
#[derive(Clone, Copy)]
pub(crate) struct Dataset {
    header: &'static [u8],
    /// The samples, field after field, each in row-major order.
    pub(crate) raw: &'static [u8],
    files: &'static [Written],
}

/// What a file is to be.
#[derive(Clone, Copy)]
struct Written {
    path: &'static [u8],
    /// The offset and the size of each block of its table.
    rows: &'static [(u8, u8)],
    /// The blocks behind the table.
    blocks: &'static [u8],
}

/// The paths of the two files.
const FIRST: &[u8] = b"time0000/0.bin";

const SECOND: &[u8] = b"time0000/2.bin";

/// Two axes with two bits each, and one byte a sample, in blocks of four samples and files of two blocks. The sample at
/// (x, y) is 4 y + x.
pub(crate) const BASE: Dataset = Dataset {
    header: b"(version)\n6\n(box)\n0 3 0 3\n(fields)\na uint8\n(bits)\nV0101\n(bitsperblock)\n2\n(blocksperfile)\n2\n(filename_template)\n./%01x.bin\n(time)\n0 9 time%04d/\n",
    raw: &[0, 1, 2, 3, 4, 5, 6, 7, 8, 9, 10, 11, 12, 13, 14, 15],
    files: &[
        Written {
            path: FIRST,
            rows: &[(120, 4), (124, 4)],
            blocks: &[0, 2, 8, 10, 1, 9, 3, 11],
        },
        Written {
            path: SECOND,
            rows: &[(120, 4), (124, 4)],
            blocks: &[4, 5, 12, 13, 6, 7, 14, 15],
        },
    ],
};

/// Two fields: of one byte a sample, and of two.
pub(crate) const FIELDS: Dataset = Dataset {
    header: b"(version)\n6\n(box)\n0 3 0 3\n(fields)\na uint8 + b uint16\n(bits)\nV0101\n(bitsperblock)\n2\n(blocksperfile)\n2\n(filename_template)\n./%01x.bin\n(time)\n0 9 time%04d/\n",
    raw: &[
        0, 1, 2, 3, 4, 5, 6, 7, 8, 9, 10, 11, 12, 13, 14, 15, 16, 17, 18, 19, 20, 21, 22, 23, 24,
        25, 26, 27, 28, 29, 30, 31, 32, 33, 34, 35, 36, 37, 38, 39, 40, 41, 42, 43, 44, 45, 46, 47,
    ],
    files: &[
        Written {
            path: FIRST,
            rows: &[(200, 4), (204, 4), (208, 8), (216, 8)],
            blocks: &[
                0, 2, 8, 10, 1, 9, 3, 11, 16, 17, 20, 21, 32, 33, 36, 37, 18, 19, 34, 35, 22, 23,
                38, 39,
            ],
        },
        Written {
            path: SECOND,
            rows: &[(200, 4), (204, 4), (208, 8), (216, 8)],
            blocks: &[
                4, 5, 12, 13, 6, 7, 14, 15, 24, 25, 26, 27, 40, 41, 42, 43, 28, 29, 30, 31, 44, 45,
                46, 47,
            ],
        },
    ],
};

/// A box of two points, so that the second block of each file is absent.
pub(crate) const SPARSE: Dataset = Dataset {
    header: b"(version)\n6\n(box)\n0 0 0 1\n(fields)\na uint8\n(bits)\nV0101\n(bitsperblock)\n2\n(blocksperfile)\n2\n(filename_template)\n./%01x.bin\n(time)\n0 9 time%04d/\n",
    raw: &[0x11, 0x22],
    files: &[
        Written {
            path: FIRST,
            rows: &[(120, 4), (0, 0)],
            blocks: &[0x11, 0, 0, 0],
        },
        Written {
            path: SECOND,
            rows: &[(120, 4), (0, 0)],
            blocks: &[0x22, 0, 0, 0],
        },
    ],
};

impl Dataset {
    pub(crate) fn header(&self, alloc: Global, rt: &impl Abort) -> Header {
        Header::read(alloc, self.header).ok().expect(rt, "a header")
    }

    /// Whether these are exactly the files of the step 0.
    pub(crate) fn is_step(&self, alloc: Global, files: &[MemFile]) -> Result<bool, NoMemory> {
        for (file, written) in files.iter().zip(self.files) {
            if !written.is_file(alloc, file)? {
                return Ok(false);
            }
        }
        Ok(files.len() == self.files.len())
    }
}

impl Written {
    /// Whether a file is this one: ten words, a row of ten words for each block, and the blocks.
    fn is_file(&self, alloc: Global, file: &MemFile) -> Result<bool, NoMemory> {
        let mut bytes = Vec::from_slice(alloc, &[0; 40])?;
        for (offset, size) in self.rows {
            let mut row = [0; 40];
            row[11] = *offset;
            row[19] = *size;
            bytes.extend_from_slice(&row)?;
        }
        bytes.extend_from_slice(self.blocks)?;
        Ok(
            file.folder.as_slice() == b"time0000".as_slice()
                && file.path.as_slice() == self.path
                && file.bytes.as_slice() == bytes.as_slice(),
        )
    }
}

/// An empty bay, in which a step of a header is begun.
pub(crate) fn bay_of(
    alloc: Global,
    rt: &impl Abort,
    header: &Header,
    time: u64,
) -> Result<MemBay, Fail>
    ensures { IfOk result (IsBegun header.now time) }
{
    assert!(rt; header.has_time(time));
    assert!(rt; header.steps().is_some());
    let folder = header.step_folder(alloc, time)?.expect(rt, "a folder");
    let mut bay = empty_bay(alloc);
    bay.begin_step(folder.as_slice())?;
    Ok(bay)
}

fn empty_bay(alloc: Global) -> MemBay
    ensures { result.files ≡ [] }
{
    MemBay::new(
        Bytes::new(alloc),
        Vec::new(alloc),
        Vec::new(alloc),
        Vec::new(alloc),
    )
}
