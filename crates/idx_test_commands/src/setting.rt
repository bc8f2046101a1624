//! A worked dataset, and what a run goes over.
use crate::meeting::Signs;
use crate::waiting_link::OneLink;
use crate::waiting_reader::WaitingReader;
use crate::waiting_source::WaitingSource;
use idx_commands::{Cause, run};
use idx_memory::{MemBay, MemReader, MemSink};
use idx_outside::{Bytes, MemFile, NoMemory};
use std::alloc::{AllocError, Global};
use std::sync::Wait;
use std::thread::Threads;

/// The header text of a dataset of one byte a sample: two axes of two bits each, blocks of four samples, files of two
/// blocks, ten steps.
pub(crate) const HEADER: &str =
    "(version)\n6\n(box)\n0 3 0 3\n(fields)\na uint8\n(bits)\nV0101\n(bitsperblock)\n2\n\
    (blocksperfile)\n2\n(filename_template)\n./%01x.bin\n(time)\n0 9 time%04d/\n";

/// The raw volume of its step 0.
pub(crate) static RAW: [u8; 16] = [0, 1, 2, 3, 4, 5, 6, 7, 8, 9, 10, 11, 12, 13, 14, 15];

/// What stands in front of the blocks of a file of that step: ten words, and the rows of two blocks of four bytes.
static TABLE: &[u8] = b"\
    \0\0\0\0\0\0\0\0\0\0\0\0\0\0\0\0\0\0\0\0\0\0\0\0\0\0\0\0\0\0\0\0\0\0\0\0\0\0\0\0\
    \0\0\0\0\0\0\0\0\0\0\0\x78\0\0\0\0\0\0\0\x04\0\0\0\0\0\0\0\0\0\0\0\0\0\0\0\0\0\0\0\0\
    \0\0\0\0\0\0\0\0\0\0\0\x7c\0\0\0\0\0\0\0\x04\0\0\0\0\0\0\0\0\0\0\0\0\0\0\0\0\0\0\0\0";

/// The paths of its files, and the two blocks of each.
static FILES: [(&[u8], [u8; 8]); 2] = [
    (b"time0000/0.bin", [0, 2, 8, 10, 1, 9, 3, 11]),
    (b"time0000/2.bin", [4, 5, 12, 13, 6, 7, 14, 15]),
];

/// A file of that step.
fn file_of(alloc: Global, path: &[u8], blocks: &[u8]) -> Result<MemFile, NoMemory> {
    let mut bytes = Bytes::from_slice(alloc, TABLE)?;
    bytes.append(blocks)?;
    Ok(MemFile {
        folder: Bytes::from_slice(alloc, b"time0000")?,
        path: Bytes::from_slice(alloc, path)?,
        bytes,
    })
}

/// A bay with this header in which that step stands, and of whose calls this one fails.
pub(crate) fn bay_of_step(alloc: Global, header: &str, fails: u64) -> Result<MemBay, NoMemory> {
    let header = Bytes::from_slice(alloc, header.as_bytes())?;
    let fails = Vec::from_slice(alloc, &[fails])?;
    let mut files = Vec::new(alloc);
    for (path, blocks) in &FILES {
        files.push(file_of(alloc, path, blocks)?)?;
    }
    Ok(MemBay::new(header, files, fails, Vec::new(alloc)))
}

/// A bay in which nothing stands.
pub(crate) fn empty_bay(alloc: Global) -> MemBay {
    MemBay::new(
        Bytes::new(alloc),
        Vec::new(alloc),
        Vec::new(alloc),
        Vec::new(alloc),
    )
}

/// Whether a bay has exactly the files of that step.
pub(crate) fn holds_step(bay: &MemBay) -> bool {
    let found = bay.committed().iter();
    bay.committed().len() == FILES.len()
        && found
            .zip(FILES.iter())
            .all(|(file, wanted)| holds(file, wanted))
}

/// Whether a file has this path and these blocks.
fn holds(file: &MemFile, (path, blocks): &(&[u8], [u8; 8])) -> bool {
    file.folder.as_slice() == b"time0000".as_slice()
        && file.path.as_slice() == *path
        && file.bytes.as_slice().strip_prefix(TABLE) == Some(blocks.as_slice())
}

/// What a run goes over.
#[derive(Drop)]
pub(crate) struct Forms<'a> {
    pub(crate) raws: Vec<WaitingSource<'a>>,
    pub(crate) bay: MemBay,
    pub(crate) readers: Vec<WaitingReader<'a>>,
    pub(crate) out: MemSink,
    pub(crate) doors: Vec<OneLink<'a>>,
}

impl<'a> Forms<'a> {
    /// A bay, a reader that does not wait, and nothing else.
    pub(crate) fn new(
        alloc: Global,
        bay: MemBay,
        signs: &'a Signs,
    ) -> Result<Forms<'a>, AllocError> {
        Ok(Forms {
            raws: Vec::new(alloc),
            bay,
            readers: vec![in alloc;
                WaitingReader::new(MemReader::new(Vec::new(alloc)), signs.of_none()),
            ]?,
            out: MemSink::new(Vec::new(alloc)),
            doors: Vec::new(alloc),
        })
    }
}

/// How a run on the words of a line ends, which stand between its bars; or nothing where there is no raw volume, no reader or
/// no door.
pub(crate) fn cause_of<T: Threads + Wait + Sync>(
    rt: &T,
    alloc: Global,
    line: &str,
    forms: &mut Forms<'_>,
) -> Result<Option<Cause>, AllocError> {
    let mut words = Vec::new(alloc);
    for word in line.split('|') {
        words.push(String::from_str(alloc, word)?)?;
    }
    Ok(cause_over(rt, alloc, &words, forms))
}

fn cause_over<T: Threads + Wait + Sync>(
    rt: &T,
    alloc: Global,
    words: &[String],
    forms: &mut Forms<'_>,
) -> Option<Cause> {
    if forms.raws.is_empty() || forms.readers.is_empty() || forms.doors.is_empty() {
        return None;
    }
    let done = run(
        rt,
        alloc,
        words,
        &mut forms.raws,
        &mut forms.bay,
        &mut forms.readers,
        &mut forms.out,
        &mut forms.doors,
    );
    Some(done.cause)
}
