ghost use Rattle.std.specs.Prelude.{◌≡◌};

use crate::line::Line;
use crate::notes::Notes;
use crate::watched_draft::WatchedDraft;
use idx_header::Header;
use idx_layout::{file_len, files};
use idx_outside::{Bay, BayFault, Bytes, Outage};
use std::alloc::Global;
use std::io::Write;
use std::marker::Model;
use std::time::Clock;

/// A bay that tells a line, where there is one, how much of a step is written, and which files of one are found, and says,
/// where it is to, which step was committed. A contract sees the bay.
#[derive(Drop)]
pub struct WatchedBay<B: Bay + Drop, R: Clock + Copy, W: Write + Copy> {
    bay: B,
    alloc: Global,
    line: Option<Line<R, W>>,
    notes: Option<Notes<W>>,
    /// The header that stands, where it was asked for or put, and where somebody wants to know.
    header: Option<Header>,
}

impl<B: Bay + Drop, R: Clock + Copy, W: Write + Copy> Model for WatchedBay<B, R, W> {
    ghost Value = { B };

    ghost view = { λ s. s.bay };
}

impl<B: Bay + Drop, R: Clock + Copy, W: Write + Copy> WatchedBay<B, R, W> {
    /// The bay, which tells this line and says here what was committed.
    pub fn new(
        alloc: Global,
        bay: B,
        line: Option<Line<R, W>>,
        notes: Option<Notes<W>>,
    ) -> WatchedBay<B, R, W>
        ensures { result ≡ bay }
    {
        WatchedBay {
            bay,
            alloc,
            line,
            notes,
            header: None,
        }
    }

    /// The bay alone.
    pub fn bay(&self) -> &B
        ensures { result.now ≡ self.now }
    {
        &self.bay
    }

    /// Whether there is a line that is told.
    pub fn is_watched(&self) -> bool {
        self.line.is_some()
    }

    /// Keeps a header's text for when a step is begun, where there is a line to tell.
    fn note_header(&mut self, text: &[u8])
        ensures { self.new ≡ self.old }
    {
        if self.line.is_some() {
            self.header = Header::read(self.alloc, text).ok();
        }
    }

    /// The line for another one that tells it.
    fn shared_line(&self) -> Option<Line<R, W>> {
        match &self.line {
            Some(line) => line.share(),
            None => None,
        }
    }

    /// Tells that a file of a step was found, and before the first one how many files the step has.
    fn tell_found(&self) {
        if let Some(line) = &self.line {
            if line.progress().files == 0 {
                self.tell_sizes();
            }
            line.add_file();
        }
    }

    /// Tells how many files a step has, and how many bytes, where the header is known.
    fn tell_sizes(&self) {
        if let (Some(line), Some(header)) = (&self.line, &self.header) {
            let (mut count, mut bytes) = (0u64, 0u64);
            for file in files(header) {
                count = count.saturating_add(1);
                bytes = bytes.saturating_add(file_len(header, file));
            }
            line.expect(count, bytes);
        }
    }
}

impl<B: Bay + Drop, R: Clock + Copy, W: Write + Copy> Bay for WatchedBay<B, R, W> {
    type Leaf = B::Leaf;

    type Draft = WatchedDraft<B::Draft, R, W>;

    ghost header = { B.header };

    ghost files = { B.files };

    ghost admits = { B.admits };

    ghost begun = { B.begun };

    ghost changes = { B.changes };

    ghost failed = { B.failed };

    ghost faults = { B.faults };

    ghost leaves_tell = { B.leaves_tell };

    fn header(&mut self, into: &mut Bytes) -> Result<(), BayFault> {
        let before = into.len();
        self.bay.header(into)?;
        if let Some(text) = into.as_slice().get(before..) {
            self.note_header(text);
        }
        Ok(())
    }

    fn set_header(&mut self, text: &[u8]) -> Result<(), Outage> {
        self.bay.set_header(text)?;
        self.note_header(text);
        Ok(())
    }

    fn has_step(&mut self, folder: &[u8]) -> Result<bool, Outage> {
        self.bay.has_step(folder)
    }

    fn begin_step(&mut self, folder: &[u8]) -> Result<(), Outage> {
        self.bay.begin_step(folder)?;
        self.tell_sizes();
        Ok(())
    }

    fn create(&mut self, path: &[u8]) -> Result<Self::Draft, BayFault> {
        let draft = self.bay.create(path)?;
        Ok(WatchedDraft::new(draft, self.shared_line()))
    }

    fn leaf(&mut self, path: &[u8]) -> Result<Option<B::Leaf>, BayFault> {
        let found = self.bay.leaf(path)?;
        if found.is_some() {
            self.tell_found();
        }
        Ok(found)
    }

    fn commit(&mut self, folder: &[u8], leaves: &Vec<(Bytes, B::Leaf)>) -> Result<(), BayFault> {
        self.bay.commit(folder, leaves)?;
        if let Some(notes) = &self.notes {
            notes.published(folder);
        }
        Ok(())
    }

    fn retire(&mut self, draft: Self::Draft) {
        self.bay.retire(draft.into_draft());
    }

    fn faults(&self) -> u64 {
        self.bay.faults()
    }
}
