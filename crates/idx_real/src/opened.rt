//! Files that stay open: each with the path that it was opened at, of which alone it is read.
ghost use Rattle.std.specs.Prelude.{◌≡◌, ◌↔◌, None, IfSome, IfOk, IsTrue, OnOk};
ghost use Rattle.idx_real.specs.Placed.{WasReadAt, OfItsFile};

use crate::Reason;
use crate::placed::read_range;
use crate::regular_file::open_regular;
use std::alloc::Global;
use std::io::{Read, Seek};
use std::marker::Model;
use std::rt::Files;

/// An open file, and the path that it was opened at. Only `read_new` makes one.
#[derive(Drop)]
pub(crate) struct Opened<F: Read + Seek + Drop> {
    path: String,
    file: F,
}

impl<F: Read + Seek + Drop> Model for Opened<F> {
    ghost use Rattle.std.specs.Prelude.{string_bytes};
    ghost use Rattle.idx_real.specs.ReaderState.{OpenFile};

    ghost Value = { OpenFile F };

    ghost view = { λ s. record { path = string_bytes s.path; file = s.file } };
}

impl<F: Read + Seek + Drop> Opened<F> {
    /// Whether it was opened at this path.
    pub(crate) fn is_at(&self, path: &str) -> bool
        ensures { IsTrue result ↔ (self.now.path ≡ path.now) }
    {
        self.path.as_str() == path
    }

    /// Reads of the file of this path.
    pub(crate) fn read(&mut self, path: &str, at: u64, into: &mut [u8]) -> Result<(), Reason>
        requires { self.old.path ≡ path.now }
        ensures read { OnOk result (WasReadAt F.remaining F.stream_position F.stream_bytes self.old.file at into.new) }
        ensures path { self.new.path ≡ self.old.path }
    {
        read_range(&mut self.file, at, into)
    }
}

/// Opens the file of this path and reads of it. It stays open where there is memory for its path.
pub(crate) fn read_new<R: Files>(
    rt: &R,
    alloc: Global,
    path: &str,
    at: u64,
    into: &mut [u8],
) -> Result<Option<Opened<R::File>>, Reason>
    ensures read { OnOk result (OfItsFile None
        (λ f. WasReadAt R.File.remaining R.File.stream_position R.File.stream_bytes f at into.new)) }
    ensures path { IfOk result (λ kept. IfSome kept (λ opened. opened.path ≡ path.now)) }
{
    let mut file = open_regular(rt, path)?;
    read_range(&mut file, at, into)?;
    Ok(
        String::from_str(alloc, path)
            .ok()
            .map(|path| Opened { path, file }),
    )
}
