ghost use Rattle.std.specs.Prelude.{◌≡◌, ◌||◌, ◌++◌, [], IfOk, OnOk, MatchOption, Some, None};
ghost use Rattle.idx_names.specs.Pieces.{is_dots, part_of, pieces_text};
ghost use Rattle.idx_names.specs.Building.{more_pieces, more_above};

use crate::mark_kind::MarkKind;
use crate::piece::Piece;
use crate::pieces::{mark_count, read_pieces};
use idx_outside::{Bytes, NoMemory};
use std::alloc::Global;

/// The parts of a template that were read so far: the text of those before the first part with a mark, each with the `/`
/// behind it, and the pieces of the others, with a `/` between two parts.
#[derive(Drop)]
pub(crate) struct Parts {
    pub(crate) above: Bytes,
    pub(crate) pieces: Vec<Piece>,
}

impl Parts {
    /// No parts.
    pub(crate) fn new(alloc: Global) -> Parts
        ensures above { result.above ≡ [] }
        ensures pieces { result.pieces.items ≡ [] }
    {
        Parts {
            above: Bytes::new(alloc),
            pieces: Vec::new(alloc),
        }
    }

    /// Adds a part with this text and these pieces.
    pub(crate) fn add(&mut self, text: &[u8], part: &[Piece]) -> Result<(), NoMemory>
        requires { pieces_text MarkKind.File part.now ≡ text.now }
        ensures above { OnOk result (self.new.above ≡ self.old.above ++ more_above self.old.pieces.items part.now) }
        ensures pieces { OnOk result (self.new.pieces.items ≡ more_pieces self.old.pieces.items part.now) }
    {
        if !self.pieces.is_empty() {
            self.pieces.push(Piece::Byte(b'/'))?;
            self.pieces.extend_from_slice(part)?;
        } else if mark_count(part) > 0 {
            self.pieces.extend_from_slice(part)?;
        } else {
            self.above.append(text)?;
            self.above.push(b'/')?;
        }
        Ok(())
    }
}

/// The pieces of a part. `None` exactly where it is empty, or two dots, or some byte neither stands for itself nor belongs
/// to a mark.
pub(crate) fn read_part(alloc: Global, text: &[u8]) -> Result<Option<Vec<Piece>>, NoMemory>
    ensures { IfOk result (λ read. MatchOption read (part_of MarkKind.File text.now ≡ None)
        (λ pieces. part_of MarkKind.File text.now ≡ Some pieces.items)) }
{
    if is_refused(text) {
        return Ok(None);
    }
    read_pieces(alloc, MarkKind::File, text)
}

/// Whether the text is a single dot.
pub(crate) fn is_dot(text: &[u8]) -> bool
    ensures { result ≡ is_dots 1 text.now }
{
    text == b".".as_slice()
}

/// Whether the text is no part: it is empty, or two dots.
fn is_refused(text: &[u8]) -> bool
    ensures { result ≡ (is_dots 0 text.now || is_dots 2 text.now) }
{
    text.is_empty() || text == b"..".as_slice()
}
