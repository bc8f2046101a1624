ghost use Rattle.std.specs.Prelude.{◌≡◌, ◌++◌, ◌↔◌, Some, IfOk, OnOk, OnErr, IsTrue};
ghost use Rattle.idx_names.specs.Pieces.{pieces_of, pieces_text};
ghost use Rattle.idx_names.specs.TimeTemplate.{of_step_pieces, time_template_of, time_template_text, IsTimeTemplate};

use crate::mark_kind::MarkKind;
use crate::piece::Piece;
use crate::pieces::{append_text, mark_count, read_pieces};
use idx_outside::{Bytes, NoMemory};
use std::alloc::Global;
use std::marker::Model;

/// The template of the names of steps' folders: one part ended by `/`, in which one mark stands for the step's number.
#[derive(Debug, Drop)]
pub struct TimeTemplate {
    pieces: Vec<Piece>,
}

impl Model for TimeTemplate {
    ghost use Rattle.idx_names.specs.TimeTemplate.{TimeTemplateValue, IsTimeTemplate};

    ghost Value = { TimeTemplateValue };

    ghost view = { λ t. record { pieces = t.pieces.items } };

    ghost invariant = { λ t. IsTimeTemplate (record { pieces = t.pieces.items }) };
}

impl TimeTemplate {
    /// The time template that a text spells: letters, digits, `_`, `-`, `.` and exactly one mark `%0Nd` with N one digit
    /// 1 to 9, and the ending `/`. `None` exactly where the text spells none.
    pub fn read(alloc: Global, text: &[u8]) -> Result<Option<TimeTemplate>, NoMemory>
        ensures { IfOk result (λ template. template ≡ time_template_of text.now) }
    {
        let [part @ .., last] = text else {
            return Ok(None);
        };
        if *last != b'/' {
            return Ok(None);
        }
        match read_pieces(alloc, MarkKind::Step, part)? {
            Some(pieces) => Ok(TimeTemplate::of_pieces(pieces)),
            None => Ok(None),
        }
    }

    /// The time template of these pieces, of which one has to be a mark.
    fn of_pieces(pieces: Vec<Piece>) -> Option<TimeTemplate>
        requires { pieces_of MarkKind.Step (pieces_text MarkKind.Step pieces.items) ≡ Some pieces.items }
        ensures { result ≡ of_step_pieces pieces.items }
    {
        if mark_count(&pieces) == 1 {
            Some(TimeTemplate { pieces })
        } else {
            None
        }
    }

    /// Appends the text of the time template, with the ending `/`.
    pub fn write(&self, out: &mut Bytes) -> Result<(), NoMemory>
        ensures ok { OnOk result (out.new ≡ out.old ++ time_template_text self.now) }
        ensures err { OnErr result (out.new ≡ out.old) }
        ensures valid { IsTimeTemplate self.now }
    {
        let mut text = Bytes::new(*self.pieces.allocator());
        append_text(&mut text, MarkKind::Step, self.pieces())?;
        text.push(b'/')?;
        out.append(text.as_slice())
    }

    /// A copy of this time template.
    pub fn copy(&self, alloc: Global) -> Result<TimeTemplate, NoMemory>
        ensures { IfOk result (λ copy. copy ≡ self.now) }
    {
        Ok(TimeTemplate {
            pieces: Vec::from_slice(alloc, &self.pieces)?,
        })
    }

    /// Whether the two are one time template: they have the same bytes and the same mark.
    pub fn equals(&self, other: &TimeTemplate) -> bool
        ensures same { IsTrue result ↔ (self.now ≡ other.now) }
        ensures valid { IsTimeTemplate self.now }
    {
        self.pieces == other.pieces
    }

    /// The pieces of a folder's name.
    pub(crate) fn pieces(&self) -> &[Piece]
        ensures same { result.now ≡ self.now.pieces }
        ensures valid { IsTimeTemplate self.now }
    {
        &self.pieces
    }
}
