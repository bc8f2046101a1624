ghost use Rattle.std.specs.Prelude.{◌≡◌, ◌++◌, ◌↔◌, IfOk, OnOk, OnErr, IsTrue};
ghost use Rattle.idx_names.specs.Template.{with_marks, template_of, template_text, IsTemplate, Fits};
ghost use Rattle.idx_names.specs.Building.{AreOfParts};

use crate::bits::high_bits;
use crate::mark_kind::MarkKind;
use crate::parts::{Parts, is_dot, read_part};
use crate::piece::Piece;
use crate::pieces::{append_text, mark_count};
use idx_outside::{Bytes, NoMemory};
use std::alloc::Global;
use std::marker::Model;

/// A template has at most so many marks.
const MAX_MARKS: usize = 5;

/// The template of the names of files: parts separated by `/`, in which marks stand for the digits of a file's number
/// (the OpenVisus IDX documentation). It is seen as the text of the parts before the first part with a mark, and the pieces of
/// the others.
#[derive(Debug, Drop)]
pub struct Template {
    above: Bytes,
    pieces: Vec<Piece>,
}

impl Model for Template {
    ghost use Rattle.idx_names.specs.Template.{TemplateValue, IsTemplate};

    ghost Value = { TemplateValue };

    ghost view = { λ t. record { above = t.above; pieces = t.pieces.items } };

    ghost invariant = { λ t. IsTemplate (record { above = t.above; pieces = t.pieces.items }) };
}

impl Template {
    /// The template that a text spells. Parts that are a single dot are dropped; an empty part, a part of two dots and a
    /// `/` at an end are refused. A part has letters, digits, `_`, `-`, `.` and marks `%0Nx` with N one digit 1 to 8;
    /// there are 1 to 5 marks in all. `None` exactly where the text spells none.
    pub fn read(alloc: Global, text: &[u8]) -> Result<Option<Template>, NoMemory>
        ensures { IfOk result (λ template. template ≡ template_of text.now) }
    {
        let mut parts = Parts::new(alloc);
        for part in text.split(|byte| *byte == b'/') {
            if is_dot(part) {
                continue;
            }
            let Some(pieces) = read_part(alloc, part)? else {
                return Ok(None);
            };
            parts.add(part, &pieces)?;
        }
        Ok(Template::of_parts(parts))
    }

    /// The template of these parts, which have to have 1 to 5 marks in all.
    fn of_parts(parts: Parts) -> Option<Template>
        requires { AreOfParts parts.above parts.pieces.items }
        ensures { result ≡ with_marks (record { above = parts.above; pieces = parts.pieces.items }) }
    {
        if !(1..=MAX_MARKS).contains(&mark_count(&parts.pieces)) {
            return None;
        }
        let Parts { above, pieces } = parts;
        Some(Template { above, pieces })
    }

    /// Appends the text of the template: its parts, joined by `/`.
    pub fn write(&self, out: &mut Bytes) -> Result<(), NoMemory>
        ensures ok { OnOk result (out.new ≡ out.old ++ template_text self.now) }
        ensures err { OnErr result (out.new ≡ out.old) }
        ensures valid { IsTemplate self.now }
    {
        let mut text = Bytes::from_slice(*self.pieces.allocator(), self.above())?;
        append_text(&mut text, MarkKind::File, self.pieces())?;
        out.append(text.as_slice())
    }

    /// A copy of this template.
    pub fn copy(&self, alloc: Global) -> Result<Template, NoMemory>
        ensures { IfOk result (λ copy. copy ≡ self.now) }
    {
        Ok(Template {
            above: Bytes::from_slice(alloc, self.above.as_slice())?,
            pieces: Vec::from_slice(alloc, &self.pieces)?,
        })
    }

    /// Whether the two are one template: they have the same parts.
    pub fn equals(&self, other: &Template) -> bool
        ensures same { IsTrue result ↔ (self.now ≡ other.now) }
        ensures valid { IsTemplate self.now }
    {
        self.above == other.above && self.pieces == other.pieces
    }

    /// Whether a file's number fits: it is below 2 to four times the number of the marks' digits.
    pub fn fits(&self, file: u64) -> bool
        ensures { IsTrue result ↔ Fits self.now file }
    {
        let mut left = file;
        for piece in &self.pieces {
            left = high_bits(left, piece.bits());
        }
        left == 0
    }

    /// The text of the parts before the first part with a mark, each with the `/` behind it.
    pub(crate) fn above(&self) -> &[u8]
        ensures { result.now ≡ self.now.above }
    {
        self.above.as_slice()
    }

    /// The pieces of the other parts.
    pub(crate) fn pieces(&self) -> &[Piece]
        ensures same { result.now ≡ self.now.pieces }
        ensures valid { IsTemplate self.now }
    {
        &self.pieces
    }
}
