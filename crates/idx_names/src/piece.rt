ghost use Rattle.std.specs.Prelude.{◌≡◌, ◌+◌, ◌≤◌, ◌++◌, [], ◌∷◌, length, IfSome, OnOk};
ghost use Rattle.idx_names.specs.Pieces.{is_plain, first_piece};

use crate::mark_kind::MarkKind;
use idx_outside::{Bytes, NoMemory};

/// A piece of a name: a byte that stands for itself, or a mark, in whose place a number is written with at least so many
/// digits.
#[derive(Clone, Copy, Debug, PartialEq, Eq)]
pub enum Piece {
    Byte(u8),
    Mark(u8),
}

impl Piece {
    ghost use Rattle.idx_names.specs.Pieces.{bytes_behind, first_piece, piece_bits, piece_text, is_mark, IsPiece};

    /// How many bits of a number the piece takes: four for each digit of a mark.
    pub fn bits(&self) -> u32
        ensures { result ≡ piece_bits self.now }
    {
        match self {
            Piece::Byte(_) => 0,
            Piece::Mark(digits) => 4 * u32::from(*digits),
        }
    }

    /// Appends the text of the piece.
    pub(crate) fn append_text(&self, out: &mut Bytes, kind: MarkKind) -> Result<(), NoMemory>
        requires { IsPiece kind self.now }
        ensures { OnOk result (out.new ≡ out.old ++ piece_text kind self.now) }
    {
        match self {
            Piece::Byte(byte) => out.push(*byte),
            Piece::Mark(digits) => out.append(&[b'%', b'0', *digits + b'0', kind.letter()]),
        }
    }

    /// How many bytes the text of the piece has.
    pub(crate) fn width(&self) -> usize
        ensures { result ≡ bytes_behind self.now + 1 }
    {
        match self {
            Piece::Byte(_) => 1,
            Piece::Mark(_) => 4,
        }
    }

    /// Whether the piece is a mark.
    pub(crate) fn is_mark(&self) -> bool
        ensures { result ≡ is_mark self.now }
    {
        matches!(self, Piece::Mark(_))
    }

    /// The piece that a text begins with. `None` where the text is empty.
    pub(crate) fn read(kind: MarkKind, text: &[u8]) -> Option<Piece>
        ensures value { result ≡ first_piece kind text.now }
        ensures within { IfSome result (λ piece. bytes_behind piece + 1 ≤ length text.now) }
    {
        let [first, ..] = text else {
            return None;
        };
        if is_plain(*first) {
            return Some(Piece::Byte(*first));
        }
        let [b'%', b'0', digits, letter, ..] = text else {
            return None;
        };
        read_mark(kind, *digits, *letter)
    }
}

/// Whether the byte is a letter, a digit, `_`, `-` or `.`.
fn is_plain(byte: u8) -> bool
    ensures { result ≡ is_plain byte }
{
    matches!(byte, b'a'..=b'z' | b'A'..=b'Z' | b'0'..=b'9' | b'_' | b'-' | b'.')
}

/// The mark of this digit and this letter.
fn read_mark(kind: MarkKind, digits: u8, letter: u8) -> Option<Piece>
    ensures { result ≡ first_piece kind (37 ∷ 48 ∷ digits ∷ letter ∷ []) }
{
    if digits > b'0' && digits <= b'0' + kind.most_digits() && letter == kind.letter() {
        Some(Piece::Mark(digits - b'0'))
    } else {
        None
    }
}
