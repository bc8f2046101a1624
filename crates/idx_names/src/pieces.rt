ghost use Rattle.std.specs.Prelude.{◌≡◌, ◌≤◌, ◌++◌, IfOk, OnOk, MatchOption, None, Some, All};
ghost use Rattle.idx_names.specs.Pieces.{pieces_of, pieces_text, bits_of, mark_count, IsPiece};

use crate::mark_kind::MarkKind;
use crate::piece::Piece;
use idx_outside::{Bytes, NoMemory};
use std::alloc::Global;

/// Appends the text of some pieces.
pub(crate) fn append_text(out: &mut Bytes, kind: MarkKind, pieces: &[Piece]) -> Result<(), NoMemory>
    requires { All (IsPiece kind) pieces.now }
    ensures { OnOk result (out.new ≡ out.old ++ pieces_text kind pieces.now) }
{
    for piece in pieces {
        piece.append_text(out, kind)?;
    }
    Ok(())
}

/// How many bits of a number the pieces take: at most five marks of eight digits, with four bits for each digit.
pub(crate) fn bits_of(pieces: &[Piece]) -> u32
    requires { bits_of pieces.now ≤ 160 }
    ensures { result ≡ bits_of pieces.now }
{
    let mut bits = 0;
    for piece in pieces {
        bits += piece.bits();
    }
    bits
}

/// How many of the pieces are marks.
pub(crate) fn mark_count(pieces: &[Piece]) -> usize
    ensures { result ≡ mark_count pieces.now }
{
    pieces.iter().filter(|piece| piece.is_mark()).count()
}

/// The pieces that a text spells. `None` exactly where some byte neither stands for itself nor belongs to a mark.
pub(crate) fn read_pieces(
    alloc: Global,
    kind: MarkKind,
    text: &[u8],
) -> Result<Option<Vec<Piece>>, NoMemory>
    ensures { IfOk result (λ read. MatchOption read (pieces_of kind text.now ≡ None)
        (λ pieces. pieces_of kind text.now ≡ Some pieces.items)) }
{
    let mut pieces = Vec::new(alloc);
    let mut rest = text;
    while !rest.is_empty() {
        let Some(piece) = Piece::read(kind, rest) else {
            return Ok(None);
        };
        rest = &rest[piece.width()..];
        pieces.push(piece)?;
    }
    Ok(Some(pieces))
}
