ghost use Rattle.std.specs.Prelude.{◌≡◌, ◌==◌, ◌≤◌, [], IfOk, find, length, option_copied};
ghost use Rattle.std.specs.Option.{IsSome, option_map_or};
ghost use Rattle.idx_pieces.specs.Pieces.{pieces_of};
ghost use Rattle.idx_core_model.specs.Headline.{IsDivided};

use idx_header::Header;
use idx_outside::NoMemory;
use idx_pieces::{Piece, pieces};
use std::alloc::Global;
use std::marker::Model;

/// A dataset with a time, and its box divided into pieces and among ranks.
#[derive(Drop)]
pub struct Division {
    header: Header,
    digits: u32,
    ranks: u32,
    pieces: Vec<Piece>,
}

impl Model for Division {
    ghost use Rattle.std.specs.Prelude.{◌≡◌};
    ghost use Rattle.idx_pieces.specs.Pieces.{pieces_of};
    ghost use Rattle.idx_core_model.specs.Headline.{IsDivided};
    ghost use Rattle.idx_core_layers.specs.Division.{DivisionValue};

    ghost Value = { DivisionValue };

    ghost view = { λ d. record { header = d.header; digits = d.digits; ranks = d.ranks } };

    ghost invariant = { λ d. IsDivided d.header d.digits d.ranks
        × (d.pieces.items ≡ pieces_of d.header d.digits d.ranks) };
}

impl Division {
    /// A dataset that is divided into pieces whose points have so many last digits of their Z addresses free, and among
    /// so many ranks. Answers `NoMemory` where there is no room for the pieces.
    pub fn new(
        alloc: Global,
        header: &Header,
        digits: u32,
        ranks: u32,
    ) -> Result<Division, NoMemory>
        requires time { IsSome header.now.steps }
        requires within { digits ≤ length header.now.mask }
        requires some { 1 ≤ ranks }
        ensures { IfOk result (λ d. d ≡ record { header = header.now; digits = digits; ranks = ranks }) }
    {
        Ok(Division {
            header: header.copy(alloc)?,
            digits,
            ranks,
            pieces: pieces(alloc, header, digits, ranks)?,
        })
    }

    /// The dataset's header.
    pub fn header(&self) -> &Header
        ensures value { result.now ≡ self.now.header }
        ensures valid { IsDivided self.now.header self.now.digits self.now.ranks }
    {
        &self.header
    }

    /// The pieces with a point of the box, by rising id.
    pub fn pieces(&self) -> &Vec<Piece>
        ensures { result.now.items ≡ pieces_of self.now.header self.now.digits self.now.ranks }
    {
        &self.pieces
    }

    /// The piece of an id, if there is one.
    pub fn piece(&self, id: u64) -> Option<&Piece>
        ensures { option_copied result ≡
            find (λ piece. piece.id == id) (pieces_of self.now.header self.now.digits self.now.ranks) }
    {
        self.pieces.iter().find(|piece| piece.id == id)
    }

    /// The ranks that have a part of the piece of an id; none where there is no such piece.
    pub fn ranks_of(&self, id: u64) -> &[u32]
        ensures { result.now ≡ option_map_or (λ piece. piece.ranks)
            (find (λ piece. piece.id == id) (pieces_of self.now.header self.now.digits self.now.ranks)) [] }
    {
        match self.piece(id) {
            Some(piece) => piece.ranks.as_slice(),
            None => &[],
        }
    }
}
