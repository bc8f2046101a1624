ghost use Rattle.std.specs.Prelude.{◌≡◌, All, Contains, IfOk};
ghost use Rattle.idx_layout.specs.OfHeader.{placing_of};
ghost use Rattle.idx_layout.specs.Placing.{file_numbers};
ghost use Rattle.idx_pieces.specs.Pieces.{IsPiece};
ghost use Rattle.idx_dock.specs.Dock.{reaches};
ghost use Rattle.idx_gather.specs.States.{is_wanted, wanted};

use idx_header::Header;
use idx_layout::blocks_in;
use idx_outside::NoMemory;
use idx_pieces::{Piece, Ranks};
use std::alloc::Global;

/// Those of some pieces that have a point in one of these files, in their order.
pub(crate) fn wanted_pieces(
    alloc: Global,
    header: &Header,
    pieces: &[Piece],
    files: &[u64],
) -> Result<Vec<Piece>, NoMemory>
    requires pieces { All (IsPiece header.now) pieces.now }
    requires files { All (Contains (file_numbers (placing_of header.now))) files.now }
    ensures { IfOk result (λ found. found.items ≡ wanted header.now files.now pieces.now) }
{
    let mut found = Vec::new(alloc);
    for piece in pieces {
        if is_wanted(header, files, piece) {
            found.push(copy_piece(alloc, piece)?)?;
        }
    }
    Ok(found)
}

/// Whether a piece has a point in one of these files.
fn is_wanted(header: &Header, files: &[u64], piece: &Piece) -> bool
    requires piece { IsPiece header.now piece.now }
    requires files { All (Contains (file_numbers (placing_of header.now))) files.now }
    ensures { result ≡ is_wanted header.now files.now piece.now }
{
    for file in files {
        if reaches(header, piece, *file) {
            return true;
        }
    }
    false
}

/// Whether a piece has a point in a file.
fn reaches(header: &Header, piece: &Piece, file: u64) -> bool
    requires piece { IsPiece header.now piece.now }
    requires file { Contains (file_numbers (placing_of header.now)) file }
    ensures { result ≡ reaches header.now piece.now.region file }
{
    let end = file + header.blocks_per_file();
    let mut blocks = blocks_in(
        &header.mask(),
        &piece.region,
        header.bits_per_block(),
        file,
        end,
    );
    blocks.next().is_some()
}

/// The same piece once more.
fn copy_piece(alloc: Global, piece: &Piece) -> Result<Piece, NoMemory>
    ensures { IfOk result (λ copy. copy ≡ piece.now) }
{
    Ok(Piece {
        id: piece.id,
        region: piece.region,
        ranks: Ranks::from_vec(Vec::from_slice(alloc, piece.ranks.as_slice())?),
        of_ranks: piece.of_ranks,
    })
}
