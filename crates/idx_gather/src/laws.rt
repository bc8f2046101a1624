//! What holds of the definitions, each the contract of a function that does nothing.
ghost use Rattle.std.specs.Prelude.{ℕ, List, Option};
ghost use Rattle.idx_outside.specs.declared.mem_file.MemFile.{MemFile};
ghost use Rattle.idx_header.specs.Header.{HeaderValue};
ghost use Rattle.idx_rowmajor.specs.declared.layout.Layout.{Layout};
ghost use Rattle.idx_layout.specs.Files.{length_of_file};
ghost use Rattle.idx_layout.specs.OfHeader.{placing_of};
ghost use Rattle.idx_pieces.specs.Samples.{region_bytes};
ghost use Rattle.idx_pieces.specs.declared.piece.Piece.{Piece};
ghost use Rattle.idx_gather.specs.States.{AreAllFiles, IsStepOf, TellAs, batch_of};
ghost use Rattle.idx_gather.specs.Windows.{FitOrIsOne, window_of};

/// The files of a window take no more bytes than the room together, or there is one.
pub fn windows_fit_the_room()
    ensures { (h : HeaderValue) (room : ℕ) (files : List ℕ) →
        FitOrIsOne (length_of_file (placing_of h)) room (window_of h room files) }
{}

/// The samples of the pieces of a batch take no more bytes than the room together, or there is one piece.
pub fn batches_fit_the_room()
    ensures { (h : HeaderValue) (room : ℕ) (left : List Piece) →
        FitOrIsOne (λ piece. region_bytes h piece.region) room (batch_of h room left) }
{}

/// Sealed files are those of the step of some raw input, where they tell their bytes exactly where the committed files are
/// known: so what a commit says of such an input it says of them.
pub fn sealed_files_are_a_step()
    ensures { (layout : Layout) (h : HeaderValue) (step : ℕ) (known : Option (List MemFile))
        (sealed : List (List ℕ × Option (List ℕ))) → ∥ AreAllFiles layout h step sealed ∥₁ → TellAs known sealed →
        ∥ ((raw : List ℕ) × IsStepOf layout h step known sealed raw) ∥₁ }
{}
