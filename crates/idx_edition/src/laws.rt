//! Laws of the definitions, each the contract of a function that does nothing.
ghost use Rattle.std.specs.Prelude.{◌≡◌, ℕ, List, None, length};
ghost use Rattle.idx_geom.specs.Region.{points};
ghost use Rattle.idx_geom.specs.Volume.{IsVolume};
ghost use Rattle.idx_outside.specs.Files.{files_of};
ghost use Rattle.idx_outside.specs.declared.mem_file.MemFile.{MemFile};
ghost use Rattle.idx_header.specs.Header.{HasTime, HeaderValue, IsHeader};
ghost use Rattle.idx_rowmajor.specs.declared.layout.Layout.{Layout};
ghost use Rattle.idx_layout.specs.Content.{volume_in};
ghost use Rattle.idx_layout.specs.OfHeader.{placing_of};
ghost use Rattle.idx_layout.specs.Step.{step_files};
ghost use Rattle.idx_edition.specs.Stored.{HasFiles, first_bad, stored_block};

/// Where the files of a step that was written in a layout stand, whatever else does, no table is faulty, and the stored
/// blocks are the volume. They stand where they alone were committed.
pub fn written_steps_read_back()
    ensures sound { (layout : Layout) (h : HeaderValue) (step : ℕ) (volume : List (List (List ℕ)))
        (files : List MemFile) → IsHeader h →
        IsVolume (placing_of h).sizes (length (points h.box)) volume → HasFiles layout h step volume files →
        first_bad h step files ≡ None }
    ensures volume { (layout : Layout) (h : HeaderValue) (step : ℕ) (volume : List (List (List ℕ)))
        (files : List MemFile) → IsHeader h →
        IsVolume (placing_of h).sizes (length (points h.box)) volume → HasFiles layout h step volume files →
        volume_in (placing_of h) (stored_block h step files) ≡ volume }
    ensures own { (layout : Layout) (h : HeaderValue) (step : ℕ) (volume : List (List (List ℕ)))
        (folder : List ℕ) → IsHeader h → HasTime h step →
        HasFiles layout h step volume (files_of folder (step_files layout h volume step)) }
{}
