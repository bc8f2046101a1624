//! What holds of the definitions, each the contract of a function that does nothing.
ghost use Rattle.std.specs.Prelude.{◌≡◌, ℕ, Contains, List, None, length};
ghost use Rattle.idx_header.specs.Header.{HeaderValue, IsHeader, volume_bytes};
ghost use Rattle.idx_rowmajor.specs.declared.layout.Layout.{Layout};
ghost use Rattle.idx_layout.specs.Files.{file_bytes};
ghost use Rattle.idx_layout.specs.OfHeader.{placing_of};
ghost use Rattle.idx_layout.specs.Placing.{file_numbers};
ghost use Rattle.idx_layout.specs.Step.{volume_of_raw};
ghost use Rattle.idx_dock.specs.Content.{dock_bytes_as};
ghost use Rattle.idx_dock.specs.Dock.{DockValue, IsDock, missing};
ghost use Rattle.idx_volumes.specs.Volumes.{IsJoin, IsVolumeOf, IsWhole};

/// A dock of which nothing is missing writes the file of some volume, one in each layout.
pub fn complete_docks_write_some_volume()
    ensures { (d : DockValue) → IsDock d → missing d ≡ None →
        (volume : List (List (List ℕ))) × (IsVolumeOf d.header volume
        × ((layout : Layout) →
        dock_bytes_as layout d ≡ file_bytes layout (placing_of d.header) volume d.file)) }
{}

/// Of a volume for each file of a step there is one volume each of whose files is that of the file's own.
pub fn files_make_one_volume()
    ensures { (h : HeaderValue) (volumes : ℕ → List (List (List ℕ))) → IsHeader h →
        ((file : ℕ) → Contains (file_numbers (placing_of h)) file → IsVolumeOf h (volumes file)) →
        (volume : List (List (List ℕ))) × IsWhole h volumes volume }
{}

/// Of two volumes and a file there is one whose file is that of the second, and whose other files are those of the
/// first.
pub fn volumes_join_by_files()
    ensures { (h : HeaderValue) (v w : List (List (List ℕ))) (file : ℕ) → IsHeader h → IsVolumeOf h v →
        IsVolumeOf h w → Contains (file_numbers (placing_of h)) file →
        (u : List (List (List ℕ))) × IsJoin h v w file u }
{}

/// Each volume is that of some raw bytes.
pub fn volumes_have_raws()
    ensures { (h : HeaderValue) (volume : List (List (List ℕ))) → IsVolumeOf h volume →
        (bytes : List ℕ) × ((length bytes ≡ volume_bytes h) × (volume_of_raw h bytes ≡ volume)) }
{}
