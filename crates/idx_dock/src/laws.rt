//! What holds of the definitions, each the contract of a function that does nothing.
ghost use Rattle.std.specs.Prelude.{◌≡◌, ◌≢◌, ℕ, All, List, None, false, length, map, replicate, true};
ghost use Rattle.std.specs.List.{list_any};
ghost use Rattle.idx_fields.specs.Field.{sample_bytes};
ghost use Rattle.idx_geom.specs.Region.{points};
ghost use Rattle.idx_geom.specs.Volume.{IsVolume};
ghost use Rattle.idx_header.specs.Header.{HeaderValue, sample_bytes_of};
ghost use Rattle.idx_rowmajor.specs.declared.layout.Layout.{Layout};
ghost use Rattle.idx_layout.specs.Files.{file_bytes};
ghost use Rattle.idx_layout.specs.OfHeader.{placing_of};
ghost use Rattle.idx_pieces.specs.declared.shipment.Shipment.{Shipment};
ghost use Rattle.idx_pieces.specs.Runs.{HasSamples, file_addresses, has_address};
ghost use Rattle.idx_dock.specs.Dock.{DockValue, IsDock, missing, reaches, with_shipment};
ghost use Rattle.idx_dock.specs.Content.{dock_bytes_as, dock_sample, has_sample, run_sample, runs_in, sample_of};

/// A region has a point in a file exactly where some address of the file is that of one of its points.
pub fn pieces_reach_their_addresses()
    ensures { (h : HeaderValue) (region : List (ℕ × ℕ)) (file : ℕ) →
        reaches h region file ≡ list_any (has_address h.mask region) (file_addresses h file) }
{}

/// Shipments of different pieces may come in either order.
pub fn deliveries_commute()
    ensures { (d : DockValue) (s t : Shipment) → s.piece ≢ t.piece →
        with_shipment s (with_shipment t d) ≡ with_shipment t (with_shipment s d) }
{}

/// Each delivered sample stands at its field and address, and zeros stand where none was delivered.
pub fn delivered_samples_stand()
    ensures samples { (d : DockValue) (field address : ℕ) → IsDock d →
        All (λ run. has_sample d.header field address run ≡ true →
        dock_sample d field address ≡ run_sample d.header address run) (runs_in d.awaited) }
    ensures zeros { (d : DockValue) (field address : ℕ) →
        list_any (has_sample d.header field address) (runs_in d.awaited) ≡ false →
        dock_sample d field address ≡ replicate (sample_bytes_of d.header field) 0 }
{}

/// A dock of which nothing is missing, and to which the samples of a volume were delivered, writes the volume's file, in
/// each layout.
pub fn complete_docks_are_files()
    ensures { (layout : Layout) (d : DockValue) (volume : List (List (List ℕ))) → IsDock d → missing d ≡ None →
        IsVolume (map sample_bytes d.header.fields) (length (points d.header.box)) volume →
        All (HasSamples d.header (sample_of d.header volume)) (runs_in d.awaited) →
        dock_bytes_as layout d ≡ file_bytes layout (placing_of d.header) volume d.file }
{}
