//! What holds of the definitions, each the contract of a function that does nothing.
ghost use Rattle.std.specs.Prelude.{◌≡◌, ◌↔◌, ℕ, ◌+◌, ◌*◌, ◌/◌, ◌^◌, ◌<◌, ◌≤◌, ◌++◌, IsTrue, List, None, filter, if◌then◌else◌, length, nat_lt, replicate, slice_index, take};
ghost use Rattle.std.specs.List.{flat_map};
ghost use Rattle.idx_outside.specs.declared.mem_file.MemFile.{MemFile};
ghost use Rattle.idx_header.specs.Header.{HeaderValue, IsHeader};
ghost use Rattle.idx_table.specs.Row.{row_bytes, row_length};
ghost use Rattle.idx_table.specs.Table.{table_bytes};
ghost use Rattle.idx_rowmajor.specs.declared.layout.Layout.{Layout};
ghost use Rattle.idx_layout.specs.Content.{volume_in};
ghost use Rattle.idx_layout.specs.Files.{length_of_file, offset_of, row_count, rows_of_file};
ghost use Rattle.idx_layout.specs.OfHeader.{placing_of};
ghost use Rattle.idx_layout.specs.Placing.{block_bytes, is_present};
ghost use Rattle.idx_layout.specs.Step.{step_files};
ghost use Rattle.idx_edition.specs.Stored.{first_bad, stored_block};
ghost use Rattle.idx_check.specs.Verdict.{files_there, first_wrong};
ghost use Rattle.idx_check.specs.Wanted.{is_of_box, wanted_bytes};

/// Nothing is wrong with a step exactly where no row of its files is faulty, and the files that are there, of all that the
/// blocks of its mask would take, are those that the writer writes in hierarchical order for the volume that they store.
pub fn nothing_is_wrong_with_written_files_alone()
    ensures { (h : HeaderValue) (step : ℕ) (files : List MemFile) → IsHeader h →
        (first_wrong h step files ≡ None) ↔ ((first_bad h step files ≡ None)
        × (files_there h step files ≡ step_files Layout.Hz h (volume_in (placing_of h) (stored_block h step files)) step)) }
{}

/// The bytes that a file should have, place by place: they are as many as the writer's; their table does not depend on the
/// file; and in a present block they are the file's own where the address is that of a point of the box, zeros where it is
/// not, and zeros where the file has ended.
pub fn wanted_bytes_are_the_files_own()
    ensures length { (h : HeaderValue) (file : ℕ) (bytes : List ℕ) → IsHeader h →
        length (wanted_bytes (placing_of h) file bytes) ≡ length_of_file (placing_of h) file }
    ensures table { (h : HeaderValue) (file : ℕ) (bytes : List ℕ) → IsHeader h →
        take (table_bytes (row_count (placing_of h))) (wanted_bytes (placing_of h) file bytes) ≡
        replicate row_length 0 ++ flat_map row_bytes (rows_of_file Layout.Hz (placing_of h) file) }
    ensures blocks { (h : HeaderValue) (file field block i : ℕ) (bytes : List ℕ) → IsHeader h →
        field < length h.fields → file ≤ block → block < file + h.blocks_per_file →
        IsTrue (is_present (placing_of h) block) → i < block_bytes (placing_of h) field →
        slice_index (wanted_bytes (placing_of h) file bytes) (offset_of (placing_of h) file field block + i) ≡
        (if is_of_box (placing_of h) (block * 2 ^ h.block_bits + i / slice_index (placing_of h).sizes field)
        then slice_index bytes (offset_of (placing_of h) file field block + i) else 0) }
{}
