//! Laws of the definitions, each the contract of a function that does nothing.
ghost use Rattle.std.specs.Prelude.{◌≡◌, ℕ, ◌+◌, ◌-◌, ◌*◌, ◌^◌, ◌<◌, ◌≤◌, All, IsTrue, List, None, Some, drop, filter, length, map, nat_lt, slice_get, slice_index, sum_by, take};
ghost use Rattle.std.specs.List.{range_with_len};
ghost use Rattle.idx_geom.specs.Region.{points};
ghost use Rattle.idx_geom.specs.Volume.{IsVolume};
ghost use Rattle.idx_header.specs.Header.{HeaderValue, IsHeader};
ghost use Rattle.idx_table.specs.Row.{IsRow};
ghost use Rattle.idx_table.specs.Table.{first_fault, rows_of, table_bytes};
ghost use Rattle.idx_rowmajor.specs.RowPlace.{IsBlock};
ghost use Rattle.idx_rowmajor.specs.declared.layout.Layout.{Layout};
ghost use Rattle.idx_layout.specs.Placing.{Placing, block_bytes, block_of_samples, is_present, present_blocks};
ghost use Rattle.idx_layout.specs.Layout.{arranged, flags_of, in_hz_order};
ghost use Rattle.idx_layout.specs.OfHeader.{placing_of};
ghost use Rattle.idx_layout.specs.Files.{FitsRows, file_bytes, length_of_file, offset_of, row_count, rows_of_file};

/// A block begins behind the table, the present blocks of the fields before its own, and those of its own field whose
/// numbers are lower. A file ends behind the present blocks of all fields.
pub fn offsets_are_sums()
    ensures offset { (l : Placing) (file field block : ℕ) → field < length l.sizes → offset_of l file field block ≡
        table_bytes (row_count l)
        + (sum_by (block_bytes l) (range_with_len 0 field) * length (present_blocks l file)
        + block_bytes l field * length (filter (λ other. nat_lt other block) (present_blocks l file))) }
    ensures place { (l : Placing) (file field i block : ℕ) → field < length l.sizes →
        slice_get (present_blocks l file) i ≡ Some block → offset_of l file field block ≡
        table_bytes (row_count l) + (sum_by (block_bytes l) (range_with_len 0 field) * length (present_blocks l file)
        + block_bytes l field * i) }
    ensures before { (l : Placing) (file block : ℕ) → file ≤ block → block ≤ file + l.per_file →
        filter (λ other. nat_lt other block) (present_blocks l file) ≡
        filter (is_present l) (range_with_len file (block - file)) }
    ensures length { (l : Placing) (file : ℕ) → length_of_file l file ≡ table_bytes (row_count l)
        + sum_by (block_bytes l) (range_with_len 0 (length l.sizes)) * length (present_blocks l file) }
{}

/// Where a row's words can hold its offsets and sizes, no row of a file is faulty.
pub fn written_files_are_right()
    ensures rows { (layout : Layout) (l : Placing) (file : ℕ) → FitsRows l file →
        All IsRow (rows_of_file layout l file) }
    ensures none { (layout : Layout) (l : Placing) (volume : List (List (List ℕ))) (file : ℕ) → FitsRows l file →
        first_fault (file_bytes layout l volume file) (row_count l)
        (map (block_bytes l) (range_with_len 0 (length l.sizes))) (length_of_file l file) ≡ None }
{}

/// A file of a volume has its length, begins with its table, and holds each of its present blocks at the block's offset,
/// arranged in the file's layout.
pub fn files_hold_their_blocks()
    ensures length { (layout : Layout) (l : Placing) (volume : List (List (List ℕ))) (file : ℕ) →
        IsVolume l.sizes (length (points l.region)) volume →
        length (file_bytes layout l volume file) ≡ length_of_file l file }
    ensures rows { (layout : Layout) (l : Placing) (volume : List (List (List ℕ))) (file : ℕ) →
        All IsRow (rows_of_file layout l file) →
        rows_of (file_bytes layout l volume file) (row_count l) ≡ rows_of_file layout l file }
    ensures blocks { (layout : Layout) (l : Placing) (volume : List (List (List ℕ))) (file field block : ℕ)
        (samples : List (List ℕ)) →
        IsVolume l.sizes (length (points l.region)) volume → slice_get volume field ≡ Some samples →
        file ≤ block → block < file + l.per_file → IsTrue (is_present l block) →
        take (block_bytes l field) (drop (offset_of l file field block) (file_bytes layout l volume file)) ≡
        arranged layout l (slice_index l.sizes field) block
        (block_of_samples l (slice_index l.sizes field) samples block) }
{}

/// Of a block that stands in a file in a layout, the flags of its row give its bytes back in hierarchical order.
pub fn layouts_are_read_back()
    ensures { (layout : Layout) (l : Placing) (size block : ℕ) (bytes : List ℕ) →
        IsBlock l.mask (length l.region) l.bits block → length bytes ≡ size * 2 ^ l.bits →
        in_hz_order l size block (flags_of layout) (arranged layout l size block bytes) ≡ bytes }
{}

/// The files of each header are such that a row's words can hold their offsets and sizes.
pub fn headers_fit_rows()
    ensures { (h : HeaderValue) (file : ℕ) → IsHeader h → FitsRows (placing_of h) file }
{}
