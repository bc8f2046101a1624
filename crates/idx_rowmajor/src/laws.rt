//! Laws of the definitions, each the contract of a function that does nothing.
ghost use Rattle.std.specs.Prelude.{◌≡◌, ℕ, ◌+◌, ◌*◌, ◌^◌, ◌<◌, List, length};
ghost use Rattle.idx_hz.specs.Mask.{HasAddress};
ghost use Rattle.idx_hz.specs.Address.{hz_address};
ghost use Rattle.idx_rowmajor.specs.Digits.{row_rank};
ghost use Rattle.idx_rowmajor.specs.RowPlace.{IsBlock, offset_at, row_place};
ghost use Rattle.idx_rowmajor.specs.Rows.{hz_from_rows, rows_from_hz, sample_of};

/// The row places of a block are one to one from its offsets, the numbers below 2^bits, onto themselves, and the offset
/// of a row place is their inverse.
pub fn row_places_are_one_to_one()
    ensures within { (mask : List ℕ) (axes bits block offset : ℕ) → IsBlock mask axes bits block →
        offset < 2 ^ bits → row_place mask axes bits block offset < 2 ^ bits }
    ensures apart { (mask : List ℕ) (axes bits block offset other : ℕ) → IsBlock mask axes bits block →
        offset < 2 ^ bits → other < 2 ^ bits →
        row_place mask axes bits block offset ≡ row_place mask axes bits block other → offset ≡ other }
    ensures onto { (mask : List ℕ) (axes bits block place : ℕ) → IsBlock mask axes bits block →
        place < 2 ^ bits →
        (offset : ℕ) × (offset < 2 ^ bits) × (row_place mask axes bits block offset ≡ place) }

    ensures offsets_within { (mask : List ℕ) (axes bits block place : ℕ) → IsBlock mask axes bits block →
        place < 2 ^ bits → offset_at mask axes bits block place < 2 ^ bits }
    ensures back { (mask : List ℕ) (axes bits block offset : ℕ) → IsBlock mask axes bits block →
        offset < 2 ^ bits → offset_at mask axes bits block (row_place mask axes bits block offset) ≡ offset }
    ensures forth { (mask : List ℕ) (axes bits block place : ℕ) → IsBlock mask axes bits block →
        place < 2 ^ bits → row_place mask axes bits block (offset_at mask axes bits block place) ≡ place }
{}

/// The row place counts, of all points before a point in row-major order, those of its block.
pub fn row_places_count_points()
    ensures { (mask p : List ℕ) (axes bits block offset : ℕ) → IsBlock mask axes bits block → offset < 2 ^ bits →
        length p ≡ axes → HasAddress mask p → hz_address mask p ≡ block * 2 ^ bits + offset →
        row_place mask axes bits block offset ≡ row_rank mask axes bits block p }
{}

/// The two orders of a block undo each other and keep its length: each sample stands in the one at its offset, and in
/// the other at its row place.
pub fn orders_undo_each_other()
    ensures hz_back { (mask bytes : List ℕ) (axes bits block size : ℕ) → IsBlock mask axes bits block →
        length bytes ≡ size * 2 ^ bits →
        hz_from_rows mask axes bits block size (rows_from_hz mask axes bits block size bytes) ≡ bytes }
    ensures rows_back { (mask bytes : List ℕ) (axes bits block size : ℕ) → IsBlock mask axes bits block →
        length bytes ≡ size * 2 ^ bits →
        rows_from_hz mask axes bits block size (hz_from_rows mask axes bits block size bytes) ≡ bytes }

    ensures hz_length { (mask bytes : List ℕ) (axes bits block size : ℕ) → IsBlock mask axes bits block →
        length bytes ≡ size * 2 ^ bits →
        length (hz_from_rows mask axes bits block size bytes) ≡ size * 2 ^ bits }
    ensures rows_length { (mask bytes : List ℕ) (axes bits block size : ℕ) → length bytes ≡ size * 2 ^ bits →
        length (rows_from_hz mask axes bits block size bytes) ≡ size * 2 ^ bits }

    ensures hz_sample { (mask bytes : List ℕ) (axes bits block size offset : ℕ) → IsBlock mask axes bits block →
        length bytes ≡ size * 2 ^ bits → offset < 2 ^ bits →
        sample_of size (hz_from_rows mask axes bits block size bytes) offset ≡
        sample_of size bytes (row_place mask axes bits block offset) }
    ensures rows_sample { (mask bytes : List ℕ) (axes bits block size place : ℕ) → IsBlock mask axes bits block →
        length bytes ≡ size * 2 ^ bits → place < 2 ^ bits →
        sample_of size (rows_from_hz mask axes bits block size bytes) place ≡
        sample_of size bytes (offset_at mask axes bits block place) }
{}
