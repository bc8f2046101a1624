ghost use Rattle.std.specs.Prelude.{◌≡◌, ℕ, ◌+◌, ◌<◌, ◌^◌};
ghost use Rattle.std.specs.List.{range_with_len};
ghost use Rattle.idx_header.specs.Header.{HasTime};
ghost use Rattle.idx_board.specs.Standing.{step_numbers};

use idx_header::Header;

/// The first step of a header, and how many steps it has.
pub(crate) fn steps_of(header: &Header) -> (u64, u64)
    ensures numbers { range_with_len result.0 result.1 ≡ step_numbers header.now }
    ensures has { (i : ℕ) → i < result.1 → HasTime header.now (result.0 + i) }
    ensures few { result.0 + result.1 < 2 ^ 32 }
{
    let _ = header.axes();
    match header.steps() {
        Some((first, last)) => (first, last - first + 1),
        None => (0, 1),
    }
}
