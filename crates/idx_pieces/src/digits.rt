ghost use Rattle.std.specs.Prelude.{◌≡◌, ◌^◌, ◌≤◌, length};
ghost use Rattle.idx_pieces.specs.Digits.{piece_digits, point_bytes};

use idx_header::Header;

/// Where the room is large enough, the number of a piece has so many digits.
const FRONT_DIGITS: u32 = 6;

/// How many last digits of the Z addresses of a piece's points are free: the most that let four such pieces fit into so
/// many bytes and leave six digits for the numbers of pieces, else none. So there are at most 64 pieces, and more only
/// where the room is too small for that.
pub fn piece_digits(header: &Header, room: u64) -> u32
    ensures digits { result ≡ piece_digits header.now room }
    ensures within { result ≤ length header.now.mask }
{
    let size = point_bytes(header);
    let digits = header.max_level();
    let most = digits - digits.min(FRONT_DIGITS);
    for less in 0..most {
        let e = most - less;
        if 4 * (1 << e) * size <= room {
            return e;
        }
    }
    0
}

/// How many bytes a point has: those of its sample of each field.
pub(crate) fn point_bytes(header: &Header) -> u64
    ensures bytes { result ≡ point_bytes header.now }
    ensures few { result ≤ 2 ^ 12 }
{
    let mut bytes = 0;
    'fields: for field in 0..header.field_count() {
        bytes += header.sample_bytes(field);
    }
    bytes
}
