ghost use Rattle.std.specs.Prelude.{◌≡◌, ◌≤◌, ◌^◌};
ghost use Rattle.idx_query.specs.Capacity.{capacity_for, largest_block};

use idx_header::Header;

/// The cached blocks of a dataset have at most so many bytes.
const MAX_CACHED_BYTES: u64 = 1 << 31;

/// How many blocks a hall of a dataset keeps, where so many are wished for: the wish, or as many as have 2^31 bytes if
/// each were as large as the largest.
pub fn capacity_of(header: &Header, wish: u32) -> u32
    requires { 1 ≤ wish }
    ensures value { result ≡ capacity_for header.now wish }
    ensures some { 1 ≤ result }
    ensures few { result ≤ wish }
{
    let most = MAX_CACHED_BYTES / largest_block(header);
    u64::from(wish).min(most) as u32
}

/// How many bytes the largest block has.
fn largest_block(header: &Header) -> u64
    ensures value { result ≡ largest_block header.now }
    ensures some { 1 ≤ result }
    ensures few { result ≤ 2 ^ 24 }
{
    let mut largest = 1;
    for field in 0..header.field_count() {
        largest = largest.max(header.block_bytes(field));
    }
    largest
}
