ghost use Rattle.std.specs.Prelude.{◌≡◌, ◌<◌, ◌≤◌, ◌^◌, length};
ghost use Rattle.idx_plan.specs.Rounds.{width_for};

use idx_header::Header;

/// The blocks of a round have at most so many bytes, unless a single one has more.
const MAX_ROUND_BYTES: u64 = 1 << 26;

/// How many blocks of a field a question looks for at a time: as many as have 2^26 bytes, and at least one. Takes no memory.
pub fn width(header: &Header, field: u32) -> u64
    requires { field < length header.now.fields }
    ensures value { result ≡ width_for header.now field }
    ensures some { 1 ≤ result }
    ensures few { result ≤ 2 ^ 26 }
{
    let bytes = header.sample_bytes(field) << header.bits_per_block();
    (MAX_ROUND_BYTES / bytes).max(1)
}
