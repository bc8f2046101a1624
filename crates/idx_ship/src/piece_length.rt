ghost use Rattle.std.specs.Prelude.{◌≡◌};
ghost use Rattle.idx_pieces.specs.Samples.{region_bytes};

use idx_geom::Region;
use idx_header::Header;

/// How many bytes the samples of a region have, those of all fields together.
pub fn piece_bytes(header: &Header, region: &Region) -> u64
    ensures { result ≡ region_bytes header.now region.now }
{
    let mut size = 0;
    for field in 0..header.field_count() {
        size += header.sample_bytes(field);
    }
    region.count() * size
}
