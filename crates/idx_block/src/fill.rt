ghost use Rattle.std.specs.Prelude.{◌≡◌, ◌*◌, ◌<◌, length};
ghost use Rattle.idx_geom.specs.Region.{points};
ghost use Rattle.idx_geom.specs.Volume.{samples_of};
ghost use Rattle.idx_header.specs.Header.{block_bytes, block_count, sample_bytes_of};
ghost use Rattle.idx_layout.specs.Placing.{block_of_samples};
ghost use Rattle.idx_layout.specs.OfHeader.{placing_of};

use crate::by_lanes::fill_by_lanes;
use crate::first_block::fill_first_block;
use idx_header::Header;

/// Makes a block of a field, present or not, out of the field's raw samples: those of the points of the dataset's box,
/// in row-major order, axis 0 fastest, the samples of one field behind one another without the other fields'. The
/// block's samples stand in the order of their hierarchical addresses, and an address that no point of the box has
/// holds zeros (Pascucci and Frank 2001; the OpenVisus IDX documentation).
pub fn fill_block(header: &Header, field: u32, samples: &[u8], block: u64, into: &mut [u8])
    requires field { field < length header.now.fields }
    requires samples { length samples.now ≡ sample_bytes_of header.now field * length (points header.now.box) }
    requires exists { block < block_count header.now }
    requires room { length into.old ≡ block_bytes header.now field }
    ensures { into.new ≡ block_of_samples (placing_of header.now) (sample_bytes_of header.now field)
        (samples_of (sample_bytes_of header.now field) (length (points header.now.box)) samples.now) block }
{
    let (mask, region) = (header.mask(), header.region());
    let bits = header.bits_per_block();
    let size = header.sample_bytes(field) as usize;
    if block == 0 {
        fill_first_block(&mask, &region, bits, size, samples, into);
    } else {
        fill_by_lanes(&mask, &region, bits, block, size, samples, into);
    }
}
