ghost use Rattle.std.specs.Prelude.{◌≡◌, ◌+◌, ◌-◌, ◌*◌, ◌^◌, ◌<◌, ◌≤◌, length};
ghost use Rattle.std.specs.List.{flat_map, range_with_len};
ghost use Rattle.idx_geom.specs.Region.{points, upper_ends};
ghost use Rattle.idx_hz.specs.Mask.{HasAddress, IsMask};
ghost use Rattle.idx_block.specs.Stored.{stored};

use idx_geom::Region;
use idx_hz::Mask;

/// Makes a block of 2^bits addresses out of the raw samples of a box, address by address: the plain search that walks
/// replace.
pub fn fill_by_addresses(
    mask: &Mask,
    region: &Region,
    bits: u32,
    block: u64,
    size: usize,
    samples: &[u8],
    into: &mut [u8],
)
    requires mask { IsMask mask.now }
    requires address { HasAddress mask.now (upper_ends region.now) }
    requires bits { bits ≤ length mask.now }
    requires few_bits { bits ≤ 20 }
    requires exists { block < 2 ^ (length mask.now - bits) }
    requires few { size ≤ 64 }
    requires samples { length samples.now ≡ size * length (points region.now) }
    requires room { length into.old ≡ size * 2 ^ bits }
    ensures { into.new ≡ flat_map (stored mask.now region.now size samples.now)
        (range_with_len (block * 2 ^ bits) (2 ^ bits)) }
{
    let count = address_count(bits);
    for k in 0..count {
        let at = k as usize * size;
        let address = block * count + k;
        put_sample(mask, region, address, samples, &mut into[at..at + size]);
    }
}

/// The sample with an address, and zeros where no point of the box has it.
pub(crate) fn put_sample(
    mask: &Mask,
    region: &Region,
    address: u64,
    samples: &[u8],
    into: &mut [u8],
)
    requires address { HasAddress mask.now (upper_ends region.now) }
    requires small { address < 2 ^ length mask.now }
    requires few { length into.old ≤ 64 }
    requires samples { length samples.now ≡ length into.old * length (points region.now) }
    ensures { into.new ≡ stored mask.now region.now (length into.old) samples.now address }
{
    let p = mask.point_of_hz(address, region.axes());
    if region.contains(&p) {
        let at = into.len() * region.rank_of(&p) as usize;
        into.copy_from_slice(&samples[at..at + into.len()]);
    } else {
        into.fill(0);
    }
}

/// How many addresses of so many bits there are.
pub(crate) fn address_count(bits: u32) -> u64
    requires { bits ≤ 20 }
    ensures value { result ≡ 2 ^ bits }
    ensures few { result ≤ 2 ^ 20 }
{
    1 << bits
}
