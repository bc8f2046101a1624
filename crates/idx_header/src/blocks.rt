ghost use Rattle.std.specs.Prelude.{◌≡◌, ◌*◌, ◌^◌, ◌<◌, ◌≤◌, IfErr, IfOk, Some, None, length, false};
ghost use Rattle.std.specs.List.{list_any};
ghost use Rattle.std.specs.Prelude.{nat_lt};
ghost use Rattle.idx_fields.specs.Field.{sample_bytes};
ghost use Rattle.idx_header.specs.Faults.{first_of, number_in, are_no_block_bits, are_no_blocks_per_file};
ghost use Rattle.idx_header.specs.HeaderOf.{block_bits_faults, per_file_faults, fields_of_header, mask_of_header};
ghost use Rattle.idx_header.specs.Keys.{lacks_key, section_at};

use crate::key::Key;
use crate::keys::standing;
use crate::{HeaderFault, HeaderKind};
use idx_fields::Fields;
use idx_hz::Mask;
use idx_table::table_bytes;
use idx_text::{Section, read_number};

const MAX_BLOCK_BITS: u64 = 20;

const MAX_BLOCK_COUNT_BITS: u64 = 24;

const MAX_BLOCKS_PER_FILE: u64 = 65_536;

const MAX_BYTES: u64 = 1 << 24;

/// How many bits the place of a sample in a block has, of its key.
pub(crate) fn read_block_bits(
    sections: &[Section],
    mask: &Mask,
    fields: &Fields,
) -> Result<u32, HeaderFault>
    requires whole { lacks_key sections.now ≡ false }
    requires mask { mask.now ≡ mask_of_header sections.now }
    requires fields { fields.now ≡ fields_of_header sections.now }
    ensures ok { IfOk result (λ n. (first_of (block_bits_faults sections.now) ≡ None)
        × (n ≡ number_in (section_at Key.BitsPerBlock sections.now)) × (are_no_block_bits n mask.now fields.now ≡ false)) }
    ensures err { IfErr result (λ f. first_of (block_bits_faults sections.now) ≡ Some f) }
{
    let section = standing(sections, Key::BitsPerBlock);
    let Some(number) = read_number(section.value.as_slice()) else {
        return Err(HeaderFault::on(section.line, HeaderKind::BadNumber));
    };
    if are_no_block_bits(number, mask, fields) {
        return Err(HeaderFault::on(section.line, HeaderKind::OverLimit));
    }
    Ok(number as u32)
}

/// Whether so many block bits pass a limit.
fn are_no_block_bits(bits: u64, mask: &Mask, fields: &Fields) -> bool
    ensures value { result ≡ are_no_block_bits bits mask.now fields.now }
    ensures few { result ≡ false → bits ≤ 20 }
{
    let digits = u64::from(mask.len());
    bits == 0
        || bits > MAX_BLOCK_BITS
        || bits > digits
        || bits + MAX_BLOCK_COUNT_BITS < digits
        || has_large_block(bits as u32, fields)
}

/// Whether some block has more than 2^24 bytes.
fn has_large_block(bits: u32, fields: &Fields) -> bool
    requires { bits ≤ 20 }
    ensures { result ≡ list_any (λ f. nat_lt (2 ^ 24) (sample_bytes f * 2 ^ bits)) fields.now }
{
    for i in 0..fields.len() {
        if block_bytes(fields.sample_bytes(i), bits) > MAX_BYTES {
            return true;
        }
    }
    false
}

/// How many blocks a file has, of its key.
pub(crate) fn read_blocks_per_file(
    sections: &[Section],
    fields: &Fields,
) -> Result<u64, HeaderFault>
    requires whole { lacks_key sections.now ≡ false }
    requires fields { fields.now ≡ fields_of_header sections.now }
    ensures ok { IfOk result (λ n. (first_of (per_file_faults sections.now) ≡ None)
        × (n ≡ number_in (section_at Key.BlocksPerFile sections.now)) × (are_no_blocks_per_file n fields.now ≡ false)) }
    ensures err { IfErr result (λ f. first_of (per_file_faults sections.now) ≡ Some f) }
{
    let section = standing(sections, Key::BlocksPerFile);
    let Some(number) = read_number(section.value.as_slice()) else {
        return Err(HeaderFault::on(section.line, HeaderKind::BadNumber));
    };
    if are_no_blocks_per_file(number, fields) {
        return Err(HeaderFault::on(section.line, HeaderKind::OverLimit));
    }
    Ok(number)
}

/// Whether so many blocks of a file pass a limit.
fn are_no_blocks_per_file(blocks: u64, fields: &Fields) -> bool
    ensures { result ≡ are_no_blocks_per_file blocks fields.now }
{
    blocks == 0
        || blocks > MAX_BLOCKS_PER_FILE
        || table_bytes(u64::from(fields.len()) * blocks) > MAX_BYTES
}

/// How many bytes a block has, by the bytes of a sample.
pub(crate) fn block_bytes(sample_bytes: u64, bits: u32) -> u64
    requires sample { sample_bytes ≤ 64 }
    requires bits { bits ≤ 20 }
    ensures { result ≡ sample_bytes * 2 ^ bits }
{
    sample_bytes << bits
}
