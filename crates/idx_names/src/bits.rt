ghost use Rattle.std.specs.Prelude.{◌≡◌, ◌/◌, ◌%◌, ◌^◌};

/// The number without so many of its lowest bits.
pub(crate) fn high_bits(number: u64, bits: u32) -> u64
    ensures { result ≡ number / 2 ^ bits }
{
    if bits < u64::BITS { number >> bits } else { 0 }
}

/// So many of the lowest bits of the number.
pub(crate) fn low_bits(number: u64, bits: u32) -> u64
    ensures { result ≡ number % 2 ^ bits }
{
    if bits < u64::BITS {
        number % (1 << bits)
    } else {
        number
    }
}
