ghost use Rattle.std.specs.Prelude.{◌≡◌, ◌+◌, ◌≤◌, length, take, drop};

/// Fills `into` with the bytes from place `at` on.
pub(crate) fn copy_range(bytes: &[u8], at: u64, into: &mut [u8])
    requires { at + length into.old ≤ length bytes.now }
    ensures { into.new ≡ take (length into.old) (drop at bytes.now) }
{
    let start = at as usize;
    into.copy_from_slice(&bytes[start..start + into.len()]);
}
