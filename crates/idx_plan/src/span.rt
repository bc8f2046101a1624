ghost use Rattle.std.specs.Prelude.{◌≡◌, ℕ, ◌+◌, ◌-◌, ◌*◌, ◌/◌, ◌^◌, ◌<◌, ◌≤◌, ◌↔◌};
ghost use Rattle.std.specs.Int.{bit_at};
ghost use Rattle.idx_plan.specs.Parts.{IsFrom, IsSpan};

/// Of the numbers from `first` on and before `end`, which differ in their `left` lowest binary digits alone, those whose
/// highest one of these digits is `bit`: where they begin, and where they end. There are none where the end is not later.
pub(crate) fn half_of(first: u64, end: u64, left: u32, bit: u64) -> (u64, u64)
    requires span { IsSpan first end left }
    requires some { 1 ≤ left }
    requires bit { bit < 2 }
    ensures numbers { (n : ℕ) → IsFrom result.0 result.1 n ↔ (IsFrom first end n × (bit_at n (left - 1) ≡ bit)) }
    ensures whole { result.1 ≤ (result.0 / 2 ^ (left - 1) + 1) * 2 ^ (left - 1) }
    ensures small { result.1 ≤ 2 ^ 41 }
{
    let cut = middle(first, end, left);
    if bit == 0 {
        (first, end.min(cut))
    } else {
        (first.max(cut), end)
    }
}

/// The first number whose highest of the `left` lowest binary digits is 1, of those that are as `first` in all other digits.
fn middle(first: u64, end: u64, left: u32) -> u64
    requires span { IsSpan first end left }
    requires some { 1 ≤ left }
    ensures { result ≡ (first / 2 ^ left * 2 + 1) * 2 ^ (left - 1) }
{
    ((first >> left) * 2 + 1) << (left - 1)
}

/// How many numbers n there are whose coordinate, `first` + n * 2^`digits`, is below `end`.
pub(crate) fn numbers_below(end: u64, first: u64, digits: u32) -> u64
    requires small { end ≤ 2 ^ 41 }
    requires few { digits ≤ 40 }
    requires first { first < 2 ^ digits }
    ensures { (n : ℕ) → (n < result) ↔ (first + n * 2 ^ digits < end) }
{
    (end + (1 << digits) - 1 - first) >> digits
}
