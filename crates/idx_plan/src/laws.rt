//! Laws of the definitions, each the contract of a function that does nothing.
ghost use Rattle.std.specs.Prelude.{◌≡◌, ℕ, ◌/◌, ◌^◌, ◌<◌, ◌≤◌, All, Contains, List, None, Some, length, slice_get};
ghost use Rattle.std.specs.List.{flat_map};
ghost use Rattle.idx_geom.specs.Region.{points};
ghost use Rattle.idx_geom.specs.Volume.{sample_at};
ghost use Rattle.idx_hz.specs.Address.{hz_address};
ghost use Rattle.idx_hz.specs.Answer.{answer};
ghost use Rattle.idx_header.specs.Header.{HeaderValue, IsHeader, sample_bytes_of};
ghost use Rattle.idx_layout.specs.Content.{sample_in};
ghost use Rattle.idx_layout.specs.OfHeader.{placing_of};
ghost use Rattle.idx_scatter.specs.Asked.{asked_points};
ghost use Rattle.idx_scatter.specs.Scatter.{sample_of};
ghost use Rattle.idx_plan.specs.Answer.{answer_of};
ghost use Rattle.idx_plan.specs.Needed.{answer_bytes, needed, needed_keys, plan_fault};
ghost use Rattle.idx_plan.specs.Plan.{asked_of};
ghost use Rattle.idx_plan.specs.Rounds.{rounds, width_for};
ghost use Rattle.idx_plan.specs.declared.ask.Ask.{Ask};

/// The answer of all levels has the samples of all points of the region.
pub fn all_levels_are_all_samples()
    ensures { (mask : List ℕ) (box region : List (ℕ × ℕ)) (samples : List (List ℕ)) →
        answer mask box samples region 0 (length mask) ≡ flat_map (sample_at box samples) (points region) }
{}

/// Bytes that have at the place of each asked point the sample of that point are the answer. The block of each asked
/// point is needed.
pub fn copied_blocks_are_the_answer()
    ensures answer { (h : HeaderValue) (ask : Ask) (content : ℕ → ℕ → List ℕ) (out : List ℕ) → IsHeader h →
        ask.field < length h.fields → length ask.region ≡ length h.box → plan_fault h ask ≡ None →
        length out ≡ answer_bytes h ask →
        ((place : ℕ) (p : List ℕ) → slice_get (asked_points (asked_of h ask)) place ≡ Some p →
        sample_of (sample_bytes_of h ask.field) out place ≡ sample_in (placing_of h) content ask.field p) →
        out ≡ answer_of h ask content }
    ensures needed { (h : HeaderValue) (ask : Ask) (place : ℕ) (p : List ℕ) → IsHeader h →
        slice_get (asked_points (asked_of h ask)) place ≡ Some p →
        Contains (needed h ask) (hz_address h.mask p / 2 ^ h.block_bits) }
{}

/// The rounds of a question have the needed keys, each once and in order, and none has more than its width.
pub fn rounds_are_all_keys()
    ensures all { (h : HeaderValue) (ask : Ask) → flat_map (λ keys. keys) (rounds h ask) ≡ needed_keys h ask }
    ensures few { (h : HeaderValue) (ask : Ask) →
        All (λ keys. length keys ≤ width_for h ask.field) (rounds h ask) }
{}
