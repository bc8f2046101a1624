ghost use Rattle.std.specs.Prelude.{◌≡◌, ◌≢◌, ◌<◌, ◌≤◌, Err, None, Some, OnOk, IfOk, IfErr, length};
ghost use Rattle.idx_header.specs.Header.{sample_bytes_of};
ghost use Rattle.idx_plan.specs.Needed.{answer_bytes, answer_samples, max_answer, needed_keys, plan_fault};
ghost use Rattle.idx_plan.specs.Answerable.{IsAnswerable};
ghost use Rattle.idx_plan.specs.Plan.{asked_of};
ghost use Rattle.idx_plan.specs.declared.plan_fault.PlanFault.{PlanFault};

use crate::counting::points_between;
use crate::keys::needed_keys;
use crate::outside::outside_axis;
use crate::{Ask, Plan, PlanFault};
use idx_header::Header;
use idx_scatter::Order;
use std::alloc::Global;

/// An answer has at most so many bytes.
pub const MAX_ANSWER: u64 = 1 << 28;

/// What a question of a dataset needs: how large its answer is, and the keys of exactly the blocks that hold a sample
/// of it. Each key takes a few operations for each digit of the mask; nothing walks the points, or the blocks that hold
/// no sample of the answer.
pub fn plan(alloc: Global, header: &Header, ask: &Ask) -> Result<Plan, PlanFault>
    requires field { ask.now.field < length header.now.fields }
    requires axes { length ask.now.region ≡ length header.now.box }
    ensures sound { OnOk result (plan_fault header.now ask.now ≡ None) }
    ensures samples { IfOk result (λ plan. plan.samples ≡ answer_samples header.now ask.now) }
    ensures bytes { IfOk result (λ plan. plan.bytes ≡ answer_bytes header.now ask.now) }
    ensures keys { IfOk result (λ plan. plan.keys ≡ needed_keys header.now ask.now) }

    // What copying goes by.
    ensures asked { IfOk result (λ plan. plan.asked ≡ asked_of header.now ask.now) }
    ensures bits { IfOk result (λ plan. plan.bits ≡ header.now.block_bits) }
    ensures size { IfOk result (λ plan. plan.size ≡ sample_bytes_of header.now ask.now.field) }
    ensures fault { IfErr result (λ fault. fault ≢ PlanFault.NoMemory → plan_fault header.now ask.now ≡ Some fault) }
    ensures refused { (fault : PlanFault) → plan_fault header.now ask.now ≡ Some fault → result ≡ Err fault }
{
    let samples = count_samples(header, ask)?;
    let size = header.sample_bytes(ask.field);
    let keys = needed_keys(alloc, header, ask)?;
    let order = Order::new(&header.mask(), &ask.region, ask.lo, ask.hi);
    let bits = header.bits_per_block();
    Ok(Plan::new(samples, samples * size, keys, order, bits, size))
}

/// How many samples the answer to a question has, or why it has no plan, want of memory apart. Takes no memory, and a few
/// operations an axis.
pub fn count_samples(header: &Header, ask: &Ask) -> Result<u64, PlanFault>
    requires field { ask.now.field < length header.now.fields }
    requires axes { length ask.now.region ≡ length header.now.box }
    ensures sound { OnOk result (plan_fault header.now ask.now ≡ None) }
    ensures answerable { OnOk result (IsAnswerable header.now ask.now) }
    ensures samples { IfOk result (λ samples. samples ≡ answer_samples header.now ask.now) }
    ensures few { OnOk result (answer_bytes header.now ask.now ≤ max_answer) }
    ensures fault { IfErr result (λ fault. plan_fault header.now ask.now ≡ Some fault) }
{
    if let Some(axis) = outside_axis(header, &ask.region) {
        return Err(PlanFault::OutsideVolume { axis });
    }
    let max = header.max_level();
    if ask.hi < ask.lo || max < ask.hi {
        return Err(PlanFault::BadLevels {
            lo: ask.lo,
            hi: ask.hi,
            max,
        });
    }
    let samples = points_between(header, &ask.region, ask.lo, ask.hi);
    let bytes = samples * header.sample_bytes(ask.field);
    if bytes > MAX_ANSWER {
        return Err(PlanFault::TooLarge { bytes });
    }
    Ok(samples)
}
