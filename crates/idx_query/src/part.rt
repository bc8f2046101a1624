ghost use Rattle.std.specs.Prelude.{◌≡◌, ◌+◌, ◌*◌, ◌^◌, ◌<◌, ◌≤◌, Some, length, slice_get};
ghost use Rattle.idx_hall.specs.declared.key.Key.{Key};
ghost use Rattle.idx_scatter.specs.Scatter.{IsScattered};
ghost use Rattle.idx_query.specs.Steps.{part_of};

use idx_hall::Key;
use idx_plan::Plan;
use std::marker::Model;

/// A plan with some of its keys: those of a round. Seen as such a plan.
#[derive(Drop)]
pub(crate) struct Part<'a> {
    plan: &'a Plan,
    first: usize,
    many: usize,
    ghost within: { first + many ≤ length plan.now.keys },
}

impl<'a> Model for Part<'a> {
    ghost use Rattle.idx_plan.specs.Plan.{PlanValue};
    ghost use Rattle.idx_query.specs.Steps.{part_of};

    ghost Value = { PlanValue };

    ghost view = { λ p. part_of p.plan.now p.first p.many };
}

impl<'a> Part<'a> {
    /// So many keys of a plan, from one on.
    pub(crate) fn new(plan: &'a Plan, first: usize, many: usize) -> Part<'a>
        requires { first + many ≤ length plan.now.keys }
        ensures { result ≡ part_of plan.now first many }
    {
        Part { plan, first, many }
    }

    /// The keys.
    pub(crate) fn keys(&self) -> &[Key]
        ensures { result.now ≡ self.now.keys }
    {
        &self.plan.keys()[self.first..self.first + self.many]
    }

    /// Copies the samples of the block of a key to their places in the answer.
    pub(crate) fn copy(&self, key: u64, block: &[u8], out: &mut [u8])
        requires key { key < length self.now.keys }
        requires block { length block.now ≡ self.now.size * 2 ^ self.now.bits }
        requires room { length out.old ≡ self.now.bytes }
        ensures { (k : Key) → slice_get self.now.keys key ≡ Some k →
            IsScattered self.now.asked self.now.bits k.block self.now.size block.now out.old out.new }
    {
        let _whole = self.plan.keys().len();
        self.plan.copy(self.first as u64 + key, block, out);
    }
}
