ghost use Rattle.std.specs.Prelude.{◌≡◌, ◌≢◌, ℕ, nat_eq, find, slice_get, ◌+◌, ◌-◌, ◌*◌, ◌<◌, ◌≤◌, ◌^◌, ◌++◌, option_copied, Err, IfErr, IfOk, OnErr, OnOk, None, Some, length};
ghost use Rattle.idx_hall.specs.Calls.{pairs_of};
ghost use Rattle.idx_hall.specs.declared.key.Key.{Key};
ghost use Rattle.idx_scatter.specs.Scatter.{IsScattered};
ghost use Rattle.idx_query.proofs.CopyLemmas.{KnownCopied};
ghost use Rattle.idx_core_model.specs.Layers.{held_block};
ghost use Rattle.idx_core_asks.specs.Asking.{MayAnswer};
ghost use Rattle.idx_plan.specs.Needed.{plan_fault};
ghost use Rattle.idx_plan.specs.declared.plan_fault.PlanFault.{PlanFault};
ghost use Rattle.idx_events.specs.Queries.{can_answer, can_fill, can_look, can_read, ended_after, fill, hits, loaded_pairs, misses, round_after, round_keys, with_block};
ghost use Rattle.idx_events.specs.Start.{new_query};
ghost use Rattle.idx_core_layers.specs.Division.{layers_of};
ghost use Rattle.idx_core_asks.specs.Asked.{AreWhole, IsPlanned, block_numbers, query_of, with_query};

use crate::{HeldBlock, Progress};
use idx_core_layers::Division;
use idx_hall::{Hall, Key, Looked};
use idx_outside::{Blocks, Bytes, NoMemory};
use idx_plan::{Ask, Plan, PlanFault, plan, width};
use std::alloc::Global;
use std::marker::Model;
use std::sync::Arc;

/// A question with its plan, how far it is, and its answer.
#[derive(Drop)]
pub struct Asked {
    ask: Ask,
    plan: Plan,
    progress: Progress,
    answer: Option<Bytes>,
}

impl Model for Asked {
    ghost use Rattle.idx_core_asks.specs.Asked.{AskedValue, query_of};

    ghost Value = { AskedValue };

    ghost view = { λ x. record { query = query_of x.ask x.progress x.answer; plan = x.plan } };
}

impl Asked {
    /// A question of a dataset, of which nothing was looked for. Its faults are those of its plan.
    pub fn new(alloc: Global, below: &Division, ask: &Ask) -> Result<Asked, PlanFault>
        requires field { ask.now.field < length below.now.header.fields }
        requires axes { length ask.now.region ≡ length below.now.header.box }
        ensures query { IfOk result (λ x. x.query ≡ new_query ask.now) }
        ensures planned { IfOk result (IsPlanned below.now) }
        ensures fault { IfErr result (λ fault. fault ≢ PlanFault.NoMemory →
            plan_fault below.now.header ask.now ≡ Some fault) }
        ensures refused { (fault : PlanFault) → plan_fault below.now.header ask.now ≡ Some fault →
            result ≡ Err fault }
    {
        Ok(Asked {
            ask: *ask,
            plan: plan(alloc, below.header(), ask)?,
            progress: Progress::new(alloc),
            answer: None,
        })
    }

    /// The question.
    pub fn ask(&self) -> &Ask
        ensures { result.now ≡ self.now.query.ask }
    {
        &self.ask
    }

    /// The post that it noted.
    pub(crate) fn post(&self) -> Option<u64>
        ensures { result ≡ self.now.query.post }
    {
        self.progress.post()
    }

    /// Its answer, once it has one.
    pub fn answer(&self) -> Option<&Bytes>
        ensures { option_copied result ≡ self.now.query.answer }
    {
        self.answer.as_ref()
    }

    /// How many rounds it has, of a dataset that it was planned for.
    fn rounds(&self, below: &Division) -> u64
        requires { IsPlanned below.now self.now }
        ensures { result ≡ length ((layers_of below.now).rounds self.now.query.ask) }
    {
        let many = self.plan.keys().len() as u64;
        let width = width(below.header(), self.ask.field);
        ((many + (width - 1)) / width).max(1)
    }

    /// Whether it may look for the blocks of its next round: it has no answer, is in no round, has a round left, and some
    /// post of its timestep is there.
    pub(crate) fn can_look<E: Blocks + Drop>(&self, below: &Division, hall: &Hall<E>) -> bool
        requires { IsPlanned below.now self.now }
        ensures { result ≡ can_look (layers_of below.now) hall.now.board self.now.query }
    {
        self.answer.is_none()
            && self.progress.round().is_none()
            && self.progress.ended() < self.rounds(below)
            && hall.newest(self.ask.time).is_some()
    }

    /// Whether this block is the next one that it may read.
    pub(crate) fn can_read(&self, block: u64) -> bool
        ensures { result ≡ can_read block self.now.query }
    {
        match self.progress.round() {
            Some(round) => round.is_next(block),
            None => false,
        }
    }

    /// Whether it may end its round: all missing blocks were read.
    pub(crate) fn can_fill(&self) -> bool
        ensures { result ≡ can_fill self.now.query }
    {
        match self.progress.round() {
            Some(round) => round.is_loaded(),
            None => false,
        }
    }

    /// Whether it may be answered: all rounds have ended, and there is no answer yet.
    pub(crate) fn can_answer(&self, below: &Division) -> bool
        requires { IsPlanned below.now self.now }
        ensures { result ≡ can_answer (layers_of below.now) self.now.query }
    {
        self.answer.is_none() && self.progress.ended() == self.rounds(below)
    }

    /// The keys of the next round, of a dataset that it was planned for.
    pub(crate) fn round_keys(&self, alloc: Global, below: &Division) -> Result<Vec<Key>, NoMemory>
        requires planned { IsPlanned below.now self.now }
        requires left { self.now.query.ended < length ((layers_of below.now).rounds self.now.query.ask) }
        ensures { IfOk result (λ keys. keys.items ≡ round_keys (layers_of below.now) self.now.query) }
    {
        let keys = self.plan.keys();
        let many = keys.len() as u64;
        let width = width(below.header(), self.ask.field);
        let from = self.progress.ended().saturating_mul(width).min(many);
        let to = from.saturating_add(width).min(many);
        Ok(Vec::from_slice(alloc, &keys[from as usize..to as usize])?)
    }

    /// How far it is after a look in a post for the keys of a round, which found these blocks.
    pub(crate) fn looked<E: Blocks + Drop>(
        &self,
        alloc: Global,
        post: u64,
        keys: &[Key],
        looked: &Looked<E>,
    ) -> Result<Progress, NoMemory>
        requires few { self.now.query.ended < 2 ^ 62 }
        requires each { length looked.now.found ≡ length keys.now }
        ensures { IfOk result (λ p. p ≡ record {
          post = Some post;
          ended = ended_after (misses (block_numbers keys.now) looked.now.found) self.now.query.ended;
          round = round_after (misses (block_numbers keys.now) looked.now.found);
          kept = self.now.query.kept ++ hits (block_numbers keys.now) looked.now.found;
        }) }
    {
        self.progress.looked(alloc, post, keys, looked)
    }

    /// How far it is after its round.
    pub(crate) fn filled(&self, alloc: Global) -> Result<Progress, NoMemory>
        requires { self.now.query.ended < 2 ^ 62 }
        ensures { IfOk result (λ p. query_of self.now.query.ask p self.now.query.answer ≡ fill self.now.query) }
    {
        self.progress.filled(alloc)
    }

    /// The blocks that were read in its round, with their keys.
    pub(crate) fn pairs(&self, alloc: Global) -> Result<Vec<(Key, Arc<Bytes>)>, NoMemory>
        ensures { IfOk result (λ pairs. pairs_of pairs.items ≡ loaded_pairs self.now.query) }
    {
        self.progress.pairs(alloc, &self.ask)
    }

    /// It is so far now.
    pub(crate) fn go_on(&mut self, progress: Progress)
        ensures { self.new ≡
            with_query self.old (query_of self.old.query.ask progress self.old.query.answer) }
    {
        self.progress = progress;
    }

    /// Keeps a block that was read in its round.
    pub(crate) fn load(&mut self, block: HeldBlock) -> Result<(), NoMemory>
        ensures loaded { OnOk result (self.new ≡
            with_query self.old (record self.old.query { round = with_block block self.old.query.round })) }
        ensures refused { OnErr result (self.new ≡ self.old) }
    {
        self.progress.load(block)
    }

    /// The samples that it asks for, out of the blocks that it holds, each of which is whole.
    pub(crate) fn put_together(&self, alloc: Global, below: &Division) -> Result<Bytes, NoMemory>
        requires planned { IsPlanned below.now self.now }
        requires held { MayAnswer self.now }
        ensures { IfOk result (λ bytes. bytes ≡
            (layers_of below.now).put_together self.now.query.ask self.now.query.kept) }
    {
        let mut out = Bytes::zeros(alloc, self.plan.bytes() as usize)?;
        copy_all(&self.plan, self.progress.kept(), out.as_mut_slice());
        Ok(out)
    }

    /// It is answered.
    pub(crate) fn set_answer(&mut self, bytes: Bytes)
        ensures { self.new ≡ with_query self.old (record self.old.query { answer = Some bytes }) }
    {
        self.answer = Some(bytes);
    }
}

/// Copies the samples of each block of a plan, out of those that are held, to their places in the answer.
fn copy_all(plan: &Plan, held: &[HeldBlock], out: &mut [u8])
    requires whole { AreWhole plan.now held.now }
    requires some { 0 < plan.now.size * 2 ^ plan.now.bits }
    requires room { length out.old ≡ plan.now.bytes }
    ensures room { length out.new ≡ plan.now.bytes }
    ensures copied { (field : ℕ) → KnownCopied (Some (λ f b. held_block held.now b)) plan.now field
        (block_numbers plan.now.keys) out.new }
{
    for i in 0..plan.keys().len() {
        copy_one(plan, held, i as u64, out);
    }
}

/// Copies the samples of the block of a key.
fn copy_one(plan: &Plan, held: &[HeldBlock], i: u64, out: &mut [u8])
    requires key { i < length plan.now.keys }
    requires whole { AreWhole plan.now held.now }
    requires some { 0 < plan.now.size * 2 ^ plan.now.bits }
    requires room { length out.old ≡ plan.now.bytes }
    ensures room { length out.new ≡ plan.now.bytes }
    ensures copied { (k : Key) → slice_get plan.now.keys i ≡ Some k →
        IsScattered plan.now.asked plan.now.bits k.block plan.now.size (held_block held.now k.block) out.old out.new }
{
    let number = plan.keys()[i as usize].block;
    let Some(block) = find_block(held, number) else {
        unreachable!()
    };
    plan.copy(i, block.bytes().as_slice(), out);
}

/// The held block of a number.
fn find_block(held: &[HeldBlock], number: u64) -> Option<&HeldBlock>
    ensures { option_copied result ≡ find (λ block. nat_eq number block.0) held.now }
{
    held.iter().find(|block| number == block.number())
}
