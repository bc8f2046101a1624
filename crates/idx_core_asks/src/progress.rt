ghost use Rattle.std.specs.Prelude.{◌≡◌, ◌+◌, ◌<◌, ◌^◌, ◌++◌, [], option_copied, IfOk, OnErr, OnOk, None, Some, length, map};
ghost use Rattle.std.specs.Arc.{arc_value};
ghost use Rattle.idx_hall.specs.Calls.{pairs_of};
ghost use Rattle.idx_plan.specs.Needed.{key_of};
ghost use Rattle.idx_events.specs.World.{loaded_in};
ghost use Rattle.idx_events.specs.Queries.{ended_after, hits, misses, round_after, with_block};
ghost use Rattle.idx_core_asks.specs.Asked.{block_numbers};

use crate::held_block::append_shared;
use crate::{HeldBlock, Round};
use idx_hall::{Key, Looked};
use idx_outside::{Blocks, Bytes, NoMemory};
use idx_plan::Ask;
use std::alloc::Global;
use std::marker::Model;
use std::sync::Arc;

/// How far a question is: the post that it noted, how many of its rounds have ended, the round that it is in, and the
/// blocks that it holds.
#[derive(Drop)]
pub struct Progress {
    post: Option<u64>,
    ended: u64,
    round: Option<Round>,
    kept: Vec<HeldBlock>,
}

impl Model for Progress {
    ghost use Rattle.idx_core_asks.specs.Asked.{ProgressValue};

    ghost Value = { ProgressValue };

    ghost view = { λ p. record { post = p.post; ended = p.ended; round = p.round; kept = p.kept.items } };
}

impl Progress {
    /// Nothing was looked for.
    pub(crate) fn new(alloc: Global) -> Progress
        ensures { result ≡ record { post = None; ended = 0; round = None; kept = [] } }
    {
        Progress {
            post: None,
            ended: 0,
            round: None,
            kept: Vec::new(alloc),
        }
    }

    /// The post that it noted.
    pub(crate) fn post(&self) -> Option<u64>
        ensures { result ≡ self.now.post }
    {
        self.post
    }

    /// How many rounds have ended.
    pub(crate) fn ended(&self) -> u64
        ensures { result ≡ self.now.ended }
    {
        self.ended
    }

    /// The round that it is in.
    pub(crate) fn round(&self) -> Option<&Round>
        ensures { option_copied result ≡ self.now.round }
    {
        self.round.as_ref()
    }

    /// The blocks that it holds beside those that were read in the round.
    pub(crate) fn kept(&self) -> &[HeldBlock]
        ensures { result.now ≡ self.now.kept }
    {
        &self.kept
    }

    /// How far it is after a look in a post for these keys, which found these blocks.
    pub(crate) fn looked<E: Blocks + Drop>(
        &self,
        alloc: Global,
        post: u64,
        keys: &[Key],
        looked: &Looked<E>,
    ) -> Result<Progress, NoMemory>
        requires few { self.now.ended < 2 ^ 62 }
        requires each { length looked.now.found ≡ length keys.now }
        ensures { IfOk result (λ p. p ≡ record {
          post = Some post;
          ended = ended_after (misses (block_numbers keys.now) looked.now.found) self.now.ended;
          round = round_after (misses (block_numbers keys.now) looked.now.found);
          kept = self.now.kept ++ hits (block_numbers keys.now) looked.now.found;
        }) }
    {
        let mut kept = Vec::new(alloc);
        append_shared(&self.kept, &mut kept)?;
        append_hits(keys, looked, &mut kept)?;
        let missing = missed(alloc, keys, looked)?;
        if missing.is_empty() {
            return Ok(Progress {
                post: Some(post),
                ended: self.ended + 1,
                round: None,
                kept,
            });
        }
        Ok(Progress {
            post: Some(post),
            ended: self.ended,
            round: Some(Round::new(missing, Vec::new(alloc))),
            kept,
        })
    }

    /// Keeps a block that was read in the round, if there is one.
    pub(crate) fn load(&mut self, block: HeldBlock) -> Result<(), NoMemory>
        ensures loaded { OnOk result (self.new ≡ record self.old { round = with_block block self.old.round }) }
        ensures refused { OnErr result (self.new ≡ self.old) }
    {
        match &mut self.round {
            Some(round) => round.load(block),
            None => Ok(()),
        }
    }

    /// How far it is after its round.
    pub(crate) fn filled(&self, alloc: Global) -> Result<Progress, NoMemory>
        requires few { self.now.ended < 2 ^ 62 }
        ensures { IfOk result (λ p. p ≡ record {
          post = self.now.post;
          ended = self.now.ended + 1;
          round = None;
          kept = self.now.kept ++ loaded_in self.now.round;
        }) }
    {
        let mut kept = Vec::new(alloc);
        append_shared(&self.kept, &mut kept)?;
        if let Some(round) = &self.round {
            append_shared(round.loaded(), &mut kept)?;
        }
        Ok(Progress {
            post: self.post,
            ended: self.ended + 1,
            round: None,
            kept,
        })
    }

    /// The blocks that were read in the round, with their keys.
    pub(crate) fn pairs(&self, alloc: Global, ask: &Ask) -> Result<Vec<(Key, Arc<Bytes>)>, NoMemory>
        ensures { IfOk result (λ pairs. pairs_of pairs.items ≡
            map (λ pair. (key_of ask.now pair.0, pair.1)) (loaded_in self.now.round)) }
    {
        match &self.round {
            Some(round) => with_keys(alloc, ask, round.loaded()),
            None => Ok(Vec::new(alloc)),
        }
    }
}

/// Appends the blocks that were found, with their bytes.
fn append_hits<E: Blocks + Drop>(
    keys: &[Key],
    looked: &Looked<E>,
    to: &mut Vec<HeldBlock>,
) -> Result<(), NoMemory>
    requires { length looked.now.found ≡ length keys.now }
    ensures { OnOk result (to.new.items ≡ to.old.items ++ hits (block_numbers keys.now) looked.now.found) }
{
    for i in 0..keys.len() {
        if let Some(bytes) = looked.found(i as u64) {
            to.push(HeldBlock::new(keys[i].block, Arc::try_clone(bytes)?))?;
        }
    }
    Ok(())
}

/// The blocks that were not found.
fn missed<E: Blocks + Drop>(
    alloc: Global,
    keys: &[Key],
    looked: &Looked<E>,
) -> Result<Vec<u64>, NoMemory>
    requires { length looked.now.found ≡ length keys.now }
    ensures { IfOk result (λ blocks. blocks.items ≡ misses (block_numbers keys.now) looked.now.found) }
{
    let mut missing = Vec::new(alloc);
    for i in 0..keys.len() {
        if looked.found(i as u64).is_none() {
            missing.push(keys[i].block)?;
        }
    }
    Ok(missing)
}

/// Blocks with their keys.
fn with_keys(
    alloc: Global,
    ask: &Ask,
    blocks: &[HeldBlock],
) -> Result<Vec<(Key, Arc<Bytes>)>, NoMemory>
    ensures { IfOk result (λ pairs. pairs_of pairs.items ≡
        map (λ pair. (key_of ask.now pair.0, pair.1)) blocks.now) }
{
    let mut pairs = Vec::new(alloc);
    for block in blocks {
        let key = Key {
            time: ask.time,
            field: ask.field,
            block: block.number(),
        };
        pairs.push((key, Arc::try_clone(block.bytes())?))?;
    }
    Ok(pairs)
}
