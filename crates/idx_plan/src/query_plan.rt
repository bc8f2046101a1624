ghost use Rattle.std.specs.Prelude.{◌≡◌, ◌*◌, ◌^◌, ◌<◌, ◌≤◌, Some, length, slice_get};
ghost use Rattle.idx_hall.specs.declared.key.Key.{Key};
ghost use Rattle.idx_scatter.specs.Scatter.{IsScattered};
ghost use Rattle.idx_plan.specs.Needed.{max_answer};
ghost use Rattle.idx_plan.specs.Plan.{IsPlan};

use idx_hall::Key;
use idx_scatter::{Order, scatter_block};
use std::marker::Model;

/// What a question needs: how large its answer is, the keys of exactly the blocks that hold a sample of it, rising, and where
/// the samples of these blocks go.
#[derive(Debug, Drop)]
pub struct Plan {
    samples: u64,
    bytes: u64,
    keys: Vec<Key>,
    order: Order,
    bits: u32,
    size: u64,
}

impl Model for Plan {
    ghost use Rattle.idx_plan.specs.Plan.{PlanValue, IsPlan};

    ghost Value = { PlanValue };

    ghost view = { λ p. record {
      samples = p.samples;
      bytes = p.bytes;
      keys = p.keys.items;
      asked = p.order;
      bits = p.bits;
      size = p.size;
    } };

    ghost invariant = { λ p. IsPlan (record {
      samples = p.samples;
      bytes = p.bytes;
      keys = p.keys.items;
      asked = p.order;
      bits = p.bits;
      size = p.size;
    }) };
}

impl Plan {
    /// The plan of an answer of so many samples, of `size` bytes each, whose points stand in this order, and whose blocks, of
    /// 2^`bits` addresses each, have these keys.
    pub(crate) fn new(
        samples: u64,
        bytes: u64,
        keys: Vec<Key>,
        order: Order,
        bits: u32,
        size: u64,
    ) -> Plan
        requires { IsPlan (record {
          samples = samples;
          bytes = bytes;
          keys = keys.items;
          asked = order;
          bits = bits;
          size = size;
        }) }
        ensures { result ≡ record {
          samples = samples;
          bytes = bytes;
          keys = keys.items;
          asked = order;
          bits = bits;
          size = size;
        } }
    {
        Plan {
            samples,
            bytes,
            keys,
            order,
            bits,
            size,
        }
    }

    /// How many samples the answer has.
    pub fn samples(&self) -> u64
        ensures { result ≡ self.now.samples }
    {
        self.samples
    }

    /// How many bytes the answer has, at most `MAX_ANSWER`.
    pub fn bytes(&self) -> u64
        ensures value { result ≡ self.now.bytes }
        ensures few { result ≤ max_answer }
        ensures valid { IsPlan self.now }
    {
        self.bytes
    }

    /// The keys of the blocks that hold a sample of the answer, rising.
    pub fn keys(&self) -> &[Key]
        ensures { result.now ≡ self.now.keys }
    {
        &self.keys
    }

    /// How many bytes each of these blocks has.
    pub fn block_bytes(&self) -> u64
        ensures { result ≡ self.now.size * 2 ^ self.now.bits }
    {
        self.size << self.bits
    }

    /// Copies the samples of the block of a key, whose bytes are given, to their places in the answer, which has as many bytes
    /// as the plan says; what stands at the other places stays. Takes no memory.
    pub fn copy(&self, key: u64, block: &[u8], out: &mut [u8])
        requires key { key < length self.now.keys }
        requires block { length block.now ≡ self.now.size * 2 ^ self.now.bits }
        requires room { length out.old ≡ self.now.bytes }
        ensures { (k : Key) → slice_get self.now.keys key ≡ Some k →
            IsScattered self.now.asked self.now.bits k.block self.now.size block.now out.old out.new }
    {
        scatter_block(
            &self.order,
            self.bits,
            self.keys[key as usize].block,
            self.size as usize,
            block,
            out,
        );
    }
}
