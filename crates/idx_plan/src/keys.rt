ghost use Rattle.std.specs.Prelude.{◌≡◌, ◌-◌, [], ◌∷◌, ◌++◌, IfOk, OnOk, filter, map};
ghost use Rattle.std.specs.List.{range_with_len};
ghost use Rattle.idx_header.specs.Header.{block_count};
ghost use Rattle.idx_plan.specs.Answerable.{IsAnswerable};
ghost use Rattle.idx_plan.specs.Needed.{is_needed, key_of, needed_keys};

use crate::Ask;
use crate::branch::Branch;
use crate::counting::points_between;
use crate::counts::counts_behind;
use crate::descent::{add_branch, key_of};
use crate::level::level_part;
use idx_hall::{Key, LEAST_BYTES};
use idx_header::Header;
use idx_outside::NoMemory;
use std::alloc::Global;
use std::mem::size_of;

/// There is room for so many keys at least.
const LEAST_KEYS: usize = LEAST_BYTES / size_of::<Key>();

/// The keys of the blocks that hold a sample of the answer, rising.
pub(crate) fn needed_keys(alloc: Global, header: &Header, ask: &Ask) -> Result<Vec<Key>, NoMemory>
    requires { IsAnswerable header.now ask.now }
    ensures { IfOk result (λ keys. keys.items ≡ needed_keys header.now ask.now) }
{
    let mut keys = first_key(alloc, header, ask)?;
    add_later_keys(header, ask, &mut keys)?;
    Ok(keys)
}

/// The key of block 0 where it holds a sample of the answer.
fn first_key(alloc: Global, header: &Header, ask: &Ask) -> Result<Vec<Key>, NoMemory>
    requires { IsAnswerable header.now ask.now }
    ensures { IfOk result (λ keys. keys.items ≡ map (key_of ask.now) (filter (is_needed header.now ask.now) (0 ∷ []))) }
{
    let mut keys = Vec::with_capacity(alloc, LEAST_KEYS)?;
    if needs_first_block(header, ask) {
        keys.push(key_of(ask, 0))?;
    }
    Ok(keys)
}

/// Whether block 0 holds a sample of the answer. It has the points of level at most the bits of a block.
fn needs_first_block(header: &Header, ask: &Ask) -> bool
    requires { IsAnswerable header.now ask.now }
    ensures { result ≡ is_needed header.now ask.now 0 }
{
    let bits = header.bits_per_block();
    ask.lo <= bits && points_between(header, &ask.region, ask.lo, ask.hi.min(bits)) > 0
}

/// Appends the keys of the blocks from 1 on that hold a sample of the answer, rising. Each level finer than the bits of a
/// block has blocks of its own, behind those of the levels before it.
fn add_later_keys(header: &Header, ask: &Ask, keys: &mut Vec<Key>) -> Result<(), NoMemory>
    requires { IsAnswerable header.now ask.now }
    ensures { OnOk result (keys.new.items ≡ keys.old.items ++
        map (key_of ask.now) (filter (is_needed header.now ask.now) (range_with_len 1 (block_count header.now - 1)))) }
{
    let mask = header.mask();
    let bits = header.bits_per_block();
    if ask.hi <= bits {
        return Ok(());
    }
    let first = ask.lo.max(bits + 1);
    let digits = counts_behind(&mask, 0);
    let mut behind = counts_behind(&mask, first - 1);
    for level in first..ask.hi + 1 {
        let part = level_part(&mask, &ask.region, level, &digits, &behind);
        add_branch(&mask, ask, Branch::of_level(bits, level), part, keys)?;
        behind[mask.axis(level) as usize] -= 1;
    }
    Ok(())
}
