ghost use Rattle.std.specs.Prelude.{◌≡◌, ◌++◌, OnOk};
ghost use Rattle.idx_geom.specs.Region.{upper_ends};
ghost use Rattle.idx_hz.specs.Mask.{HasAddress, IsMask};
ghost use Rattle.idx_plan.specs.Branches.{IsBranch, branch_keys, level_of};
ghost use Rattle.idx_plan.specs.Needed.{key_of};
ghost use Rattle.idx_plan.specs.Parts.{IsPart, IsPartOf};

use crate::Ask;
use crate::branch::Branch;
use crate::part::Part;
use crate::span::half_of;
use idx_hall::Key;
use idx_hz::Mask;
use idx_outside::NoMemory;

/// Appends the keys of the blocks of a branch that have a point of the region, rising. `part` has the points of the branch
/// that the region has, where there is one.
pub(crate) fn add_branch(
    mask: &Mask,
    ask: &Ask,
    branch: Branch,
    part: Option<Part>,
    keys: &mut Vec<Key>,
) -> Result<(), NoMemory>
    requires mask { IsMask mask.now }
    requires address { HasAddress mask.now (upper_ends ask.now.region) }
    requires branch { IsBranch mask.now branch }
    requires part { IsPartOf mask.now ask.now.region (level_of branch) branch.digits branch.number part }
    ensures { OnOk result (keys.new.items ≡ keys.old.items ++ branch_keys mask.now ask.now branch) }
{
    let Some(part) = part else {
        return Ok(());
    };
    descend(mask, ask, branch, &part, keys)
}

/// The same where there is a part. The digits of the mask halve it in turn, down to one block. Each branch that is visited
/// has a block with a point of the region.
fn descend(
    mask: &Mask,
    ask: &Ask,
    branch: Branch,
    part: &Part,
    keys: &mut Vec<Key>,
) -> Result<(), NoMemory>
    requires mask { IsMask mask.now }
    requires address { HasAddress mask.now (upper_ends ask.now.region) }
    requires branch { IsBranch mask.now branch }
    requires part { IsPart mask.now ask.now.region (level_of branch) branch.digits branch.number part.now }
    ensures { OnOk result (keys.new.items ≡ keys.old.items ++ branch_keys mask.now ask.now branch) }
{
    if branch.height == 0 {
        keys.push(key_of(ask, branch.number))?;
        return Ok(());
    }
    let axis = mask.axis(branch.digits + 1) as usize;
    let left = part.left[axis];
    for bit in 0..2 {
        let (first, end) = half_of(part.first[axis], part.end[axis], left, bit);
        if end <= first {
            continue;
        }
        let mut half = *part;
        half.first[axis] = first;
        half.end[axis] = end;
        half.left[axis] = left - 1;
        descend(mask, ask, branch.half(bit), &half, keys)?;
    }
    Ok(())
}

/// The key of a block of the step and field that are asked for.
pub(crate) fn key_of(ask: &Ask, block: u64) -> Key
    ensures { result ≡ key_of ask.now block }
{
    Key {
        time: ask.time,
        field: ask.field,
        block,
    }
}
