//! Copies of a header and of its parts.
ghost use Rattle.std.specs.Prelude.{◌≡◌, ◌≤◌, IfOk, None};
ghost use Rattle.idx_header.specs.Header.{IsHeader, at_revision};

use crate::{Header, Steps, Unknown};
use idx_outside::{Bytes, NoMemory};
use std::alloc::Global;

/// The header at a revision.
pub(crate) fn copy_at(alloc: Global, header: &Header, revision: u32) -> Result<Header, NoMemory>
    requires few { revision ≤ 255 }
    requires timed { header.now.steps ≡ None → revision ≡ 0 }
    ensures same { IfOk result (λ copy. copy ≡ at_revision revision header.now) }
    ensures valid { IsHeader header.now }
{
    Ok(Header {
        region: header.region,
        mask: header.mask,
        fields: header.fields.copy(alloc)?,
        block_bits: header.block_bits,
        blocks_per_file: header.blocks_per_file,
        template: header.template.copy(alloc)?,
        steps: copy_time(alloc, &header.steps)?,
        unknown: copy_unknowns(alloc, &header.unknown)?,
        revision,
    })
}

/// Equal steps, where there are some.
fn copy_time(alloc: Global, steps: &Option<Steps>) -> Result<Option<Steps>, NoMemory>
    ensures { IfOk result (λ copy. copy ≡ steps.now) }
{
    match steps {
        Some(steps) => Ok(Some(copy_steps(alloc, steps)?)),
        None => Ok(None),
    }
}

/// Equal steps.
fn copy_steps(alloc: Global, steps: &Steps) -> Result<Steps, NoMemory>
    ensures { IfOk result (λ copy. copy ≡ steps.now) }
{
    Ok(Steps {
        first: steps.first,
        last: steps.last,
        template: steps.template.copy(alloc)?,
    })
}

/// Equal keys that have no effect.
fn copy_unknowns(alloc: Global, unknowns: &[Unknown]) -> Result<Vec<Unknown>, NoMemory>
    ensures { IfOk result (λ copies. copies.items ≡ unknowns.now) }
{
    let mut copies = Vec::new(alloc);
    for unknown in unknowns {
        copies.push(copy_unknown(alloc, unknown)?)?;
    }
    Ok(copies)
}

/// An equal key that has no effect.
fn copy_unknown(alloc: Global, unknown: &Unknown) -> Result<Unknown, NoMemory>
    ensures { IfOk result (λ copy. copy ≡ unknown.now) }
{
    Ok(Unknown {
        key: Bytes::from_slice(alloc, unknown.key.as_slice())?,
        value: Bytes::from_slice(alloc, unknown.value.as_slice())?,
    })
}
