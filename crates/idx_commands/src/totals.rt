ghost use Rattle.std.specs.Prelude.{◌≡◌, IfOk};
ghost use Rattle.idx_commands.specs.Totals.{totals};

use idx_outside::{Bytes, NoMemory};
use idx_text::write_number;
use std::alloc::Global;

/// The line of a server that ended: how many links were accepted, and how many heads were answered on them.
#[tactic(auto, unfolding(crate::specs::Totals::totals))]
pub fn totals(alloc: Global, links: u64, replies: u64) -> Result<Bytes, NoMemory>
    ensures { IfOk result (λ text. text ≡ totals links replies) }
{
    let mut text = Bytes::new(alloc);
    text.append(b"links ")?;
    write_number(links, &mut text)?;
    text.append(b" replies ")?;
    write_number(replies, &mut text)?;
    text.push(b'\n')?;
    Ok(text)
}
