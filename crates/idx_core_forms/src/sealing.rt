ghost use Rattle.std.specs.Prelude.{◌≡◌, None, IfOk};
ghost use Rattle.idx_dock.specs.Content.{dock_bytes};
ghost use Rattle.idx_dock.specs.Dock.{missing};

use crate::{HeldDraft, HeldLeaf};
use idx_dock::Dock;
use idx_outside::{NoMemory, Outage};
use std::alloc::Global;

/// The file of a dock to which all its pieces came, written into memory. The dock stays as it was. `NoMemory` where there
/// is no room for a copy of the dock or for the file.
pub fn seal_dock(alloc: Global, dock: &Dock) -> Result<HeldLeaf, NoMemory>
    requires complete { missing dock.now ≡ None }
    ensures { IfOk result (λ leaf. leaf ≡ dock_bytes dock.now) }
{
    let copy = dock.copy(alloc)?;
    match copy.write(HeldDraft::new(alloc)) {
        Ok(leaf) => Ok(leaf),
        Err((_draft, Outage)) => Err(NoMemory),
    }
}
