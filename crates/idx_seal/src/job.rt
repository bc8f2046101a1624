ghost use Rattle.std.specs.Prelude.{◌≡◌, [], None, Some};
ghost use Rattle.std.specs.Option.{ForSome};
ghost use Rattle.idx_dock.specs.Dock.{missing};
ghost use Rattle.idx_seal.specs.Jobs.{IsOpen, Writes, WritesTo};

use crate::written::Written;
use idx_dock::Dock;
use idx_outside::{Bytes, Draft};
use idx_rowmajor::Layout;

/// What a worker does for a file of a row: it writes the dock to the draft, and seals it.
pub(crate) struct Job<D, L> {
    /// The path of the file.
    pub path: Bytes,
    /// The order in which the samples of its blocks are written.
    pub layout: Layout,
    /// The file, but for the time in which it is written.
    pub file: Option<Written<D, L>>,
}

impl<D: Draft> Job<D, D::Leaf> {
    /// Writes the dock to the draft and seals it. Whether it was sealed. Takes no memory.
    pub(crate) fn run(&mut self) -> bool
        requires { IsOpen D.contents self.old }
        ensures { Writes D.contents D.path D.faults D.Leaf.contents D.Leaf.path D.Leaf.faults self.old self.new }
    {
        let written = match self.file.take() {
            Some(Written::Open(dock, draft)) => write(dock, draft, self.layout),
            Some(written) => written,
            None => unreachable!(),
        };
        let sealed = written.is_sealed();
        put(&mut self.file, written);
        sealed
    }
}

/// What becomes of an empty draft to which a complete dock is written in a layout.
fn write<D: Draft>(dock: Dock, draft: D, layout: Layout) -> Written<D, D::Leaf>
    requires complete { missing dock ≡ None }
    requires empty { ForSome (D.contents draft) (λ bytes. bytes ≡ []) }
    ensures { WritesTo D.contents D.path D.faults D.Leaf.contents D.Leaf.path D.Leaf.faults
        layout dock draft (Some result) }
{
    let written = match layout {
        Layout::Hz => dock.write(draft),
        Layout::Rows => dock.write_rows(draft),
    };
    match written {
        Ok(leaf) => Written::Sealed(leaf),
        Err((draft, _)) => Written::Failed(draft),
    }
}

/// Puts a value where none is.
fn put<T>(place: &mut Option<T>, value: T)
    requires { place.old ≡ None }
    ensures { place.new ≡ Some value }
{
    match place.replace(value) {
        None => {}
        Some(_) => unreachable!(),
    }
}
