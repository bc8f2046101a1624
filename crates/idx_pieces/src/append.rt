ghost use Rattle.std.specs.Prelude.{◌≡◌, ◌+◌, ◌-◌, ◌*◌, ◌<◌, ◌≤◌, ◌++◌, IfOk, OnOk, drop, length, take};
ghost use Rattle.idx_geom.specs.Region.{points};
ghost use Rattle.idx_pieces.specs.Cursor.{IsCursor};
ghost use Rattle.idx_pieces.specs.Filling.{Appends};

use crate::cursor::Cursor;
use idx_geom::Region;
use idx_outside::{Bytes, NoMemory};

/// Appends the samples of a region that stand in a window, from the cursor on. The window has the samples, of so many
/// bytes, of the places from `from` on and below `to`. Answers the cursor behind them.
pub(crate) fn append_window(
    bytes: &mut Bytes,
    mut cursor: Cursor,
    extent: &Region,
    region: &Region,
    window: &[u8],
    from: u64,
    to: u64,
    size: u64,
) -> Result<Cursor, NoMemory>
    requires cursor { IsCursor extent.now region.now cursor }
    requires next { cursor.done < length (points region.now) → from ≤ cursor.place }
    requires window { length window.now ≡ (to - from) * size }
    requires some { 1 ≤ size }
    ensures cursor { IfOk result (λ c. IsCursor extent.now region.now c) }
    ensures behind { IfOk result (λ c. c.done < length (points region.now) → to ≤ c.place) }
    ensures appends { IfOk result
        (λ c. Appends size from window.now extent.now region.now bytes.old bytes.new cursor.done c.done) }
{
    let total = region.count();
    'rows: while cursor.done < total && cursor.place < to {
        let count = cursor.left.min(to - cursor.place);
        append_row(bytes, window, cursor.place - from, count, size)?;
        cursor = cursor.advanced(extent, region, count);
    }
    Ok(cursor)
}

/// Appends so many samples of a window, from the one of this number on.
fn append_row(
    bytes: &mut Bytes,
    window: &[u8],
    first: u64,
    count: u64,
    size: u64,
) -> Result<(), NoMemory>
    requires { (first + count) * size ≤ length window.now }
    ensures { OnOk result (bytes.new ≡ bytes.old ++ take (count * size) (drop (first * size) window.now)) }
{
    let start = (first * size) as usize;
    bytes.append(&window[start..start + (count * size) as usize])
}
