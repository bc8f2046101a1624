//! The published steps, in the order of their numbers.
ghost use Rattle.std.specs.Prelude.{◌≡◌, ◌≢◌, ◌<◌, ◌++◌, ◌∷◌, [], ℕ, Some, IfErr, IfOk, IfSome, IfNone, OnErr, OnOk, length, slice_get};
ghost use Rattle.std.specs.Arc.{arc_value};

use crate::published::Published;
use idx_outside::{Blocks, NoMemory};
use std::alloc::Global;
use std::sync::Arc;

/// The number of the newest step of a time, if there is one.
pub(crate) fn newest_of<E: Blocks + Drop>(board: &[Published<E>], time: u64) -> Option<usize>
    ensures some { IfSome result (λ n. (e : E) × ((slice_get board.now n ≡ Some e) × (E.time e ≡ time))) }
    ensures last { IfSome result (λ n. (m : ℕ) (e : E) → n < m → slice_get board.now m ≡ Some e → E.time e ≢ time) }
    ensures none { IfNone result ((n : ℕ) (e : E) → slice_get board.now n ≡ Some e → E.time e ≢ time) }
{
    board.iter().rposition(|published| published.time() == time)
}

/// Adds a step behind the others, and answers its number. It comes back where there is no memory.
pub(crate) fn append<E: Blocks + Drop>(
    board: &mut Vec<Published<E>>,
    edition: Arc<E>,
) -> Result<u64, Arc<E>>
    ensures number { IfOk result (λ number. number ≡ length board.old.items) }
    ensures added { OnOk result (board.new.items ≡ board.old.items ++ arc_value edition ∷ []) }
    ensures returned { IfErr result (λ returned. returned ≡ edition) }
    ensures kept { OnErr result (board.new.items ≡ board.old.items) }
{
    if board.reserve(1).is_err() {
        return Err(edition);
    }
    let number = board.len() as u64;
    let pushed = board.push(Published::new(edition)).is_ok();
    prove!(pushed);
    Ok(number)
}

/// The steps once more.
pub(crate) fn share_all<E: Blocks + Drop>(
    alloc: Global,
    board: &[Published<E>],
) -> Result<Vec<Published<E>>, NoMemory>
    ensures { IfOk result (λ steps. steps.items ≡ board.now) }
{
    let mut steps = Vec::with_capacity(alloc, board.len())?;
    for step in board {
        steps.push(step.share()?)?;
    }
    Ok(steps)
}
