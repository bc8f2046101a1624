ghost use Rattle.std.specs.Prelude.{◌≡◌};
ghost use Rattle.form_urlencoded.specs.Form.{split_once};
ghost use Rattle.idx_request.specs.Faults.{IsRead};

use crate::TargetFault;
use crate::asked::ask_of;
use crate::parameters::read_pairs;
use crate::wish::check_wish;
use idx_header::Header;
use idx_plan::Ask;
use std::alloc::Global;

/// The path of all targets.
const PATH: &[u8] = b"/mod_visus";

/// What a target asks of the dataset of this header and name, or the first fault of the target. Behind its first `?` a
/// target has the pairs of a form: `action=boxquery`, `dataset`, which is the name, `box`, and where they are not their
/// defaults `time` (the first step), `field` (the first one), `fromh` (0), `toh` (the finest level). `maxh` may say the
/// finest level, and `compression` may be empty or `raw`. Other pairs are passed over. Whether the dataset has the step, and
/// whether the question has a plan, is asked later.
pub fn read_target(
    alloc: Global,
    target: &[u8],
    header: &Header,
    name: &[u8],
) -> Result<Ask, TargetFault>
    ensures { IsRead header.now name.now target.now result }
{
    let (path, query) = cut(target);
    if path != b"/mod_visus".as_slice() {
        return Err(TargetFault::OtherPath);
    }
    let Ok(parameters) = read_pairs(alloc, query) else {
        return Err(TargetFault::NoMemory);
    };
    check_wish(alloc, &parameters, name)?;
    ask_of(alloc, &parameters, header)
}

/// The parts before and behind the first `?`.
fn cut(target: &[u8]) -> (&[u8], &[u8])
    ensures path { result.0.now ≡ (split_once 63 target.now).0 }
    ensures query { result.1.now ≡ (split_once 63 target.now).1 }
{
    match target.iter().position(|b| *b == b'?') {
        Some(at) => (&target[..at], &target[at + 1..]),
        None => (target, &[]),
    }
}
