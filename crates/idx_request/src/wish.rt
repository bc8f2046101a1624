//! What is wished: the action, the dataset and the compression.
ghost use Rattle.std.specs.Prelude.{◌≡◌, ℕ, List, [], ◌∷◌, None, Some, false, not};
ghost use Rattle.idx_request.specs.Faults.{fault_of_value, is_raw, where_true, wish_fault};
ghost use Rattle.idx_request.specs.Kept.{AreKept, IsAnswer, IsNoted};
ghost use Rattle.idx_request.specs.Pairs.{Pair, is_double};

use crate::TargetFault;
use crate::noted::Noted;
use crate::parameters::Parameters;
use form_urlencoded::decode;
use std::alloc::Global;

/// The first fault of the action, the dataset and the compression.
pub(crate) fn check_wish(
    alloc: Global,
    parameters: &Parameters<'_>,
    name: &[u8],
) -> Result<(), TargetFault>
    ensures { (pairs : List Pair) → AreKept pairs parameters.now → IsAnswer (wish_fault name.now pairs) result }
{
    if parameters.bad {
        return Err(TargetFault::BadText);
    }
    if parameters.has_double() {
        return Err(TargetFault::DoubleParameter);
    }
    let want = b"boxquery".as_slice();
    let (missing, other) = (TargetFault::NoAction, TargetFault::UnknownAction);
    check_value(alloc, parameters.action, want, missing, other)?;
    let (missing, other) = (TargetFault::NoDataset, TargetFault::OtherDataset);
    check_value(alloc, parameters.dataset, name, missing, other)?;
    check_compression(alloc, parameters.compression)
}

/// The fault of a parameter that must stand there with this value.
fn check_value(
    alloc: Global,
    noted: Noted<'_>,
    want: &[u8],
    missing: TargetFault,
    other: TargetFault,
) -> Result<(), TargetFault>
    ensures { (values : List (List ℕ)) → IsNoted noted.entry values → is_double values ≡ false
        → IsAnswer (fault_of_value values want.now missing other) result }
{
    let value = match noted {
        Noted::Missing => return Err(missing),
        Noted::Once(value) => value,
        Noted::Twice => return Ok(()),
    };
    let Ok(text) = decode(alloc, value) else {
        return Err(TargetFault::NoMemory);
    };
    if text.as_str().as_bytes() == want {
        Ok(())
    } else {
        Err(other)
    }
}

/// The fault of a compression that is neither empty nor `raw`.
fn check_compression(alloc: Global, noted: Noted<'_>) -> Result<(), TargetFault>
    ensures { (values : List (List ℕ)) → IsNoted noted.entry values → is_double values ≡ false
        → IsAnswer (where_true (not (is_raw values)) TargetFault.NotRaw) result }
{
    let value = match noted {
        Noted::Missing => return Ok(()),
        Noted::Once(value) => value,
        Noted::Twice => return Ok(()),
    };
    let Ok(text) = decode(alloc, value) else {
        return Err(TargetFault::NoMemory);
    };
    if is_raw(text.as_str().as_bytes()) {
        Ok(())
    } else {
        Err(TargetFault::NotRaw)
    }
}

/// Whether the text names no compression.
fn is_raw(text: &[u8]) -> bool
    ensures { result ≡ is_raw (text.now ∷ []) }
{
    text.is_empty() || text == b"raw".as_slice()
}
