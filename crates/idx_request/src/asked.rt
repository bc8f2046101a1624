//! What is asked: the field, the step, the box and the levels.
ghost use Rattle.std.specs.Prelude.{◌≡◌, ◌==◌, ℕ, ◌≤◌, List, [], ◌∷◌, IfNone, IfSome, None, Some, false, true, length};
ghost use Rattle.std.specs.List.{list_all};
ghost use Rattle.idx_header.specs.Header.{ends_of};
ghost use Rattle.idx_request.specs.Asked.{AreLevelsAsked, IsBoxAsked, IsFieldAsked, digits_in_front, first_step, is_finest, is_no_fraction, is_number, level_asked, small, time_asked, time_of};
ghost use Rattle.idx_text.specs.Number.{is_digit, number_of};
ghost use Rattle.idx_request.specs.Faults.{are_levels, names_field};
ghost use Rattle.idx_request.specs.Kept.{AreKept, Gives, IsAskRead, IsNoted};
ghost use Rattle.idx_request.specs.Pairs.{Pair, has_double, is_double};

use crate::TargetFault;
use crate::noted::Noted;
use crate::parameters::Parameters;
use form_urlencoded::decode;
use idx_geom::Region;
use idx_header::Header;
use idx_plan::Ask;
use idx_text::{read_box, read_number};
use std::alloc::Global;

/// What the parameters ask of a dataset.
pub(crate) fn ask_of(
    alloc: Global,
    parameters: &Parameters<'_>,
    header: &Header,
) -> Result<Ask, TargetFault>
    ensures { (pairs : List Pair) → AreKept pairs parameters.now → has_double pairs ≡ false
        → IsAskRead header.now pairs result }
{
    let field = field_asked(alloc, parameters.field, header)?;
    let time = time_asked(alloc, parameters.time, header)?;
    let region = box_asked(alloc, parameters.region, header)?;
    let (lo, hi) = levels_asked(alloc, parameters, header)?;
    Ok(Ask {
        time,
        field,
        region,
        lo,
        hi,
    })
}

/// The field that is asked for: the first one where the parameter is missing.
fn field_asked(alloc: Global, noted: Noted<'_>, header: &Header) -> Result<u32, TargetFault>
    ensures { (values : List (List ℕ)) → IsNoted noted.entry values → is_double values ≡ false →
        Gives (λ i. (names_field header.now.fields values ≡ true) × IsFieldAsked header.now values i)
        TargetFault.UnknownField (names_field header.now.fields values ≡ false) result }
{
    let value = match noted {
        Noted::Missing => return Ok(0),
        Noted::Once(value) => value,
        Noted::Twice => return Ok(0),
    };
    let Ok(text) = decode(alloc, value) else {
        return Err(TargetFault::NoMemory);
    };
    match header.find_field(text.as_str().as_bytes()) {
        Some(field) => Ok(field),
        None => Err(TargetFault::UnknownField),
    }
}

/// The step that is asked for: the first one where the parameter is missing.
fn time_asked(alloc: Global, noted: Noted<'_>, header: &Header) -> Result<u64, TargetFault>
    ensures { (values : List (List ℕ)) → IsNoted noted.entry values → is_double values ≡ false →
        Gives (λ time. time_asked header.now values ≡ Some time)
        TargetFault.BadTime (time_asked header.now values ≡ None) result }
{
    let value = match noted {
        Noted::Missing => return Ok(first_step(header)),
        Noted::Once(value) => value,
        Noted::Twice => return Ok(0),
    };
    let Ok(text) = decode(alloc, value) else {
        return Err(TargetFault::NoMemory);
    };
    match read_time(text.as_str().as_bytes()) {
        Some(time) => Ok(time),
        None => Err(TargetFault::BadTime),
    }
}

/// The region that is asked for.
fn box_asked(alloc: Global, noted: Noted<'_>, header: &Header) -> Result<Region, TargetFault>
    ensures { (values : List (List ℕ)) → IsNoted noted.entry values → is_double values ≡ false →
        Gives (IsBoxAsked header.now values)
        TargetFault.BadBox ((r : List (ℕ × ℕ)) → ¬ IsBoxAsked header.now values r) result }
{
    let value = match noted {
        Noted::Missing => return Err(TargetFault::BadBox),
        Noted::Once(value) => value,
        Noted::Twice => return Err(TargetFault::BadBox),
    };
    let Ok(text) = decode(alloc, value) else {
        return Err(TargetFault::NoMemory);
    };
    match box_of(text.as_str().as_bytes(), header) {
        Some(region) => Ok(region),
        None => Err(TargetFault::BadBox),
    }
}

/// The region that a text spells, if it has the dataset's axes.
fn box_of(text: &[u8], header: &Header) -> Option<Region>
    ensures some { IfSome result (λ r. IsBoxAsked header.now (text.now ∷ []) r) }
    ensures none { IfNone result ((r : List (ℕ × ℕ)) → ¬ IsBoxAsked header.now (text.now ∷ []) r) }
{
    match read_box(text) {
        Some(region) if region.axes() == header.axes() => Some(region),
        _ => None,
    }
}

/// The coarsest and the finest level that are asked for.
fn levels_asked(
    alloc: Global,
    parameters: &Parameters<'_>,
    header: &Header,
) -> Result<(u32, u32), TargetFault>
    ensures { (pairs : List Pair) → AreKept pairs parameters.now → has_double pairs ≡ false →
        Gives (λ levels. AreLevelsAsked header.now pairs levels.0 levels.1)
        TargetFault.BadLevels (are_levels header.now pairs ≡ false) result }
{
    let lo = level_asked(alloc, parameters.lo, 0)?;
    let hi = level_asked(alloc, parameters.hi, header.max_level())?;
    check_finest(alloc, parameters.finest, header)?;
    Ok((lo, hi))
}

/// The level that is asked for: this one where the parameter is missing.
fn level_asked(alloc: Global, noted: Noted<'_>, other: u32) -> Result<u32, TargetFault>
    ensures { (values : List (List ℕ)) → IsNoted noted.entry values → is_double values ≡ false →
        Gives (λ level. level_asked other values ≡ Some level)
        TargetFault.BadLevels (level_asked other values ≡ None) result }
{
    let value = match noted {
        Noted::Missing => return Ok(other),
        Noted::Once(value) => value,
        Noted::Twice => return Ok(0),
    };
    let Ok(text) = decode(alloc, value) else {
        return Err(TargetFault::NoMemory);
    };
    match level_of(text.as_str().as_bytes()) {
        Some(level) => Ok(level),
        None => Err(TargetFault::BadLevels),
    }
}

/// The level that a text spells: a number that has at most 32 binary digits.
fn level_of(text: &[u8]) -> Option<u32>
    ensures { result ≡ small (number_of text.now) }
{
    match read_number(text) {
        Some(number) => u32::try_from(number).ok(),
        None => None,
    }
}

/// The fault of a finest level that is not the header's.
fn check_finest(alloc: Global, noted: Noted<'_>, header: &Header) -> Result<(), TargetFault>
    ensures { (values : List (List ℕ)) → IsNoted noted.entry values → is_double values ≡ false →
        Gives (λ _. is_finest header.now values ≡ true)
        TargetFault.BadLevels (is_finest header.now values ≡ false) result }
{
    let value = match noted {
        Noted::Missing => return Ok(()),
        Noted::Once(value) => value,
        Noted::Twice => return Ok(()),
    };
    let Ok(text) = decode(alloc, value) else {
        return Err(TargetFault::NoMemory);
    };
    if spells(text.as_str().as_bytes(), header.max_level()) {
        Ok(())
    } else {
        Err(TargetFault::BadLevels)
    }
}

/// Whether the text spells the number.
fn spells(text: &[u8], number: u32) -> bool
    ensures { result ≡ is_number (number_of text.now) number }
{
    match read_number(text) {
        Some(spelt) => spelt == u64::from(number),
        None => false,
    }
}

/// The first step of a header.
fn first_step(header: &Header) -> u64
    ensures { result ≡ first_step (ends_of header.now.steps) }
{
    match header.steps() {
        Some((first, _)) => first,
        None => 0,
    }
}

/// The number that a text spells: digits, which may have a point and zeros behind them.
fn read_time(text: &[u8]) -> Option<u64>
    ensures { result ≡ time_of text.now }
{
    let count = digits_in_front(text);
    if is_no_fraction(&text[count..]) {
        read_number(&text[..count])
    } else {
        None
    }
}

/// How many digits stand at the front of a text.
fn digits_in_front(text: &[u8]) -> usize
    ensures count { result ≡ digits_in_front text.now }
    ensures within { result ≤ length text.now }
{
    match text.iter().position(|byte| !is_digit(*byte)) {
        Some(count) => count,
        None => text.len(),
    }
}

/// Whether the byte is a decimal digit.
fn is_digit(byte: u8) -> bool
    ensures { result ≡ is_digit byte }
{
    byte >= b'0' && byte <= b'9'
}

/// Whether nothing stands there, or a point with one or more zeros behind it.
fn is_no_fraction(text: &[u8]) -> bool
    ensures { result ≡ is_no_fraction text.now }
{
    match text {
        [] => true,
        [point, zero, zeros @ ..] => *point == b'.' && *zero == b'0' && are_all_zeros(zeros),
        [_] => false,
    }
}

/// Whether each byte is a zero.
fn are_all_zeros(text: &[u8]) -> bool
    ensures { result ≡ list_all (λ b. b == 48) text.now }
{
    text.iter().all(|byte| *byte == b'0')
}
