ghost use Rattle.std.specs.Prelude.{◌≡◌, List, [], ◌∷◌, ◌++◌, IfOk};
ghost use Rattle.idx_request.specs.Kept.{AreKept};
ghost use Rattle.idx_request.specs.Pairs.{Pair, decoded, has_double, is_bad, pairs_of};

use crate::noted::Noted;
use form_urlencoded::{decode, raw_pairs};
use std::alloc::{AllocError, Global};

/// What is kept of the pairs of a query.
#[derive(Clone, Copy)]
pub(crate) struct Parameters<'a> {
    /// Some name or value is no text.
    pub(crate) bad: bool,
    pub(crate) action: Noted<'a>,
    pub(crate) dataset: Noted<'a>,
    pub(crate) time: Noted<'a>,
    pub(crate) field: Noted<'a>,
    pub(crate) region: Noted<'a>,
    pub(crate) lo: Noted<'a>,
    pub(crate) hi: Noted<'a>,
    pub(crate) finest: Noted<'a>,
    pub(crate) compression: Noted<'a>,
}

/// Reads the pairs of a query.
pub(crate) fn read_pairs(alloc: Global, query: &[u8]) -> Result<Parameters<'_>, AllocError>
    ensures { IfOk result (AreKept (pairs_of query.now)) }
{
    let mut parameters = Parameters {
        bad: false,
        action: Noted::Missing,
        dataset: Noted::Missing,
        time: Noted::Missing,
        field: Noted::Missing,
        region: Noted::Missing,
        lo: Noted::Missing,
        hi: Noted::Missing,
        finest: Noted::Missing,
        compression: Noted::Missing,
    };
    for (name, value) in raw_pairs(query) {
        parameters = parameters.and(alloc, name, value)?;
    }
    Ok(parameters)
}

impl<'a> Parameters<'a> {
    /// The same with one more pair.
    fn and(
        self,
        alloc: Global,
        name: &'a [u8],
        value: &'a [u8],
    ) -> Result<Parameters<'a>, AllocError>
        ensures { IfOk result (λ p. (pairs : List Pair) → AreKept pairs self.entry
            → AreKept (pairs ++ decoded (name.now, value.now) ∷ []) p) }
    {
        let key = decode(alloc, name)?;
        let text = decode(alloc, value)?;
        let bad = is_bad(key.as_str());
        let bad_text = is_bad(text.as_str());
        let key = key.as_str().as_bytes();
        Ok(Parameters {
            bad: self.bad | (bad | bad_text),
            action: self.action.with(b"action", key, value),
            dataset: self.dataset.with(b"dataset", key, value),
            time: self.time.with(b"time", key, value),
            field: self.field.with(b"field", key, value),
            region: self.region.with(b"box", key, value),
            lo: self.lo.with(b"fromh", key, value),
            hi: self.hi.with(b"toh", key, value),
            finest: self.finest.with(b"maxh", key, value),
            compression: self.compression.with(b"compression", key, value),
        })
    }

    /// Whether some parameter stands there more than once.
    pub(crate) fn has_double(&self) -> bool
        ensures { (pairs : List Pair) → AreKept pairs self.now → result ≡ has_double pairs }
    {
        self.action.is_double()
            || self.dataset.is_double()
            || self.time.is_double()
            || self.field.is_double()
            || self.region.is_double()
            || self.lo.is_double()
            || self.hi.is_double()
            || self.finest.is_double()
            || self.compression.is_double()
    }
}

/// Whether the text has the character U+FFFD.
fn is_bad(text: &str) -> bool
    ensures { result ≡ is_bad text.now }
{
    text.chars().any(|c| c == char::REPLACEMENT_CHARACTER)
}
