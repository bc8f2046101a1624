ghost use Rattle.std.specs.Prelude.{◌≡◌, ◌≢◌, ◌↔◌, ◌≤◌, ◌<◌, ℕ, List, length, map, All, IfErr, IfOk, IsTrue, Ok, OnErr, OnOk, string_bytes};
ghost use Rattle.idx_geom.specs.Region.{IsRegion};
ghost use Rattle.idx_words.specs.declared.command.Command.{Command};
ghost use Rattle.idx_words.specs.declared.cut_words.CutWords.{CutWords};
ghost use Rattle.idx_words.specs.ConvertValue.{ConvertValue};
ghost use Rattle.idx_words.specs.CutGrammar.{AreCutWords, IsSound};
ghost use Rattle.idx_words.specs.CutSteps.{HasMask, IsBox, IsLevel, IsMaskOf, IsRegionIn, IsSize};
ghost use Rattle.idx_words.specs.CutWord.{place_of, word_of};
ghost use Rattle.idx_words.specs.PathWord.{is_path};
ghost use Rattle.idx_words.specs.Place.{IsPlace, IsPlaceBehind};
ghost use Rattle.idx_words.specs.QueryValue.{QueryValue};
ghost use Rattle.idx_words.specs.ServeValue.{ServeValue};
ghost use Rattle.idx_words.specs.Words.{AreSomeCutWords, IsSoundCommand};

use crate::command::Command;
use crate::cut_word::CutWord;
use crate::cut_words::CutWords;
use crate::given::word_at;
use crate::misread::Misread;
use crate::path::is_path;
use idx_geom::{Point, Region};
use idx_hz::{Mask, guess};
use idx_text::{read_box, read_number};

/// So many words stand behind the command.
const WORDS: usize = 7;

const MAX_SAMPLE_BYTES: u64 = 64;

/// A raw volume has at most so many bytes.
const MAX_VOLUME_BYTES: u64 = 1 << 30;

/// The command `cut` with the values of the words behind it. The place of a word that is wrong or missing counts the
/// command too.
pub fn cut_command(words: &[String]) -> Result<Command<'_>, Misread>
    ensures read { (c : CutWords) → (result ≡ Ok (Command.Cut c)) ↔ AreCutWords (map string_bytes words.now) c }
    ensures no_info { result ≢ Ok Command.Info }
    ensures no_convert { (c : ConvertValue) → result ≢ Ok (Command.Convert c) }
    ensures no_query { (c : QueryValue) → result ≢ Ok (Command.Query c) }
    ensures no_check { (time : ℕ) → result ≢ Ok (Command.Check time) }
    ensures no_serve { (c : ServeValue) → result ≢ Ok (Command.Serve c) }
    ensures no_drill { (number : ℕ) → result ≢ Ok (Command.Drill number) }
    ensures sound { IfOk result IsSoundCommand }
    ensures place { IfErr result (λ misread. IsPlaceBehind AreSomeCutWords (map string_bytes words.now) misread.at) }
{
    match read_cut(words) {
        Ok(cut) => Ok(Command::Cut(cut)),
        Err(word) => Err(Misread {
            at: word.place() as u64 + 1,
            expected: word.expected(),
        }),
    }
}

/// The values that the words behind the command stand for. Each word is read over the values of those before it. Where
/// they are no words of `cut`, the first that is wrong or missing.
fn read_cut(words: &[String]) -> Result<CutWords, CutWord>
    ensures read { (c : CutWords) → (result ≡ Ok c) ↔ AreCutWords (map string_bytes words.now) c }
    ensures sound { IfOk result IsSound }
    ensures place { IfErr result (λ word. IsPlace AreSomeCutWords (map string_bytes words.now) (place_of word)) }
{
    check_raw(words)?;
    let size = read_size(words)?;
    let extent = read_extent(words, size)?;
    let mask = read_mask(words, &extent)?;
    let region = read_region(words, &extent)?;
    let lo = read_level(words, CutWord::Lo, 0, &mask)?;
    let hi = read_level(words, CutWord::Hi, lo, &mask)?;
    check_end(words)?;
    Ok(CutWords {
        size,
        extent,
        mask,
        region,
        lo,
        hi,
    })
}

fn check_raw(words: &[String]) -> Result<(), CutWord>
    ensures right { OnOk result (IsTrue (is_path (word_of (map string_bytes words.now) CutWord.Raw))) }
    ensures wrong { OnErr result (¬ IsTrue (is_path (word_of (map string_bytes words.now) CutWord.Raw))) }
    ensures word { IfErr result (λ word. word ≡ CutWord.Raw) }
{
    if is_path(word_at(words, CutWord::Raw.place())) {
        Ok(())
    } else {
        Err(CutWord::Raw)
    }
}

/// The bytes of a sample.
fn read_size(words: &[String]) -> Result<u64, CutWord>
    ensures right { IfOk result (IsSize (word_of (map string_bytes words.now) CutWord.Size)) }
    ensures wrong { OnErr result ((size : ℕ) → ¬ IsSize (word_of (map string_bytes words.now) CutWord.Size) size) }
    ensures word { IfErr result (λ word. word ≡ CutWord.Size) }
{
    match read_number(word_at(words, CutWord::Size.place())) {
        Some(size) if 1 <= size && size <= MAX_SAMPLE_BYTES => Ok(size),
        _ => Err(CutWord::Size),
    }
}

/// The box of the raw volume, whose samples have so many bytes.
#[tactic(auto, using(crate::proofs::BoxLemmas::region_spelled))]
fn read_extent(words: &[String], size: u64) -> Result<Region, CutWord>
    requires { size ≤ 64 }
    ensures right { IfOk result (IsBox size (word_of (map string_bytes words.now) CutWord.Extent)) }
    ensures wrong { OnErr result ((box : List (ℕ × ℕ)) →
        ¬ IsBox size (word_of (map string_bytes words.now) CutWord.Extent) box) }
    ensures word { IfErr result (λ word. word ≡ CutWord.Extent) }
{
    match read_box(word_at(words, CutWord::Extent.place())) {
        Some(found) if found.count() * size <= MAX_VOLUME_BYTES && has_mask(&found) => Ok(found),
        _ => Err(CutWord::Extent),
    }
}

/// Whether some mask covers a box: the guessed one does, and where its upper ends are all 0, each mask of one digit.
fn has_mask(extent: &Region) -> bool
    requires { IsRegion extent.now }
    ensures { IsTrue result ↔ HasMask extent.now }
{
    is_origin(&extent.hi()) || guess(extent).is_some()
}

fn is_origin(p: &Point) -> bool
    ensures { IsTrue result ↔ All (λ x. x ≡ 0) p.now }
{
    (0..p.axes()).all(|axis| p.get(axis) == 0)
}

/// The mask, which covers the box.
fn read_mask(words: &[String], extent: &Region) -> Result<Mask, CutWord>
    ensures right { IfOk result (IsMaskOf extent.now (word_of (map string_bytes words.now) CutWord.Mask)) }
    ensures wrong { OnErr result ((mask : List ℕ) →
        ¬ IsMaskOf extent.now (word_of (map string_bytes words.now) CutWord.Mask) mask) }
    ensures word { IfErr result (λ word. word ≡ CutWord.Mask) }
{
    match Mask::parse(word_at(words, CutWord::Mask.place())) {
        Ok(mask) if mask.holds(extent) => Ok(mask),
        _ => Err(CutWord::Mask),
    }
}

/// The region that is asked for, inside the box.
fn read_region(words: &[String], extent: &Region) -> Result<Region, CutWord>
    ensures right { IfOk result (IsRegionIn extent.now (word_of (map string_bytes words.now) CutWord.Region)) }
    ensures wrong { OnErr result ((region : List (ℕ × ℕ)) →
        ¬ IsRegionIn extent.now (word_of (map string_bytes words.now) CutWord.Region) region) }
    ensures word { IfErr result (λ word. word ≡ CutWord.Region) }
{
    match read_box(word_at(words, CutWord::Region.place())) {
        Some(region) if extent.holds(&region) => Ok(region),
        _ => Err(CutWord::Region),
    }
}

/// The level at a place, from the coarsest that is allowed there to the mask's finest.
fn read_level(words: &[String], place: CutWord, coarsest: u64, mask: &Mask) -> Result<u64, CutWord>
    ensures right { IfOk result (IsLevel coarsest (length mask.now) (word_of (map string_bytes words.now) place)) }
    ensures wrong { OnErr result ((level : ℕ) →
        ¬ IsLevel coarsest (length mask.now) (word_of (map string_bytes words.now) place) level) }
    ensures word { IfErr result (λ word. word ≡ place) }
{
    match read_number(word_at(words, place.place())) {
        Some(level) if coarsest <= level && level <= u64::from(mask.len()) => Ok(level),
        _ => Err(place),
    }
}

fn check_end(words: &[String]) -> Result<(), CutWord>
    ensures right { OnOk result (length words.now ≤ WORDS) }
    ensures wrong { OnErr result (WORDS < length words.now) }
    ensures word { IfErr result (λ word. word ≡ CutWord.End) }
{
    if words.len() <= WORDS {
        Ok(())
    } else {
        Err(CutWord::End)
    }
}
