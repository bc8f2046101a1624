//! The options of a command, which stand behind its fixed words.
ghost use Rattle.std.specs.Prelude.{◌≡◌, ◌≤◌, drop, length, map, string_bytes, take, IfErr, IfOk, OnErr, OnOk};
ghost use Rattle.idx_words.specs.Options.{AreOptions};
ghost use Rattle.idx_words.specs.Place.{IsPlace};
ghost use Rattle.idx_words.specs.Settings.{ArePairs, AreWithin, open_among};

use crate::given::word_at;
use crate::misread::Misread;
use crate::setting::Setting;
use crate::settings::Settings;

/// The words as options, of which each is one of these. Where they are no pairs of a name and a value, each of another
/// option, the first that is wrong or missing, by its place among these words; `end` is what is expected where an
/// option's name is wrong.
pub(crate) fn read_options<'w>(
    options: &[Setting],
    words: &'w [String],
    end: &'static str,
) -> Result<Settings<'w>, Misread>
    ensures right { OnOk result (AreOptions options.now (map string_bytes words.now)) }
    ensures read { IfOk result (λ settings. settings ≡ map string_bytes words.now) }
    ensures within { IfOk result AreWithin }
    ensures wrong { OnErr result (¬ AreOptions options.now (map string_bytes words.now)) }
    ensures place { IfErr result (λ misread.
        IsPlace (AreOptions options.now) (map string_bytes words.now) misread.at) }
{
    match check_behind(options, words, 0, end) {
        Ok(()) => Ok(Settings { words }),
        Err(misread) => Err(misread),
    }
}

/// Whether the words behind the first so many, which are pairs, are pairs of the options that those do not give.
/// Otherwise the first that is wrong or missing, by its place behind them.
fn check_behind(
    options: &[Setting],
    words: &[String],
    read: usize,
    end: &'static str,
) -> Result<(), Misread>
    requires within { read ≤ length words.now }
    requires pairs { ArePairs (take read (map string_bytes words.now)) }
    ensures right { OnOk result (AreOptions (open_among (take read (map string_bytes words.now)) options.now)
        (drop read (map string_bytes words.now))) }
    ensures wrong { OnErr result (¬ AreOptions (open_among (take read (map string_bytes words.now)) options.now)
        (drop read (map string_bytes words.now))) }
    ensures place { IfErr result (λ misread.
        IsPlace (AreOptions (open_among (take read (map string_bytes words.now)) options.now))
        (drop read (map string_bytes words.now)) misread.at) }
{
    let (before, behind) = words.split_at(read);
    let [name, behind @ ..] = behind else {
        return Ok(());
    };
    let before = Settings { words: before };
    let Some(option) = before.open_option(options, name.as_bytes()) else {
        return Err(Misread {
            at: 0,
            expected: end,
        });
    };
    if !option.accepts(word_at(behind, 0)) {
        return Err(Misread {
            at: 1,
            expected: option.expected(),
        });
    }
    match check_behind(options, words, read + 2, end) {
        Ok(()) => Ok(()),
        Err(misread) => Err(misread.behind(2)),
    }
}
