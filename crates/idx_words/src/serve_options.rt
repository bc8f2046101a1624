//! The options of `serve`.
ghost use Rattle.std.specs.Prelude.{◌≡◌, ◌≢◌, map, string_bytes, IfErr, IfOk, OnErr, OnOk, MatchOption};
ghost use Rattle.std.specs.Option.{is_some};
ghost use Rattle.idx_words.specs.declared.setting.Setting.{Setting};
ghost use Rattle.idx_words.specs.Options.{given};
ghost use Rattle.idx_words.specs.Place.{IsPlace};
ghost use Rattle.idx_words.specs.ServeGrammar.{AreServeOptions};
ghost use Rattle.idx_words.specs.Settings.{AreWithin};

use crate::misread::Misread;
use crate::options::read_options;
use crate::setting::Setting;
use crate::settings::Settings;

const OPTIONS: [Setting; 5] = [
    Setting::Cache,
    Setting::Workers,
    Setting::Links,
    Setting::Ingest,
    Setting::Raw,
];

/// What is expected where no option stands that may stand there.
const END: &str =
    "--cache, --workers, --links, --ingest or --raw, each at most once, or the end of the words: \
     serve DATASET ADDRESS [--cache BLOCKS] [--workers WORKERS] [--links LINKS] [--ingest STEP --raw RAW]";

/// The words as options of `serve`. Otherwise the first that is wrong or missing, by its place among these words.
pub(crate) fn read_serve_options(words: &[String]) -> Result<Settings<'_>, Misread>
    ensures right { OnOk result (AreServeOptions (map string_bytes words.now)) }
    ensures read { IfOk result (λ settings. settings ≡ map string_bytes words.now) }
    ensures within { IfOk result AreWithin }
    ensures wrong { OnErr result (¬ AreServeOptions (map string_bytes words.now)) }
    ensures place { IfErr result (λ misread. IsPlace AreServeOptions (map string_bytes words.now) misread.at) }
{
    let settings = match read_options(&OPTIONS, words, END) {
        Ok(settings) => settings,
        Err(misread) => return Err(misread),
    };
    match lacking(&settings) {
        None => Ok(settings),
        Some(expected) => Err(Misread {
            at: words.len() as u64,
            expected,
        }),
    }
}

/// What is expected behind options of which one is given that asks for another.
fn lacking(settings: &Settings<'_>) -> Option<&'static str>
    ensures { MatchOption result
        (is_some (given settings.now Setting.Ingest) ≡ is_some (given settings.now Setting.Raw))
        (λ _. is_some (given settings.now Setting.Ingest) ≢ is_some (given settings.now Setting.Raw)) }
{
    match (
        settings.gives(Setting::Ingest),
        settings.gives(Setting::Raw),
    ) {
        (true, false) => Some("--raw RAW, since --ingest is given"),
        (false, true) => Some("--ingest STEP, since --raw is given"),
        _ => None,
    }
}
