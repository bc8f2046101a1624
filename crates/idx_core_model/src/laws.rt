//! Laws of the definitions, each the contract of a function that does nothing.
ghost use Rattle.std.specs.Prelude.{◌≡◌, ◌<◌, ℕ, List, true};
ghost use Rattle.idx_header.specs.Header.{HeaderValue};
ghost use Rattle.idx_plan.specs.declared.ask.Ask.{Ask};
ghost use Rattle.idx_events.specs.Setting.{SettingOk};
ghost use Rattle.idx_events.specs.World.{World};
ghost use Rattle.idx_events.specs.Events.{enabled, effect, run, all_enabled};
ghost use Rattle.idx_events.specs.Start.{new_world, replayed};
ghost use Rattle.idx_events.specs.WorldOk.{WorldOk};
ghost use Rattle.idx_events.specs.declared.event.Event.{Event};
ghost use Rattle.idx_core_model.specs.Layers.{setting_of};
ghost use Rattle.idx_core_model.specs.Headline.{HeadlineHolds, IsDivided, IsTaken};

/// The layers of each dataset with a time, with pieces of any number of digits and any number of ranks, keep the laws that
/// the events stand on.
pub fn layers_keep_their_laws()
    ensures { (h : HeaderValue) (e n : ℕ) → IsDivided h e n → SettingOk (setting_of h e n) }
{}

/// For each dataset with a time, and whatever it is divided into, for all volumes and questions that a world takes, and
/// for every list of events of writing, aggregating, publishing, evicting and asking: published files are byte for byte
/// those that one rank writes, each cached entry is its published block, and each answer is exactly what was asked for.
/// It holds after every list of events that may happen, and after what comes before the first that may not. What the
/// proof stands on, `WorldOk`, is kept by each event that may happen, in whatever world it holds.
pub fn every_interleaving()
    ensures all { (h : HeaderValue) (e n capacity : ℕ) (volumes : List (ℕ × List ℕ)) (asks : List Ask)
        (es : List Event) → IsDivided h e n → 0 < capacity → IsTaken h volumes asks →
        all_enabled (setting_of h e n) (new_world (setting_of h e n) volumes asks capacity) es ≡ true →
        HeadlineHolds h (run (setting_of h e n) (new_world (setting_of h e n) volumes asks capacity) es) }
    ensures refused { (h : HeaderValue) (e n capacity : ℕ) (volumes : List (ℕ × List ℕ)) (asks : List Ask)
        (es : List Event) → IsDivided h e n → 0 < capacity → IsTaken h volumes asks →
        HeadlineHolds h (replayed (setting_of h e n) (new_world (setting_of h e n) volumes asks capacity) es) }
    ensures new { (h : HeaderValue) (e n capacity : ℕ) (volumes : List (ℕ × List ℕ)) (asks : List Ask) →
        IsDivided h e n → 0 < capacity → IsTaken h volumes asks →
        WorldOk (setting_of h e n) (new_world (setting_of h e n) volumes asks capacity) }
    ensures step { (h : HeaderValue) (e n : ℕ) → IsDivided h e n → (w : World) → WorldOk (setting_of h e n) w →
        (event : Event) → enabled (setting_of h e n) w event ≡ true →
        WorldOk (setting_of h e n) (effect (setting_of h e n) w event) }
    ensures holds { (h : HeaderValue) (e n : ℕ) → IsDivided h e n → (w : World) → WorldOk (setting_of h e n) w →
        HeadlineHolds h w }
{}
