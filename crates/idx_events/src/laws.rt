//! Laws of the definitions, each the contract of a function that does nothing.
ghost use Rattle.std.specs.Prelude.{◌≡◌, ◌<◌, ℕ, List, [], None, Some, slice_get, true};
ghost use Rattle.std.specs.List.{AllByRecursion};
ghost use Rattle.idx_plan.specs.declared.ask.Ask.{Ask};
ghost use Rattle.idx_events.specs.Setting.{Setting, SettingOk};
ghost use Rattle.idx_events.specs.World.{Query, World};
ghost use Rattle.idx_events.specs.Queries.{NotesNewest, post_noted};
ghost use Rattle.idx_events.specs.Events.{enabled, effect, run, all_enabled};
ghost use Rattle.idx_events.specs.Start.{new_volumes, new_world, replayed};
ghost use Rattle.idx_events.specs.WorldOk.{WorldOk};
ghost use Rattle.idx_events.specs.declared.event.Event.{Event};
ghost use Rattle.idx_events.specs.declared.event.Event.TheVariants.{Look};
ghost use Rattle.idx_hall.specs.Posts.{Post};

/// What holds of a new world holds after each event that may happen, after every list of them, and after what comes before
/// the first that may not.
pub fn events_keep()
    ensures new { (s : Setting) (volumes : List (ℕ × List ℕ)) (asks : List Ask) (capacity : ℕ) → 0 < capacity →
        AllByRecursion (λ v. s.valid_step v.time v.revision ≡ true) (new_volumes s [] volumes) →
        AllByRecursion (λ v. s.valid_raw v.1 ≡ true) volumes → AllByRecursion (λ ask. s.valid_ask ask ≡ true) asks →
        WorldOk s (new_world s volumes asks capacity) }
    ensures step { (s : Setting) → SettingOk s → (w : World) → WorldOk s w → (e : Event) → enabled s w e ≡ true →
        WorldOk s (effect s w e) }
    ensures all { (s : Setting) → SettingOk s → (es : List Event) (w : World) → WorldOk s w →
        all_enabled s w es ≡ true → WorldOk s (run s w es) }
    ensures refused { (s : Setting) → SettingOk s → (es : List Event) (w : World) → WorldOk s w →
        WorldOk s (replayed s w es) }
{}

/// A question's first look notes the newest post that its timestep has at that moment. Whatever events come later, the
/// question keeps this post, and the post keeps its number.
pub fn looks_are_of_the_newest()
    ensures first { (s : Setting) (w : World) (query : ℕ) (x : Query) → slice_get w.queries query ≡ Some x →
        x.post ≡ None → enabled s w (Look query) ≡ true →
        NotesNewest w.hall.board x.ask.time (post_noted query (effect s w (Look query))) }
    ensures kept { (s : Setting) (es : List Event) (w : World) (query number : ℕ) →
        post_noted query w ≡ Some number → post_noted query (run s w es) ≡ Some number }
    ensures board { (s : Setting) (es : List Event) (w : World) (number : ℕ) (post : Post) →
        slice_get w.hall.board number ≡ Some post → slice_get (run s w es).hall.board number ≡ Some post }
{}
