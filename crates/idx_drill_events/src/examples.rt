ghost use Rattle.std.specs.Prelude.{◌≡◌, [], ◌∷◌, Some, true};
ghost use Rattle.idx_events.specs.Setting.{SettingOk};
ghost use Rattle.idx_events.specs.Events.{all_enabled, run};
ghost use Rattle.idx_events.specs.Tiny.{answers_of, cached_blocks, numbers};
ghost use Rattle.idx_events.specs.declared.event.Event.TheVariants.{Answer, Fill, Give, Look, Publish, Read, Ship, Write};
ghost use Rattle.idx_drill_events.specs.Drill.{IsDrill};
ghost use Rattle.idx_drill_events.specs.Worked.{small, small_events, small_questions, small_volume, small_world};

/// Worked values: two ranks write a step of two pieces in two files, and two questions are asked of it, with a cache of
/// one block. The first question reads both blocks, and the second one the block that did not stay. All that the laws
/// ask for can be met.
pub fn worked_drill()
    ensures events { small_events ≡
        Give 5 0 0 0 ∷ Give 5 0 0 1 ∷ Give 5 0 1 1 ∷ Ship 5 0 0 0 ∷ Ship 5 0 1 0 ∷ Ship 5 0 1 1 ∷
        Write 5 0 0 ∷ Write 5 0 1 ∷ Publish 5 0 ∷
        Look 0 ∷ Read 0 0 ∷ Read 0 1 ∷ Fill 0 ∷ Answer 0 ∷ Look 1 ∷ Read 1 0 ∷ Fill 1 ∷ Answer 1 ∷ [] }
    ensures enabled { all_enabled small small_world small_events ≡ true }
    ensures answers { answers_of (run small small_world small_events).queries ≡
        Some (10 ∷ 20 ∷ 30 ∷ 0 ∷ []) ∷ Some (10 ∷ 20 ∷ 30 ∷ 0 ∷ []) ∷ [] }
    ensures cached { cached_blocks (run small small_world small_events) ≡ 1 }
    ensures laws { SettingOk small }
    ensures drill { IsDrill small 5 small_volume (numbers 0 1) 2 1 small_questions }
{}
