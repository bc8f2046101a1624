ghost use Rattle.std.specs.Prelude.{◌≡◌, ◌++◌, [], ◌∷◌, Some, None, true, false};
ghost use Rattle.idx_events.specs.Events.{enabled, run, all_enabled};
ghost use Rattle.idx_events.specs.Start.{accepted};
ghost use Rattle.idx_events.specs.Setting.{SettingOk};
ghost use Rattle.idx_events.specs.Tiny.{tiny, tiny_world, tiny_events, written, answers_of, cached_blocks};
ghost use Rattle.idx_events.specs.declared.event.Event.TheVariants.{Give, Ship, Write, Publish, Look, Read, Fill};

/// Worked values: two revisions of a timestep are written, their files out of order, and published, the second one while
/// a question is in its first round. That question is answered by the first revision, and the next one by the second. What
/// the first one read of the old revision does not stay in the cache, nor do blocks that were put before. A part is not
/// given twice, a file is not written before all of its pieces have come, and an older revision is not published after a
/// newer one.
pub fn worked_run()
    ensures enabled { all_enabled tiny tiny_world tiny_events ≡ true }
    ensures answers { answers_of (run tiny tiny_world tiny_events).queries ≡
        Some (10 ∷ 20 ∷ 30 ∷ 0 ∷ []) ∷ Some (40 ∷ 50 ∷ 60 ∷ 0 ∷ []) ∷ [] }
    ensures stale { cached_blocks (run tiny tiny_world
        (written 0 ++ (Look 0 ∷ Read 0 0 ∷ []) ++ written 1 ++ (Fill 0 ∷ []))) ≡ 0 }
    ensures kept { cached_blocks (run tiny tiny_world (written 0 ++ (Look 0 ∷ Read 0 0 ∷ Fill 0 ∷ []))) ≡ 1 }
    ensures dropped { cached_blocks (run tiny tiny_world
        (written 0 ++ (Look 0 ∷ Read 0 0 ∷ Fill 0 ∷ []) ++ written 1)) ≡ 0 }
    ensures twice { accepted tiny tiny_world (Give 5 0 0 0 ∷ Give 5 0 0 0 ∷ []) ≡ 1 }
    ensures refused { accepted tiny tiny_world (Give 5 0 0 0 ∷ Ship 5 0 0 0 ∷ Write 5 0 0 ∷ Give 5 0 0 1 ∷ []) ≡ 2 }
    ensures newer { accepted tiny tiny_world (written 1 ++ written 0) ≡ 17 }
    ensures laws { SettingOk tiny }
{}
