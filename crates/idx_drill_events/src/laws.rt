//! Laws of the definitions, each the contract of a function that does nothing.
ghost use Rattle.std.specs.Prelude.{◌≡◌, ◌+◌, ◌++◌, ℕ, List, [], ◌∷◌, map, slice_get, length, is_some, Some, true};
ghost use Rattle.std.specs.List.{AllByRecursion, flat_map, range_with_len};
ghost use Rattle.idx_cache.specs.Cached.{put_all, raise_all};
ghost use Rattle.idx_hall.specs.Posts.{newest, is_newest};
ghost use Rattle.idx_hall.specs.Hall.{HallValue, after_publish, after_fill, name_eq, named, named_pairs, with_pairs};
ghost use Rattle.idx_events.specs.Setting.{Setting, SettingOk, step_files, post_of_files};
ghost use Rattle.idx_events.specs.World.{World, Query};
ghost use Rattle.idx_events.specs.Events.{run, all_enabled};
ghost use Rattle.idx_events.specs.Start.{new_query, new_volume};
ghost use Rattle.idx_events.specs.WorldOk.{WorldOk};
ghost use Rattle.idx_events.specs.declared.event.Event.{Event};
ghost use Rattle.idx_drill_events.specs.Lists.{Asking, written, asked, all_asked};
ghost use Rattle.idx_drill_events.specs.Leads.{Leads};
ghost use Rattle.idx_drill_events.specs.Written.{AreAll, IsWritten};
ghost use Rattle.idx_drill_events.specs.Asked.{keys_of, pairs_by, hall_after, hall_after_all};
ghost use Rattle.idx_drill_events.specs.Asked.{query_after, queries_after, with_asked, with_all_asked, IsAsked, AreAsked};
ghost use Rattle.idx_drill_events.specs.Drill.{opened_hall, drill_world, drill_events, right_answers, IsDrill};

/// Events one behind another: they lead where the second ones lead from where the first ones do, and all may happen
/// where the first ones may, and then the second ones.
pub fn joined_lists()
    ensures run { (s : Setting) (w : World) (xs ys : List Event) → run s w (xs ++ ys) ≡ run s (run s w xs) ys }
    ensures may { (s : Setting) (w : World) (xs ys : List Event) → all_enabled s w xs ≡ true →
        all_enabled s (run s w xs) ys ≡ true → all_enabled s w (xs ++ ys) ≡ true }
    ensures leads { (s : Setting) (w v u : World) (xs ys : List Event) → Leads s w xs v → Leads s v ys u →
        Leads s w (xs ++ ys) u }
{}

/// A revision is written whole: all of its events may happen in each world of which it is the one volume, and they
/// leave it published, its post on the board, and the rest as it was. Where the layers keep their laws, that post is
/// the one of the volume's files.
pub fn step_is_written()
    ensures may { (s : Setting) (pieces : List ℕ) (ranks : ℕ) → AreAll s pieces ranks → (w : World)
        (time revision : ℕ) (raw : List ℕ) → w.volumes ≡ new_volume s time revision raw ∷ [] →
        all_enabled s w (written s time revision pieces ranks) ≡ true }
    ensures leaves { (s : Setting) (pieces : List ℕ) (ranks : ℕ) → AreAll s pieces ranks → (w : World)
        (time revision : ℕ) (raw : List ℕ) → w.volumes ≡ new_volume s time revision raw ∷ [] →
        IsWritten s w (new_volume s time revision raw) (run s w (written s time revision pieces ranks)) }
    ensures post { (s : Setting) → SettingOk s → (pieces : List ℕ) (ranks : ℕ) → AreAll s pieces ranks →
        (w : World) (time revision : ℕ) (raw : List ℕ) → WorldOk s w →
        w.volumes ≡ new_volume s time revision raw ∷ [] →
        (run s w (written s time revision pieces ranks)).hall ≡
        after_publish (post_of_files s time revision (step_files s time revision raw)) w.hall }
{}

/// Questions of one round are answered: all events of one that has not looked yet may happen, where the blocks that it
/// reads are those that are not found, and of many of them one behind another. Each has an answer then, and the
/// published steps are as they were. Where nothing is missing, nothing is put; and what is missing of the newest step
/// is put, behind what is found.
pub fn questions_are_answered()
    ensures one { (s : Setting) (w : World) (query : ℕ) (x : Asking) →
        slice_get w.queries query ≡ Some (new_query x.ask) → IsAsked s w.hall x →
        Leads s w (asked query x.missing) (with_asked s query x w) }
    ensures all { (s : Setting) (w : World) (before : List Query) (xs : List Asking) →
        w.queries ≡ before ++ map (λ x. new_query x.ask) xs → AreAsked s w.hall xs →
        Leads s w (all_asked (length before) xs) (with_all_asked s before xs w) }
    ensures answered { (s : Setting) (xs : List Asking) (h : HallValue) →
        AllByRecursion (λ x. is_some x.answer ≡ true) (queries_after s xs h) }
    ensures board { (xs : List Asking) (h : HallValue) → (hall_after_all xs h).board ≡ h.board }
    ensures shape { (xs : List Asking) (h : HallValue) → (hall_after_all xs h).shape ≡ h.shape }
    ensures nothing { (post : ℕ) (h : HallValue) → after_fill post [] h ≡ h }
    ensures newest { (x : Asking) (h : HallValue) → is_newest h.board x.post ≡ true → hall_after x h ≡
        with_pairs h (put_all name_eq h.cache.cap (named_pairs x.post (pairs_by x h.board))
        (raise_all name_eq (named x.post (keys_of x)) h.cache.pairs)) }
{}

/// One question more behind others, and questions by their numbers.
pub fn one_question_more()
    ensures events { (xs : List Asking) (x : Asking) (query : ℕ) →
        all_asked query (xs ++ x ∷ []) ≡ all_asked query xs ++ asked (query + length xs) x.missing }
    ensures hall { (xs : List Asking) (x : Asking) (h : HallValue) →
        hall_after_all (xs ++ x ∷ []) h ≡ hall_after x (hall_after_all xs h) }
    ensures queries { (s : Setting) (xs : List Asking) (x : Asking) (h : HallValue) →
        queries_after s (xs ++ x ∷ []) h ≡ queries_after s xs h ++ query_after s x (hall_after_all xs h) ∷ [] }
    ensures asked { (s : Setting) (xs : List Asking) (x : Asking) (h : HallValue) → AreAsked s h xs →
        IsAsked s (hall_after_all xs h) x → AreAsked s h (xs ++ x ∷ []) }
    ensures by_number { (missing : ℕ → List ℕ) (xs : List Asking) (query : ℕ) →
        ((k : ℕ) (x : Asking) → slice_get xs k ≡ Some x → missing (query + k) ≡ x.missing) →
        all_asked query xs ≡ flat_map (λ n. asked n (missing n)) (range_with_len query (length xs)) }
{}

/// A new dataset of one volume: its step is written whole, and then each question is asked. All of these events may
/// happen, each answer is the one out of the volume, the hall is as the questions leave it, and what holds of every
/// world holds. The questions begin with a hall that has that step as its newest and only one.
pub fn drill_is_right()
    ensures may { (s : Setting) → SettingOk s → (time : ℕ) (raw pieces : List ℕ) (ranks capacity : ℕ)
        (questions : List Asking) → IsDrill s time raw pieces ranks capacity questions →
        all_enabled s (drill_world s time raw questions capacity)
        (drill_events s time raw pieces ranks questions) ≡ true }
    ensures answers { (s : Setting) → SettingOk s → (time : ℕ) (raw pieces : List ℕ) (ranks capacity : ℕ)
        (questions : List Asking) → IsDrill s time raw pieces ranks capacity questions →
        map (λ x. x.answer) (run s (drill_world s time raw questions capacity)
        (drill_events s time raw pieces ranks questions)).queries ≡ right_answers s raw questions }
    ensures hall { (s : Setting) → SettingOk s → (time : ℕ) (raw pieces : List ℕ) (ranks capacity : ℕ)
        (questions : List Asking) → IsDrill s time raw pieces ranks capacity questions →
        (run s (drill_world s time raw questions capacity)
        (drill_events s time raw pieces ranks questions)).hall ≡
        hall_after_all questions (opened_hall s time raw capacity) }
    ensures holds { (s : Setting) → SettingOk s → (time : ℕ) (raw pieces : List ℕ) (ranks capacity : ℕ)
        (questions : List Asking) → IsDrill s time raw pieces ranks capacity questions →
        WorldOk s (run s (drill_world s time raw questions capacity)
        (drill_events s time raw pieces ranks questions)) }
    ensures newest { (s : Setting) (time : ℕ) (raw : List ℕ) (capacity : ℕ) →
        newest (opened_hall s time raw capacity).board time ≡ Some 0 }
    ensures current { (s : Setting) (time : ℕ) (raw : List ℕ) (capacity : ℕ) →
        is_newest (opened_hall s time raw capacity).board 0 ≡ true }
{}
