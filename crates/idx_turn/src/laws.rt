//! Laws of the definitions, each the contract of a function that does nothing.
ghost use Rattle.std.specs.Prelude.{◌≡◌, ◌+◌, ℕ, List, Some, slice_get};
ghost use Rattle.idx_hall.specs.Posts.{Post};
ghost use Rattle.idx_turn.specs.Stands.{Begins, MadeHolds};

/// Each list begins itself, and what begins a beginning begins the whole. A post that was seen has its number in each
/// list that begins with what was seen.
pub fn beginnings()
    ensures whole { (seen : List Post) → Begins seen seen }
    ensures more { (seen now later : List Post) → Begins seen now → Begins now later → Begins seen later }
    ensures numbers { (seen now : List Post) (number : ℕ) (post : Post) →
        Begins seen now → slice_get seen number ≡ Some post → slice_get now number ≡ Some post }
{}

/// Holds of two parts, one after the other, are those of both; and none were made where the count is as it was.
pub fn holds_made()
    ensures both { (before between after n m : ℕ) →
        MadeHolds before between n → MadeHolds between after m → MadeHolds before after (n + m) }
    ensures none { (count : ℕ) → MadeHolds count count 0 }
{}
