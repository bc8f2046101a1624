//! Laws of the definitions, each the contract of a function that does nothing.
ghost use Rattle.std.specs.Prelude.{◌≡◌, ◌≢◌, ◌≤◌, ◌<◌, ◌++◌, ◌∷◌, [], ℕ, List, None, Some, length, slice_get};
ghost use Rattle.idx_hall.specs.Posts.{Lacks, Post, newest};

/// A time has a newest post exactly where a post has that time, and it is the last one that has it. One post more is the
/// newest of its own time, and of no other.
pub fn newest_posts()
    ensures none { (board : List Post) (time : ℕ) → newest board time ≡ None → Lacks time board }
    ensures lacks { (board : List Post) (time : ℕ) → Lacks time board → newest board time ≡ None }
    ensures last { (board : List Post) (time number : ℕ) → newest board time ≡ Some number →
        (post : Post) × (slice_get board number ≡ Some post) × (post.time ≡ time) ×
        ((later : ℕ) (p : Post) → slice_get board later ≡ Some p → p.time ≡ time → later ≤ number) }
    ensures is_last { (board : List Post) (time number : ℕ) (post : Post) →
        slice_get board number ≡ Some post → post.time ≡ time →
        ((later : ℕ) (p : Post) → slice_get board later ≡ Some p → p.time ≡ time → later ≤ number) →
        newest board time ≡ Some number }
    ensures more { (board : List Post) (post : Post) (time : ℕ) → post.time ≡ time →
        newest (board ++ post ∷ []) time ≡ Some (length board) }
    ensures other { (board : List Post) (post : Post) (time : ℕ) → post.time ≢ time →
        newest (board ++ post ∷ []) time ≡ newest board time }
{}

/// What was the newest post where there were more posts was the newest one before, if it was there; and the number of the
/// newest post never falls.
pub fn newest_rises()
    ensures before { (board more : List Post) (time number : ℕ) → newest (board ++ more) time ≡ Some number →
        number < length board → newest board time ≡ Some number }
    ensures rises { (board more : List Post) (time was is : ℕ) → newest board time ≡ Some was →
        newest (board ++ more) time ≡ Some is → was ≤ is }
{}
