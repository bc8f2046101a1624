//! What the rule of a lock says of its seats, as the contract of a function that does nothing.
ghost use Rattle.std.specs.Prelude.{◌≡◌, ◌⊎◌, ℕ, true, List, [], ◌∷◌};
ghost use Rattle.idx_lock.specs.declared.seat_view.SeatView.{SeatView};
ghost use Rattle.idx_lock.specs.LockRule.{AnyTwo, LockRule, Precedes, opening, stands};

use idx_hall::Standing;

/// The rule holds of a queue that is made, whose one seat is the opening one. Where it holds, two writers are one seat;
/// two seats that hold are one, and the queue is empty then; what any seat has seen begins what the writer has seen; and of
/// any two seats, what one has seen begins what the other has seen.
pub fn rule_of_seats<S: Standing>()
    ensures opens { LockRule (stands S.shape S.capacity S.posts) [] (opening ∷ []) }
    ensures one_writer { (items : List S) (views : List SeatView) →
        LockRule (stands S.shape S.capacity S.posts) items views →
        AnyTwo views (λ seat v other u. v.writer ≡ true → u.writer ≡ true → seat ≡ other) }
    ensures one_holder { (items : List S) (views : List SeatView) →
        LockRule (stands S.shape S.capacity S.posts) items views →
        AnyTwo views (λ seat v other u. v.holds ≡ true → u.holds ≡ true → seat ≡ other) }
    ensures held { (items : List S) (views : List SeatView) →
        LockRule (stands S.shape S.capacity S.posts) items views →
        AnyTwo views (λ seat v other u. v.holds ≡ true → items ≡ []) }
    ensures all_seen { (items : List S) (views : List SeatView) →
        LockRule (stands S.shape S.capacity S.posts) items views →
        AnyTwo views (λ seat v other u. v.writer ≡ true → Precedes u.seen v.seen) }
    ensures one_line { (items : List S) (views : List SeatView) →
        LockRule (stands S.shape S.capacity S.posts) items views →
        AnyTwo views (λ seat v other u. Precedes v.seen u.seen ⊎ Precedes u.seen v.seen) }
{}
