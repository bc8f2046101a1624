//! What follows from the definitions.
ghost use Rattle.std.specs.Prelude.{◌≡◌, ℕ, ◌^◌, ◌<◌, List, length, All, IsTrue};
ghost use Rattle.httparse.specs.Grammar.{EndsInTarget, ReadsResponse};
ghost use Rattle.idx_http.specs.AsRead.{IsExtra, head_value};
ghost use Rattle.idx_http.specs.Heads.{Next, NextHead, window};
ghost use Rattle.idx_http.specs.Reply.{is_reply_status, reply};

/// What stands next in an input is one alone, but where what counts of it ends inside the target.
#[tactic(auto, using(crate::proofs::UniqueLemmas::NextHead_unique))]
pub fn one_answer()
    ensures { (s : List ℕ) (a b : Next) → ¬ (EndsInTarget (window s))
        → NextHead s a → NextHead s b → a ≡ b }
{}

/// A reply is read back as HTTP has it: the head with this status and these fields, and behind it the body.
pub fn replies_read_back()
    ensures { (status : ℕ) (extras : List (List ℕ × List ℕ)) (body : List ℕ)
        → IsTrue (is_reply_status status) → length body < 2 ^ 64 → All IsExtra extras
        → ReadsResponse (reply status extras body) (head_value status (length body) extras) body }
{}
