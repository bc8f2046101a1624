//! Worked values of the definitions.
ghost use Rattle.std.specs.Prelude.{◌≡◌, [], ◌∷◌, true, false, codes};
ghost use Rattle.idx_http.specs.Reply.{reason, reply_head};
ghost use Rattle.idx_http.specs.Values.{announces, lists_close};
ghost use Rattle.idx_http.specs.Worked.{answer_fields, answer_head, refusal_head};

/// The heads of an answer and of a refusal.
pub fn worked_replies()
    ensures answer { reply_head 200 4 answer_fields ≡ answer_head }
    ensures refusal { reply_head 404 13 [] ≡ refusal_head }
{}

/// The phrases of the statuses.
#[tactic(auto, unfolding(crate::specs::Reply::reason))]
pub fn worked_reasons()
    ensures ok { reason 200 ≡ codes "OK" }
    ensures bad { reason 400 ≡ codes "Bad Request" }
    ensures missing { reason 404 ≡ codes "Not Found" }
    ensures method { reason 405 ≡ codes "Method Not Allowed" }
    ensures large { reason 413 ≡ codes "Payload Too Large" }
    ensures long { reason 431 ≡ codes "Request Header Fields Too Large" }
    ensures failed { reason 500 ≡ codes "Internal Server Error" }
    ensures unknown { reason 501 ≡ codes "Not Implemented" }
    ensures busy { reason 503 ≡ codes "Service Unavailable" }
{}

/// Which fields say that a body follows.
#[tactic(auto, unfolding(crate::specs::Values::announces, http1::specs::Text::eq_ignore_case))]
pub fn worked_bodies()
    ensures none { announces (codes "Content-Length", []) ≡ true }
    ensures zero { announces (codes "Content-Length", codes "0") ≡ false }
    ensures zeros { announces (codes "content-length", codes "000") ≡ false }
    ensures two { announces (codes "Content-Length", codes "0,0") ≡ true }
    ensures five { announces (codes "CONTENT-LENGTH", codes "5") ≡ true }
    ensures coded { announces (codes "Transfer-Encoding", codes "identity") ≡ true }
    ensures other { announces (codes "Content-Type", codes "5") ≡ false }
{}

/// Which fields list `close`.
#[tactic(auto, unfolding(http1::specs::Fields::elements, http1::specs::Text::eq_ignore_case, httparse::specs::Grammar::trim_ows))]
pub fn worked_closes()
    ensures second { lists_close ((codes "connection", codes "keep-alive, Close") ∷ []) ≡ true }
    ensures longer { lists_close ((codes "Connection", codes "closed") ∷ []) ≡ false }
    ensures elsewhere { lists_close ((codes "Upgrade", codes "close") ∷ []) ≡ false }
{}
