//! Laws of the definitions, each the contract of a function that does nothing.
ghost use Rattle.std.specs.Prelude.{◌≡◌, ◌<◌, ◌≤◌, ℕ, All, Bool, List, Option, Some, length, take};
ghost use Rattle.idx_outside.specs.Cause.{MeetsOnce};
ghost use Rattle.idx_outside.specs.Input.{Reading};
ghost use Rattle.idx_outside.specs.declared.served.Served.{Served};
ghost use Rattle.idx_hall.specs.Posts.{Post, newest};
ghost use Rattle.idx_turn.specs.Stands.{Begins};
ghost use Rattle.idx_session.specs.Entry.{Mark, Reply, SeenRises, State, mark_of};
ghost use Rattle.idx_session.specs.declared.asked.Asked.{Asked};
ghost use Rattle.idx_session.specs.declared.link_end.LinkEnd.{LinkEnd};
ghost use Rattle.idx_serve.specs.Boards.{HoldsOf};
ghost use Rattle.idx_serve.specs.Links.{IsServed};
ghost use Rattle.idx_serve.specs.Replies.{Gives, IsLost, IsReply};
ghost use Rattle.idx_serve.specs.declared.site.Site.{Site};

/// Where the board that was named is no longer than the posts that were seen, this holds behind a reply with samples too,
/// and its post is the newest of its time on the board that it names. (The length that is named stands still at the end of
/// its type.)
pub fn answers_are_of_the_newest_post()
    ensures few { (tells : Bool) (site : Site) (before : Mark) (asked : Asked) (last : Bool) (reply : Reply) →
        Gives tells site before asked last reply → before.seen ≤ length before.state.posts →
        reply.mark.seen ≤ length reply.mark.state.posts }
    ensures newest { (tells : Bool) (site : Site) (before : Mark) (asked : Asked) (last : Bool) (reply : Reply)
        (given : Gives tells site before asked last reply) → before.seen ≤ length before.state.posts →
        given.post < reply.mark.seen →
        newest (take reply.mark.seen reply.mark.state.posts) given.made.ask.time ≡ Some given.post }
{}

/// Along the entries of a link the board that is named never gets shorter, and after each entry at least so many posts
/// were seen. What the entries say is so of the posts that were seen at the end, and of each list that begins with these.
pub fn entries_hold_of_longer_boards()
    ensures rises { (tells : Bool) (site : Site) (before after : State)
        (input written_old written_new : Option (List ℕ)) (readings_old readings_new : Option (List Reading))
        (served_old served_new : List Served) (end : LinkEnd)
        (link : IsServed tells site before after input written_old written_new readings_old readings_new
        served_old served_new end) → SeenRises (mark_of before 0) link.session.entries }
    ensures holds { (tells : Bool) (site : Site) (before after : State)
        (input written_old written_new : Option (List ℕ)) (readings_old readings_new : Option (List Reading))
        (served_old served_new : List Served) (end : LinkEnd)
        (link : IsServed tells site before after input written_old written_new readings_old readings_new
        served_old served_new end) (posts : List Post) → Begins after.posts posts →
        All (HoldsOf site posts) link.session.entries }
{}

/// With each reply the reader counts one fault at most, and so it does with a head that gets no reply for want of memory.
pub fn a_head_meets_one_fault()
    ensures replied { (tells : Bool) (site : Site) (before : Mark) (asked : Asked) (last : Bool) (reply : Reply) →
        IsReply tells site before asked last reply → MeetsOnce before.state.faults reply.mark.state.faults }
    ensures lost { (tells : Bool) (site : Site) (before after : Mark) → IsLost tells site before after →
        MeetsOnce before.state.faults after.state.faults }
{}
