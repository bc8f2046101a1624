//! How far a revision is.
ghost use Rattle.std.specs.Prelude.{◌≡◌};
ghost use Rattle.idx_events.specs.World.{is_published, is_staged};

use idx_events::Phase;

/// Whether it is being written.
pub(crate) fn is_staged(phase: Phase) -> bool
    ensures { result ≡ is_staged phase }
{
    match phase {
        Phase::Staged => true,
        Phase::Published => false,
        Phase::Abandoned => false,
    }
}

/// Whether it was published.
pub(crate) fn is_published(phase: Phase) -> bool
    ensures { result ≡ is_published phase }
{
    match phase {
        Phase::Staged => false,
        Phase::Published => true,
        Phase::Abandoned => false,
    }
}
