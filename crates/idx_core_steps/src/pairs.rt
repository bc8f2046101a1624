//! Numbers and pairs of numbers in lists.
ghost use Rattle.std.specs.Prelude.{◌≡◌};
ghost use Rattle.std.specs.List.{list_all};
ghost use Rattle.idx_events.specs.Lists.{has, has_pair};

/// Whether a pair stands in a list.
pub(crate) fn contains_pair(pairs: &[(u64, u64)], a: u64, b: u64) -> bool
    ensures { result ≡ has_pair (a, b) pairs.now }
{
    pairs.iter().any(|pair| a == pair.0 && b == pair.1)
}

/// Whether a number stands in a list.
pub(crate) fn contains_rank(ranks: &[u32], rank: u64) -> bool
    ensures { result ≡ has rank ranks.now }
{
    ranks.iter().any(|other| rank == u64::from(*other))
}

/// Whether each rank stands before a piece in a list of pairs.
pub(crate) fn all_with_piece(ranks: &[u32], pairs: &[(u64, u64)], piece: u64) -> bool
    ensures { result ≡ list_all (λ rank. has_pair (rank, piece) pairs.now) ranks.now }
{
    ranks
        .iter()
        .all(|rank| contains_pair(pairs, u64::from(*rank), piece))
}
