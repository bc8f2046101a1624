ghost use Rattle.std.specs.Prelude.{◌≡◌};
ghost use Rattle.idx_commands.specs.SiteName.{last_part, site_name, without_ending};

/// The name that the dataset is served by that has its header at this path: the part of the path behind its last `/`,
/// without an ending `.idx`.
pub(crate) fn site_name(path: &[u8]) -> &[u8]
    ensures { result.now ≡ site_name path.now }
{
    without_ending(last_part(path))
}

/// The part of a path behind its last `/`, or all of it where there is none.
#[tactic(auto, using(crate::proofs::SiteNameLemmas::part_is))]
fn last_part(path: &[u8]) -> &[u8]
    ensures { result.now ≡ last_part path.now }
{
    let mut from = 0;
    for i in 0..path.len() {
        if path[i] == b'/' {
            from = i + 1;
        }
    }
    &path[from..]
}

/// A name without an ending `.idx`.
fn without_ending(name: &[u8]) -> &[u8]
    ensures { result.now ≡ without_ending name.now }
{
    match name.strip_suffix(b".idx".as_slice()) {
        Some(front) => front,
        None => name,
    }
}
