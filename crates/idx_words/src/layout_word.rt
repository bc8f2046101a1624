ghost use Rattle.std.specs.Prelude.{◌≡◌};
ghost use Rattle.idx_words.specs.Options.{layout_named};

use idx_rowmajor::Layout;

/// The layout that a word names, `rows` or `hz`. `None` exactly where it names none.
pub(crate) fn read_layout(word: &[u8]) -> Option<Layout>
    ensures { result ≡ layout_named word.now }
{
    match word {
        b"rows" => Some(Layout::Rows),
        b"hz" => Some(Layout::Hz),
        _ => None,
    }
}
