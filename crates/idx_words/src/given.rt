ghost use Rattle.std.specs.Prelude.{◌≡◌, [], drop, map, string_bytes};
ghost use Rattle.std.specs.List.{slice_index_or};
ghost use Rattle.idx_words.specs.WordAt.{word_at};

/// The bytes of the word at a place, counted from 0; none where there is no word.
pub(crate) fn word_at(words: &[String], place: usize) -> &[u8]
    ensures { result.now ≡ word_at (map string_bytes words.now) place }
{
    match words.get(place) {
        Some(word) => word.as_bytes(),
        None => &[],
    }
}

/// The words from a place on, counted from 0; none where there are not so many.
pub(crate) fn words_from(words: &[String], place: usize) -> &[String]
    ensures { result.now ≡ drop place words.now }
{
    match words.get(place..) {
        Some(behind) => behind,
        None => &[],
    }
}

/// The second word, which is the path of what a command reads where the words are in the grammar; no path where there
/// is none.
pub fn given_path(words: &[String]) -> &str
    ensures { result.now ≡ slice_index_or (map string_bytes words.now) 1 [] }
{
    match words {
        [_, path, ..] => path.as_str(),
        _ => "",
    }
}

/// The third word, which is the path of the raw volume where the words are those of `convert`; no text where there is
/// none.
pub fn third_word(words: &[String]) -> &str
    ensures { result.now ≡ slice_index_or (map string_bytes words.now) 2 [] }
{
    match words {
        [_, _, word, ..] => word.as_str(),
        _ => "",
    }
}
