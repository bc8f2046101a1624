ghost use Rattle.std.specs.Prelude.{◌≡◌, ◌<◌, ◌≤◌, ◌==◌, ◌∷◌, length};
ghost use Rattle.std.specs.List.{position_or_len};
ghost use Rattle.std.specs.Str.Lines.{strip_carriage_return};
ghost use Rattle.idx_text.specs.Lines.{parts, is_text_line};
ghost use Rattle.idx_text.specs.Sections.{is_key_line, key_in};

/// What a text holds in front of its first line feed, and behind it. Where it has none, all of it, and nothing.

pub(crate) fn first_part(text: &[u8]) -> (&[u8], &[u8])
    requires { 0 < length text.now }
    ensures parts { parts text.now ≡ result.0.now ∷ parts result.1.now }
    ensures shorter { length result.1.now < length text.now }
{
    let end = line_end(text);
    if end < text.len() {
        (&text[..end], &text[end + 1..])
    } else {
        (text, &text[text.len()..])
    }
}

/// The place of the first line feed, or the length where there is none.
fn line_end(text: &[u8]) -> usize
    ensures place { result ≡ position_or_len (λ b. b == 10) text.now }
    ensures within { result ≤ length text.now }
{
    let mut end = 0;
    while end < text.len() && text[end] != b'\n' {
        end += 1;
    }
    end
}

/// The line without the carriage return that belongs to its end.
pub(crate) fn without_return(line: &[u8]) -> &[u8]
    ensures { result.now ≡ strip_carriage_return line.now }
{
    match line {
        [front @ .., b'\r'] => front,
        _ => line,
    }
}

/// Whether each byte may stand in a text.
pub(crate) fn is_text(line: &[u8]) -> bool
    ensures { result ≡ is_text_line line.now }
{
    line.iter()
        .all(|byte| *byte >= b' ' && *byte != 0x7f || *byte == b'\t')
}

/// Whether a trimmed line is a key line.
pub(crate) fn is_key_line(line: &[u8]) -> bool
    ensures { result ≡ is_key_line line.now }
{
    matches!(line, [b'(', .., b')'])
}

/// What stands between the parentheses of a key line.
pub(crate) fn key_in(line: &[u8]) -> &[u8]
    ensures { result.now ≡ key_in line.now }
{
    match line {
        [_, key @ .., _] => key,
        _ => &line[line.len()..],
    }
}
