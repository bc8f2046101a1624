use std::fmt;

/// A word or a path as it is printed: control characters are escaped, so that a line stays a line and a terminal is not
/// driven by a file's name.
#[derive(Clone, Copy, Debug)]
pub struct Shown<'a>(pub &'a str);

impl fmt::Display for Shown<'_> {
    fn fmt<W: fmt::Write>(&self, f: &mut fmt::Formatter<W>) -> fmt::Result {
        for letter in self.0.chars() {
            match letter {
                '\n' => f.write_str("\\n")?,
                '\r' => f.write_str("\\r")?,
                '\t' => f.write_str("\\t")?,
                '\0'..='\x7f' if letter.is_control() => write!(f, "\\x{:02x}", letter as u32)?,
                _ if letter.is_control() => write!(f, "\\u{{{:x}}}", letter as u32)?,
                _ => f.write_char(letter)?,
            }
        }
        Ok(())
    }
}
