//! Laws of the definitions, each the contract of a function that does nothing.
ghost use Rattle.std.specs.Prelude.{◌≡◌, List, None, All};
ghost use Rattle.idx_text.specs.Entries.{Entry, IsEntry, entries_text, numbered};
ghost use Rattle.idx_text.specs.Lines.{wrong_line};
ghost use Rattle.idx_text.specs.Sections.{sections};

/// What is written of keys and their values is read back: the same keys, each with the lines of its value joined by one
/// space, and no byte stands in the text that may not.
pub fn entries_read_back()
    ensures sections { (entries : List Entry) → All IsEntry entries → sections (entries_text entries) ≡ numbered 1 entries }
    ensures text { (entries : List Entry) → All IsEntry entries → wrong_line (entries_text entries) ≡ None }
{}
