ghost use Rattle.std.specs.Prelude.{◌≡◌, ◌≤◌, ℕ, length, All, IfOk, IsErrOf, OnOk, Some, None};
ghost use Rattle.idx_text.specs.Lines.{lines, wrong_line};
ghost use Rattle.idx_text.specs.Sections.{sections, IsTextSection};
ghost use Rattle.idx_text.specs.Growing.{WithLine, IsExtended, continued};

use crate::line::{first_part, is_key_line, is_text, key_in, without_return};
use crate::{Section, TextFault, trim_blanks};
use idx_outside::{Bytes, NoMemory};
use std::alloc::Global;

/// What a header's text holds: its keys with their values, in their order, and how many lines there are.
#[derive(Debug, Drop)]
pub struct Document {
    /// How many lines the text has.
    pub lines: u64,
    /// The keys, in the order of their lines.
    pub sections: Vec<Section>,
}

impl Document {
    /// Reads a text, in one pass. Takes memory in proportion to it.
    pub fn read(alloc: Global, text: &[u8]) -> Result<Document, TextFault>
        ensures ok { OnOk result (wrong_line text.now ≡ None) }
        ensures lines { IfOk result (λ d. d.lines ≡ length (lines text.now)) }
        ensures few { IfOk result (λ d. d.lines ≤ length text.now) }
        ensures sections { IfOk result (λ d. d.sections.items ≡ sections text.now) }
        ensures texts { IfOk result (λ d. All IsTextSection d.sections.items) }
        ensures not_text { (line : ℕ) → IsErrOf result (TextFault.NotText line) → wrong_line text.now ≡ Some line }
    {
        let mut sections = Vec::new(alloc);
        let mut number = 0;
        let mut rest = text;
        while !rest.is_empty() {
            let (part, behind) = first_part(rest);
            let line = without_return(part);
            number += 1;
            if !is_text(line) {
                return Err(TextFault::NotText { line: number });
            }
            add_line(alloc, &mut sections, number, trim_blanks(line))?;
            rest = behind;
        }
        Ok(Document {
            lines: number,
            sections,
        })
    }
}

/// Takes a trimmed line: a key line is a new key, and any other belongs to the last key, if there is one.
fn add_line(
    alloc: Global,
    sections: &mut Vec<Section>,
    number: u64,
    line: &[u8],
) -> Result<(), NoMemory>
    ensures { OnOk result (WithLine sections.old.items sections.new.items number line.now) }
{
    if is_key_line(line) {
        let section = Section {
            line: number,
            key: Bytes::from_slice(alloc, key_in(line))?,
            value: Bytes::new(alloc),
        };
        sections.push(section)?;
        return Ok(());
    }
    if line.is_empty() {
        return Ok(());
    }
    extend_last(sections, line)
}

/// Adds a line that is not empty to the value of the last key, if there is one.
fn extend_last(sections: &mut Vec<Section>, line: &[u8]) -> Result<(), NoMemory>
    ensures { OnOk result (IsExtended sections.old.items sections.new.items line.now) }
{
    let Some(mut last) = sections.pop() else {
        return Ok(());
    };
    add_to_value(&mut last.value, line)?;
    sections.push(last)?;
    Ok(())
}

/// Adds a line to a value, behind a space where the value is not empty.
fn add_to_value(value: &mut Bytes, line: &[u8]) -> Result<(), NoMemory>
    ensures { OnOk result (value.new ≡ continued value.old line.now) }
{
    if !value.is_empty() {
        value.push(b' ')?;
    }
    value.append(line)
}
