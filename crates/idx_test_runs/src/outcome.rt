//! What is printed of a run.
use crate::bytes_text::{push_escaped, push_words};
use crate::forms::Forms;
use crate::replies::{push_entries, push_written};
use crate::setting::{Setting, is_same};
use idx_commands::Done;
use idx_memory::{MemDoor, MemReader};
use idx_outside::MemFile;
use std::alloc::AllocError;

/// Appends how a run ended and what it left: the status and the line of the cause, how many reads it made, what it wrote,
/// the header where it is another one, the files that stand behind those that stood, and what was written to the links. With the
/// counts and the entries of links where the setting says so.
pub fn push_outcome(
    text: &mut String,
    done: Done,
    forms: &Forms,
    setting: &Setting,
) -> Result<(), AllocError> {
    writeln!(text, "status {} {}", done.status, done.cause)?;
    push_reads(text, &forms.readers)?;
    if setting.has_counts {
        push_counts(text, forms)?;
    }
    push_output(text, forms.out.written().as_slice())?;
    let header = forms.bay.header_text().as_slice();
    if header != setting.header.as_slice() {
        push_field(text, "header ", header)?;
    }
    push_files(text, forms.bay.committed(), &setting.files)?;
    for (number, door) in forms.doors.iter().enumerate() {
        push_handed(text, number, door)?;
        for (link, entries) in door.finished().iter() {
            push_written(text, link)?;
            if setting.has_entries {
                push_entries(text, entries)?;
            }
        }
    }
    Ok(())
}

/// Appends how many reads one reader made. Of several, nothing settles which one makes a read.
fn push_reads(text: &mut String, readers: &[MemReader]) -> Result<(), AllocError> {
    if let [reader] = readers {
        writeln!(text, "reads {}", reader.reads())?;
    }
    Ok(())
}

/// Appends how many bytes each raw volume was asked for, how many calls changed the bay, and which call of it failed last.
fn push_counts(text: &mut String, forms: &Forms) -> Result<(), AllocError> {
    text.push_str("asked")?;
    for raw in forms.raws.iter() {
        write!(text, " {}", raw.asked())?;
    }
    writeln!(text, "\nchanges {}", forms.bay.changes())?;
    if let Some(call) = forms.bay.failed() {
        writeln!(text, "failed {call:?}")?;
    }
    Ok(())
}

/// Appends what was written: as text where it is lines of text, and else by its bytes.
fn push_output(text: &mut String, written: &[u8]) -> Result<(), AllocError> {
    if written.is_empty() {
        return Ok(());
    }
    if written.last() == Some(&b'\n') && written.iter().all(|byte| is_text(*byte)) {
        return push_field(text, "out ", written);
    }
    text.push_str("out")?;
    push_words(text, written)?;
    text.push('\n')?;
    Ok(())
}

fn is_text(byte: u8) -> bool {
    byte == b'\n' || byte == b' ' || byte.is_ascii_graphic()
}

/// Appends a line with a name and bytes as text.
pub fn push_field(text: &mut String, name: &str, bytes: &[u8]) -> Result<(), AllocError> {
    text.push_str(name)?;
    push_escaped(text, bytes)?;
    text.push('\n')?;
    Ok(())
}

/// Appends the files behind those that stood, and a line where these do not stand as they did.
fn push_files(text: &mut String, files: &[MemFile], before: &[MemFile]) -> Result<(), AllocError> {
    if !begin_with(files, before) {
        text.push_str("a file that stood was changed\n")?;
    }
    for file in files.iter().skip(before.len()) {
        push_file(text, file)?;
    }
    Ok(())
}

/// Whether the first files are those that stood.
fn begin_with(files: &[MemFile], before: &[MemFile]) -> bool {
    files.len() >= before.len()
        && files
            .iter()
            .zip(before.iter())
            .all(|(found, other)| is_same(found, other))
}

fn push_file(text: &mut String, file: &MemFile) -> Result<(), AllocError> {
    text.push_str("file ")?;
    push_escaped(text, file.folder.as_slice())?;
    text.push(' ')?;
    push_escaped(text, file.path.as_slice())?;
    push_words(text, file.bytes.as_slice())?;
    text.push('\n')?;
    Ok(())
}

/// Appends how many links a door handed out.
fn push_handed(text: &mut String, number: usize, door: &MemDoor) -> Result<(), AllocError> {
    if !door.handed().is_empty() {
        writeln!(text, "door{number} handed {}", door.handed().len())?;
    }
    Ok(())
}
