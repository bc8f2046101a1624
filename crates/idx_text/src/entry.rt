ghost use Rattle.std.specs.Prelude.{◌≡◌, ◌∷◌, ◌++◌, [], OnOk};
ghost use Rattle.idx_text.specs.Entries.{entry_text, key_line, lines_text};

use idx_outside::{Bytes, NoMemory};

/// Appends a key with its value, each on a line of its own. At `NoMemory` some of it may stand.
pub fn write_entry(key: &[u8], line: &[u8], out: &mut Bytes) -> Result<(), NoMemory>
    ensures { OnOk result (out.new ≡ out.old ++ entry_text (record { key = key.now; lines = line.now ∷ [] })) }
{
    write_key(key, out)?;
    write_line(line, out)
}

/// Appends the line of a key. At `NoMemory` some of it may stand.
pub fn write_key(key: &[u8], out: &mut Bytes) -> Result<(), NoMemory>
    ensures { OnOk result (out.new ≡ out.old ++ lines_text (key_line key.now ∷ [])) }
{
    out.push(b'(')?;
    out.append(key)?;
    out.append(b")\n")
}

/// Appends a line. At `NoMemory` some of it may stand.
pub fn write_line(line: &[u8], out: &mut Bytes) -> Result<(), NoMemory>
    ensures { OnOk result (out.new ≡ out.old ++ lines_text (line.now ∷ [])) }
{
    out.append(line)?;
    out.push(b'\n')
}
