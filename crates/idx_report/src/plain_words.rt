use idx_header::HeaderKind;
use idx_table::TableKind;

/// What is wrong with a header, for people.
pub fn plain_words(kind: HeaderKind) -> &'static str {
    match kind {
        HeaderKind::NotText => "a control byte stands on this line",
        HeaderKind::DoubleKey => "the key on this line stands a second time",
        HeaderKind::MissingKey => {
            "no header stands there, or it lacks one of (version), (box), (fields), (bits), (bitsperblock), \
             (blocksperfile), (filename_template)"
        }
        HeaderKind::BadNumber => "the value of the key on this line is no number",
        HeaderKind::OtherVersion => "the version is not 6",
        HeaderKind::BadBox =>
            "the box is no list of two to five pairs `lo hi` with no lo above its hi",
        HeaderKind::BadMask =>
            "the bits are not V and 1 to 40 digits that each name an axis of the box",
        HeaderKind::BoxOutsideMask =>
            "an upper end of the box has more binary digits than the bits give its axis",
        HeaderKind::BadField => "a field has no name, no known type, or a name that stands twice",
        HeaderKind::BadTemplate => "the file name template is not in the grammar of names",
        HeaderKind::TemplateTooSmall =>
            "the file name template has no room for the number of the last file",
        HeaderKind::BadTime => "the time is no two steps in order with a template",
        HeaderKind::OverLimit => "a value is over a limit, or the text has more than 65536 bytes",
        HeaderKind::NoMemory => "there was not enough memory",
    }
}

/// What is wrong with a row of a file's table, for people.
pub fn plain_table_words(kind: TableKind) -> &'static str {
    match kind {
        TableKind::CutShort => "the table ends before this row does",
        TableKind::Compressed => "the block of this row is compressed, which is not read",
        TableKind::WrongSize => "the block of this row has another size than the field's blocks",
        TableKind::OutsideFile => {
            "the block of this row does not lie between the table and the end of the file"
        }
        TableKind::NoMemory => "there was not enough memory",
    }
}
