ghost use Rattle.std.specs.Prelude.{◌≡◌};
ghost use Rattle.idx_commands.specs.KindText.{kind_text, table_kind_text, wrong_kind_text};

use idx_check::WrongKind;
use idx_header::HeaderKind;
use idx_table::TableKind;

/// The name of a kind of fault of a header.
pub fn kind_text(kind: HeaderKind) -> &'static str
    ensures { result.now ≡ kind_text kind }
{
    match kind {
        HeaderKind::NotText => "NotText",
        HeaderKind::DoubleKey => "DoubleKey",
        HeaderKind::MissingKey => "MissingKey",
        HeaderKind::BadNumber => "BadNumber",
        HeaderKind::OtherVersion => "OtherVersion",
        HeaderKind::BadBox => "BadBox",
        HeaderKind::BadMask => "BadMask",
        HeaderKind::BoxOutsideMask => "BoxOutsideMask",
        HeaderKind::BadField => "BadField",
        HeaderKind::BadTemplate => "BadTemplate",
        HeaderKind::TemplateTooSmall => "TemplateTooSmall",
        HeaderKind::BadTime => "BadTime",
        HeaderKind::OverLimit => "OverLimit",
        HeaderKind::NoMemory => "NoMemory",
    }
}

/// The name of a kind of fault of a file's table.
pub fn table_kind_text(kind: TableKind) -> &'static str
    ensures { result.now ≡ table_kind_text kind }
{
    match kind {
        TableKind::CutShort => "CutShort",
        TableKind::Compressed => "Compressed",
        TableKind::WrongSize => "WrongSize",
        TableKind::OutsideFile => "OutsideFile",
        TableKind::NoMemory => "NoMemory",
    }
}

/// The name of how a file is not the writer's.
pub fn wrong_kind_text(kind: WrongKind) -> &'static str
    ensures { result.now ≡ wrong_kind_text kind }
{
    match kind {
        WrongKind::Missing => "Missing",
        WrongKind::Extra => "Extra",
        WrongKind::Byte => "Byte",
    }
}
