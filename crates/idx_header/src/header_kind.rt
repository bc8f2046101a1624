/// What is wrong with a header, or that there was not enough memory.
#[derive(Clone, Copy, Debug, PartialEq, Eq)]
pub enum HeaderKind {
    /// A byte stands in the text that may not.
    NotText,
    /// A known key stands a second time.
    DoubleKey,
    /// A known key is missing.
    MissingKey,
    /// A value is no number.
    BadNumber,
    /// The version is not 6.
    OtherVersion,
    /// The box is none.
    BadBox,
    /// The bits are no mask, or name no pair of the box.
    BadMask,
    /// An upper end of the box needs more digits than its axis has.
    BoxOutsideMask,
    /// A field is none.
    BadField,
    /// The template is not in the grammar of names.
    BadTemplate,
    /// The template has no room for the number of the last file.
    TemplateTooSmall,
    /// The time is not in the grammar of names, or its steps are not in order.
    BadTime,
    /// A limit is passed.
    OverLimit,
    /// There was not enough memory.
    NoMemory,
}
