use idx_names::TimeTemplate;

/// The steps of a dataset.
#[derive(Debug, Drop)]
pub struct Steps {
    /// The number of the first step.
    pub first: u64,
    /// The number of the last step.
    pub last: u64,
    /// The template of the names of the steps' folders.
    pub template: TimeTemplate,
}
