/// A call of a bay that can count a fault.
#[derive(Clone, Copy, Debug, PartialEq, Eq)]
pub enum BayCall {
    /// `Bay::header`.
    Header,
    /// `Bay::set_header`.
    SetHeader,
    /// `Bay::has_step`.
    HasStep,
    /// `Bay::begin_step`.
    BeginStep,
    /// `Bay::create`.
    Create,
    /// `Bay::leaf`.
    Leaf,
    /// `Bay::commit`.
    Commit,
    /// `Bay::retire`, of a draft that has counted a fault.
    Retire,
}
