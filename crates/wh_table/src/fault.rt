/// Why a change isn't carried out.
#[derive(Clone, Copy, Debug, PartialEq, Eq)]
pub enum StageFault {
    OutOfMemory,
    /// It doesn't apply to what stands.
    NotApplicable,
}
