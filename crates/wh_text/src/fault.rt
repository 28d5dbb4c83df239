/// Why no line could be read.
#[derive(Clone, Copy, Debug, PartialEq, Eq)]
pub enum ScriptFault {
    OutOfMemory,
    /// The source failed.
    Read,
    /// More than 2^30 bytes were taken: `taken` is their number.
    TooLong { taken: u64 },
}
