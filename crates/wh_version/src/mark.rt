ghost use Rattle.std.specs.Prelude.{◌≡◌, ◌<◌, ◌∷◌, length, slice_index_or as get_or};

use crate::History;

/// A version of a table: when it was pushed, whose data it shows, and how many partitions there
/// were by then.
#[derive(Clone, Copy, Debug, PartialEq, Eq)]
pub struct VersionMark {
    pub stamp: u64,
    pub data_timestamp: u64,
    pub partitions: usize,
}

/// The last of marks, of which there is one.
pub(crate) fn last_mark(first: VersionMark, later: &[VersionMark]) -> VersionMark
    ensures { result ≡ get_or (first ∷ later.now) (length later.now) first }
{
    let count = later.len();
    if count == 0 {
        return first;
    }
    later[count - 1]
}

impl History {
    ghost use Rattle.wh_version.specs.History.{marks_of};

    /// The mark of the version at a place.
    pub(crate) fn mark(&self, place: usize) -> VersionMark
        requires { place < length (marks_of self.now) }
        ensures { result ≡ get_or (marks_of self.now) place self.now.first }
    {
        if place == 0 {
            return self.first;
        }
        self.later[place - 1]
    }
}
