ghost use Rattle.std.specs.Prelude.{◌≡◌, ◌∷◌};
ghost use Rattle.wh_version.specs.Times.{is_up_to, last_place};

use crate::VersionMark;

/// One of a version's two times.
#[derive(Clone, Copy, Debug, PartialEq, Eq)]
pub(crate) enum Time {
    Stamp,
    Data,
}

/// The place of the last of marks whose time is at most the limit.
pub(crate) fn last_place(
    first: VersionMark,
    later: &[VersionMark],
    time: Time,
    limit: u64,
) -> Option<usize>
    ensures { result ≡ last_place (is_up_to time limit) (first ∷ later.now) }
{
    let count = later.len();
    for done in 0..count {
        let place = count - done;
        if is_up_to(later[place - 1], time, limit) {
            return Some(place);
        }
    }
    if is_up_to(first, time, limit) {
        return Some(0);
    }
    None
}

fn is_up_to(mark: VersionMark, time: Time, limit: u64) -> bool
    ensures { result ≡ is_up_to time limit mark }
{
    match time {
        Time::Stamp => mark.stamp <= limit,
        Time::Data => mark.data_timestamp <= limit,
    }
}
