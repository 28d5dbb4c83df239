ghost use Rattle.std.specs.Prelude.{◌≡◌, option_map};
ghost use Rattle.wh_net.specs.Stream.{stale_by};

use wh_value::DAYS_OF_CHANGES;

/// A stream's offset that lies too far back to be read, and the last stamp at which it was read.
#[derive(Clone, Copy, Debug, PartialEq, Eq)]
pub struct Stale {
    pub offset: u64,
    pub until: u64,
}

const MILLISECONDS_OF_A_DAY: u64 = 86_400_000;

/// An offset that lies too far behind a stamp, by the retention of the source.
pub(crate) fn stale_by(retention: u8, offset: u64, stamp: u64) -> Option<Stale>
    ensures { option_map (λ stale. (stale.offset, stale.until)) result
        ≡ stale_by retention offset stamp }
{
    let kept = retention.max(DAYS_OF_CHANGES) as u64 * MILLISECONDS_OF_A_DAY;
    // A sum past the greatest stamp has no stamp behind it.
    let until = offset.checked_add(kept)?;
    if until < stamp {
        return Some(Stale { offset, until });
    }
    None
}
