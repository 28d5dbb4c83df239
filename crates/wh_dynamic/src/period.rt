ghost use Rattle.std.specs.Prelude.{◌≡◌, ◌<◌, ◌^◌};
ghost use Rattle.wh_moment.specs.Moment as moments;

const LEAST_SECONDS: u64 = 48;

const MOST_DOUBLINGS: u32 = 14;

const MILLISECONDS_A_SECOND: u64 = 1000;

// How far the moments of a lag lie apart: the greatest 48 * 2^k seconds that aren't above it.
#[tactic(auto, unfolding(wh_moment::specs::Moment::period))]
fn period_of(lag: u32) -> u64
    ensures period { result ≡ moments.period lag }
    ensures positive { 0 < result }
{
    seconds_up_to(u64::from(lag)) * MILLISECONDS_A_SECOND
}

fn seconds_up_to(lag: u64) -> u64
    requires { lag < 2 ^ 32 }
    ensures seconds { result ≡ moments.doubled_up_to 14 lag 48 }
    ensures positive { 0 < result }
    ensures bounded { result < 2 ^ 33 }
{
    let mut seconds = LEAST_SECONDS;
    for _ in 0..MOST_DOUBLINGS {
        if 2 * seconds > lag {
            return seconds;
        }
        seconds = 2 * seconds;
    }
    seconds
}

/// The last moment of a lag that isn't after a stamp.
#[tactic(auto, unfolding(wh_moment::specs::Moment::grid))]
pub(crate) fn grid_point(lag: u32, stamp: u64) -> u64
    ensures { result ≡ moments.grid lag stamp }
{
    let period = period_of(lag);
    stamp / period * period
}
