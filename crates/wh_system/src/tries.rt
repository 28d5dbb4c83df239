ghost use Rattle.wh_system.specs.Attempt.{ErrorOutcome, ReadOutcome, WriteOutcome};

use std::io;
use std::io::ErrorKind;
use wh_world::Failed;

/// How often a call is tried that signals cut into.
pub(crate) const TRIES: u32 = 1000;

/// What one try of a read came to, and nothing where a signal cut in. The end of the input is no
/// failure.
pub(crate) fn read_outcome(tried: io::Result<usize>) -> Option<Result<usize, Failed>>
    ensures { ReadOutcome tried result }
{
    match tried {
        Ok(count) => Some(Ok(count)),
        Err(error) => failure(error),
    }
}

/// What one try of a write came to, and nothing where a signal cut in. A count of 0 is a failure:
/// nothing more would be taken.
pub(crate) fn write_outcome(tried: io::Result<usize>) -> Option<Result<usize, Failed>>
    ensures { WriteOutcome tried result }
{
    match tried {
        Ok(0) => Some(Err(Failed)),
        Ok(count) => Some(Ok(count)),
        Err(error) => failure(error),
    }
}

fn failure(error: io::Error) -> Option<Result<usize, Failed>>
    ensures { ErrorOutcome error result }
{
    if error.kind() == ErrorKind::Interrupted {
        None
    } else {
        Some(Err(Failed))
    }
}
