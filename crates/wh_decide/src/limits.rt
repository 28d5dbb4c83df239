ghost use Rattle.std.specs.Prelude.{◌≡◌, ◌+◌, nat_lt, option_map};
ghost use Rattle.wh_value.specs.Limit.{bound};
ghost use Rattle.wh_reply.specs.View.{refusal_view};
ghost use Rattle.wh_machine.specs.Tests as machine;

use wh_reply::Refusal;
use wh_value::Limit;

pub(crate) fn refused_if(test: bool, why: Refusal) -> Option<Refusal>
    ensures { option_map refusal_view result ≡ machine.refused_if test (refusal_view why) }
{
    if test { Some(why) } else { None }
}

// Where so many, and more, are beyond a limit.
pub(crate) fn refused_past(limit: Limit, count: u64, more: u64) -> Option<Refusal>
    ensures { option_map refusal_view result ≡ machine.refused_past limit (count + more) }
{
    refused_if(is_past(limit, count, more), Refusal::OverLimit(limit))
}

fn is_past(limit: Limit, count: u64, more: u64) -> bool
    ensures { result ≡ nat_lt (bound limit) (count + more) }
{
    let most = limit.bound();
    most < count || most - count < more
}
