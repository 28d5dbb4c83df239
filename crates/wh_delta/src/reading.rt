//! What queries give over sources whose partitions are read.
ghost use Rattle.std.specs.Prelude.{◌≡◌, IfOk, OnOk};
ghost use Rattle.wh_fetch.specs.Device.{Counts};
ghost use Rattle.wh_filed.specs.Fetching.{AllShownBy, AllCovered};
ghost use Rattle.wh_filed.specs.Asking.{AsksAmong};
ghost use Rattle.wh_meaning.specs.Query.{eval};
ghost use Rattle.wh_algebra.specs.View.{query_of};
ghost use Rattle.wh_exec.specs.Source.{instance_in, filed_in};
ghost use Rattle.wh_maintenance.specs.Carried.{sided};
ghost use Rattle.wh_exec.specs.Asked.{filed_by, asked_for};
ghost use Rattle.wh_delta.specs.Asked.{asked_over};
ghost use Rattle.wh_delta.specs.Moves.{rows_bag, NetsTo};

use crate::at_hand::rows_found;
use crate::moves::Moves;
use crate::staying::netted;
use std::thread::Threads;
use wh_algebra::Query;
use wh_exec::Source;
use wh_fetch::{Fetch, FetchFault};
use wh_plan::answered;
use wh_value::Row;
use wh_workers::Workers;

/// The net of what the query gives over rows that come, and over rows that go; None where it is
/// undefined over one of them.
pub(crate) fn net_over<R: Threads + Sync, F: Fetch>(
    workers: &Workers<'_, R>,
    query: &Query,
    comes: &[Source<'_>],
    goes: &[Source<'_>],
    fetch: &mut F,
) -> Result<Option<Moves>, FetchFault>
    requires comes { AllCovered (F.covers fetch.old) (filed_in comes.now) }
    requires goes { AllCovered (F.covers fetch.old) (filed_in goes.now) }
    ensures net { AllShownBy (F.contents fetch.old) (filed_in comes.now)
        → AllShownBy (F.contents fetch.old) (filed_in goes.now)
        → IfOk result (NetsTo (sided (eval (query_of query.now) (instance_in comes.now))
        (eval (query_of query.now) (instance_in goes.now)))) }
    ensures sound { AllShownBy (F.contents fetch.old) (filed_in comes.now)
        → AllShownBy (F.contents fetch.old) (filed_in goes.now)
        → F.damage fetch.new ≡ F.damage fetch.old }
    ensures asks { OnOk result (AsksAmong (asked_over (query_of query.now) comes.now goes.now)
        (F.asked fetch.old) (F.asked fetch.new)) }
    ensures same { F.contents fetch.new ≡ F.contents fetch.old }
    ensures goes { F.stays fetch.old fetch.new }
    ensures counts { Counts (F.faults fetch.old) (F.faults fetch.new) result }
{
    let Some(comes) = rows_of(workers, query, comes, fetch)? else {
        return Ok(None);
    };
    let Some(goes) = rows_of(workers, query, goes, fetch)? else {
        return Ok(None);
    };
    let net = netted(workers.alloc, Moves { comes, goes })?;
    Ok(Some(net))
}

/// The rows of a query; None where they are undefined.
pub(crate) fn rows_of<R: Threads + Sync, F: Fetch>(
    workers: &Workers<'_, R>,
    query: &Query,
    sources: &[Source<'_>],
    fetch: &mut F,
) -> Result<Option<Vec<Row>>, FetchFault>
    requires { AllCovered (F.covers fetch.old) (filed_in sources.now) }
    ensures rows { AllShownBy (F.contents fetch.old) (filed_in sources.now) → IfOk result
        (λ found. rows_bag found ≡ eval (query_of query.now) (instance_in sources.now)) }
    ensures sound { AllShownBy (F.contents fetch.old) (filed_in sources.now)
        → F.damage fetch.new ≡ F.damage fetch.old }
    ensures asks { OnOk result (AsksAmong (asked_for (query_of query.now) (filed_by sources.now))
        (F.asked fetch.old) (F.asked fetch.new)) }
    ensures same { F.contents fetch.new ≡ F.contents fetch.old }
    ensures goes { F.stays fetch.old fetch.new }
    ensures counts { Counts (F.faults fetch.old) (F.faults fetch.new) result }
{
    let found = answered(workers, query, sources, fetch)?;
    Ok(rows_found(workers.alloc, found)?)
}
