//! The rows of a query, by its plan.
ghost use Rattle.std.specs.Prelude.{◌≡◌, option_map, IfOk, OnOk};
ghost use Rattle.wh_fetch.specs.Device.{Counts};
ghost use Rattle.wh_filed.specs.Fetching.{AllShownBy, AllCovered};
ghost use Rattle.wh_filed.specs.Asking.{AsksAmong};
ghost use Rattle.wh_meaning.specs.Listing.{listed};
ghost use Rattle.wh_meaning.specs.Query.{eval};
ghost use Rattle.wh_algebra.specs.View.{query_of};
ghost use Rattle.wh_listing.specs.View.{keys_of};
ghost use Rattle.wh_exec.specs.Source.{bag_found, filed_in, instance_in};
ghost use Rattle.wh_exec.specs.Asked.{filed_by, asked_for};
ghost use Rattle.wh_plan.specs.Rows.{rows_found};

use crate::plan;
use std::thread::Threads;
use wh_algebra::{Query, Tuple};
use wh_exec::{Source, run};
use wh_fetch::{Fetch, FetchFault};
use wh_listing::{SortKey, listed};
use wh_value::Row;
use wh_workers::Workers;

/// The rows of a query over its sources, by its plan; None where they are undefined.
pub fn answered<'a, R: Threads + Sync, F: Fetch>(
    workers: &Workers<'_, R>,
    query: &Query,
    sources: &[Source<'_>],
    fetch: &mut F,
) -> Result<Option<Vec<Tuple<'a>>>, FetchFault>
    requires { AllCovered (F.covers fetch.old) (filed_in sources.now) }
    ensures rows { AllShownBy (F.contents fetch.old) (filed_in sources.now) → IfOk result
        (λ found. bag_found found ≡ eval (query_of query.now) (instance_in sources.now)) }
    ensures sound { AllShownBy (F.contents fetch.old) (filed_in sources.now)
        → F.damage fetch.new ≡ F.damage fetch.old }
    ensures asks { OnOk result (AsksAmong (asked_for (query_of query.now) (filed_by sources.now))
        (F.asked fetch.old) (F.asked fetch.new)) }
    ensures same { F.contents fetch.new ≡ F.contents fetch.old }
    ensures goes { F.stays fetch.old fetch.new }
    ensures counts { Counts (F.faults fetch.old) (F.faults fetch.new) result }
{
    let plan = plan(workers.alloc, query, sources)?;
    run(workers, plan.get(), sources, fetch)
}

/// Its rows in the order of keys.
pub fn answered_in_order<R: Threads + Sync, F: Fetch>(
    workers: &Workers<'_, R>,
    query: &Query,
    keys: &[SortKey],
    sources: &[Source<'_>],
    fetch: &mut F,
) -> Result<Option<Vec<Row>>, FetchFault>
    requires { AllCovered (F.covers fetch.old) (filed_in sources.now) }
    ensures rows { AllShownBy (F.contents fetch.old) (filed_in sources.now)
        → IfOk result (λ found. rows_found found ≡ option_map (listed (keys_of keys.now))
        (eval (query_of query.now) (instance_in sources.now))) }
    ensures sound { AllShownBy (F.contents fetch.old) (filed_in sources.now)
        → F.damage fetch.new ≡ F.damage fetch.old }
    ensures asks { OnOk result (AsksAmong (asked_for (query_of query.now) (filed_by sources.now))
        (F.asked fetch.old) (F.asked fetch.new)) }
    ensures same { F.contents fetch.new ≡ F.contents fetch.old }
    ensures goes { F.stays fetch.old fetch.new }
    ensures counts { Counts (F.faults fetch.old) (F.faults fetch.new) result }
{
    let Some(tuples) = answered(workers, query, sources, fetch)? else {
        return Ok(None);
    };
    let rows = listed(workers.alloc, keys, tuples)?;
    Ok(Some(rows))
}
