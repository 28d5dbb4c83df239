ghost use Rattle.std.specs.Prelude.{◌≡◌, [], option_map, IfOk};
ghost use Rattle.wh_fetch.specs.Device.{Counts};
ghost use Rattle.wh_fetch.specs.DiskFetch.{told_of, faults_of, damage_of, IsRight, GoesOn};
ghost use Rattle.wh_meaning.specs.Query.{eval};
ghost use Rattle.wh_meaning.specs.Listing.{listed};
ghost use Rattle.wh_algebra.specs.View.{query_of};
ghost use Rattle.wh_listing.specs.View.{keys_of};
ghost use Rattle.wh_exec.specs.Source.{filed_in, instance_in};
ghost use Rattle.wh_machine.specs.Reading.{instance_read, start_in};
ghost use Rattle.wh_machine.specs.Statements.{selects};
ghost use Rattle.wh_ddl_bind.specs.View.{select_of};
ghost use Rattle.wh_plan.specs.Rows.{rows_found};
ghost use Rattle.wh_decide.specs.Sight.{machine_in, IsShown, Comes, IsReady};
ghost use Rattle.wh_decide.specs.Asked.{AsksForMoved};

use crate::decision::{Decision, Settlement};
use crate::reading::sources_refusal;
use crate::sight::Sight;
use crate::sources::{are_streams, sources_of, sources_seen};
use std::alloc::{AllocError, Global};
use std::thread::Threads;
use wh_bind::BoundSelect;
use wh_exec::Source;
use wh_fetch::{DiskFetch, FetchFault, MemFetch};
use wh_plan::answered_in_order;
use wh_reply::{Refusal, Reply};
use wh_value::{Row, Text};
use wh_workers::Workers;
use wh_world::Disk;

// What a SELECT comes to that nothing is found wrong with, over what the session sees. It makes no
// commit.
#[tactic(auto, using(wh_fetch::specs::DiskFetch::goes_on, wh_fetch::specs::DiskFetch::goes_none))]
pub(crate) fn select<R: Threads + Sync, D: Disk>(
    workers: &Workers<'_, R>,
    sight: &Sight<'_>,
    bound: &BoundSelect,
    fetch: &mut DiskFetch<D>,
) -> Result<Decision, FetchFault>
    requires { IsRight D.Disk fetch.old }
    ensures comes { IsShown (told_of D.Disk fetch.old) sight.now
        → IfOk result (λ decision. Comes sight.now decision
        (selects (machine_in sight.now) sight.now.session (select_of bound.now))) }
    ensures ready { IfOk result (λ decision. IsReady sight.now decision) }
    ensures asks { AsksForMoved sight.now.catalog.now
        (start_in (machine_in sight.now) sight.now.session) bound.now.sources.items
        fetch.old.asked.items fetch.new.asked.items }
    ensures sound { IsShown (told_of D.Disk fetch.old) sight.now
        → damage_of fetch.new ≡ damage_of fetch.old }
    ensures same { told_of D.Disk fetch.new ≡ told_of D.Disk fetch.old }
    ensures goes { GoesOn D.Disk fetch.old fetch.new }
    ensures counts { Counts (faults_of D.Disk fetch.old) (faults_of D.Disk fetch.new) result }
{
    if let Some(why) = sources_refusal(workers.alloc, sight, bound.is_wide, &bound.sources)? {
        return Ok(Decision::Refuse(why));
    }
    let Some(rows) = listed_rows(workers, sight, bound, fetch)? else {
        return Ok(Decision::Refuse(Refusal::NumberOutOfRange));
    };
    let names = copies(workers.alloc, &bound.names)?;
    Ok(Decision::Do {
        reply: Reply::Listing { names, rows },
        settlement: Settlement::Answers,
    })
}

// Its rows in order, or None where they are undefined.
#[tactic(auto, using(wh_fetch::specs::DiskFetch::goes_on, wh_fetch::specs::DiskFetch::goes_none))]
fn listed_rows<R: Threads + Sync, D: Disk>(
    workers: &Workers<'_, R>,
    sight: &Sight<'_>,
    bound: &BoundSelect,
    fetch: &mut DiskFetch<D>,
) -> Result<Option<Vec<Row>>, FetchFault>
    requires { IsRight D.Disk fetch.old }
    ensures listed { IsShown (told_of D.Disk fetch.old) sight.now
        → IfOk result (λ found. rows_found found
        ≡ option_map (listed (keys_of bound.now.keys.items)) (eval (query_of bound.now.query)
        (instance_read (machine_in sight.now) sight.now.session bound.now.sources.items))) }
    ensures asks { AsksForMoved sight.now.catalog.now
        (start_in (machine_in sight.now) sight.now.session) bound.now.sources.items
        fetch.old.asked.items fetch.new.asked.items }
    ensures sound { IsShown (told_of D.Disk fetch.old) sight.now
        → damage_of fetch.new ≡ damage_of fetch.old }
    ensures same { told_of D.Disk fetch.new ≡ told_of D.Disk fetch.old }
    ensures goes { GoesOn D.Disk fetch.old fetch.new }
    ensures counts { Counts (faults_of D.Disk fetch.old) (faults_of D.Disk fetch.new) result }
{
    let seen = sources_seen(workers.alloc, sight, &bound.sources, fetch)?;
    let sources = sources_of(workers.alloc, &seen)?;
    if are_streams(&seen) {
        let rows = listed_at_hand(workers, bound, &sources)?;
        return Ok(rows);
    }
    answered_in_order(workers, &bound.query, &bound.keys, &sources, fetch)
}

// Over rows at hand alone, for which no partition is asked.
fn listed_at_hand<R: Threads + Sync>(
    workers: &Workers<'_, R>,
    bound: &BoundSelect,
    sources: &[Source<'_>],
) -> Result<Option<Vec<Row>>, AllocError>
    requires { filed_in sources.now ≡ [] }
    ensures { IfOk result (λ found. rows_found found
        ≡ option_map (listed (keys_of bound.now.keys.items))
        (eval (query_of bound.now.query) (instance_in sources.now))) }
{
    let mut nothing = MemFetch::new(workers.alloc, Vec::new(workers.alloc))?;
    let answer = answered_in_order(workers, &bound.query, &bound.keys, sources, &mut nothing);
    let Ok(rows) = answer else {
        return Err(AllocError);
    };
    Ok(rows)
}

fn copies(alloc: Global, names: &[Text]) -> Result<Vec<Text>, AllocError>
    ensures { IfOk result (λ copies. copies.items ≡ names.now) }
{
    let mut copies = Vec::new(alloc);
    for name in names {
        copies.push(name.copy(alloc)?)?;
    }
    Ok(copies)
}
