//! The edits that bring a dynamic table to the rows of its query for a moment.
ghost use Rattle.std.specs.Prelude.{◌≡◌, ◌<◌, ℕ, List, true, IfOk, OnOk};
ghost use Rattle.wh_fetch.specs.Device.{Counts};
ghost use Rattle.wh_filed.specs.Fetching.{AllShownBy, AllCovered};
ghost use Rattle.wh_reply.specs.declared.reply.RefreshAction.TheVariants.{Incremental};
ghost use Rattle.wh_maintenance.specs.Delta.{linear};
ghost use Rattle.wh_state.specs.Bound.{query_bound};
ghost use Rattle.wh_state.specs.State.{last_rows};
ghost use Rattle.wh_state.specs.Moments.{evaluated_at};
ghost use Rattle.wh_state.specs.Stored.{table_meant};
ghost use Rattle.wh_dynamic.specs.View.{dynamic_of};
ghost use Rattle.wh_table.specs.Table.{table_of, filed_of};
ghost use Rattle.wh_machine.specs.Refresh as machine;
ghost use Rattle.wh_machine.specs.Brought.{after_all, AreAbove};
ghost use Rattle.wh_refresh.specs.Objects.{objects_in, stored_in, filed_at_objects};
ghost use Rattle.wh_refresh.specs.Brought.{AreBrought, HoldsBehind};
ghost use Rattle.wh_refresh.specs.Rebased.{IsRebased, RebasesTo, RegroupsTo};
ghost use Rattle.wh_refresh.specs.Standing.{HasItsRows, StandsBy};
ghost use Rattle.wh_refresh.specs.Asked.{Besides, IsCounted, AsksOfChange};

use crate::brought::Brought;
use crate::changes::{change_of_rows, rebased_with};
use crate::evaluation::evaluated;
use crate::groups::rebased_by_groups;
use crate::rebase::{Rebased, rebase};
use crate::sources::{sources_held, sources_of};
use std::alloc::Global;
use std::thread::Threads;
use wh_bag::Bag;
use wh_catalog::{StoredObject, StoredTable};
use wh_dynamic::{Dynamic, GroupsChange};
use wh_fetch::{Fetch, FetchFault};
use wh_filed::fetch_all;
use wh_reply::RefreshAction;
use wh_table::by_rows;
use wh_workers::Workers;

/// The edits of a table's rows, and what becomes of its groups, where they are kept.
#[derive(Debug, Drop)]
pub(crate) struct Regrouped {
    pub rebased: Rebased,
    pub groups: Option<GroupsChange>,
}

/// By its action; None where its query is undefined. One that is brought by a change has the rows
/// of its query for the moment that it stands for.
pub(crate) fn rebased_by<R: Threads + Sync, F: Fetch>(
    workers: &Workers<'_, R>,
    objects: &[&StoredObject],
    before: &[Brought],
    moment: u64,
    dynamic: &Dynamic,
    table: &StoredTable,
    action: RefreshAction,
    fetch: &mut F,
) -> Result<Option<Regrouped>, FetchFault>
    requires objects { AllCovered (F.covers fetch.old) (filed_at_objects objects.now) }
    requires own { AllCovered (F.covers fetch.old) (filed_of table.now) }
    ensures rebased { AllShownBy (F.contents fetch.old) (filed_at_objects objects.now)
        → AllShownBy (F.contents fetch.old) (filed_of table.now)
        → StandsBy action (objects_in objects.now) (dynamic_of dynamic.now)
        (table_meant (table_of table.now))
        → IfOk result (λ found. HoldsBehind objects.now before.now moment (λ now.
        RegroupsTo found (table_of table.now) now moment (dynamic_of dynamic.now))) }
    ensures sound { AllShownBy (F.contents fetch.old) (filed_at_objects objects.now)
        → AllShownBy (F.contents fetch.old) (filed_of table.now)
        → F.damage fetch.new ≡ F.damage fetch.old }
    ensures asks { action ≡ Incremental → 0 < (dynamic_of dynamic.now).state.moment
        → IsCounted objects.now (dynamic_of dynamic.now) → OnOk result
        (AsksOfChange (Besides objects.now before.now (filed_of table.now))
        objects.now moment (dynamic_of dynamic.now)
        (F.asked fetch.old) (F.asked fetch.new)) }
    ensures same { F.contents fetch.new ≡ F.contents fetch.old }
    ensures goes { F.stays fetch.old fetch.new }
    ensures counts { Counts (F.faults fetch.old) (F.faults fetch.new) result }
{
    if let Some(kept) = dynamic.kept() {
        return rebased_by_groups(
            workers, objects, before, moment, dynamic, kept, table, fetch,
        );
    }
    let found = rebased_by_action(
        workers, objects, before, moment, dynamic, table, action, fetch,
    )?;
    let Some(rebased) = found else {
        return Ok(None);
    };
    Ok(Some(Regrouped {
        rebased,
        groups: None,
    }))
}

// By its rows alone.
fn rebased_by_action<R: Threads + Sync, F: Fetch>(
    workers: &Workers<'_, R>,
    objects: &[&StoredObject],
    before: &[Brought],
    moment: u64,
    dynamic: &Dynamic,
    table: &StoredTable,
    action: RefreshAction,
    fetch: &mut F,
) -> Result<Option<Rebased>, FetchFault>
    requires objects { AllCovered (F.covers fetch.old) (filed_at_objects objects.now) }
    requires own { AllCovered (F.covers fetch.old) (filed_of table.now) }
    ensures rebased { AllShownBy (F.contents fetch.old) (filed_at_objects objects.now)
        → AllShownBy (F.contents fetch.old) (filed_of table.now)
        → (action ≡ Incremental → HasItsRows (objects_in objects.now) (dynamic_of dynamic.now)
        (table_meant (table_of table.now)))
        → IfOk result (λ found. HoldsBehind objects.now before.now moment (λ now.
        RebasesTo (last_rows (table_meant (table_of table.now)))
        (evaluated_at now moment (dynamic_of dynamic.now)) found)) }
    ensures sound { AllShownBy (F.contents fetch.old) (filed_at_objects objects.now)
        → AllShownBy (F.contents fetch.old) (filed_of table.now)
        → F.damage fetch.new ≡ F.damage fetch.old }
    ensures asks { action ≡ Incremental
        → linear (query_bound (objects_in objects.now) (dynamic_of dynamic.now).query).query
        ≡ true → OnOk result
        (AsksOfChange (Besides objects.now before.now (filed_of table.now))
        objects.now moment (dynamic_of dynamic.now)
        (F.asked fetch.old) (F.asked fetch.new)) }
    ensures same { F.contents fetch.new ≡ F.contents fetch.old }
    ensures goes { F.stays fetch.old fetch.new }
    ensures counts { Counts (F.faults fetch.old) (F.faults fetch.new) result }
{
    match action {
        RefreshAction::Incremental => {
            rebased_by_change(workers, objects, before, moment, dynamic, table, fetch)
        }
        RefreshAction::Full | RefreshAction::NoData => {
            rebased_by_query(workers, objects, before, moment, dynamic, table, fetch)
        }
    }
}

// From what its query gives.
fn rebased_by_query<R: Threads + Sync, F: Fetch>(
    workers: &Workers<'_, R>,
    objects: &[&StoredObject],
    before: &[Brought],
    moment: u64,
    dynamic: &Dynamic,
    table: &StoredTable,
    fetch: &mut F,
) -> Result<Option<Rebased>, FetchFault>
    requires objects { AllCovered (F.covers fetch.old) (filed_at_objects objects.now) }
    requires own { AllCovered (F.covers fetch.old) (filed_of table.now) }
    ensures rebased { AllShownBy (F.contents fetch.old) (filed_at_objects objects.now)
        → AllShownBy (F.contents fetch.old) (filed_of table.now)
        → IfOk result (λ found. (stamp : ℕ) (bs : List machine.Brought)
        → AreBrought (stored_in objects.now) before.now bs → AreAbove 0 bs
        → RebasesTo (last_rows (table_meant (table_of table.now)))
        (evaluated_at (after_all stamp moment bs (objects_in objects.now)) moment
        (dynamic_of dynamic.now)) found) }
    ensures sound { AllShownBy (F.contents fetch.old) (filed_at_objects objects.now)
        → AllShownBy (F.contents fetch.old) (filed_of table.now)
        → F.damage fetch.new ≡ F.damage fetch.old }
    ensures same { F.contents fetch.new ≡ F.contents fetch.old }
    ensures goes { F.stays fetch.old fetch.new }
    ensures counts { Counts (F.faults fetch.old) (F.faults fetch.new) result }
{
    let Some(rows) = rows_by_query(workers, objects, before, moment, dynamic, fetch)? else {
        return Ok(None);
    };
    let rebased = rebased(workers.alloc, table, rows, fetch)?;
    Ok(Some(rebased))
}

// From what came and went in its sources since the moment for which it has the rows of its query.
fn rebased_by_change<R: Threads + Sync, F: Fetch>(
    workers: &Workers<'_, R>,
    objects: &[&StoredObject],
    before: &[Brought],
    moment: u64,
    dynamic: &Dynamic,
    table: &StoredTable,
    fetch: &mut F,
) -> Result<Option<Rebased>, FetchFault>
    requires objects { AllCovered (F.covers fetch.old) (filed_at_objects objects.now) }
    requires own { AllCovered (F.covers fetch.old) (filed_of table.now) }
    ensures rebased { AllShownBy (F.contents fetch.old) (filed_at_objects objects.now)
        → AllShownBy (F.contents fetch.old) (filed_of table.now)
        → HasItsRows (objects_in objects.now) (dynamic_of dynamic.now)
        (table_meant (table_of table.now))
        → IfOk result (λ found. (stamp : ℕ) (bs : List machine.Brought)
        → AreBrought (stored_in objects.now) before.now bs → AreAbove 0 bs
        → RebasesTo (last_rows (table_meant (table_of table.now)))
        (evaluated_at (after_all stamp moment bs (objects_in objects.now)) moment
        (dynamic_of dynamic.now)) found) }
    ensures sound { AllShownBy (F.contents fetch.old) (filed_at_objects objects.now)
        → AllShownBy (F.contents fetch.old) (filed_of table.now)
        → F.damage fetch.new ≡ F.damage fetch.old }
    ensures asks { linear
        (query_bound (objects_in objects.now) (dynamic_of dynamic.now).query).query ≡ true → OnOk result
        (AsksOfChange (Besides objects.now before.now (filed_of table.now))
        objects.now moment (dynamic_of dynamic.now)
        (F.asked fetch.old) (F.asked fetch.new)) }
    ensures same { F.contents fetch.new ≡ F.contents fetch.old }
    ensures goes { F.stays fetch.old fetch.new }
    ensures counts { Counts (F.faults fetch.old) (F.faults fetch.new) result }
{
    let Some(change) = change_of_rows(workers, objects, before, moment, dynamic, fetch)? else {
        return Ok(None);
    };
    let rebased = rebased_with(workers.alloc, table, &change, fetch)?;
    Ok(Some(rebased))
}

// What its query gives, or None where that is undefined.
fn rows_by_query<R: Threads + Sync, F: Fetch>(
    workers: &Workers<'_, R>,
    objects: &[&StoredObject],
    before: &[Brought],
    moment: u64,
    dynamic: &Dynamic,
    fetch: &mut F,
) -> Result<Option<Bag>, FetchFault>
    requires { AllCovered (F.covers fetch.old) (filed_at_objects objects.now) }
    ensures evaluated { AllShownBy (F.contents fetch.old) (filed_at_objects objects.now)
        → IfOk result (λ found. (stamp : ℕ) (bs : List machine.Brought)
        → AreBrought (stored_in objects.now) before.now bs → AreAbove 0 bs
        → found ≡ evaluated_at (after_all stamp moment bs (objects_in objects.now)) moment
        (dynamic_of dynamic.now)) }
    ensures sound { AllShownBy (F.contents fetch.old) (filed_at_objects objects.now)
        → F.damage fetch.new ≡ F.damage fetch.old }
    ensures same { F.contents fetch.new ≡ F.contents fetch.old }
    ensures goes { F.stays fetch.old fetch.new }
    ensures counts { Counts (F.faults fetch.old) (F.faults fetch.new) result }
{
    let held = sources_held(workers.alloc, objects, before, moment, dynamic.reads())?;
    let sources = sources_of(workers.alloc, &held)?;
    evaluated(workers, objects, dynamic.query(), &sources, fetch)
}

/// The edits that bring the rows of a table to these. Its partitions are given back.
pub(crate) fn rebased<F: Fetch>(
    alloc: Global,
    table: &StoredTable,
    rows: Bag,
    fetch: &mut F,
) -> Result<Rebased, FetchFault>
    requires { AllCovered (F.covers fetch.old) (filed_of table.now) }
    ensures rebased { AllShownBy (F.contents fetch.old) (filed_of table.now)
        → IfOk result (λ r. IsRebased r (last_rows (table_meant (table_of table.now))) rows) }
    ensures sound { AllShownBy (F.contents fetch.old) (filed_of table.now)
        → F.damage fetch.new ≡ F.damage fetch.old }
    ensures same { F.contents fetch.new ≡ F.contents fetch.old }
    ensures goes { F.stays fetch.old fetch.new }
    ensures counts { Counts (F.faults fetch.old) (F.faults fetch.new) result }
{
    let standing = table.standing(alloc)?;
    let old = fetch_all(alloc, &standing, fetch)?;
    let sorted = by_rows(alloc, &old, &[])?;
    let found = rebase(alloc, &sorted, &rows)?;
    Ok(found)
}
