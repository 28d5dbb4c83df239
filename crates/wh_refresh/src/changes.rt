//! What changes of its sources make of the rows of a dynamic table.
ghost use Rattle.std.specs.Prelude.{◌≡◌, ◌≤◌, ◌++◌, [], ℕ, List, map, true, Some};
ghost use Rattle.std.specs.Prelude.{Contains, IfOk, OnOk};
ghost use Rattle.std.specs.FinMap.{values};
ghost use Rattle.wh_fetch.specs.Device.{Counts};
ghost use Rattle.wh_meaning.specs.Bag as bags;
ghost use Rattle.wh_meaning.specs.Bag.{bag_of};
ghost use Rattle.wh_meaning.specs.BagChange.{IsNet, IsChanged};
ghost use Rattle.wh_meaning.specs.Query.{eval};
ghost use Rattle.wh_algebra.specs.View.{query_of as plain_query_of};
ghost use Rattle.wh_algebra.specs.Tuple.{rows_in};
ghost use Rattle.wh_part.specs.View.{numbered_of};
ghost use Rattle.wh_filed.specs.Fetching.{AllShownBy, AllCovered};
ghost use Rattle.wh_filed.specs.Asking.{AsksFor};
ghost use Rattle.wh_state.specs.Bound.{query_bound};
ghost use Rattle.wh_state.specs.State.{last_rows};
ghost use Rattle.wh_state.specs.Moments.{instance_at, evaluated_at};
ghost use Rattle.wh_state.specs.Stored.{table_meant};
ghost use Rattle.wh_dynamic.specs.View.{dynamic_of};
ghost use Rattle.wh_maintenance.specs.Delta.{linear};
ghost use Rattle.wh_delta.specs.Found.{FindsNet};
ghost use Rattle.wh_table.specs.Rows.{rows_only, all_rows, partitions_at};
ghost use Rattle.wh_table.specs.Table.{table_of, filed_of};
ghost use Rattle.wh_machine.specs.Refresh as machine;
ghost use Rattle.wh_machine.specs.Brought.{after_all, AreAbove};
ghost use Rattle.wh_refresh.specs.Objects.{objects_in, stored_in, filed_at_objects};
ghost use Rattle.wh_refresh.specs.Brought.{AreBrought};
ghost use Rattle.wh_refresh.specs.Rebased.{IsRebased};
ghost use Rattle.wh_refresh.specs.Asked.{ids_of, IsFiledIn, AsksByMoves, AsksOfChange};

use crate::brought::Brought;
use crate::evaluation::bound;
use crate::going::going;
use crate::moving::{some_brought, sources_moved};
use crate::rebase::{Rebased, rebase};
use crate::sources::{sources_held, sources_of};
use std::alloc::{AllocError, Global};
use std::thread::Threads;
use wh_algebra::{Query, Tuple};
use wh_bag::{Bag, Signed, apply};
use wh_catalog::{StoredObject, StoredTable};
use wh_delta::{delta, linear_delta};
use wh_dynamic::Dynamic;
use wh_exec::collected;
use wh_fetch::{Fetch, FetchFault};
use wh_filed::fetch_all;
use wh_group::is_linear;
use wh_part::{NumberedRow, Partition};
use wh_table::by_rows;
use wh_workers::Workers;

/// The net change of the rows of its query from the moment that it stands for to another, where
/// some of its sources were brought to that one; None where there are none then.
pub(crate) fn change_of_rows<R: Threads + Sync, F: Fetch>(
    workers: &Workers<'_, R>,
    objects: &[&StoredObject],
    before: &[Brought],
    moment: u64,
    dynamic: &Dynamic,
    fetch: &mut F,
) -> Result<Option<Signed>, FetchFault>
    requires { AllCovered (F.covers fetch.old) (filed_at_objects objects.now) }
    ensures change { AllShownBy (F.contents fetch.old) (filed_at_objects objects.now)
        → IfOk result (λ found. (stamp : ℕ) (bs : List machine.Brought) (was : bags.Bag)
        → AreBrought (stored_in objects.now) before.now bs → AreAbove 0 bs
        → evaluated_at (objects_in objects.now) (dynamic_of dynamic.now).state.moment
        (dynamic_of dynamic.now) ≡ Some was
        → FindsNet was (evaluated_at (after_all stamp moment bs (objects_in objects.now)) moment
        (dynamic_of dynamic.now)) found) }
    ensures sound { AllShownBy (F.contents fetch.old) (filed_at_objects objects.now)
        → F.damage fetch.new ≡ F.damage fetch.old }
    ensures asks { linear
        (query_bound (objects_in objects.now) (dynamic_of dynamic.now).query).query ≡ true → OnOk result (AsksOfChange (IsFiledIn objects.now (ids_of before.now))
        objects.now moment (dynamic_of dynamic.now)
        (F.asked fetch.old) (F.asked fetch.new)) }
    ensures same { F.contents fetch.new ≡ F.contents fetch.old }
    ensures goes { F.stays fetch.old fetch.new }
    ensures counts { Counts (F.faults fetch.old) (F.faults fetch.new) result }
{
    let bound = bound(workers.alloc, objects, dynamic.query())?;
    let query = &bound.get().query;
    let from = dynamic.state().moment;
    if from <= moment && is_linear(query) && !some_brought(before, dynamic.reads()) {
        return change_by_moves(
            workers,
            objects,
            query,
            from,
            moment,
            dynamic.reads(),
            fetch,
        );
    }
    change_by_sources(
        workers,
        objects,
        before,
        query,
        from,
        moment,
        dynamic.reads(),
        fetch,
    )
}

// Of a linear query, none of whose sources is brought: from what came in them and what went.
fn change_by_moves<R: Threads + Sync, F: Fetch>(
    workers: &Workers<'_, R>,
    objects: &[&StoredObject],
    query: &Query,
    from: u64,
    to: u64,
    ids: &[u32],
    fetch: &mut F,
) -> Result<Option<Signed>, FetchFault>
    requires covered { AllCovered (F.covers fetch.old) (filed_at_objects objects.now) }
    requires order { from ≤ to }
    requires linear { linear (plain_query_of query.now) ≡ true }
    ensures change { AllShownBy (F.contents fetch.old) (filed_at_objects objects.now)
        → IfOk result (λ found. (was : bags.Bag)
        → eval (plain_query_of query.now) (instance_at (objects_in objects.now) from ids.now)
        ≡ Some was → FindsNet was
        (eval (plain_query_of query.now) (instance_at (objects_in objects.now) to ids.now)) found) }
    ensures sound { AllShownBy (F.contents fetch.old) (filed_at_objects objects.now)
        → F.damage fetch.new ≡ F.damage fetch.old }
    ensures asks { OnOk result (AsksByMoves (IsFiledIn objects.now [])
        objects.now from to ids.now (plain_query_of query.now)
        (F.asked fetch.old) (F.asked fetch.new)) }
    ensures same { F.contents fetch.new ≡ F.contents fetch.old }
    ensures goes { F.stays fetch.old fetch.new }
    ensures counts { Counts (F.faults fetch.old) (F.faults fetch.new) result }
{
    let alloc = workers.alloc;
    let moved = sources_moved(alloc, objects, from, to, ids)?;
    let came = sources_of(alloc, &moved.came)?;
    let went = sources_of(alloc, &moved.went)?;
    linear_delta(workers, query, &came, &went, fetch)
}

// Of any other query: from what its sources held before and what they hold now.
fn change_by_sources<R: Threads + Sync, F: Fetch>(
    workers: &Workers<'_, R>,
    objects: &[&StoredObject],
    before: &[Brought],
    query: &Query,
    from: u64,
    to: u64,
    ids: &[u32],
    fetch: &mut F,
) -> Result<Option<Signed>, FetchFault>
    requires { AllCovered (F.covers fetch.old) (filed_at_objects objects.now) }
    ensures change { AllShownBy (F.contents fetch.old) (filed_at_objects objects.now)
        → IfOk result (λ found. (stamp : ℕ) (bs : List machine.Brought) (was : bags.Bag)
        → AreBrought (stored_in objects.now) before.now bs → AreAbove 0 bs
        → eval (plain_query_of query.now) (instance_at (objects_in objects.now) from ids.now)
        ≡ Some was → FindsNet was (eval (plain_query_of query.now)
        (instance_at (after_all stamp to bs (objects_in objects.now)) to ids.now)) found) }
    ensures sound { AllShownBy (F.contents fetch.old) (filed_at_objects objects.now)
        → F.damage fetch.new ≡ F.damage fetch.old }
    ensures asks { linear (plain_query_of query.now) ≡ true → OnOk result
        (AsksByMoves (IsFiledIn objects.now (ids_of before.now))
        objects.now from to ids.now (plain_query_of query.now)
        (F.asked fetch.old) (F.asked fetch.new)) }
    ensures same { F.contents fetch.new ≡ F.contents fetch.old }
    ensures goes { F.stays fetch.old fetch.new }
    ensures counts { Counts (F.faults fetch.old) (F.faults fetch.new) result }
{
    let alloc = workers.alloc;
    let stood = sources_held(alloc, objects, &[], from, ids)?;
    let held = sources_held(alloc, objects, before, to, ids)?;
    let old = sources_of(alloc, &stood)?;
    let new = sources_of(alloc, &held)?;
    delta(workers, query, &old, &new, fetch)
}

/// The edits that a net change makes of a table's rows.
pub(crate) fn rebased_with<F: Fetch>(
    alloc: Global,
    table: &StoredTable,
    change: &Signed,
    fetch: &mut F,
) -> Result<Rebased, FetchFault>
    requires { AllCovered (F.covers fetch.old) (filed_of table.now) }
    ensures rebased { AllShownBy (F.contents fetch.old) (filed_of table.now)
        → IfOk result (λ r. (new : bags.Bag)
        → IsNet (bag_of (values (last_rows (table_meant (table_of table.now))))) new
        change.now.plus change.now.minus
        → IsRebased r (last_rows (table_meant (table_of table.now))) new) }
    ensures sound { AllShownBy (F.contents fetch.old) (filed_of table.now)
        → F.damage fetch.new ≡ F.damage fetch.old }
    ensures asks { OnOk result (AsksFor (Contains (filed_of table.now))
        (F.asked fetch.old) (F.asked fetch.new)) }
    ensures same { F.contents fetch.new ≡ F.contents fetch.old }
    ensures goes { F.stays fetch.old fetch.new }
    ensures counts { Counts (F.faults fetch.old) (F.faults fetch.new) result }
{
    let going = going(alloc, table, change)?;
    let old = fetch_all(alloc, &going, fetch)?;
    let sorted = by_rows(alloc, &old, &[])?;
    let rows = counted(alloc, &sorted)?;
    let left = applied(alloc, &rows, change)?;
    let found = rebase(alloc, &sorted, &left)?;
    Ok(found)
}

// Over a sound file each row that goes is there.
fn applied(alloc: Global, rows: &Bag, change: &Signed) -> Result<Bag, AllocError>
    ensures { IfOk result (IsChanged rows.now change.now.plus change.now.minus) }
{
    apply(alloc, rows, change).map_err(|_| AllocError)
}

// The bag of their rows.
fn counted(alloc: Global, partitions: &[&Partition]) -> Result<Bag, AllocError>
    ensures { IfOk result
        (λ bag. bag ≡ bag_of (rows_only (all_rows (partitions_at partitions.now)))) }
{
    let mut tuples = Vec::new(alloc);
    for partition in partitions {
        lend(&mut tuples, partition.rows())?;
    }
    collected(alloc, tuples)
}

fn lend<'a>(tuples: &mut Vec<Tuple<'a>>, rows: &'a [NumberedRow]) -> Result<(), AllocError>
    ensures { OnOk result (rows_in tuples.new.items
        ≡ rows_in tuples.old.items ++ rows_only (map numbered_of rows.now)) }
{
    for numbered in rows {
        tuples.push(Tuple::Kept(&numbered.row))?;
    }
    Ok(())
}
