//! Changes of a query whose groups are kept: its input is not read again.
ghost use Rattle.std.specs.Prelude.{◌≡◌, Some, IfOk, OnOk};
ghost use Rattle.wh_fetch.specs.Device.{Counts};
ghost use Rattle.wh_filed.specs.Fetching.{AllShownBy, AllCovered};
ghost use Rattle.wh_filed.specs.Asking.{AsksAmong};
ghost use Rattle.wh_meaning.specs.Query.{Instance};
ghost use Rattle.wh_algebra.specs.View.{query_of};
ghost use Rattle.wh_exec.specs.Source.{instance_in, filed_in};
ghost use Rattle.wh_maintenance.specs.Above as changes;
ghost use Rattle.wh_group.specs.Slots.{kept_groups};
ghost use Rattle.wh_group.specs.Updates.{change_of};
ghost use Rattle.wh_delta.specs.Moves.{turning, change_found};
ghost use Rattle.wh_delta.specs.Moved.{AreNumbered, moved_in};
ghost use Rattle.wh_delta.specs.Asked.{asked_over, asked_between};
ghost use Rattle.wh_delta.specs.Kept.{Keeps, KeepsBetween};

use crate::change::signed;
use crate::linear::{filter_moves, project_moves};
use crate::moved::{moved, sources_held};
use crate::moves::Moves;
use crate::reading::rows_of;
use std::alloc::AllocError;
use std::thread::Threads;
use wh_algebra::Query;
use wh_bag::Signed;
use wh_exec::Source;
use wh_fetch::{Fetch, FetchFault};
use wh_group::{Entry, Grouping, Groups, Updated, grouping_of, updated};
use wh_scalar::EvalFault;
use wh_value::Row;
use wh_workers::Workers;

/// What changes of a query and of its groups.
#[derive(Drop)]
pub struct KeptChange {
    /// By rising key, exactly of the groups that are changed, made or removed.
    pub entries: Vec<Entry>,
    /// The net change of the query's rows.
    pub rows: Signed,
}

/// The change of a query that is one Group over a linear query, from its groups before and from
/// what of its sources came and what of them went; None where it has no rows now.
pub fn kept_delta<R: Threads + Sync, F: Fetch>(
    workers: &Workers<'_, R>,
    query: &Query,
    groups: &Groups,
    comes: &[Source<'_>],
    goes: &[Source<'_>],
    fetch: &mut F,
) -> Result<Option<KeptChange>, FetchFault>
    requires comes { AllCovered (F.covers fetch.old) (filed_in comes.now) }
    requires goes { AllCovered (F.covers fetch.old) (filed_in goes.now) }
    ensures change { AllShownBy (F.contents fetch.old) (filed_in comes.now)
        → AllShownBy (F.contents fetch.old) (filed_in goes.now) → IfOk result (λ found.
        (old : Instance) → Keeps (query_of query.now) (turning old comes.now goes.now)
        (kept_groups groups.now) found) }
    ensures sound { AllShownBy (F.contents fetch.old) (filed_in comes.now)
        → AllShownBy (F.contents fetch.old) (filed_in goes.now)
        → F.damage fetch.new ≡ F.damage fetch.old }
    ensures asks { OnOk result (AsksAmong (asked_over (query_of query.now) comes.now goes.now)
        (F.asked fetch.old) (F.asked fetch.new)) }
    ensures same { F.contents fetch.new ≡ F.contents fetch.old }
    ensures goes { F.stays fetch.old fetch.new }
    ensures counts { Counts (F.faults fetch.old) (F.faults fetch.new) result }
{
    let Some(Grouping { below, by, calls }) = grouping_of(query) else {
        return Ok(None);
    };
    let Some(comes) = rows_of(workers, below, comes, fetch)? else {
        return Ok(None);
    };
    let Some(goes) = rows_of(workers, below, goes, fetch)? else {
        return Ok(None);
    };
    let Updated {
        entries,
        comes,
        goes,
    } = match updated(workers.alloc, by, calls, groups, &comes, &goes) {
        Ok(found) => found,
        Err(EvalFault::NumberOutOfRange) => return Ok(None),
        Err(EvalFault::OutOfMemory) => return Err(FetchFault::OutOfMemory),
    };
    let Some(moves) = above(workers, query, comes, goes)? else {
        return Ok(None);
    };
    let rows = signed(workers.alloc, &moves)?;
    Ok(Some(KeptChange { entries, rows }))
}

/// The same from what its sources held before and what they hold now. Only partitions are read that
/// one of the two lacks.
pub fn kept_delta_between<R: Threads + Sync, F: Fetch>(
    workers: &Workers<'_, R>,
    query: &Query,
    groups: &Groups,
    old: &[Source<'_>],
    new: &[Source<'_>],
    fetch: &mut F,
) -> Result<Option<KeptChange>, FetchFault>
    requires comes { AllCovered (F.covers fetch.old) (moved_in new.now old.now) }
    requires goes { AllCovered (F.covers fetch.old) (moved_in old.now new.now) }
    ensures change { AllShownBy (F.contents fetch.old) (moved_in new.now old.now)
        → AllShownBy (F.contents fetch.old) (moved_in old.now new.now)
        → AreNumbered old.now new.now → IfOk result (KeepsBetween (query_of query.now)
        (instance_in old.now) (instance_in new.now) (kept_groups groups.now)) }
    ensures sound { AllShownBy (F.contents fetch.old) (moved_in new.now old.now)
        → AllShownBy (F.contents fetch.old) (moved_in old.now new.now)
        → F.damage fetch.new ≡ F.damage fetch.old }
    ensures asks { OnOk result (AsksAmong (asked_between (query_of query.now) old.now new.now)
        (F.asked fetch.old) (F.asked fetch.new)) }
    ensures same { F.contents fetch.new ≡ F.contents fetch.old }
    ensures goes { F.stays fetch.old fetch.new }
    ensures counts { Counts (F.faults fetch.old) (F.faults fetch.new) result }
{
    let alloc = workers.alloc;
    let came = moved(alloc, new, old)?;
    let gone = moved(alloc, old, new)?;
    let comes = sources_held(alloc, &came)?;
    let goes = sources_held(alloc, &gone)?;
    kept_delta(workers, query, groups, &comes, &goes, fetch)
}

// What the operators above the Group of a query make of a change of its rows; None where one of
// them is undefined on a row.
#[tactic(auto, unfolding(wh_maintenance::specs::Above::above))]
fn above<R: Threads + Sync>(
    workers: &Workers<'_, R>,
    query: &Query,
    comes: Vec<Row>,
    goes: Vec<Row>,
) -> Result<Option<Moves>, AllocError>
    ensures { IfOk result (λ found. change_found found
        ≡ changes.above (query_of query.now) (Some (change_of comes.items goes.items))) }
{
    match query {
        Query::Filter(input, condition) => {
            let Some(moves) = above(workers, input.get(), comes, goes)? else {
                return Ok(None);
            };
            filter_moves(workers, condition, &moves)
        }
        Query::Project(input, items) => {
            let Some(moves) = above(workers, input.get(), comes, goes)? else {
                return Ok(None);
            };
            project_moves(workers, items.as_slice(), &moves)
        }
        Query::Scan(_) | Query::Join(_, _, _) | Query::UnionAll(_, _) | Query::Group(_, _, _) => {
            Ok(Some(Moves { comes, goes }))
        }
    }
}
