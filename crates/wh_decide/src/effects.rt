//! What a change does to its target, over what the session sees.
ghost use Rattle.std.specs.Prelude.{◌≡◌, Some, IfOk};
ghost use Rattle.wh_fetch.specs.Device.{Counts};
ghost use Rattle.wh_fetch.specs.DiskFetch.{told_of, faults_of, damage_of, IsRight, GoesOn};
ghost use Rattle.wh_effect.specs.Effect.{effect};
ghost use Rattle.wh_bound_change.specs.View as changes;
ghost use Rattle.wh_dml.specs.View.{Gives};
ghost use Rattle.wh_exec.specs.Source.{filed_in, instance_in};
ghost use Rattle.wh_filed.specs.Filed.{AllShown};
ghost use Rattle.wh_state.specs.State.{Table};
ghost use Rattle.wh_state.specs.Objects.{table_at};
ghost use Rattle.wh_machine.specs.Changes as machine;
ghost use Rattle.wh_machine.specs.Reading.{instance_read};
ghost use Rattle.wh_decide.specs.Changes.{is_insert};
ghost use Rattle.wh_decide.specs.Sight.{machine_in, objects_seen, IsShown};
ghost use Rattle.wh_decide.specs.Sources.{IsTarget};

use crate::sight::Sight;
use crate::sources::{sources_of, sources_seen};
use std::alloc::Global;
use std::thread::Threads;
use wh_bound_change::{BoundChange, Modification};
use wh_dml::{Effect, EffectFault, effect};
use wh_exec::Source;
use wh_fetch::{DiskFetch, FetchFault};
use wh_txn::TableSeen;
use wh_workers::Workers;
use wh_world::Disk;

// What a change does to the rows of its target, over what the session sees. The partitions that
// were loaded for it are given back.
#[tactic(auto, using(wh_fetch::specs::DiskFetch::goes_on, wh_fetch::specs::DiskFetch::goes_none))]
pub(crate) fn effect_seen<R: Threads + Sync, D: Disk>(
    workers: &Workers<'_, R>,
    sight: &Sight<'_>,
    bound: &BoundChange,
    fetch: &mut DiskFetch<D>,
) -> Result<Result<Effect, EffectFault>, FetchFault>
    requires { IsRight D.Disk fetch.old }
    ensures gives { IsShown (told_of D.Disk fetch.old) sight.now → IfOk result (λ found. (t : Table)
        → table_at (objects_seen sight.now) bound.now.target ≡ Some t
        → Gives found (effect (changes.change_of bound.now.change) (machine.rows_seen t)
        (instance_read (machine_in sight.now) sight.now.session bound.now.sources.items))) }
    ensures sound { IsShown (told_of D.Disk fetch.old) sight.now
        → damage_of fetch.new ≡ damage_of fetch.old }
    ensures same { told_of D.Disk fetch.new ≡ told_of D.Disk fetch.old }
    ensures goes { GoesOn D.Disk fetch.old fetch.new }
    ensures counts { Counts (faults_of D.Disk fetch.old) (faults_of D.Disk fetch.new) result }
{
    let alloc = workers.alloc;
    let target = target_seen(alloc, sight, bound, fetch)?;
    let seen = sources_seen(alloc, sight, &bound.sources, fetch)?;
    let sources = sources_of(alloc, &seen)?;
    effect_on(workers, &bound.change, &target, &sources, fetch)
}

// What the session sees of its target: the partitions in which rows may not stay as they are. An
// INSERT goes over no row of it.
#[tactic(auto, using(wh_fetch::specs::DiskFetch::goes_on, wh_fetch::specs::DiskFetch::goes_none))]
fn target_seen<D: Disk>(
    alloc: Global,
    sight: &Sight<'_>,
    bound: &BoundChange,
    fetch: &mut DiskFetch<D>,
) -> Result<Option<TableSeen>, FetchFault>
    requires { IsRight D.Disk fetch.old }
    ensures seen { IsShown (told_of D.Disk fetch.old) sight.now → IfOk result (λ seen. (t : Table)
        → table_at (objects_seen sight.now) bound.now.target ≡ Some t
        → IsTarget (changes.change_of bound.now.change) t seen) }
    ensures sound { IsShown (told_of D.Disk fetch.old) sight.now
        → damage_of fetch.new ≡ damage_of fetch.old }
    ensures same { told_of D.Disk fetch.new ≡ told_of D.Disk fetch.old }
    ensures goes { GoesOn D.Disk fetch.old fetch.new }
    ensures counts { Counts (faults_of D.Disk fetch.old) (faults_of D.Disk fetch.new) result }
{
    if is_insert(&bound.change) {
        return Ok(None);
    }
    let target = sight.sessions.seen_by(
        alloc,
        sight.catalog,
        sight.session,
        bound.target,
        &bound.change,
        fetch,
    )?;
    Ok(Some(target))
}

// What a change does to the rows of its target, over its sources.
#[tactic(auto, using(wh_fetch::specs::DiskFetch::goes_on, wh_fetch::specs::DiskFetch::goes_none))]
fn effect_on<R: Threads + Sync, D: Disk>(
    workers: &Workers<'_, R>,
    change: &Modification,
    target: &Option<TableSeen>,
    sources: &[Source<'_>],
    fetch: &mut DiskFetch<D>,
) -> Result<Result<Effect, EffectFault>, FetchFault>
    requires { IsRight D.Disk fetch.old }
    ensures gives { AllShown (told_of D.Disk fetch.old) (filed_in sources.now) → IfOk result
        (λ found. (t : Table) → IsTarget (changes.change_of change.now) t target.now
        → Gives found (effect (changes.change_of change.now) (machine.rows_seen t)
        (instance_in sources.now))) }
    ensures sound { AllShown (told_of D.Disk fetch.old) (filed_in sources.now)
        → damage_of fetch.new ≡ damage_of fetch.old }
    ensures same { told_of D.Disk fetch.new ≡ told_of D.Disk fetch.old }
    ensures goes { GoesOn D.Disk fetch.old fetch.new }
    ensures counts { Counts (faults_of D.Disk fetch.old) (faults_of D.Disk fetch.new) result }
{
    match target {
        Some(target) => effect_to(workers, change, target, sources, fetch),
        None => effect(workers, change, &[], sources, fetch),
    }
}

// So to the rows of its target that are seen.
#[tactic(auto, using(wh_fetch::specs::DiskFetch::goes_on, wh_fetch::specs::DiskFetch::goes_none))]
fn effect_to<R: Threads + Sync, D: Disk>(
    workers: &Workers<'_, R>,
    change: &Modification,
    target: &TableSeen,
    sources: &[Source<'_>],
    fetch: &mut DiskFetch<D>,
) -> Result<Result<Effect, EffectFault>, FetchFault>
    requires { IsRight D.Disk fetch.old }
    ensures gives { AllShown (told_of D.Disk fetch.old) (filed_in sources.now) → IfOk result
        (λ found. (t : Table) → IsTarget (changes.change_of change.now) t (Some target.now)
        → Gives found (effect (changes.change_of change.now) (machine.rows_seen t)
        (instance_in sources.now))) }
    ensures sound { AllShown (told_of D.Disk fetch.old) (filed_in sources.now)
        → damage_of fetch.new ≡ damage_of fetch.old }
    ensures same { told_of D.Disk fetch.new ≡ told_of D.Disk fetch.old }
    ensures goes { GoesOn D.Disk fetch.old fetch.new }
    ensures counts { Counts (faults_of D.Disk fetch.old) (faults_of D.Disk fetch.new) result }
{
    let partitions = target.by_rows(workers.alloc)?;
    effect(workers, change, &partitions, sources, fetch)
}

fn is_insert(change: &Modification) -> bool
    ensures { result ≡ is_insert (changes.change_of change.now) }
{
    match change {
        Modification::InsertRows(_) | Modification::InsertQuery(_, _) => true,
        Modification::Update(_, _) | Modification::Delete(_) | Modification::Merge(_, _, _) =>
            false,
    }
}
