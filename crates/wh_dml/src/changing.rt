ghost use Rattle.std.specs.Prelude.{◌≡◌, IfOk};
ghost use Rattle.wh_bound_change.specs.View.{change_of};
ghost use Rattle.wh_dml.specs.Steps.{source_of};
ghost use Rattle.wh_dml.specs.View.{Gives, targets_of};
ghost use Rattle.wh_effect.specs.Effect as meaning;
ghost use Rattle.wh_exec.specs.Source.{filed_in, instance_in};
ghost use Rattle.wh_fetch.specs.Device.{Counts};
ghost use Rattle.wh_fetch.specs.DiskFetch.{told_of, faults_of, damage_of, IsRight, GoesOn};
ghost use Rattle.wh_filed.specs.Filed.{AllShown};
ghost use Rattle.wh_meaning.specs.Query.{Instance};
ghost use Rattle.wh_plan.specs.Rows.{rows_found};

use crate::delete::deleted;
use crate::insert::{rows_of, rows_over};
use crate::merge::merged;
use crate::update::updated;
use crate::{Effect, EffectFault};
use std::thread::Threads;
use wh_bound_change::Modification;
use wh_exec::Source;
use wh_fetch::{DiskFetch, FetchFault};
use wh_part::Partition;
use wh_plan::answered_in_order;
use wh_scalar::Condition;
use wh_value::Row;
use wh_workers::Workers;
use wh_world::Disk;

/// What a change does to the rows of its target's partitions, in their order, over its sources.
#[tactic(auto, using(wh_fetch::specs::DiskFetch::goes_on, wh_fetch::specs::DiskFetch::goes_none))]
pub fn effect<R: Threads + Sync, D: Disk>(
    workers: &Workers<'_, R>,
    change: &Modification,
    target: &[&Partition],
    sources: &[Source<'_>],
    fetch: &mut DiskFetch<D>,
) -> Result<Result<Effect, EffectFault>, FetchFault>
    requires { IsRight D.Disk fetch.old }
    ensures gives { AllShown (told_of D.Disk fetch.old) (filed_in sources.now)
        → IfOk result (λ found. Gives found (meaning.effect (change_of change.now)
        (targets_of target.now) (instance_in sources.now))) }
    ensures sound { AllShown (told_of D.Disk fetch.old) (filed_in sources.now)
        → damage_of fetch.new ≡ damage_of fetch.old }
    ensures same { told_of D.Disk fetch.new ≡ told_of D.Disk fetch.old }
    ensures goes { GoesOn D.Disk fetch.old fetch.new }
    ensures counts { Counts (faults_of D.Disk fetch.old) (faults_of D.Disk fetch.new) result }
{
    let source = source_rows(workers, change, sources, fetch)?;
    let found = effect_over(workers, change, target, source);
    Ok(found)
}

// The rows of a change's query in the row order, or None where they are undefined. A change
// without a query has none.
#[tactic(auto, using(wh_fetch::specs::DiskFetch::goes_on, wh_fetch::specs::DiskFetch::goes_none))]
fn source_rows<R: Threads + Sync, D: Disk>(
    workers: &Workers<'_, R>,
    change: &Modification,
    sources: &[Source<'_>],
    fetch: &mut DiskFetch<D>,
) -> Result<Option<Vec<Row>>, FetchFault>
    requires { IsRight D.Disk fetch.old }
    ensures rows { AllShown (told_of D.Disk fetch.old) (filed_in sources.now)
        → IfOk result (λ found. rows_found found
        ≡ source_of (change_of change.now) (instance_in sources.now)) }
    ensures sound { AllShown (told_of D.Disk fetch.old) (filed_in sources.now)
        → damage_of fetch.new ≡ damage_of fetch.old }
    ensures same { told_of D.Disk fetch.new ≡ told_of D.Disk fetch.old }
    ensures goes { GoesOn D.Disk fetch.old fetch.new }
    ensures counts { Counts (faults_of D.Disk fetch.old) (faults_of D.Disk fetch.new) result }
{
    match change {
        Modification::InsertQuery(query, _) | Modification::Merge(query, _, _) => {
            answered_in_order(workers, query, &[], sources, fetch)
        }
        Modification::InsertRows(_) | Modification::Update(_, _) | Modification::Delete(_) => {
            Ok(Some(Vec::new(workers.alloc)))
        }
    }
}

// What a change does, over the rows of its query.
#[tactic(auto, unfolding(wh_effect::specs::Effect::effect))]
fn effect_over<R: Threads + Sync>(
    workers: &Workers<'_, R>,
    change: &Modification,
    target: &[&Partition],
    source: Option<Vec<Row>>,
) -> Result<Effect, EffectFault>
    ensures { (instance : Instance)
        → rows_found source ≡ source_of (change_of change.now) instance
        → Gives result
        (meaning.effect (change_of change.now) (targets_of target.now) instance) }
{
    let alloc = workers.alloc;
    let Some(source) = source else {
        return Err(EffectFault::NumberOutOfRange);
    };
    match change {
        Modification::InsertRows(rows) => {
            let added = rows_of(alloc, rows)?;
            Ok(Effect::adding(alloc, added))
        }
        Modification::InsertQuery(_, parts) => {
            let added = rows_over(alloc, parts, source)?;
            Ok(Effect::adding(alloc, added))
        }
        Modification::Update(condition, parts) => {
            let condition = Condition::new(condition);
            Ok(updated(workers, &condition, parts, target)?)
        }
        Modification::Delete(condition) => {
            let condition = Condition::new(condition);
            Ok(deleted(workers, &condition, target)?)
        }
        Modification::Merge(_, on, clauses) => merged(workers, on, clauses, target, &source),
    }
}
