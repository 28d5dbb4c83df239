//! A refresh by waves: the tables of one wave read none of each other.
ghost use Rattle.std.specs.Prelude.{◌≡◌, ℕ, List, IfOk, OnOk, IfSome, Ok, true};
ghost use Rattle.wh_fetch.specs.Device.{Counts};
ghost use Rattle.wh_filed.specs.Fetching.{AllShownBy, AllCovered};
ghost use Rattle.wh_moment.specs.Upstream.{dynamics_of};
ghost use Rattle.wh_dynamic.specs.View.{dynamics_in};
ghost use Rattle.wh_machine.specs.Refresh as machine;
ghost use Rattle.wh_machine.specs.Brought.{RiseAbove};
ghost use Rattle.wh_waves.specs.Settled.{Settled, AreReady};
ghost use Rattle.wh_refresh.specs.Objects.{objects_in, stored_in, filed_at_objects};
ghost use Rattle.wh_refresh.specs.Brought.{AreBrought, BringsOr};
ghost use Rattle.wh_refresh.specs.Standing.{AllStand};
ghost use Rattle.wh_refresh.specs.Asked.{ids_of, actions_of, by_waves, IsFiledIn};
ghost use Rattle.wh_refresh.specs.Asked.{AreCounted, AsksOfAll};
ghost use Rattle.wh_refresh.specs.Waves.{front_below, put_one, put_all, BringsMore, AllCounted};

use crate::bringing::bring;
use crate::brought::Brought;
use std::alloc::AllocError;
use std::thread::Threads;
use wh_catalog::StoredObject;
use wh_dynamic::Watched;
use wh_fetch::{Fetch, FetchFault};
use wh_waves::waves;
use wh_workers::Workers;

/// Those of some ids, by rising ids, or None where an evaluation is undefined. `all` are the dynamic
/// tables among the objects.
pub(crate) fn bring_all<R: Threads + Sync, F: Fetch>(
    workers: &Workers<'_, R>,
    objects: &[&StoredObject],
    all: &[Option<Watched<'_>>],
    moment: u64,
    ids: &[u32],
    fetch: &mut F,
) -> Result<Option<Vec<Brought>>, FetchFault>
    requires covered { AllCovered (F.covers fetch.old) (filed_at_objects objects.now) }
    requires watched { dynamics_in all.now ≡ dynamics_of (objects_in objects.now) }
    requires rising { RiseAbove 0 ids.now }
    ensures brought { AllShownBy (F.contents fetch.old) (filed_at_objects objects.now)
        → AllStand (objects_in objects.now) → IfOk result (λ found. (stamp : ℕ)
        → BringsOr (stored_in objects.now) found
        (machine.brought_all stamp moment ids.now (objects_in objects.now))) }
    ensures sound { AllShownBy (F.contents fetch.old) (filed_at_objects objects.now)
        → F.damage fetch.new ≡ F.damage fetch.old }
    ensures asks { IfOk result (λ found. IfSome found (λ all.
        AreCounted objects.now ids.now (actions_of all.items)
        → AsksOfAll (IsFiledIn objects.now ids.now) objects.now moment
        (by_waves (objects_in objects.now) ids.now) (F.asked fetch.old) (F.asked fetch.new))) }
    ensures same { F.contents fetch.new ≡ F.contents fetch.old }
    ensures goes { F.stays fetch.old fetch.new }
    ensures counts { Counts (F.faults fetch.old) (F.faults fetch.new) result }
{
    let mut brought = Vec::new(workers.alloc);
    let waves = waves(workers.alloc, all, ids)?;
    for wave in &waves {
        if !bring_wave(workers, objects, &mut brought, moment, wave, fetch)? {
            return Ok(None);
        }
    }
    Ok(Some(brought))
}

// The tables of one more wave, over those before it; false where an evaluation is undefined.
fn bring_wave<R: Threads + Sync, F: Fetch>(
    workers: &Workers<'_, R>,
    objects: &[&StoredObject],
    brought: &mut Vec<Brought>,
    moment: u64,
    wave: &[u32],
    fetch: &mut F,
) -> Result<bool, FetchFault>
    requires { AllCovered (F.covers fetch.old) (filed_at_objects objects.now) }
    ensures brought { AllShownBy (F.contents fetch.old) (filed_at_objects objects.now)
        → AllStand (objects_in objects.now) → IfOk result (λ all. (stamp : ℕ) (ids : List ℕ)
        (bs : List machine.Brought) → RiseAbove 0 ids
        → AreBrought (stored_in objects.now) brought.old.items bs
        → Settled stamp moment (objects_in objects.now) ids bs
        → AreReady (objects_in objects.now) ids bs wave.now
        → BringsMore objects.now stamp moment ids bs wave.now brought.new.items all) }
    ensures ids { result ≡ Ok true
        → ids_of brought.new.items ≡ put_all wave.now (ids_of brought.old.items) }
    ensures counted { result ≡ Ok true → AllCounted objects.now brought.new.items
        → AllCounted objects.now brought.old.items }
    ensures sound { AllShownBy (F.contents fetch.old) (filed_at_objects objects.now)
        → F.damage fetch.new ≡ F.damage fetch.old }
    ensures asks { result ≡ Ok true → AllCounted objects.now brought.new.items
        → AsksOfAll (IsFiledIn objects.now (ids_of brought.new.items)) objects.now moment wave.now
        (F.asked fetch.old) (F.asked fetch.new) }
    ensures same { F.contents fetch.new ≡ F.contents fetch.old }
    ensures goes { F.stays fetch.old fetch.new }
    ensures counts { Counts (F.faults fetch.old) (F.faults fetch.new) result }
{
    for id in wave {
        let below = below(brought, *id);
        let Some(one) = bring(workers, objects, below, moment, *id, fetch)? else {
            return Ok(false);
        };
        put_in(brought, one)?;
    }
    Ok(true)
}

/// Those in front of the first whose id isn't lower.
pub(crate) fn below(brought: &[Brought], id: u32) -> &[Brought]
    ensures { result.now ≡ front_below id brought.now }
{
    let mut end = 0;
    while end < brought.len() && brought[end].id < id {
        end += 1;
    }
    &brought[..end]
}

// One more, behind those in front of the first whose id isn't lower.
fn put_in(brought: &mut Vec<Brought>, one: Brought) -> Result<(), AllocError>
    ensures { OnOk result (brought.new.items ≡ put_one one brought.old.items) }
{
    let place = below(brought, one.id).len();
    brought.insert(place, one)?;
    Ok(())
}
