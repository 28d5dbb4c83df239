ghost use Rattle.std.specs.Prelude.{◌≡◌, IfOk};
ghost use Rattle.wh_fetch.specs.Device.{Counts};
ghost use Rattle.wh_fetch.specs.DiskFetch.{told_of, damage_of, faults_of, IsRight, GoesOn};
ghost use Rattle.wh_filed.specs.Filed.{AllShown};
ghost use Rattle.wh_state.specs.Sound.{Sound};
ghost use Rattle.wh_state.specs.State.{stamped};
ghost use Rattle.wh_machine.specs.Step.{outcome_of};
ghost use Rattle.wh_machine.specs.Ticks.{action_at, refreshes, ticked};
ghost use Rattle.wh_moment.specs.Upstream.{dynamics_of};
ghost use Rattle.wh_moment.specs.Moment.{due_table};
ghost use Rattle.wh_task.specs.View.{action_of};
ghost use Rattle.wh_catalog.specs.Catalog.{filed_of, stored_of, state_of};
ghost use Rattle.wh_txn.specs.Recording.{IsAt, IsRead};
ghost use Rattle.wh_txn.specs.View.{sessions_of};
ghost use Rattle.wh_decide.specs.Event.{event_of};
ghost use Rattle.wh_decide.specs.Asked.{AsksInEvent};
ghost use Rattle.wh_decide.specs.RefreshAsked.{refresh_acted, refresh_in, AsksAsReplied};
ghost use Rattle.wh_decide.specs.Decision.{commit_in, settlement_of, answer_of, machine_at};
ghost use Rattle.wh_decide.specs.Decision.{Decides, StagesInOpen};
ghost use Rattle.wh_decide.specs.Sight.{machine_in, Comes, IsReady, IsShown, IsSound};

use crate::holding::held_tasks;
use crate::live::live_objects;
use crate::lookups::live_tasks;
use crate::outcome::idle;
use crate::running::run_task;
use crate::starting::start_run;
use std::alloc::{AllocError, Global};
use std::thread::Threads;
use wh_catalog::Catalog;
use wh_decide::{Decision, Event, Sight, decide_command, scheduled_refresh};
use wh_dynamic::due_table;
use wh_fetch::{DiskFetch, FetchFault};
use wh_task::{Action, next_action};
use wh_txn::Sessions;
use wh_workers::Workers;
use wh_world::Disk;

/// What an event comes to at a stamp.
pub fn decide<R: Threads + Sync, D: Disk>(
    workers: &Workers<'_, R>,
    catalog: &Catalog,
    sessions: &Sessions,
    stamp: u64,
    event: &Event,
    fetch: &mut DiskFetch<D>,
) -> Result<Decision, FetchFault>
    requires { IsRight D.Disk fetch.old }
    ensures decided { AllShown (told_of D.Disk fetch.old) (filed_of catalog.now)
        → Sound (state_of catalog.now)
        → IfOk result (λ decision.
        Decides (stored_of catalog.now) (sessions_of sessions.now) stamp decision
        (outcome_of (machine_at (stamped (state_of catalog.now) stamp) (sessions_of sessions.now))
        (event_of event.now))) }
    ensures sound { AllShown (told_of D.Disk fetch.old) (filed_of catalog.now)
        → damage_of fetch.new ≡ damage_of fetch.old }

    // Over any disk.
    ensures asks { AsksInEvent catalog.now
        (machine_at (stamped (state_of catalog.now) stamp) (sessions_of sessions.now))
        (event_of event.now) fetch.old.asked.items fetch.new.asked.items }
    ensures fetches { IfOk result (λ decision. AsksAsReplied catalog.now
        (refresh_in (machine_at (stamped (state_of catalog.now) stamp) (sessions_of sessions.now))
        (event_of event.now))
        fetch.old.asked.items fetch.new.asked.items (answer_of decision)) }
    ensures staged { IfOk result (λ decision.
        StagesInOpen (sessions_of sessions.now) (settlement_of decision)) }
    ensures timed { IfOk result (λ decision. IsAt stamp (commit_in (settlement_of decision))) }
    ensures read { IfOk result (λ decision. IsRead (commit_in (settlement_of decision))) }
    ensures same { told_of D.Disk fetch.new ≡ told_of D.Disk fetch.old }
    ensures goes { GoesOn D.Disk fetch.old fetch.new }
    ensures counts { Counts (faults_of D.Disk fetch.old) (faults_of D.Disk fetch.new) result }
{
    match event {
        Event::Command { session, text, .. } => {
            let sight = Sight {
                catalog,
                sessions,
                session: *session,
                stamp,
            };
            decide_command(workers, &sight, text.as_slice(), fetch)
        }
        Event::Tick { .. } => {
            let sight = Sight {
                catalog,
                sessions,
                session: 0,
                stamp,
            };
            decide_tick(workers, &sight, fetch)
        }
    }
}

// What a tick comes to.
#[tactic(auto, unfolding(wh_machine::specs::Ticks::ticked))]
fn decide_tick<R: Threads + Sync, D: Disk>(
    workers: &Workers<'_, R>,
    sight: &Sight<'_>,
    fetch: &mut DiskFetch<D>,
) -> Result<Decision, FetchFault>
    requires ticking { sight.now.session ≡ 0 }
    requires right { IsRight D.Disk fetch.old }
    ensures comes { IsShown (told_of D.Disk fetch.old) sight.now → IsSound sight.now
        → IfOk result (λ decision. Comes sight.now decision (ticked (machine_in sight.now))) }
    ensures ready { IfOk result (λ decision. IsReady sight.now decision) }
    ensures fetches { IfOk result (λ decision. AsksAsReplied sight.now.catalog.now
        (refresh_acted (machine_in sight.now) (action_at (machine_in sight.now)))
        fetch.old.asked.items fetch.new.asked.items (answer_of decision)) }
    ensures same { told_of D.Disk fetch.new ≡ told_of D.Disk fetch.old }
    ensures sound { IsShown (told_of D.Disk fetch.old) sight.now
        → damage_of fetch.new ≡ damage_of fetch.old }
    ensures goes { GoesOn D.Disk fetch.old fetch.new }
    ensures counts { Counts (faults_of D.Disk fetch.old) (faults_of D.Disk fetch.new) result }
{
    match action(workers.alloc, sight)? {
        Action::RunTask { root, task } => run_task(workers, sight, root, task, fetch),
        Action::StartRun { root } => Ok(start_run(workers.alloc, sight, root)?),
        Action::Nothing => refresh_due(workers, sight, fetch),
    }
}

// The refresh of the dynamic table that is due first, if one is.
fn refresh_due<R: Threads + Sync, D: Disk>(
    workers: &Workers<'_, R>,
    sight: &Sight<'_>,
    fetch: &mut DiskFetch<D>,
) -> Result<Decision, FetchFault>
    requires { IsRight D.Disk fetch.old }
    ensures comes { IsShown (told_of D.Disk fetch.old) sight.now → IsSound sight.now
        → IfOk result (λ decision. Comes sight.now decision (refreshes (machine_in sight.now)
        (due_table (dynamics_of (machine_in sight.now).state.objects) sight.now.stamp))) }
    ensures ready { IfOk result (λ decision. IsReady sight.now decision) }
    ensures fetches { IfOk result (λ decision. AsksAsReplied sight.now.catalog.now
        (due_table (dynamics_of (machine_in sight.now).state.objects) sight.now.stamp)
        fetch.old.asked.items fetch.new.asked.items (answer_of decision)) }
    ensures same { told_of D.Disk fetch.new ≡ told_of D.Disk fetch.old }
    ensures sound { IsShown (told_of D.Disk fetch.old) sight.now
        → damage_of fetch.new ≡ damage_of fetch.old }
    ensures goes { GoesOn D.Disk fetch.old fetch.new }
    ensures counts { Counts (faults_of D.Disk fetch.old) (faults_of D.Disk fetch.new) result }
{
    let all = sight.catalog.watched(workers.alloc)?;
    match due_table(workers.alloc, &all, sight.stamp)? {
        Some((id, target)) => scheduled_refresh(workers, sight, id, target, fetch),
        None => Ok(idle(sight)),
    }
}

// What it carries out.
fn action(alloc: Global, sight: &Sight<'_>) -> Result<Action, AllocError>
    ensures { IfOk result (λ action. action_of action ≡ action_at (machine_in sight.now)) }
{
    let tasks = live_tasks(alloc, sight.catalog)?;
    let names = live_objects(alloc, sight.catalog)?;
    let held = held_tasks(alloc, sight, &names, &tasks)?;
    Ok(next_action(&tasks, &held, sight.stamp))
}
