//! What a task's statement comes to as a transaction of its own.
ghost use Rattle.std.specs.Prelude.{◌≡◌, None, map, IfOk};
ghost use Rattle.wh_fetch.specs.Device.{Counts};
ghost use Rattle.wh_fetch.specs.DiskFetch.{told_of, damage_of, faults_of, IsRight, GoesOn};
ghost use Rattle.wh_naming.specs.Changes.{bound_change};
ghost use Rattle.wh_naming.specs.View.{named_of};
ghost use Rattle.wh_machine.specs.Statements.{bound_changed, changes_in, changes_rows};
ghost use Rattle.wh_machine.specs.Ticks.{body_bound};
ghost use Rattle.wh_decide.specs.Sight.{machine_in, Comes, IsReady, IsShown};

use crate::live::live_objects;
use std::thread::Threads;
use wh_ast::Dml;
use wh_bind::BindFault;
use wh_decide::{Decision, Sight, change_rows, refusal};
use wh_dml_bind::bind_change;
use wh_fetch::{DiskFetch, FetchFault};
use wh_naming::Named;
use wh_workers::Workers;
use wh_world::Disk;

/// What a statement comes to in session 0.
pub(crate) fn carried_out<R: Threads + Sync, D: Disk>(
    workers: &Workers<'_, R>,
    sight: &Sight<'_>,
    body: &Dml,
    fetch: &mut DiskFetch<D>,
) -> Result<Decision, FetchFault>
    requires ticking { sight.now.session ≡ 0 }
    requires right { IsRight D.Disk fetch.old }
    ensures comes { IsShown (told_of D.Disk fetch.old) sight.now
        → IfOk result (λ decision. Comes sight.now decision
        (changes_in (machine_in sight.now) 0 None (bound_changed (machine_in sight.now) 0
        (body_bound (machine_in sight.now) body.now)))) }
    ensures ready { IfOk result (λ decision. IsReady sight.now decision) }
    ensures same { told_of D.Disk fetch.new ≡ told_of D.Disk fetch.old }
    ensures sound { IsShown (told_of D.Disk fetch.old) sight.now
        → damage_of fetch.new ≡ damage_of fetch.old }
    ensures goes { GoesOn D.Disk fetch.old fetch.new }
    ensures counts { Counts (faults_of D.Disk fetch.old) (faults_of D.Disk fetch.new) result }
{
    // No command is one of session 0, so it never has an open transaction.
    if sight.sessions.number(sight.session).is_some() {
        return Err(FetchFault::OutOfMemory);
    }
    let names = live_objects(workers.alloc, sight.catalog)?;
    change_named(workers, sight, &names, body, fetch)
}

// By the objects that it may name.
fn change_named<R: Threads + Sync, D: Disk>(
    workers: &Workers<'_, R>,
    sight: &Sight<'_>,
    names: &[Named<'_>],
    body: &Dml,
    fetch: &mut DiskFetch<D>,
) -> Result<Decision, FetchFault>
    requires { IsRight D.Disk fetch.old }
    ensures comes { IsShown (told_of D.Disk fetch.old) sight.now
        → IfOk result (λ decision. Comes sight.now decision (changes_rows (machine_in sight.now)
        sight.now.session (bound_change (map named_of names.now) body.now))) }
    ensures ready { IfOk result (λ decision. IsReady sight.now decision) }
    ensures same { told_of D.Disk fetch.new ≡ told_of D.Disk fetch.old }
    ensures sound { IsShown (told_of D.Disk fetch.old) sight.now
        → damage_of fetch.new ≡ damage_of fetch.old }
    ensures goes { GoesOn D.Disk fetch.old fetch.new }
    ensures counts { Counts (faults_of D.Disk fetch.old) (faults_of D.Disk fetch.new) result }
{
    match bind_change(workers.alloc, names, body) {
        Ok(bound) => change_rows(workers, sight, &bound, fetch),
        Err(BindFault::Failing(failing)) => Ok(Decision::Refuse(refusal(failing))),
        Err(BindFault::OutOfMemory) => Err(FetchFault::OutOfMemory),
    }
}
