ghost use Rattle.std.specs.Prelude.{◌≡◌, ℕ, false, List, None, option_map, IfOk};
ghost use Rattle.wh_fetch.specs.Device.{Counts};
ghost use Rattle.wh_fetch.specs.DiskFetch.{told_of, faults_of, damage_of, IsRight, GoesOn};
ghost use Rattle.wh_reply.specs.View.{refusal_view};
ghost use Rattle.wh_grammar.specs.Spelled.{Asked, Spells};
ghost use Rattle.wh_machine.specs.Step.{commanded, is_session};
ghost use Rattle.wh_machine.specs.Statements.{carried_out};
ghost use Rattle.wh_machine.specs.Reading.{start_in};
ghost use Rattle.wh_stmt_parse.specs.Request.{request_of};
ghost use Rattle.wh_ddl_bind.specs.View.{bound_of};
ghost use Rattle.wh_catalog.specs.Catalog.{state_of};
ghost use Rattle.wh_decide.specs.Definitions.{earlier_refusal, reads_rows, IsBoundOver};
ghost use Rattle.wh_decide.specs.Definitions.{IsMeantRead};
ghost use Rattle.wh_decide.specs.Sight.{machine_in, IsShown, IsSound, Comes, IsReady};
ghost use Rattle.wh_decide.specs.Asked.{AsksAsBound, AsksAsRequested};
ghost use Rattle.wh_decide.specs.Decision.{answer_of};
ghost use Rattle.wh_decide.specs.RefreshAsked.{refresh_bound, refresh_requested, AsksAsReplied};

use crate::altering::{drop_task, execute_task, resume_task, suspend_task};
use crate::changes::change_rows;
use crate::decision::Decision;
use crate::dynamic_states::{refresh_dynamic, resume_dynamic, set_lag, suspend_dynamic};
use crate::dynamic_tables::{create_dynamic, drop_dynamic};
use crate::names::{named_objects, refusal};
use crate::queries::select;
use crate::roots::task_roots;
use crate::sight::Sight;
use crate::streams::{create_stream, drop_stream, has_data};
use crate::tables::{create_table, drop_table};
use crate::tasks::create_task;
use crate::transactions::{begin, commit, refused_in_transaction, rollback};
use std::alloc::{AllocError, Global};
use std::thread::Threads;
use wh_ast::Statement;
use wh_bind::BindFault;
use wh_ddl_bind::{Bound, Names, bind};
use wh_fetch::{DiskFetch, FetchFault};
use wh_reply::Refusal;
use wh_stmt_parse::{ParseFault, parse};
use wh_value::{Limit, SESSIONS};
use wh_workers::Workers;
use wh_world::Disk;

/// What a command's text comes to in a session.
#[tactic(auto, using(wh_fetch::specs::DiskFetch::goes_on, wh_fetch::specs::DiskFetch::goes_none))]
pub fn decide_command<R: Threads + Sync, D: Disk>(
    workers: &Workers<'_, R>,
    sight: &Sight<'_>,
    text: &[u8],
    fetch: &mut DiskFetch<D>,
) -> Result<Decision, FetchFault>
    requires { IsRight D.Disk fetch.old }
    ensures comes { IsShown (told_of D.Disk fetch.old) sight.now → IsSound sight.now
        → IfOk result (λ decision. Comes sight.now decision
        (commanded (machine_in sight.now) sight.now.session (request_of text.now))) }
    ensures ready { IfOk result (λ decision. IsReady sight.now decision) }
    ensures asks { AsksAsRequested sight.now.catalog.now (machine_in sight.now) sight.now.session
        (request_of text.now) fetch.old.asked.items fetch.new.asked.items }
    ensures fetches { IfOk result (λ decision. AsksAsReplied sight.now.catalog.now
        (refresh_requested (machine_in sight.now) (request_of text.now))
        fetch.old.asked.items fetch.new.asked.items (answer_of decision)) }
    ensures sound { IsShown (told_of D.Disk fetch.old) sight.now
        → damage_of fetch.new ≡ damage_of fetch.old }
    ensures same { told_of D.Disk fetch.new ≡ told_of D.Disk fetch.old }
    ensures goes { GoesOn D.Disk fetch.old fetch.new }
    ensures counts { Counts (faults_of D.Disk fetch.old) (faults_of D.Disk fetch.new) result }
{
    if Limit::Statement.bound() < text.len() as u64 {
        return Ok(Decision::Refuse(Refusal::OverLimit(Limit::Statement)));
    }
    match parse(workers.alloc, text) {
        Ok(statement) => {
            let decision = decide_tree(workers, sight, &statement, fetch);
            drop(statement);
            decision
        }
        Err(ParseFault::SyntaxError) => Ok(Decision::Refuse(Refusal::SyntaxError)),
        Err(ParseFault::OutOfMemory) => Err(FetchFault::OutOfMemory),
    }
}

// What a statement comes to, as a text spells it.
#[tactic(auto, using(wh_fetch::specs::DiskFetch::goes_on, wh_fetch::specs::DiskFetch::goes_none))]
fn decide_tree<R: Threads + Sync, D: Disk>(
    workers: &Workers<'_, R>,
    sight: &Sight<'_>,
    statement: &Statement,
    fetch: &mut DiskFetch<D>,
) -> Result<Decision, FetchFault>
    requires { IsRight D.Disk fetch.old }
    ensures comes { IsShown (told_of D.Disk fetch.old) sight.now → IsSound sight.now
        → IfOk result (λ decision. Comes sight.now decision
        (commanded (machine_in sight.now) sight.now.session (Asked statement.now))) }
    ensures ready { (text : List ℕ) → Spells text statement.now
        → IfOk result (λ decision. IsReady sight.now decision) }
    ensures asks { AsksAsRequested sight.now.catalog.now (machine_in sight.now) sight.now.session
        (Asked statement.now) fetch.old.asked.items fetch.new.asked.items }
    ensures fetches { IfOk result (λ decision. AsksAsReplied sight.now.catalog.now
        (refresh_requested (machine_in sight.now) (Asked statement.now))
        fetch.old.asked.items fetch.new.asked.items (answer_of decision)) }
    ensures sound { IsShown (told_of D.Disk fetch.old) sight.now
        → damage_of fetch.new ≡ damage_of fetch.old }
    ensures same { told_of D.Disk fetch.new ≡ told_of D.Disk fetch.old }
    ensures goes { GoesOn D.Disk fetch.old fetch.new }
    ensures counts { Counts (faults_of D.Disk fetch.old) (faults_of D.Disk fetch.new) result }
{
    let alloc = workers.alloc;
    if !is_session(sight.session) {
        return Ok(Decision::Refuse(Refusal::NoSuchSession(sight.session)));
    }
    let objects = named_objects(alloc, sight.catalog, statement)?;
    let roots = task_roots(alloc, sight.catalog, statement)?;
    let names = Names {
        objects: &objects,
        roots: &roots,
    };
    match bind(alloc, &names, statement) {
        Ok(bound) => decide_bound(workers, sight, bound, fetch),
        Err(BindFault::Failing(failing)) => {
            let why = earlier_refusal(sight, statement).unwrap_or(refusal(failing));
            Ok(Decision::Refuse(why))
        }
        Err(BindFault::OutOfMemory) => Err(FetchFault::OutOfMemory),
    }
}

fn is_session(session: u64) -> bool
    ensures { result ≡ is_session session }
{
    1 <= session && session <= SESSIONS
}

// What a statement is refused for before its names are looked at.
fn earlier_refusal(sight: &Sight<'_>, statement: &Statement) -> Option<Refusal>
    ensures { option_map refusal_view result
        ≡ earlier_refusal (machine_in sight.now) sight.now.session statement.now }
{
    match statement {
        Statement::CreateTable(_)
        | Statement::DropTable(_)
        | Statement::CreateStream(_, _, _)
        | Statement::DropStream(_)
        | Statement::CreateTask(_)
        | Statement::ResumeTask(_)
        | Statement::SuspendTask(_)
        | Statement::ExecuteTask(_)
        | Statement::DropTask(_)
        | Statement::CreateDynamicTable(_)
        | Statement::ResumeDynamicTable(_)
        | Statement::SuspendDynamicTable(_)
        | Statement::RefreshDynamicTable(_)
        | Statement::SetTargetLag(_, _)
        | Statement::DropDynamicTable(_) => refused_in_transaction(sight),
        Statement::Select(_, _)
        | Statement::HasData(_)
        | Statement::Dml(_)
        | Statement::Begin
        | Statement::Commit
        | Statement::Rollback => None,
    }
}

// What a statement comes to that nothing is found wrong with.
#[tactic(auto, using(crate::proofs::AskLemmas::bound_unasked, crate::proofs::RefreshAskLaws::unbound_asks), unfolding(wh_machine::specs::Statements::carried_out))]
fn decide_bound<R: Threads + Sync, D: Disk>(
    workers: &Workers<'_, R>,
    sight: &Sight<'_>,
    statement: Bound,
    fetch: &mut DiskFetch<D>,
) -> Result<Decision, FetchFault>
    requires { IsRight D.Disk fetch.old }
    ensures comes { IsShown (told_of D.Disk fetch.old) sight.now → IsSound sight.now
        → IsBoundOver (state_of sight.now.catalog.now).objects (bound_of statement)
        → IfOk result (λ decision. Comes sight.now decision
        (carried_out (machine_in sight.now) sight.now.session None (bound_of statement))) }
    ensures ready { IsMeantRead sight.now (bound_of statement)
        → IfOk result (λ decision. IsReady sight.now decision) }
    ensures asks { AsksAsBound sight.now.catalog.now
        (start_in (machine_in sight.now) sight.now.session) (bound_of statement)
        fetch.old.asked.items fetch.new.asked.items }
    ensures fetches { IfOk result (λ decision. AsksAsReplied sight.now.catalog.now
        (refresh_bound sight.now.stamp (bound_of statement))
        fetch.old.asked.items fetch.new.asked.items (answer_of decision)) }
    ensures sound { IsShown (told_of D.Disk fetch.old) sight.now
        → damage_of fetch.new ≡ damage_of fetch.old }
    ensures same { told_of D.Disk fetch.new ≡ told_of D.Disk fetch.old }
    ensures goes { GoesOn D.Disk fetch.old fetch.new }
    ensures counts { Counts (faults_of D.Disk fetch.old) (faults_of D.Disk fetch.new) result }
{
    let alloc = workers.alloc;
    match statement {
        Bound::Commit => commit(alloc, sight, fetch),
        Bound::Change(change) => change_rows(workers, sight, change.get(), fetch),
        Bound::Select(query) => select(workers, sight, query.get(), fetch),
        Bound::HasData(stream) => has_data(alloc, sight, stream, fetch),
        Bound::CreateDynamicTable(table) => create_dynamic(workers, sight, table.get(), fetch),
        Bound::RefreshDynamicTable(id) => refresh_dynamic(workers, sight, id, fetch),
        unread => {
            let decision = decide_unread(alloc, sight, unread)?;
            Ok(decision)
        }
    }
}

// So of one that reads no row.
#[tactic(auto, unfolding(wh_machine::specs::Statements::carried_out))]
fn decide_unread(alloc: Global, sight: &Sight<'_>, statement: Bound) -> Result<Decision, AllocError>
    requires { reads_rows (bound_of statement) ≡ false }
    ensures { IfOk result (λ decision. Comes sight.now decision
        (carried_out (machine_in sight.now) sight.now.session None (bound_of statement))) }
{
    match statement {
        Bound::Begin => Ok(begin(sight)),
        Bound::Rollback => Ok(rollback(sight)),
        Bound::CreateTable(table) => create_table(alloc, sight, table.into_inner()),
        Bound::DropTable(id) => drop_table(alloc, sight, id),
        Bound::CreateStream(stream) => create_stream(alloc, sight, stream.into_inner()),
        Bound::DropStream(id) => drop_stream(alloc, sight, id),
        Bound::CreateTask(task) => create_task(alloc, sight, task.into_inner()),
        Bound::ResumeTask(id) => resume_task(alloc, sight, id),
        Bound::SuspendTask(id) => suspend_task(alloc, sight, id),
        Bound::ExecuteTask(root) => execute_task(alloc, sight, root),
        Bound::DropTask(id) => drop_task(alloc, sight, id),
        Bound::ResumeDynamicTable(id) => resume_dynamic(alloc, sight, id),
        Bound::SuspendDynamicTable(id) => suspend_dynamic(alloc, sight, id),
        Bound::SetTargetLag(id, lag) => set_lag(alloc, sight, id, lag),
        Bound::DropDynamicTable(id) => drop_dynamic(alloc, sight, id),
        Bound::Commit
        | Bound::Change(_)
        | Bound::Select(_)
        | Bound::HasData(_)
        | Bound::CreateDynamicTable(_)
        | Bound::RefreshDynamicTable(_) => unreachable!(),
    }
}
