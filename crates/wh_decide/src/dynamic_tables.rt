//! CREATE DYNAMIC TABLE and DROP DYNAMIC TABLE.
ghost use Rattle.std.specs.Prelude.{◌≡◌, ◌≤◌, ◌+◌, ◌∷◌, ◌++◌, [], List, Some, None, length, map};
ghost use Rattle.std.specs.Prelude.{option_map, IfOk};
ghost use Rattle.std.specs.List.{list_any, AllByRecursion};
ghost use Rattle.wh_fetch.specs.Device.{Counts};
ghost use Rattle.wh_fetch.specs.DiskFetch.{told_of, faults_of, damage_of, IsRight, GoesOn};
ghost use Rattle.wh_value.specs.Limit.{bound};
ghost use Rattle.wh_value.specs.View.{column_of};
ghost use Rattle.wh_value.specs.declared.limit.Limit.TheVariants as limits;
ghost use Rattle.wh_ast.specs.declared.statement.Initialize.TheVariants as starts;
ghost use Rattle.wh_algebra.specs.Increments as increments;
ghost use Rattle.wh_reply.specs.Reply.{CreatedDynamicTable};
ghost use Rattle.wh_reply.specs.View.{refusal_view, refreshed_view};
ghost use Rattle.wh_ddl_naming.specs.DynamicTables as naming;
ghost use Rattle.wh_ddl_naming.specs.Tables.{column_names};
ghost use Rattle.wh_ddl_naming.specs.Names.{names_at};
ghost use Rattle.wh_ddl_bind.specs.View.{new_dynamic_table_of};
ghost use Rattle.wh_state.specs.Act.{Act};
ghost use Rattle.wh_state.specs.Commit.{CreatesDynamic};
ghost use Rattle.wh_state.specs.Dynamic.{IsQuerySpelled};
ghost use Rattle.wh_state.specs.Spelling.{IsUnderstood};
ghost use Rattle.wh_state.specs.State.{empty_table};
ghost use Rattle.wh_state.specs.Written.{written};
ghost use Rattle.wh_machine.specs.Outcome.{commits};
ghost use Rattle.wh_machine.specs.Definitions.{defines, is_long};
ghost use Rattle.wh_machine.specs.Dynamics as machine;
ghost use Rattle.wh_dynamic.specs.View.{query_of, source_of, dynamic_of};
ghost use Rattle.wh_record.specs.View.{change_of, dynamic_change_of};
ghost use Rattle.wh_catalog.specs.Object.{kept_object, filed_of_objects};
ghost use Rattle.wh_catalog.specs.Undoable.{object_in};
ghost use Rattle.wh_catalog.specs.Catalog.{stored_of, state_of};
ghost use Rattle.wh_refresh.specs.Refreshing.{AreRead};
ghost use Rattle.wh_decide.specs.Dynamics.{new_stored, stored_with, dynamic_change, new_upstream};
ghost use Rattle.wh_decide.specs.Dynamics.{new_dynamic_in, new_limit_refusal, FitsLimits};
ghost use Rattle.wh_decide.specs.Dynamics.{IsBoundAs, MayBeMade};
ghost use Rattle.wh_decide.specs.Dynamics.{HasSpelledQuery, initialized_in, IsFirstRefresh};
ghost use Rattle.wh_table.specs.Table.{table_of, filed_of};
ghost use Rattle.wh_decide.specs.Sight.{machine_in, IsShown, IsSound, Comes, IsReady};

use crate::decision::Decision;
use crate::definitions::{count_refusal, defined, definition_refusal, drop_object, is_long};
use crate::lags::{below_refusal, lag_refusal, seconds_of};
use crate::limits::{refused_if, refused_past};
use crate::reading::name_of;
use crate::sight::Sight;
use crate::tables::some_is_long;
use sqlite_items::Boxed;
use std::alloc::{AllocError, Global};
use std::thread::Threads;
use wh_algebra::incrementable;
use wh_ast::{Initialize, RefreshMode};
use wh_bind::copied_columns;
use wh_catalog::{Catalog, StoredObject, StoredTable};
use wh_copy::copy_query;
use wh_ddl_bind::NewDynamicTable;
use wh_ddl_naming::names_in_query;
use wh_dynamic::{Dynamic, DynamicQuery, NamedSource, ids_read, upstream_of_new};
use wh_fetch::{DiskFetch, FetchFault};
use wh_record::{Change, DynamicChange};
use wh_refresh::{Asked, Refreshing, all_objects, refresh};
use wh_reply::{Refreshed, Refusal, Reply};
use wh_value::{Limit, Text};
use wh_workers::Workers;
use wh_world::Disk;

// What CREATE DYNAMIC TABLE comes to, whose names are right: a new dynamic table, the last of the
// catalog, and its first refresh where that isn't left to the schedule.
#[tactic(auto, using(wh_fetch::specs::DiskFetch::goes_on, wh_fetch::specs::DiskFetch::goes_none))]
pub(crate) fn create_dynamic<R: Threads + Sync, D: Disk>(
    workers: &Workers<'_, R>,
    sight: &Sight<'_>,
    table: &NewDynamicTable,
    fetch: &mut DiskFetch<D>,
) -> Result<Decision, FetchFault>
    requires { IsRight D.Disk fetch.old }
    ensures comes { IsShown (told_of D.Disk fetch.old) sight.now → IsSound sight.now
        → IsBoundAs (state_of sight.now.catalog.now).objects (new_dynamic_table_of table.now)
        → IfOk result (λ decision. Comes sight.now decision
        (defines (machine_in sight.now) sight.now.session None
        (machine.create_dynamic (machine_in sight.now) None (new_dynamic_table_of table.now)))) }
    ensures ready { HasSpelledQuery table.now → IfOk result (λ d. IsReady sight.now d) }
    ensures sound { IsShown (told_of D.Disk fetch.old) sight.now
        → damage_of fetch.new ≡ damage_of fetch.old }
    ensures same { told_of D.Disk fetch.new ≡ told_of D.Disk fetch.old }
    ensures goes { GoesOn D.Disk fetch.old fetch.new }
    ensures counts { Counts (faults_of D.Disk fetch.old) (faults_of D.Disk fetch.new) result }
{
    let wrong = dynamic_refusal(workers.alloc, sight.catalog, table)?;
    if let Some(why) = definition_refusal(sight, None, wrong) {
        return Ok(Decision::Refuse(why));
    }
    new_dynamic(workers, sight, table, fetch)
}

// A new dynamic table, of which nothing is beyond a limit.
#[tactic(auto, using(wh_fetch::specs::DiskFetch::goes_on, wh_fetch::specs::DiskFetch::goes_none))]
fn new_dynamic<R: Threads + Sync, D: Disk>(
    workers: &Workers<'_, R>,
    sight: &Sight<'_>,
    table: &NewDynamicTable,
    fetch: &mut DiskFetch<D>,
) -> Result<Decision, FetchFault>
    requires right { IsRight D.Disk fetch.old }
    requires fits { FitsLimits table.now }
    requires room { length (stored_of sight.now.catalog.now).objects + 1 ≤ bound limits.ObjectIds }
    ensures comes { IsShown (told_of D.Disk fetch.old) sight.now → IsSound sight.now
        → MayBeMade (state_of sight.now.catalog.now).objects (new_dynamic_table_of table.now)
        → IfOk result (λ decision. Comes sight.now decision
        (initialized_in sight.now table.now table.now.initialize)) }
    ensures ready { HasSpelledQuery table.now → IfOk result (λ d. IsReady sight.now d) }
    ensures sound { IsShown (told_of D.Disk fetch.old) sight.now
        → damage_of fetch.new ≡ damage_of fetch.old }
    ensures same { told_of D.Disk fetch.new ≡ told_of D.Disk fetch.old }
    ensures goes { GoesOn D.Disk fetch.old fetch.new }
    ensures counts { Counts (faults_of D.Disk fetch.old) (faults_of D.Disk fetch.new) result }
{
    let alloc = workers.alloc;
    let change = change(alloc, sight.catalog, table)?;
    match table.initialize {
        Initialize::OnSchedule => {
            let lines = Vec::new(alloc);
            let more = Vec::new(alloc);
            Ok(created(alloc, sight, change, lines, more)?)
        }
        Initialize::OnCreate => initialized(workers, sight, table, change, fetch),
    }
}

// With its first refresh, to the statement's stamp.
#[tactic(auto, using(wh_fetch::specs::DiskFetch::goes_on, wh_fetch::specs::DiskFetch::goes_none))]
fn initialized<R: Threads + Sync, D: Disk>(
    workers: &Workers<'_, R>,
    sight: &Sight<'_>,
    table: &NewDynamicTable,
    change: DynamicChange,
    fetch: &mut DiskFetch<D>,
) -> Result<Decision, FetchFault>
    requires right { IsRight D.Disk fetch.old }
    requires fits { FitsLimits table.now }
    requires change { dynamic_change_of change
        ≡ dynamic_change (length (stored_of sight.now.catalog.now).objects)
        (new_dynamic_table_of table.now) }
    ensures comes { IsShown (told_of D.Disk fetch.old) sight.now → IsSound sight.now
        → MayBeMade (state_of sight.now.catalog.now).objects (new_dynamic_table_of table.now)
        → IfOk result (λ decision. Comes sight.now decision
        (initialized_in sight.now table.now starts.OnCreate)) }
    ensures ready { HasSpelledQuery table.now → IfOk result (λ d. IsReady sight.now d) }
    ensures sound { IsShown (told_of D.Disk fetch.old) sight.now
        → damage_of fetch.new ≡ damage_of fetch.old }
    ensures same { told_of D.Disk fetch.new ≡ told_of D.Disk fetch.old }
    ensures goes { GoesOn D.Disk fetch.old fetch.new }
    ensures counts { Counts (faults_of D.Disk fetch.old) (faults_of D.Disk fetch.new) result }
{
    let made = made(workers.alloc, sight, table)?;
    let found = first_refresh(workers, sight, &made, change.id, fetch)?;
    match found {
        Refreshing::Fails(why) => Ok(Decision::Refuse(why)),
        Refreshing::Brings(lines, changes) => {
            Ok(created(workers.alloc, sight, change, lines, changes)?)
        }
    }
}

// Its first refresh, where it has that id.
#[tactic(auto, using(wh_fetch::specs::DiskFetch::goes_on, wh_fetch::specs::DiskFetch::goes_none))]
fn first_refresh<R: Threads + Sync, D: Disk>(
    workers: &Workers<'_, R>,
    sight: &Sight<'_>,
    made: &StoredObject,
    id: u32,
    fetch: &mut DiskFetch<D>,
) -> Result<Refreshing, FetchFault>
    requires right { IsRight D.Disk fetch.old }
    requires filed { filed_of_objects (made.now ∷ []) ≡ [] }
    ensures refreshes { IsShown (told_of D.Disk fetch.old) sight.now → IsSound sight.now
        → IfOk result (λ found. (n : naming.NewDynamicTable)
        → MayBeMade (state_of sight.now.catalog.now).objects n
        → object_in (kept_object made.now) ≡ new_stored sight.now.stamp
        (stored_of sight.now.catalog.now).objects n
        → IsFirstRefresh sight.now n id found) }
    ensures read { IfOk result (λ found. AreRead found) }
    ensures sound { IsShown (told_of D.Disk fetch.old) sight.now
        → damage_of fetch.new ≡ damage_of fetch.old }
    ensures same { told_of D.Disk fetch.new ≡ told_of D.Disk fetch.old }
    ensures goes { GoesOn D.Disk fetch.old fetch.new }
    ensures counts { Counts (faults_of D.Disk fetch.old) (faults_of D.Disk fetch.new) result }
{
    let objects = all_objects(workers.alloc, sight.catalog, Some(made))?;
    refresh(
        workers,
        &objects,
        Asked::ByStatement,
        id,
        sight.stamp,
        fetch,
    )
}

// The commit of a new dynamic table, and what a first refresh writes.
fn created(
    alloc: Global,
    sight: &Sight<'_>,
    change: DynamicChange,
    refreshed: Vec<Refreshed>,
    more: Vec<Change>,
) -> Result<Decision, AllocError>
    ensures comes { IfOk result (λ decision. (n : naming.NewDynamicTable) → (acts : List Act)
        → dynamic_change_of change
        ≡ dynamic_change (length (stored_of sight.now.catalog.now).objects) n
        → map change_of more.items ≡ written sight.now.stamp
        (stored_with sight.now.stamp (stored_of sight.now.catalog.now).objects n) acts
        → Comes sight.now decision (commits (machine_in sight.now)
        (CreatedDynamicTable n.name (map refreshed_view refreshed.items))
        (machine.dynamic_made n (machine.query_of n) ++ acts))) }
    ensures ready { IfOk result (λ decision. IsQuerySpelled (dynamic_change_of change).query
        → AllByRecursion IsUnderstood (map change_of more.items) → IsReady sight.now decision) }
{
    let name = change.name.copy(alloc)?;
    let changes = change_and(alloc, change, more)?;
    let reply = Reply::CreatedDynamicTable { name, refreshed };
    Ok(defined(sight, reply, changes))
}

fn change_and(
    alloc: Global,
    change: DynamicChange,
    mut more: Vec<Change>,
) -> Result<Vec<Change>, AllocError>
    ensures { IfOk result (λ changes. map change_of changes.items
        ≡ CreatesDynamic (dynamic_change_of change) ∷ map change_of more.items) }
{
    let mut changes = vec![in alloc; Change::CreatesDynamic(change)]?;
    changes.append(&mut more)?;
    Ok(changes)
}

// ---- what is made

// The change that says it.
fn change(
    alloc: Global,
    catalog: &Catalog,
    table: &NewDynamicTable,
) -> Result<DynamicChange, AllocError>
    requires lag { machine.seconds_of table.now.lag ≤ bound limits.MostTargetLag }
    requires room { length (stored_of catalog.now).objects + 1 ≤ bound limits.ObjectIds }
    ensures { IfOk result (λ change. dynamic_change_of change
        ≡ dynamic_change (length (stored_of catalog.now).objects)
        (new_dynamic_table_of table.now)) }
{
    let id = catalog.object_count() as u32 + 1;
    let query = written_query(alloc, table)?;
    let name = table.name.copy(alloc)?;
    let columns = copied_columns(alloc, &table.columns)?;
    Ok(DynamicChange {
        id,
        name,
        lag: seconds_of(table.lag) as u32,
        is_incremental: is_incremental(table),
        query,
        columns,
    })
}

// As the catalog will have it.
fn made(
    alloc: Global,
    sight: &Sight<'_>,
    table: &NewDynamicTable,
) -> Result<StoredObject, AllocError>
    requires { FitsLimits table.now }
    ensures made { IfOk result (λ object. object_in (kept_object object)
        ≡ new_stored sight.now.stamp (stored_of sight.now.catalog.now).objects
        (new_dynamic_table_of table.now)) }
    ensures filed { IfOk result (λ object. filed_of_objects (object ∷ []) ≡ []) }
{
    let dynamic = made_dynamic(alloc, sight, table)?;
    let rows = made_rows(alloc, table, sight.stamp)?;
    let name = table.name.copy(alloc)?;
    Ok(StoredObject::dynamic_table(name, dynamic, rows))
}

fn made_dynamic(
    alloc: Global,
    sight: &Sight<'_>,
    table: &NewDynamicTable,
) -> Result<Dynamic, AllocError>
    requires { machine.seconds_of table.now.lag ≤ bound limits.MostTargetLag }
    ensures { IfOk result (λ dynamic. dynamic_of dynamic
        ≡ new_dynamic_in (stored_of sight.now.catalog.now).objects
        (new_dynamic_table_of table.now)) }
{
    let lag = seconds_of(table.lag) as u32;
    let query = written_query(alloc, table)?;
    let is_incremental = is_incremental(table);
    let kept = sight.catalog.kept_for(is_incremental, &query)?;
    Dynamic::new(alloc, lag, is_incremental, kept, query)
}

fn made_rows(alloc: Global, table: &NewDynamicTable, stamp: u64) -> Result<StoredTable, AllocError>
    requires { length table.now.columns.items ≤ bound limits.Columns }
    ensures rows { IfOk result (λ rows. table_of rows
        ≡ empty_table (map column_of table.now.columns.items) stamp) }
    ensures filed { IfOk result (λ rows. filed_of rows ≡ []) }
{
    let columns = copied_columns(alloc, &table.columns)?;
    Ok(StoredTable::empty(alloc, columns, stamp))
}

// Its query as it is kept.
fn written_query(alloc: Global, table: &NewDynamicTable) -> Result<DynamicQuery, AllocError>
    ensures { IfOk result (λ query. query_of query
        ≡ machine.query_of (new_dynamic_table_of table.now)) }
{
    let sources = written_sources(alloc, table)?;
    let text = table.query_text.copy(alloc)?;
    let tree = Boxed::new(alloc, copy_query(alloc, table.tree.get())?)?;
    Ok(DynamicQuery {
        tree,
        text,
        sources,
    })
}

// An object for each name in FROM, in the order of the text.
fn written_sources(alloc: Global, table: &NewDynamicTable) -> Result<Vec<NamedSource>, AllocError>
    ensures { IfOk result (λ sources. map source_of sources.items
        ≡ (machine.query_of (new_dynamic_table_of table.now)).sources) }
{
    let names = names_in_query(alloc, table.tree.get())?;
    sources_named(alloc, &names, &table.sources)
}

fn sources_named(
    alloc: Global,
    names: &[&Text],
    ids: &[u32],
) -> Result<Vec<NamedSource>, AllocError>
    ensures { IfOk result (λ sources. map source_of sources.items
        ≡ machine.sources_named (names_at names.now) ids.now) }
{
    let mut sources = Vec::new(alloc);
    let mut place = 0;
    for name in names {
        if ids.len() <= place {
            return Ok(sources);
        }
        sources.push(named_source(alloc, *name, ids[place])?)?;
        place += 1;
    }
    Ok(sources)
}

fn named_source(alloc: Global, name: &Text, id: u32) -> Result<NamedSource, AllocError>
    ensures { IfOk result (λ source. source_of source ≡ record { name = name.now; id = id }) }
{
    let name = name.copy(alloc)?;
    Ok(NamedSource { name, id })
}

fn is_incremental(table: &NewDynamicTable) -> bool
    ensures { result ≡ machine.is_incremental table.now.mode
        (increments.incrementable (new_dynamic_table_of table.now).query) }
{
    match table.mode {
        RefreshMode::Auto => incrementable(&table.query),
        RefreshMode::Full => false,
        RefreshMode::Incremental => true,
    }
}

// ---- the first test that it fails whose names are right

fn dynamic_refusal(
    alloc: Global,
    catalog: &Catalog,
    table: &NewDynamicTable,
) -> Result<Option<Refusal>, AllocError>
    ensures { IfOk result (λ found. option_map refusal_view found
        ≡ machine.dynamic_refusal (state_of catalog.now) None (new_dynamic_table_of table.now)
        (machine.query_of (new_dynamic_table_of table.now))) }
{
    let upstream = new_upstream(alloc, catalog, table)?;
    let below = below_refusal(alloc, catalog, &table.name, table.lag, &upstream)?;
    Ok(
        mode_refusal(table)
            .or(below)
            .or(limit_refusal(catalog, table)),
    )
}

fn mode_refusal(table: &NewDynamicTable) -> Option<Refusal>
    ensures { option_map refusal_view result ≡ machine.mode_refusal table.now.mode
        (increments.incrementable (new_dynamic_table_of table.now).query) }
{
    match table.mode {
        RefreshMode::Incremental => {
            refused_if(!incrementable(&table.query), Refusal::NotIncrementable)
        }
        RefreshMode::Auto | RefreshMode::Full => None,
    }
}

// The dynamic tables that it will read, directly or through others.
fn new_upstream(
    alloc: Global,
    catalog: &Catalog,
    table: &NewDynamicTable,
) -> Result<Vec<u32>, AllocError>
    ensures { IfOk result (λ ids. ids.items ≡ new_upstream (state_of catalog.now).objects
        (machine.query_of (new_dynamic_table_of table.now))) }
{
    let all = catalog.watched(alloc)?;
    let query = written_query(alloc, table)?;
    let reads = ids_read(alloc, &query)?;
    upstream_of_new(alloc, &all, &reads)
}

// The first limit that it is beyond.
fn limit_refusal(catalog: &Catalog, table: &NewDynamicTable) -> Option<Refusal>
    ensures { option_map refusal_view result
        ≡ new_limit_refusal (state_of catalog.now) (new_dynamic_table_of table.now) }
{
    let columns = table.columns.len() as u64;
    count_refusal(catalog, None)
        .or(refused_if(has_long_name(table), Refusal::OverLimit(Limit::Name)))
        .or(refused_past(Limit::Columns, columns, 0))
        .or(refused_if(table.is_wide, Refusal::OverLimit(Limit::Output)))
        .or(lag_refusal(table.lag))
}

fn has_long_name(table: &NewDynamicTable) -> bool
    ensures { result ≡ list_any is_long
        (table.now.name ∷ column_names (new_dynamic_table_of table.now).columns) }
{
    is_long(&table.name) || some_is_long(&table.columns)
}

// ---- DROP DYNAMIC TABLE

// What DROP DYNAMIC TABLE comes to, of a dynamic table.
pub(crate) fn drop_dynamic(
    alloc: Global,
    sight: &Sight<'_>,
    id: u32,
) -> Result<Decision, AllocError>
    ensures { IfOk result (λ decision. Comes sight.now decision
        (defines (machine_in sight.now) sight.now.session (Some id)
        (machine.drop_dynamic (machine_in sight.now) None id))) }
{
    let reply = Reply::DroppedDynamicTable(name_of(alloc, sight.catalog, id)?);
    drop_object(alloc, sight, id, None, reply)
}
