ghost use Rattle.std.specs.Prelude.{◌≡◌, ◌≤◌, ◌∷◌, ◌++◌, [], Some, None, map, option_map, IfOk};
ghost use Rattle.std.specs.List.{list_any};
ghost use Rattle.wh_value.specs.Limit.{bound};
ghost use Rattle.wh_value.specs.View.{column_of};
ghost use Rattle.wh_value.specs.declared.limit.Limit.TheVariants as limits;
ghost use Rattle.wh_reply.specs.View.{refusal_view};
ghost use Rattle.wh_ddl_naming.specs.Tables.{column_names};
ghost use Rattle.wh_ddl_bind.specs.View.{new_table_of};
ghost use Rattle.wh_state.specs.Commit.{CreatesTable};
ghost use Rattle.wh_machine.specs.Definitions.{defines, is_long};
ghost use Rattle.wh_machine.specs.Tables as machine;
ghost use Rattle.wh_record.specs.View.{change_of};
ghost use Rattle.wh_catalog.specs.Catalog.{state_of};
ghost use Rattle.wh_decide.specs.Definitions.{drops_written};
ghost use Rattle.wh_decide.specs.Sight.{machine_in, Comes};

use crate::decision::Decision;
use crate::definitions::{count_refusal, defined, definition_refusal, drop_object, drops, is_long};
use crate::limits::{refused_if, refused_past};
use crate::reading::name_of;
use crate::sight::Sight;
use std::alloc::{AllocError, Global};
use wh_catalog::Catalog;
use wh_ddl_bind::NewTable;
use wh_record::{Change, TableChange};
use wh_reply::{Refusal, Reply};
use wh_value::{Column, Limit};

// In days, where none is written.
const RETENTION: u64 = 1;

// What CREATE TABLE comes to, whose names are right: a new table, the last of the catalog. One that
// it replaces is dropped in the same commit.
pub(crate) fn create_table(
    alloc: Global,
    sight: &Sight<'_>,
    table: NewTable,
) -> Result<Decision, AllocError>
    ensures { IfOk result (λ decision. Comes sight.now decision
        (defines (machine_in sight.now) sight.now.session table.replaced
        (machine.create_table (machine_in sight.now) None (new_table_of table)))) }
{
    let wrong = table_refusal(sight.catalog, &table);
    if let Some(why) = definition_refusal(sight, table.replaced, wrong) {
        return Ok(Decision::Refuse(why));
    }
    let id = sight.catalog.object_count() as u32 + 1;
    let reply = Reply::CreatedTable(table.name.copy(alloc)?);
    let changes = creation(alloc, id, table)?;
    Ok(defined(sight, reply, changes))
}

// A new table of that id, behind the drop of the one that it replaces.
fn creation(alloc: Global, id: u32, table: NewTable) -> Result<Vec<Change>, AllocError>
    requires { machine.retention_of (new_table_of table) ≤ bound limits.Retention }
    ensures { IfOk result (λ changes. map change_of changes.items
        ≡ drops_written table.replaced ++ CreatesTable (record {
          id = id;
          name = table.name;
          retention = machine.retention_of (new_table_of table);
          columns = (new_table_of table).columns;
        }) ∷ []) }
{
    let mut changes = drops(alloc, table.replaced)?;
    changes.push(table_change(id, table))?;
    Ok(changes)
}

fn table_change(id: u32, table: NewTable) -> Change
    requires { machine.retention_of (new_table_of table) ≤ bound limits.Retention }
    ensures { change_of result ≡ CreatesTable (record {
      id = id;
      name = table.name;
      retention = machine.retention_of (new_table_of table);
      columns = (new_table_of table).columns;
    }) }
{
    let retention = retention_of(&table) as u8;
    let NewTable { name, columns, .. } = table;
    Change::CreatesTable(TableChange {
        id,
        name,
        retention,
        columns,
    })
}

fn retention_of(table: &NewTable) -> u64
    ensures { result ≡ machine.retention_of (new_table_of table.now) }
{
    match table.retention {
        Some(days) => days,
        None => RETENTION,
    }
}

// The first test that a new table fails whose names are right.
fn table_refusal(catalog: &Catalog, table: &NewTable) -> Option<Refusal>
    ensures { option_map refusal_view result
        ≡ machine.table_refusal (state_of catalog.now) None (new_table_of table.now) }
{
    let columns = table.columns.len() as u64;
    count_refusal(catalog, table.replaced)
        .or(refused_if(has_long_name(table), Refusal::OverLimit(Limit::Name)))
        .or(refused_past(Limit::Columns, columns, 0))
        .or(refused_past(Limit::Retention, retention_of(table), 0))
}

// Whether the name of a new table or that of one of its columns is beyond the limit.
fn has_long_name(table: &NewTable) -> bool
    ensures { result ≡ list_any is_long
        (table.now.name ∷ column_names (new_table_of table.now).columns) }
{
    is_long(&table.name) || some_is_long(&table.columns)
}

pub(crate) fn some_is_long(columns: &[Column]) -> bool
    ensures { result ≡ list_any (λ column. is_long (column_of column).name) columns.now }
{
    columns.iter().any(|column| is_long(&column.name))
}

// What DROP TABLE comes to, of a table.
pub(crate) fn drop_table(alloc: Global, sight: &Sight<'_>, id: u32) -> Result<Decision, AllocError>
    ensures { IfOk result (λ decision. Comes sight.now decision
        (defines (machine_in sight.now) sight.now.session (Some id)
        (machine.drop_table (machine_in sight.now) None id))) }
{
    let reply = Reply::DroppedTable(name_of(alloc, sight.catalog, id)?);
    drop_object(alloc, sight, id, None, reply)
}
