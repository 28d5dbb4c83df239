ghost use Rattle.std.specs.Prelude.{◌≡◌, IfOk};
ghost use Rattle.wh_naming.specs.Scope.{DynamicTableObject};
ghost use Rattle.wh_ddl_naming.specs.Meant.{within};
ghost use Rattle.wh_ddl_naming.specs.Objects as objects;
ghost use Rattle.wh_ddl_naming.specs.Statements as bound;
ghost use Rattle.wh_ddl_naming.specs.DynamicTables as naming;
ghost use Rattle.wh_ddl_bind.specs.View.{names_of, new_dynamic_table_of};
ghost use Rattle.wh_ddl_bind.specs.Binds.{Binds};

use crate::columns::column_findings;
use crate::objects::{object, taken_name};
use crate::tested::tested;
use crate::{Bound, Names, NewDynamicTable};
use sqlite_items::Boxed;
use std::alloc::{AllocError, Global};
use wh_ast::{CreateDynamicTable, Lag, Query};
use wh_bind::{BindFault, bind_query, columns_of};
use wh_copy::copy_query;
use wh_core_bind::BoundQuery;
use wh_expr_bind::Findings;
use wh_naming::{Named, ObjectKind};
use wh_value::Text;

/// ALTER DYNAMIC TABLE .. RESUME.
pub(crate) fn resume_dynamic_table(
    alloc: Global,
    names: &Names<'_>,
    name: &Text,
) -> Result<Bound, BindFault>
    ensures { Binds result (within bound.ResumeDynamicTable
        (objects.object_of DynamicTableObject (names_of names.now) name.now)) }
{
    Ok(Bound::ResumeDynamicTable(object(alloc, names, ObjectKind::DynamicTable, name)?))
}

/// ALTER DYNAMIC TABLE .. SUSPEND.
pub(crate) fn suspend_dynamic_table(
    alloc: Global,
    names: &Names<'_>,
    name: &Text,
) -> Result<Bound, BindFault>
    ensures { Binds result (within bound.SuspendDynamicTable
        (objects.object_of DynamicTableObject (names_of names.now) name.now)) }
{
    Ok(Bound::SuspendDynamicTable(object(alloc, names, ObjectKind::DynamicTable, name)?))
}

/// ALTER DYNAMIC TABLE .. REFRESH.
pub(crate) fn refresh_dynamic_table(
    alloc: Global,
    names: &Names<'_>,
    name: &Text,
) -> Result<Bound, BindFault>
    ensures { Binds result (within bound.RefreshDynamicTable
        (objects.object_of DynamicTableObject (names_of names.now) name.now)) }
{
    Ok(Bound::RefreshDynamicTable(object(alloc, names, ObjectKind::DynamicTable, name)?))
}

/// ALTER DYNAMIC TABLE .. SET TARGET_LAG.
pub(crate) fn set_target_lag(
    alloc: Global,
    names: &Names<'_>,
    name: &Text,
    lag: Lag,
) -> Result<Bound, BindFault>
    ensures { Binds result (within (λ id. bound.SetTargetLag id lag)
        (objects.object_of DynamicTableObject (names_of names.now) name.now)) }
{
    let table = object(alloc, names, ObjectKind::DynamicTable, name)?;
    Ok(Bound::SetTargetLag(table, lag))
}

/// DROP DYNAMIC TABLE.
pub(crate) fn drop_dynamic_table(
    alloc: Global,
    names: &Names<'_>,
    name: &Text,
) -> Result<Bound, BindFault>
    ensures { Binds result (within bound.DropDynamicTable
        (objects.object_of DynamicTableObject (names_of names.now) name.now)) }
{
    Ok(Bound::DropDynamicTable(object(alloc, names, ObjectKind::DynamicTable, name)?))
}

/// CREATE DYNAMIC TABLE.
#[tactic(auto, unfolding(wh_bind::specs::View::query_reading))]
pub(crate) fn create_dynamic_table(
    alloc: Global,
    names: &Names<'_>,
    table: &CreateDynamicTable,
) -> Result<Bound, BindFault>
    ensures { Binds result (within bound.CreateDynamicTable
        (naming.bound_dynamic_table (names_of names.now) table.now)) }
{
    let objects = inside(alloc, names.objects)?;
    let query = bind_query(alloc, &objects, 0, &table.query)?;
    Ok(Bound::CreateDynamicTable(over_query(alloc, names, table, query)?))
}

ghost use Rattle.std.specs.Prelude.{map};
ghost use Rattle.wh_naming.specs.View.{named_of, kind_of};

// The objects as a dynamic table's query sees them.
fn inside<'a>(alloc: Global, objects: &[Named<'a>]) -> Result<Vec<Named<'a>>, AllocError>
    ensures { IfOk result (λ seen. map named_of seen.items
        ≡ map naming.inside (map named_of objects.now)) }
{
    let mut seen = Vec::new(alloc);
    for object in objects {
        seen.push(seen_inside(*object))?;
    }
    Ok(seen)
}

fn seen_inside<'a>(object: Named<'a>) -> Named<'a>
    ensures { named_of result ≡ naming.inside (named_of object.entry) }
{
    Named {
        kind: kind_inside(object.kind),
        ..object
    }
}

// A stream is no source there, as a task is none anywhere.
fn kind_inside(kind: ObjectKind) -> ObjectKind
    ensures { kind_of result ≡ naming.kind_inside (kind_of kind) }
{
    match kind {
        ObjectKind::Stream => ObjectKind::Task,
        ObjectKind::Table | ObjectKind::Task | ObjectKind::DynamicTable => kind,
    }
}

ghost use Rattle.wh_core_bind.specs.View.{query_in};
ghost use Rattle.wh_ddl_naming.specs.Meant.{first_failing};
ghost use Rattle.wh_ddl_bind.specs.Binds.{Answers};

fn over_query(
    alloc: Global,
    names: &Names<'_>,
    table: &CreateDynamicTable,
    query: Boxed<BoundQuery>,
) -> Result<Boxed<NewDynamicTable>, BindFault>
    ensures answer { Answers result
        (first_failing (naming.over_query (names_of names.now) table.now (query_in query))) }
    ensures value { IfOk result (λ t. new_dynamic_table_of t
        ≡ (naming.over_query (names_of names.now) table.now (query_in query)).value) }
{
    let checked = made(alloc, table, query)?;
    let columns = column_findings(alloc, &checked.made.get().columns)?;
    let taken = taken_name(alloc, names, &table.name)?;
    tested(taken, columns.followed(checked.findings))?;
    Ok(checked.made)
}

/// A dynamic table, and what is found wrong in its query.
#[derive(Drop)]
struct Checked {
    made: Boxed<NewDynamicTable>,
    findings: Findings,
}

ghost use Rattle.wh_expr_bind.specs.View.{findings_of};

#[tactic(auto, unfolding(wh_core_bind::specs::View::query_in))]
fn made(
    alloc: Global,
    table: &CreateDynamicTable,
    query: Boxed<BoundQuery>,
) -> Result<Checked, AllocError>
    ensures made { IfOk result (λ c. new_dynamic_table_of c.made
        ≡ naming.new_dynamic_table table.now (query_in query)) }
    ensures findings { IfOk result (λ c. findings_of c.findings ≡ (query_in query).findings) }
{
    let columns = columns_of(alloc, &query.get().outputs)?;
    let name = table.name.copy(alloc)?;
    let query_text = table.query_text.copy(alloc)?;
    let tree = copied_tree(alloc, &table.query)?;
    let query = query.into_inner();
    let made = NewDynamicTable {
        name,
        lag: table.lag,
        mode: table.mode,
        initialize: table.initialize,
        tree,
        query: query.query,
        columns,
        sources: query.sources,
        is_wide: query.is_wide,
        query_text,
    };
    Ok(Checked {
        made: Boxed::new(alloc, made)?,
        findings: query.findings,
    })
}

fn copied_tree(alloc: Global, query: &Query) -> Result<Boxed<Query>, AllocError>
    ensures { IfOk result (λ copy. copy ≡ query.now) }
{
    Boxed::new(alloc, copy_query(alloc, query)?)
}
