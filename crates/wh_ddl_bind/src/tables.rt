ghost use Rattle.std.specs.Prelude.{◌≡◌, IfOk};
ghost use Rattle.wh_naming.specs.Scope.{TableObject};
ghost use Rattle.wh_ddl_naming.specs.Meant.{within};
ghost use Rattle.wh_ddl_naming.specs.Objects as objects;
ghost use Rattle.wh_ddl_naming.specs.Statements as bound;
ghost use Rattle.wh_ddl_naming.specs.Tables as naming;
ghost use Rattle.wh_ddl_bind.specs.View.{names_of, new_table_of};
ghost use Rattle.wh_ddl_bind.specs.Binds.{Answers, Binds};

use crate::columns::column_findings;
use crate::objects::{is_same_kind, kind_findings, object, taken_name};
use crate::tested::tested;
use crate::{Bound, Names, NewTable};
use sqlite_items::Boxed;
use std::alloc::{AllocError, Global};
use wh_ast::CreateTable;
use wh_bind::{BindFault, copied_columns, find};
use wh_expr_bind::Findings;
use wh_naming::{Named, ObjectKind};
use wh_value::Text;

/// DROP TABLE.
pub(crate) fn drop_table(alloc: Global, names: &Names<'_>, name: &Text) -> Result<Bound, BindFault>
    ensures { Binds result (within bound.DropTable
        (objects.object_of TableObject (names_of names.now) name.now)) }
{
    Ok(Bound::DropTable(object(alloc, names, ObjectKind::Table, name)?))
}

/// CREATE TABLE, and OR REPLACE.
pub(crate) fn create_table(
    alloc: Global,
    names: &Names<'_>,
    table: &CreateTable,
) -> Result<Bound, BindFault>
    ensures { Binds result
        (within bound.CreateTable (naming.bound_table (names_of names.now) table.now)) }
{
    if table.replace {
        Ok(Bound::CreateTable(replacing(alloc, names, table)?))
    } else {
        Ok(Bound::CreateTable(creating(alloc, names, table)?))
    }
}

ghost use Rattle.std.specs.Prelude.{None, map};
ghost use Rattle.wh_value.specs.View.{column_of};
ghost use Rattle.wh_naming.specs.Findings as wrong;
ghost use Rattle.wh_naming.specs.Scope.{named};
ghost use Rattle.wh_ddl_naming.specs.Meant.{first_failing_of};

fn creating(
    alloc: Global,
    names: &Names<'_>,
    table: &CreateTable,
) -> Result<Boxed<NewTable>, BindFault>
    ensures answer { Answers result (first_failing_of
        (objects.taken_name (names_of names.now) table.now.name)
        (naming.column_findings (naming.column_names (map column_of table.now.columns)))) }
    ensures value { IfOk result (λ t. new_table_of t ≡ naming.new_table table.now None) }
{
    let findings = column_findings(alloc, table.columns.as_slice())?;
    let taken = taken_name(alloc, names, &table.name)?;
    tested(taken, findings)?;
    Ok(new_table(alloc, table, None)?)
}

fn replacing(
    alloc: Global,
    names: &Names<'_>,
    table: &CreateTable,
) -> Result<Boxed<NewTable>, BindFault>
    ensures answer { Answers result (first_failing_of None (wrong.followed
        (naming.replace_findings table.now.name
        (named (names_of names.now).objects table.now.name))
        (naming.column_findings (naming.column_names (map column_of table.now.columns))))) }
    ensures value { IfOk result (λ t. new_table_of t ≡ naming.new_table table.now
        (named (names_of names.now).objects table.now.name)) }
{
    let replaced = find(names.objects, &table.name);
    let kind = replace_findings(alloc, &table.name, replaced)?;
    let columns = column_findings(alloc, table.columns.as_slice())?;
    tested(None, kind.followed(columns))?;
    Ok(new_table(alloc, table, replaced)?)
}

ghost use Rattle.std.specs.Prelude.{option_map};
ghost use Rattle.wh_naming.specs.View.{named_of};
ghost use Rattle.wh_expr_bind.specs.View.{findings_of};

// OR REPLACE takes the place of a table, or of nothing.
fn replace_findings(
    alloc: Global,
    name: &Text,
    replaced: Option<Named<'_>>,
) -> Result<Findings, AllocError>
    ensures { IfOk result (λ f. findings_of f
        ≡ naming.replace_findings name.now (option_map named_of replaced.entry)) }
{
    match replaced {
        Some(object) => kind_findings(alloc, is_same_kind(object.kind, ObjectKind::Table), name),
        None => Ok(Findings::nothing()),
    }
}

fn new_table(
    alloc: Global,
    table: &CreateTable,
    replaced: Option<Named<'_>>,
) -> Result<Boxed<NewTable>, AllocError>
    ensures { IfOk result (λ t. new_table_of t
        ≡ naming.new_table table.now (option_map named_of replaced.entry)) }
{
    let columns = copied_columns(alloc, table.columns.as_slice())?;
    let name = table.name.copy(alloc)?;
    Boxed::new(
        alloc,
        NewTable {
            name,
            replaced: id_of(replaced),
            columns,
            retention: table.retention,
        },
    )
}

fn id_of(object: Option<Named<'_>>) -> Option<u32>
    ensures { result ≡ option_map (λ object. object.id) (option_map named_of object.entry) }
{
    match object {
        Some(object) => Some(object.id),
        None => None,
    }
}
