ghost use Rattle.std.specs.Prelude.{◌≡◌, [], ◌∷◌, ◌++◌, List, map, option_map, IfOk, OnOk};
ghost use Rattle.wh_reply.specs.View.{refusal_view};
ghost use Rattle.wh_value.specs.View.{column_of};
ghost use Rattle.wh_naming.specs.Scope.{named};
ghost use Rattle.wh_naming.specs.View as view;
ghost use Rattle.wh_naming.specs.View.{named_of};
ghost use Rattle.wh_ddl_naming.specs.Names.{names_at, looked_up};
ghost use Rattle.wh_ddl_naming.specs.Objects.{TaskRoot};
ghost use Rattle.wh_ddl_naming.specs.Statements.{bound};
ghost use Rattle.wh_state.specs.State as state;
ghost use Rattle.wh_state.specs.Stored.{kind_meant};
ghost use Rattle.wh_machine.specs.Names as machine;
ghost use Rattle.wh_catalog.specs.Object.{object_of, stored_kind};
ghost use Rattle.wh_catalog.specs.Catalog.{state_of};
ghost use Rattle.wh_decide.specs.Names.{over};

use std::alloc::{AllocError, Global};
use wh_ast::Statement;
use wh_catalog::{Catalog, StoredKind, StoredObject};
use wh_ddl_naming::names_in;
use wh_naming::{Failing, Named, ObjectKind};
use wh_reply::Refusal;
use wh_value::{Column, Text};

// The live objects of the names that a statement writes: they decide what it stands for.
pub(crate) fn named_objects<'a>(
    alloc: Global,
    catalog: &'a Catalog,
    statement: &Statement,
) -> Result<Vec<Named<'a>>, AllocError>
    ensures { IfOk result (λ objects. (roots : List TaskRoot)
        → bound (over (map named_of objects.items) roots) statement.now
        ≡ bound (over (machine.names_from 1 (state_of catalog.now).objects) roots) statement.now) }
{
    let names = names_in(alloc, statement)?;
    live_objects(alloc, catalog, &names)
}

// Those of names, each where there is one.
fn live_objects<'a>(
    alloc: Global,
    catalog: &'a Catalog,
    names: &[&Text],
) -> Result<Vec<Named<'a>>, AllocError>
    ensures { IfOk result (λ objects. map named_of objects.items
        ≡ looked_up (machine.names_from 1 (state_of catalog.now).objects) (names_at names.now)) }
{
    let mut objects = Vec::new(alloc);
    for name in names {
        add_live(&mut objects, catalog, name)?;
    }
    Ok(objects)
}

// Adds the one of a name, if there is one.
fn add_live<'a>(
    objects: &mut Vec<Named<'a>>,
    catalog: &'a Catalog,
    name: &Text,
) -> Result<(), AllocError>
    ensures { OnOk result (map named_of objects.new.items ≡ map named_of objects.old.items
        ++ looked_up (machine.names_from 1 (state_of catalog.now).objects) (name.now ∷ [])) }
{
    if let Some(object) = live_object(catalog, name) {
        objects.push(object)?;
    }
    Ok(())
}

fn live_object<'a>(catalog: &'a Catalog, name: &Text) -> Option<Named<'a>>
    ensures { option_map named_of result
        ≡ named (machine.names_from 1 (state_of catalog.now).objects) name.now }
{
    let id = catalog.find(name.as_bytes())?;
    let object = catalog.object(id)?;
    Some(named(id, object))
}

/// An object that a statement may name.
pub fn named(id: u32, object: &StoredObject) -> Named<'_>
    ensures { named_of result
        ≡ machine.named_object id (object_of object.now) }
{
    Named {
        name: object.name(),
        id,
        kind: kind_of(object.kind()),
        columns: columns_in(object.kind()),
    }
}

fn kind_of(kind: &StoredKind) -> ObjectKind
    ensures { view.kind_of result ≡ machine.object_kind (kind_meant (stored_kind kind.now)) }
{
    match kind {
        StoredKind::Table(_) => ObjectKind::Table,
        StoredKind::Stream(_) => ObjectKind::Stream,
        StoredKind::Task(_) => ObjectKind::Task,
        StoredKind::Dynamic(_, _) => ObjectKind::DynamicTable,
    }
}

fn columns_in(kind: &StoredKind) -> &[Column]
    ensures { map column_of result.now
        ≡ state.columns_in (kind_meant (stored_kind kind.now)) }
{
    match kind {
        StoredKind::Table(table) | StoredKind::Dynamic(_, table) => table.columns(),
        StoredKind::Stream(stream) => stream.columns(),
        StoredKind::Task(_) => &[],
    }
}

/// The refusal that a failing test of names comes to.
pub fn refusal(failing: Failing) -> Refusal
    ensures { refusal_view result ≡ machine.refusal_of (view.failing_of failing) }
{
    match failing {
        Failing::UnknownName(name) => Refusal::UnknownName(name),
        Failing::WrongKind(name) => Refusal::WrongKind(name),
        Failing::NameTaken(name) => Refusal::NameTaken(name),
        Failing::TypeMismatch => Refusal::TypeMismatch,
    }
}
