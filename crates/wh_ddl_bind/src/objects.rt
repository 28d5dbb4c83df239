ghost use Rattle.std.specs.Prelude.{◌≡◌, IfOk};
ghost use Rattle.wh_naming.specs.View.{kind_of};
ghost use Rattle.wh_ddl_naming.specs.Meant.{first_failing};
ghost use Rattle.wh_ddl_naming.specs.Objects as naming;
ghost use Rattle.wh_ddl_bind.specs.View.{names_of, found_in};
ghost use Rattle.wh_ddl_bind.specs.Binds.{Answers};

use crate::Names;
use crate::tested::tested;
use std::alloc::{AllocError, Global};
use wh_bind::{BindFault, find};
use wh_expr_bind::Findings;
use wh_naming::ObjectKind;
use wh_value::Text;

/// The id of the object of a kind that a statement names.
pub(crate) fn object(
    alloc: Global,
    names: &Names<'_>,
    kind: ObjectKind,
    name: &Text,
) -> Result<u32, BindFault>
    ensures answer { Answers result
        (first_failing (naming.object_of (kind_of kind) (names_of names.now) name.now)) }
    ensures value { IfOk result (λ id. id
        ≡ (naming.object_of (kind_of kind) (names_of names.now) name.now).value) }
{
    id_of(object_of(alloc, names, kind, name)?)
}

/// An object's id, and what is found wrong with its name.
#[derive(Drop)]
pub(crate) struct Found {
    pub id: u32,
    pub findings: Findings,
}

/// The id, where nothing is found wrong, and the first failing test otherwise.
pub(crate) fn id_of(found: Found) -> Result<u32, BindFault>
    ensures answer { Answers result (first_failing (found_in found)) }
    ensures value { IfOk result (λ id. id ≡ (found_in found).value) }
{
    let id = found.id;
    tested(None, found.findings)?;
    Ok(id)
}

/// The object of a kind.
pub(crate) fn object_of(
    alloc: Global,
    names: &Names<'_>,
    kind: ObjectKind,
    name: &Text,
) -> Result<Found, AllocError>
    ensures { IfOk result (λ f. found_in f
        ≡ naming.object_of (kind_of kind) (names_of names.now) name.now) }
{
    match find(names.objects, name) {
        Some(object) => known(alloc, name, object.id, is_same_kind(object.kind, kind)),
        None => unknown(alloc, name),
    }
}

pub(crate) fn is_same_kind(a: ObjectKind, b: ObjectKind) -> bool
    ensures { result ≡ naming.is_same_kind (kind_of a) (kind_of b) }
{
    match (a, b) {
        (ObjectKind::Table, ObjectKind::Table)
        | (ObjectKind::Stream, ObjectKind::Stream)
        | (ObjectKind::Task, ObjectKind::Task)
        | (ObjectKind::DynamicTable, ObjectKind::DynamicTable) => true,
        _ => false,
    }
}

ghost use Rattle.std.specs.Prelude.{None, Some, not};
ghost use Rattle.wh_naming.specs.Findings as wrong;
ghost use Rattle.wh_expr_bind.specs.View.{findings_of};
ghost use Rattle.wh_ddl_bind.specs.View.{meant_id};

/// An object that its place takes, or doesn't.
pub(crate) fn known(
    alloc: Global,
    name: &Text,
    id: u32,
    is_right: bool,
) -> Result<Found, AllocError>
    ensures { IfOk result (λ f. found_in f
        ≡ meant_id id (wrong.wrong_kind_if (not is_right) name.now)) }
{
    let findings = kind_findings(alloc, is_right, name)?;
    Ok(Found { id, findings })
}

/// A name that is no object's.
pub(crate) fn unknown(alloc: Global, name: &Text) -> Result<Found, AllocError>
    ensures { IfOk result (λ f. found_in f ≡ meant_id 0 (wrong.unknown_object name.now)) }
{
    let findings = Findings::unknown_object(name.copy(alloc)?);
    Ok(Found { id: 0, findings })
}

/// What is found wrong with the name of an object, by whether its place takes it.
pub(crate) fn kind_findings(
    alloc: Global,
    is_right: bool,
    name: &Text,
) -> Result<Findings, AllocError>
    ensures { IfOk result (λ f. findings_of f ≡ wrong.wrong_kind_if (not is_right) name.now) }
{
    if is_right {
        Ok(Findings::nothing())
    } else {
        Ok(Findings::wrong_kind(name.copy(alloc)?))
    }
}

/// A created name, where it is a live object's.
pub(crate) fn taken_name(
    alloc: Global,
    names: &Names<'_>,
    name: &Text,
) -> Result<Option<Text>, AllocError>
    ensures { IfOk result (λ taken. taken ≡ naming.taken_name (names_of names.now) name.now) }
{
    match find(names.objects, name) {
        Some(_) => Ok(Some(name.copy(alloc)?)),
        None => Ok(None),
    }
}
