ghost use Rattle.std.specs.Prelude.{◌≡◌, map};
ghost use Rattle.wh_naming.specs.View.{named_of};
ghost use Rattle.wh_naming.specs.Changes as naming;
ghost use Rattle.wh_dml_bind.specs.Binds.{Binds};

use crate::checked::Checked;
use crate::insert::insert;
use crate::merge::merge;
use crate::target::{target_at, target_entries};
use crate::update::{delete, update};
use sqlite_items::Boxed;
use std::alloc::{AllocError, Global};
use wh_ast::{Assignment, Dml, Expr};
use wh_bind::BindFault;
use wh_bound_change::BoundChange;
use wh_naming::Named;
use wh_value::Text;

/// What a changing statement stands for over the objects that it may name.
pub fn bind_change(
    alloc: Global,
    names: &[Named<'_>],
    statement: &Dml,
) -> Result<BoundChange, BindFault>
    ensures { Binds result (naming.bound_change (map named_of names.now) statement.now) }
{
    bound(checked(alloc, names, statement)?)
}

/// The target of a change, and the sources that it reads, whatever is found wrong with it.
pub fn change_reach(
    alloc: Global,
    names: &[Named<'_>],
    statement: &Dml,
) -> Result<(u32, Vec<u32>), AllocError>
    ensures target { IfOk result (λ reach. reach.0
        ≡ (naming.bound_change (map named_of names.now) statement.now).target) }
    ensures sources { IfOk result (λ reach. reach.1.items
        ≡ (naming.bound_change (map named_of names.now) statement.now).sources) }
{
    let checked = checked(alloc, names, statement)?;
    Ok(reach(checked))
}

ghost use Rattle.std.specs.Prelude.{◌∷◌, [], unwrap_or, IfOk};
ghost use Rattle.wh_dml_bind.specs.View.{checked_in};

#[tactic(auto, unfolding(crate::specs::View::checked_in))]
fn reach(checked: Boxed<Checked>) -> (u32, Vec<u32>)
    ensures target { result.0 ≡ (checked_in checked).target }
    ensures sources { result.1.items ≡ (checked_in checked).sources }
{
    let Checked { bound, findings } = checked.into_inner();
    drop(findings);
    let BoundChange {
        target,
        sources,
        ..
    } = bound;
    (target, sources)
}

// The change, or the first failing test.
#[tactic(auto, unfolding(crate::specs::View::checked_in))]
fn bound(checked: Boxed<Checked>) -> Result<BoundChange, BindFault>
    ensures { Binds result (checked_in checked) }
{
    let Checked { bound, findings } = checked.into_inner();
    match findings.first_failing() {
        Some(failing) => {
            drop(bound);
            Err(BindFault::Failing(failing))
        }
        None => Ok(bound),
    }
}

#[tactic(auto, unfolding(wh_naming::specs::Changes::bound_change))]
fn checked(
    alloc: Global,
    names: &[Named<'_>],
    statement: &Dml,
) -> Result<Boxed<Checked>, AllocError>
    ensures { IfOk result (λ c. checked_in c
        ≡ naming.bound_change (map named_of names.now) statement.now) }
{
    match statement {
        Dml::Insert(name, listed, rows) => {
            let target = target_at(alloc, names, name)?;
            insert(alloc, names, target, listed, rows)
        }
        Dml::Update(name, parts, filter) => {
            updated(alloc, names, name, parts.as_slice(), filter)
        }
        Dml::Delete(name, filter) => deleted(alloc, names, name, filter),
        Dml::Merge(name, alias, source, on, clauses) => {
            let target = target_at(alloc, names, name)?;
            let name = entry_name(alias, name);
            merge(alloc, names, target, name, source, on, clauses.as_slice())
        }
    }
}

fn updated(
    alloc: Global,
    names: &[Named<'_>],
    name: &Text,
    parts: &[Assignment],
    filter: &Option<Expr>,
) -> Result<Boxed<Checked>, AllocError>
    ensures { IfOk result (λ c. checked_in c ≡ naming.bound_update
        (naming.target_at (map named_of names.now) name.now)
        (naming.target_entry name.now (naming.target_at (map named_of names.now) name.now) ∷ [])
        parts.now filter.now) }
{
    let target = target_at(alloc, names, name)?;
    let entries = target_entries(alloc, name, &target)?;
    update(alloc, target, &entries, parts, filter)
}

fn deleted(
    alloc: Global,
    names: &[Named<'_>],
    name: &Text,
    filter: &Option<Expr>,
) -> Result<Boxed<Checked>, AllocError>
    ensures { IfOk result (λ c. checked_in c ≡ naming.bound_delete
        (naming.target_at (map named_of names.now) name.now)
        (naming.target_entry name.now (naming.target_at (map named_of names.now) name.now) ∷ [])
        filter.now) }
{
    let target = target_at(alloc, names, name)?;
    let entries = target_entries(alloc, name, &target)?;
    delete(alloc, target, &entries, filter)
}

// A target's name is its alias, or else its table's name.
fn entry_name<'a>(alias: &'a Option<Text>, name: &'a Text) -> &'a Text
    ensures { result.now ≡ unwrap_or alias.now name.now }
{
    match alias {
        Some(alias) => alias,
        None => name,
    }
}
