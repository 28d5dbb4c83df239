ghost use Rattle.std.specs.Prelude.{◌≡◌, ◌∷◌, [], map, option_map, not, IfOk};
ghost use Rattle.wh_value.specs.View.{column_of};
ghost use Rattle.wh_naming.specs.View.{named_of, kind_of};
ghost use Rattle.wh_naming.specs.Scope as scope;
ghost use Rattle.wh_naming.specs.Select as naming;
ghost use Rattle.wh_bind.specs.Steps.{as_source};
ghost use Rattle.wh_core_bind.specs.View.{query_in};
ghost use Rattle.wh_bind.specs.View.{source_in};

use crate::merging::columns_of;
use sqlite_items::Boxed;
use std::alloc::{AllocError, Global};
use wh_algebra::Query;
use wh_core_bind::BoundQuery;
use wh_expr_bind::Findings;
use wh_naming::{Named, ObjectKind};
use wh_value::{Column, Text};

/// A FROM entry with its rows.
#[derive(Debug, Drop)]
pub struct BoundSource {
    pub query: Query,
    pub columns: Vec<Column>,
    pub sources: Vec<u32>,
    pub findings: Findings,
    pub is_wide: bool,
}

/// What a name stands for as the source of that number.
pub(crate) fn object_source(
    alloc: Global,
    names: &[Named<'_>],
    number: u32,
    name: &Text,
) -> Result<Boxed<BoundSource>, AllocError>
    ensures { IfOk result (λ s. source_in s
        ≡ naming.named_source name.now (map named_of names.now) number) }
{
    match find(names, name) {
        Some(object) => known_source(alloc, number, name, object),
        None => unknown_source(alloc, number, name),
    }
}

/// The object of a name.
pub fn find<'a>(names: &[Named<'a>], name: &Text) -> Option<Named<'a>>
    ensures { option_map named_of result ≡ scope.named (map named_of names.now) name.now }
{
    for object in names {
        if object.name == name {
            return Some(*object);
        }
    }
    None
}

#[tactic(auto, unfolding(crate::specs::View::source_in))]
fn unknown_source(alloc: Global, number: u32, name: &Text) -> Result<Boxed<BoundSource>, AllocError>
    ensures { IfOk result (λ s. source_in s ≡ naming.object_source name.now number None) }
{
    let sources = only_id(alloc, 0)?;
    let findings = Findings::unknown_object(name.copy(alloc)?);
    Boxed::new(
        alloc,
        BoundSource {
            query: Query::Scan(number),
            columns: Vec::new(alloc),
            sources,
            findings,
            is_wide: false,
        },
    )
}

#[tactic(auto, unfolding(crate::specs::View::source_in))]
fn known_source(
    alloc: Global,
    number: u32,
    name: &Text,
    object: Named<'_>,
) -> Result<Boxed<BoundSource>, AllocError>
    ensures { IfOk result (λ s. source_in s
        ≡ naming.object_source name.now number (Some (named_of object.entry))) }
{
    let sources = only_id(alloc, object.id)?;
    let columns = copied_columns(alloc, object.columns)?;
    let findings = kind_findings(alloc, object.kind, name)?;
    Boxed::new(
        alloc,
        BoundSource {
            query: Query::Scan(number),
            columns,
            sources,
            findings,
            is_wide: false,
        },
    )
}

ghost use Rattle.std.specs.Prelude.{None, Some};
ghost use Rattle.wh_naming.specs.Findings as wrong;
ghost use Rattle.wh_expr_bind.specs.View.{findings_of};

// A task has no rows.
fn kind_findings(alloc: Global, kind: ObjectKind, name: &Text) -> Result<Findings, AllocError>
    ensures { IfOk result (λ f. findings_of f
        ≡ wrong.wrong_kind_if (not (scope.is_source (kind_of kind))) name.now) }
{
    match kind {
        ObjectKind::Task => Ok(Findings::wrong_kind(name.copy(alloc)?)),
        ObjectKind::Table | ObjectKind::Stream | ObjectKind::DynamicTable => {
            Ok(Findings::nothing())
        }
    }
}

fn only_id(alloc: Global, id: u32) -> Result<Vec<u32>, AllocError>
    ensures { IfOk result (λ ids. ids.items ≡ id ∷ []) }
{
    let mut ids = Vec::new(alloc);
    ids.push(id)?;
    Ok(ids)
}

/// Equal columns, with memory of their own.
pub fn copied_columns(alloc: Global, columns: &[Column]) -> Result<Vec<Column>, AllocError>
    ensures { IfOk result (λ copies. map column_of copies.items ≡ map column_of columns.now) }
{
    let mut copies = Vec::new(alloc);
    for column in columns {
        copies.push(column.copy(alloc)?)?;
    }
    Ok(copies)
}

/// A query in parentheses as a source.
#[tactic(auto, unfolding(crate::specs::View::source_in, wh_core_bind::specs::View::query_in, crate::specs::Steps::as_source))]
pub(crate) fn query_source(
    alloc: Global,
    query: Boxed<BoundQuery>,
) -> Result<Boxed<BoundSource>, AllocError>
    ensures { IfOk result (λ s. source_in s ≡ as_source (query_in query)) }
{
    let columns = columns_of(alloc, &query.get().outputs)?;
    let query = query.into_inner();
    Boxed::new(
        alloc,
        BoundSource {
            query: query.query,
            columns,
            sources: query.sources,
            findings: query.findings,
            is_wide: query.is_wide,
        },
    )
}
