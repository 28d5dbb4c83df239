//! Queries of dynamic tables, bound over what they are kept with.
use crate::{Catalog, StoredKind, StoredObject};
use std::alloc::AllocError;
use wh_algebra::Query;
use wh_bind::{bind_query, columns_of};
use wh_core_bind::BoundQuery;
use wh_dynamic::{DynamicQuery, Kept, NamedSource};
use wh_expr_bind::Findings;
use wh_group::grouping_of;
use wh_naming::{Named, ObjectKind};
use wh_value::{Column, ColumnType};

impl Catalog {
    ghost use Rattle.std.specs.Prelude.{◌≡◌, ◌++◌, ◌∷◌, [], map, option_map, OnOk, IfOk};
    ghost use Rattle.std.specs.List.{list_all};
    ghost use Rattle.std.specs.Option.{option_map_or};
    ghost use Rattle.wh_value.specs.View.{column_of};
    ghost use Rattle.wh_naming.specs.View.{named_of};
    ghost use Rattle.wh_state.specs.State.{at_id};
    ghost use Rattle.wh_state.specs.Bound.{named_as, names_among, query_bound, grouping_bound};
    ghost use Rattle.wh_state.specs.Bound.{kept_first, kept_for};
    ghost use Rattle.wh_dynamic.specs.View.{query_of, source_of, kept_of};
    ghost use Rattle.wh_catalog.specs.Catalog.{objects_of};
    ghost use Rattle.wh_catalog.specs.Conditions.{is_live_table};
    ghost use Rattle.wh_catalog.specs.DynamicConditions.{are_sources, binds, is_right};

    /// Whether a query binds to these columns.
    pub(crate) fn binds(&self, query: &DynamicQuery, columns: &[Column]) -> Result<bool, AllocError>
        ensures { IfOk result (λ found. found
            ≡ binds (objects_of self.now) (query_of query.now) (map column_of columns.now)) }
    {
        if !self.are_sources(&query.sources) {
            return Ok(false);
        }
        let is_right = self.gives(query, columns)?;
        Ok(is_right)
    }

    // Whether the sources live, and a name stands for one of them.
    fn are_sources(&self, sources: &[NamedSource]) -> bool
        ensures { result ≡ are_sources (objects_of self.now) (map source_of sources.now) }
    {
        self.are_live_sources(sources) && have_one_id(sources, sources)
    }

    fn are_live_sources(&self, sources: &[NamedSource]) -> bool
        ensures { result ≡ list_all (λ s. is_live_table (at_id (objects_of self.now) s.id))
            sources.now }
    {
        sources.iter().all(|source| self.is_live_source(source))
    }

    fn is_live_source(&self, source: &NamedSource) -> bool
        ensures { result ≡ is_live_table (at_id (objects_of self.now) source.now.id) }
    {
        self.live_table(source.id).is_some()
    }

    // Whether nothing is found wrong with a query that gives these columns.
    #[tactic(auto, unfolding(wh_bind::specs::View::query_reading))]
    fn gives(&self, query: &DynamicQuery, columns: &[Column]) -> Result<bool, AllocError>
        ensures { IfOk result (λ gives. gives ≡ is_right
            (query_bound (objects_of self.now) (query_of query.now))
            (map column_of columns.now)) }
    {
        let names = self.names_among(&query.sources)?;
        let bound = bind_query(self.alloc, &names, 0, query.tree.get())?;
        let is_right = is_right(self.alloc, bound.into_inner(), columns)?;
        Ok(is_right)
    }

    /// The groups of a new dynamic table of a query, where they are kept.
    pub fn kept_for(
        &self,
        is_incremental: bool,
        query: &DynamicQuery,
    ) -> Result<Option<Kept>, AllocError>
        ensures { IfOk result (λ kept. option_map kept_of kept
            ≡ kept_for (objects_of self.now) is_incremental (query_of query.now)) }
    {
        if !is_incremental {
            return Ok(None);
        }
        self.kept_of_query(query)
    }

    #[tactic(auto, unfolding(wh_bind::specs::View::query_reading, wh_core_bind::specs::View::query_in))]
    fn kept_of_query(&self, query: &DynamicQuery) -> Result<Option<Kept>, AllocError>
        ensures { IfOk result (λ kept. option_map kept_of kept
            ≡ option_map kept_first (grouping_bound (objects_of self.now) (query_of query.now))) }
    {
        let names = self.names_among(&query.sources)?;
        let bound = bind_query(self.alloc, &names, 0, query.tree.get())?;
        let bound = bound.into_inner();
        let kept = kept_first(self.alloc, &bound.query)?;
        Ok(kept)
    }

    // The objects that a query names, each under the name that it is kept with.
    fn names_among<'a>(&'a self, sources: &'a [NamedSource]) -> Result<Vec<Named<'a>>, AllocError>
        ensures { IfOk result (λ names. map named_of names.items
            ≡ names_among (objects_of self.now) (map source_of sources.now)) }
    {
        let mut names = Vec::new(self.alloc);
        for source in sources {
            self.add_name(&mut names, source)?;
        }
        Ok(names)
    }

    fn add_name<'a>(
        &'a self,
        names: &mut Vec<Named<'a>>,
        source: &'a NamedSource,
    ) -> Result<(), AllocError>
        ensures { OnOk result (map named_of names.new.items ≡ map named_of names.old.items
            ++ option_map_or (λ o. named_as (source_of source.now) o ∷ [])
            (at_id (objects_of self.now) source.now.id) []) }
    {
        let Some(object) = self.object(source.id) else {
            return Ok(());
        };
        names.push(named_as(source, object))?;
        Ok(())
    }
}

ghost use Rattle.std.specs.Prelude.{◌≡◌, not, map, is_some, option_map, IfOk};
ghost use Rattle.std.specs.List.{list_all};
ghost use Rattle.wh_value.specs.View.{column_of, type_of};
ghost use Rattle.wh_naming.specs.Findings.{first_failing};
ghost use Rattle.wh_naming.specs.Typing.{same_type};
ghost use Rattle.wh_naming.specs.View.{named_of, kind_of};
ghost use Rattle.wh_expr_bind.specs.View.{findings_of};
ghost use Rattle.wh_core_bind.specs.View.{query_in};
ghost use Rattle.wh_algebra.specs.View as algebra;
ghost use Rattle.wh_maintenance.specs.Above.{grouping};
ghost use Rattle.wh_state.specs.Bound.{but_taken, named_as, source_kind, kept_first};
ghost use Rattle.wh_dynamic.specs.View.{source_of, kept_of};
ghost use Rattle.wh_catalog.specs.Undoable.{object_in};
ghost use Rattle.wh_catalog.specs.Object.{kept_object, stored_kind};
ghost use Rattle.wh_catalog.specs.DynamicConditions.{agrees, same_column, same_columns, is_right};

use std::alloc::Global;

fn have_one_id(all: &[NamedSource], sources: &[NamedSource]) -> bool
    ensures { result ≡ list_all (λ s. list_all (λ other. agrees (source_of s) (source_of other))
        all.now) sources.now }
{
    sources.iter().all(|source| has_one_id(all, source))
}

// Whether no other object has the source's name.
fn has_one_id(all: &[NamedSource], source: &NamedSource) -> bool
    ensures { result ≡ list_all (λ other. agrees (source_of source.now) (source_of other))
        all.now }
{
    all.iter().all(|other| agrees(source, other))
}

fn agrees(source: &NamedSource, other: &NamedSource) -> bool
    ensures { result ≡ agrees (source_of source.now) (source_of other.now) }
{
    other.name != source.name || other.id == source.id
}

/// An object under the name that a query is kept with.
pub fn named_as<'a>(source: &'a NamedSource, object: &'a StoredObject) -> Named<'a>
    ensures { named_of result
        ≡ named_as (source_of source.now) (object_in (kept_object object.now)) }
{
    Named {
        name: &source.name,
        id: source.id,
        kind: source_kind(&object.kind),
        columns: object.kind.columns(),
    }
}

// A stream is no source of a dynamic table, as a task is none anywhere.
fn source_kind(kind: &StoredKind) -> ObjectKind
    ensures { kind_of result ≡ source_kind (stored_kind kind.now) }
{
    match kind {
        StoredKind::Table(_) => ObjectKind::Table,
        StoredKind::Stream(_) | StoredKind::Task(_) => ObjectKind::Task,
        StoredKind::Dynamic(_, _) => ObjectKind::DynamicTable,
    }
}

#[tactic(auto, unfolding(wh_core_bind::specs::View::query_in))]
fn is_right(alloc: Global, query: BoundQuery, columns: &[Column]) -> Result<bool, AllocError>
    ensures { IfOk result (λ right. right
        ≡ is_right (query_in query) (map column_of columns.now)) }
{
    let made = columns_of(alloc, &query.outputs)?;
    Ok(is_free(query.findings) && !query.is_wide && same_columns(&made, columns))
}

// The groups of a query as they are kept first, where they may be.
fn kept_first(alloc: Global, query: &Query) -> Result<Option<Kept>, AllocError>
    ensures { IfOk result (λ kept. option_map kept_of kept
        ≡ option_map kept_first (grouping (algebra.query_of query.now))) }
{
    let Some(found) = grouping_of(query) else {
        return Ok(None);
    };
    let Ok(keys) = u32::try_from(found.by.len()) else {
        return Err(AllocError);
    };
    let Ok(calls) = u32::try_from(found.calls.len()) else {
        return Err(AllocError);
    };
    Ok(Some(Kept::first(alloc, keys, calls)))
}

// Whether nothing is found, but for names of columns that come twice.
fn is_free(findings: Findings) -> bool
    ensures { result ≡ not (is_some (first_failing (but_taken (findings_of findings)))) }
{
    let findings = Findings {
        taken: None,
        ..findings
    };
    findings.first_failing().is_none()
}

#[cycle(same_columns)]
fn same_columns(left: &[Column], right: &[Column]) -> bool
    ensures { result ≡ same_columns (map column_of left.now) (map column_of right.now) }
{
    match (left, right) {
        ([], []) => true,
        ([], [_, _behind @ ..]) => false,
        ([_, _behind @ ..], []) => false,
        ([a, left @ ..], [b, right @ ..]) => same_column(a, b) && same_columns(left, right),
    }
}

fn same_column(left: &Column, right: &Column) -> bool
    ensures { result ≡ same_column (column_of left.now) (column_of right.now) }
{
    left.name == right.name && same_type(left.column_type, right.column_type)
}

fn same_type(left: ColumnType, right: ColumnType) -> bool
    ensures { result ≡ same_type (type_of left) (type_of right) }
{
    left == right
}
