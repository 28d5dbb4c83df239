ghost use Rattle.std.specs.Prelude.{◌≡◌, ◌<◌, ◌+◌, ◌||◌, map, length, drop, IfOk};
ghost use Rattle.wh_value.specs.View.{column_of};
ghost use Rattle.wh_meaning.specs.Query as meaning;
ghost use Rattle.wh_scalar.specs.View.{scalar_of};
ghost use Rattle.wh_algebra.specs.View.{query_of};
ghost use Rattle.wh_expr_bind.specs.View.{entries_of, findings_of};
ghost use Rattle.wh_naming.specs.Findings as wrong;
ghost use Rattle.wh_naming.specs.Select as naming;
ghost use Rattle.wh_core_bind.specs.View.{joined_in};
ghost use Rattle.wh_bind.specs.Steps.{started, entered, more_entries};
ghost use Rattle.wh_bind.specs.View.{source_in, source_part, join_part};

use crate::sources::BoundSource;
use crate::unions::{behind, both_ids};
use sqlite_items::Boxed;
use std::alloc::{AllocError, Global};
use wh_algebra::Query;
use wh_ast::{FromItem, Join};
use wh_core_bind::{Joined, condition};
use wh_expr_bind::{Entry, Findings};
use wh_scalar::Scalar;
use wh_value::{Column, Text};

/// The entry behind FROM.
#[tactic(auto, unfolding(crate::specs::Steps::started, crate::specs::View::source_in, wh_core_bind::specs::View::joined_in))]
pub(crate) fn first_entry(
    alloc: Global,
    from: &FromItem,
    joins: &[Join],
    source: Boxed<BoundSource>,
) -> Result<Boxed<Joined>, AllocError>
    ensures { IfOk result (λ j. joined_in j
        ≡ started (source_part from.now) (map join_part joins.now) (source_in source)) }
{
    let mut entries = Vec::with_capacity(alloc, 1)?;
    let name = source_name(from).copy(alloc)?;
    let taken = taken_findings(alloc, &name, joins)?;
    let source = source.into_inner();
    let columns = source.columns;
    entries.push(Entry { name, columns }).unwrap();
    Boxed::new(
        alloc,
        Joined {
            query: source.query,
            entries,
            sources: source.sources,
            findings: source.findings.followed(taken),
            is_wide: source.is_wide,
        },
    )
}

/// One entry more, before those of the joins behind it. Its ON sees the entries to its left, and
/// itself.
#[tactic(auto, unfolding(crate::specs::Steps::entered, crate::specs::View::source_in, wh_core_bind::specs::View::joined_in))]
pub(crate) fn with_entry(
    alloc: Global,
    left: Boxed<Joined>,
    join: &Join,
    behind: &[Join],
    source: Boxed<BoundSource>,
) -> Result<Boxed<Joined>, AllocError>
    ensures { IfOk result (λ j. joined_in j ≡ entered (joined_in left)
        (join_part join.now) (map join_part behind.now) (source_in source)) }
{
    let name = source_name(&join.source);
    let taken = taken_findings(alloc, name, behind)?;
    let name = name.copy(alloc)?;
    let sources = both_ids(alloc, &left.get().sources, &source.get().sources)?;
    let left = left.into_inner();
    let source = source.into_inner();
    let entries = with_last(left.entries, name, source.columns)?;
    let on = condition(alloc, &entries, &join.on)?;
    let above = Boxed::new(alloc, left.query)?;
    let below = Boxed::new(alloc, source.query)?;
    let query = joined_rows(above, below, on.scalar);
    let found = source.findings.followed(taken).followed(on.findings);
    Boxed::new(
        alloc,
        Joined {
            query,
            entries,
            sources,
            findings: left.findings.followed(found),
            is_wide: either(left.is_wide, source.is_wide),
        },
    )
}

fn joined_rows(left: Boxed<Query>, right: Boxed<Query>, on: Scalar) -> Query
    ensures { query_of result ≡ meaning.Join (query_of left) (query_of right) (scalar_of on) }
{
    Query::Join(left, right, on)
}

fn either(a: bool, b: bool) -> bool
    ensures { result ≡ a || b }
{
    a || b
}

fn with_last(
    mut entries: Vec<Entry>,
    name: Text,
    columns: Vec<Column>,
) -> Result<Vec<Entry>, AllocError>
    ensures { IfOk result (λ es. entries_of es.items
        ≡ more_entries (entries_of entries.items) name (map column_of columns.items)) }
{
    entries.push(Entry { name, columns })?;
    Ok(entries)
}

/// An entry's name is its alias, or else its object's name.
#[tactic(auto, unfolding(crate::specs::View::source_part, wh_naming::specs::Select::source_step))]
pub fn source_name(source: &FromItem) -> &Text
    ensures { result.now ≡ (source_part source.now).name }
{
    match source {
        FromItem::Named(name, None) => name,
        FromItem::Named(_, Some(alias)) => alias,
        FromItem::Subquery(_, alias) => alias,
    }
}

// An entry's name that comes again is taken.
fn taken_findings(alloc: Global, name: &Text, joins: &[Join]) -> Result<Findings, AllocError>
    ensures { IfOk result (λ f. findings_of f ≡ wrong.taken_if
        (naming.comes_again name.now (map join_part joins.now)) name.now) }
{
    if comes_again(name, joins) {
        Ok(Findings::taken(name.copy(alloc)?))
    } else {
        Ok(Findings::nothing())
    }
}

fn comes_again(name: &Text, joins: &[Join]) -> bool
    ensures { result ≡ naming.comes_again name.now (map join_part joins.now) }
{
    for join in joins {
        if has_name(join, name) {
            return true;
        }
    }
    false
}

ghost use Rattle.std.specs.Prelude.{bytes_eq};

#[tactic(auto, using(crate::proofs::Layers::join_source))]
fn has_name(join: &Join, name: &Text) -> bool
    ensures { result ≡ bytes_eq (naming.part_name (join_part join.now)) name.now }
{
    source_name(&join.source) == name
}

/// The joins behind a place.
pub(crate) fn joins_behind(joins: &[Join], place: usize) -> &[Join]
    requires { place < length joins.now }
    ensures { result.now ≡ drop (place + 1) joins.now }
{
    &joins[place + 1..]
}

/// The number of the next source behind those of the entries so far.
#[tactic(auto, unfolding(wh_core_bind::specs::View::joined_in))]
pub(crate) fn number_behind(next: u32, left: &Boxed<Joined>) -> Result<u32, AllocError>
    ensures { IfOk result (λ n. n ≡ next + length (joined_in left.now).sources) }
{
    behind(next, left.get().sources.len())
}
