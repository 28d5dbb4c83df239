//! What of each source isn't in another instance's: the partitions whose numbers that one doesn't
//! have, and the rows that stand in memory.
ghost use Rattle.std.specs.Prelude.{◌≡◌, ◌++◌, [], ◌∷◌, true, false, is_some, None};
ghost use Rattle.std.specs.Prelude.{OnSome, IfOk, OnOk};
ghost use Rattle.std.specs.Bool.{OnTrue};
ghost use Rattle.wh_filed.specs.Filed.{filed_at};
ghost use Rattle.wh_maintenance.specs.Parts.{has};
ghost use Rattle.wh_delta.specs.Moved as specs;
ghost use Rattle.wh_delta.specs.Moved.{same_number, view_of, views_of, moved_of};
ghost use Rattle.wh_delta.specs.Moved.{NumbersRise, LowerBefore, NoneLowerAt};
ghost use Rattle.wh_delta.specs.Views.{view_held, views_held};

use std::alloc::{AllocError, Global};
use wh_exec::{Loaded, Parts, Source};
use wh_filed::FiledPartition;
use wh_part::Partition;
use wh_value::Row;

/// Some partitions of a source, and all its rows in memory.
#[derive(Drop)]
pub(crate) enum Held<'a> {
    Parts(Vec<&'a FiledPartition>, &'a [Partition]),
    Loaded(Loaded<'a>),
    Rows(&'a [Row]),
}

/// What of each source the others, by their places, don't have.
pub(crate) fn moved<'a>(
    alloc: Global,
    sources: &[Source<'a>],
    others: &[Source<'_>],
) -> Result<Vec<Held<'a>>, AllocError>
    ensures { IfOk result (λ held. views_held held.items
        ≡ moved_of (views_of sources.now) (views_of others.now)) }
{
    let mut held = Vec::new(alloc);
    add_moved(alloc, &mut held, sources, others)?;
    Ok(held)
}

fn add_moved<'a>(
    alloc: Global,
    held: &mut Vec<Held<'a>>,
    sources: &[Source<'a>],
    others: &[Source<'_>],
) -> Result<(), AllocError>
    ensures { OnOk result (views_held held.new.items ≡ views_held held.old.items
        ++ moved_of (views_of sources.now) (views_of others.now)) }
{
    match (sources, others) {
        ([], _) => Ok(()),
        ([source, rest @ ..], []) => {
            held.push(moved_one(alloc, source, &[])?)?;
            add_moved(alloc, held, rest, &[])
        }
        ([source, rest @ ..], [other, behind @ ..]) => {
            held.push(moved_one(alloc, source, filed_of(other))?)?;
            add_moved(alloc, held, rest, behind)
        }
    }
}

fn moved_one<'a>(
    alloc: Global,
    source: &Source<'a>,
    others: &[&FiledPartition],
) -> Result<Held<'a>, AllocError>
    ensures { IfOk result (λ held. view_held held
        ≡ (specs.only_in (view_of source.now).0 (filed_at others.now), (view_of source.now).1)) }
{
    match source {
        Source::Parts(parts) => {
            let filed = only_in(alloc, parts.filed, others)?;
            Ok(Held::Parts(filed, parts.made))
        }
        Source::Loaded(parts) => Ok(Held::Loaded(*parts)),
        Source::Rows(rows) => Ok(Held::Rows(rows)),
    }
}

fn filed_of<'a>(source: &Source<'a>) -> &'a [&'a FiledPartition]
    ensures { filed_at result.now ≡ (view_of source.now).0 }
{
    match source {
        Source::Parts(parts) => parts.filed,
        Source::Loaded(_) | Source::Rows(_) => &[],
    }
}

/// The sources that these are.
pub(crate) fn sources_held<'a>(
    alloc: Global,
    held: &'a [Held<'_>],
) -> Result<Vec<Source<'a>>, AllocError>
    ensures { IfOk result (λ sources. views_of sources.items ≡ views_held held.now) }
{
    let mut sources = Vec::new(alloc);
    for one in held {
        sources.push(source_held(one))?;
    }
    Ok(sources)
}

fn source_held<'a>(held: &'a Held<'_>) -> Source<'a>
    ensures { view_of result ≡ view_held held.now }
{
    match held {
        Held::Parts(filed, made) => Source::Parts(Parts { filed, made }),
        Held::Loaded(parts) => Source::Loaded(*parts),
        Held::Rows(rows) => Source::Rows(rows),
    }
}

// ---- partitions by their numbers

/// The partitions whose numbers no other one has. Both lists mostly rise by number: then one pass is
/// enough, however many partitions moved.
pub fn only_in<'a>(
    alloc: Global,
    some: &[&'a FiledPartition],
    others: &[&FiledPartition],
) -> Result<Vec<&'a FiledPartition>, AllocError>
    ensures { IfOk result (λ found. filed_at found.items
        ≡ specs.only_in (filed_at some.now) (filed_at others.now)) }
{
    if rises(some) && rises(others) {
        return only_by_walk(alloc, some, others);
    }
    let mut found = Vec::new(alloc);
    let mut near = 0;
    for one in some {
        near = sift(one, others, near, &mut found)?;
    }
    Ok(found)
}

// One more seen. Answers where the next one is sought first: most stand in both lists, and in the
// same order.
fn sift<'a>(
    one: &'a FiledPartition,
    others: &[&FiledPartition],
    near: usize,
    found: &mut Vec<&'a FiledPartition>,
) -> Result<usize, AllocError>
    ensures { (seen : _) → filed_at found.old.items ≡ specs.only_in seen (filed_at others.now)
        → OnOk result (filed_at found.new.items
        ≡ specs.only_in (seen ++ one.now ∷ []) (filed_at others.now)) }
{
    let Some(place) = place_of(one, others, near) else {
        found.push(one)?;
        return Ok(near);
    };
    Ok(place)
}

// The place of one with its number, sought from a place on, and then from the start.
#[tactic(auto, using(crate::proofs::Places::place_told))]
fn place_of(one: &FiledPartition, others: &[&FiledPartition], near: usize) -> Option<usize>
    ensures { is_some result ≡ has same_number (filed_at others.now) one.now }
{
    let place = place_from(one, others, near);
    if place.is_some() {
        return place;
    }
    place_from(one, others, 0)
}

fn place_from(one: &FiledPartition, others: &[&FiledPartition], from: usize) -> Option<usize>
    ensures found { OnSome result (has same_number (filed_at others.now) one.now ≡ true) }
    ensures none { from ≡ 0 → result ≡ None
        → has same_number (filed_at others.now) one.now ≡ false }
{
    for place in from..others.len() {
        if one.number() == others[place].number() {
            return Some(place);
        }
    }
    None
}

// ---- partitions by rising numbers

// Whether each number is below the next one.
fn rises(partitions: &[&FiledPartition]) -> bool
    ensures { OnTrue result (NumbersRise 0 (filed_at partitions.now)) }
{
    for place in 1..partitions.len() {
        if partitions[place].number() <= partitions[place - 1].number() {
            return false;
        }
    }
    true
}

// The same, with one pass over both.
fn only_by_walk<'a>(
    alloc: Global,
    some: &[&'a FiledPartition],
    others: &[&FiledPartition],
) -> Result<Vec<&'a FiledPartition>, AllocError>
    requires some { NumbersRise 0 (filed_at some.now) }
    requires others { NumbersRise 0 (filed_at others.now) }
    ensures { IfOk result (λ found. filed_at found.items
        ≡ specs.only_in (filed_at some.now) (filed_at others.now)) }
{
    let mut found = Vec::new(alloc);
    let mut near = 0;
    for one in some {
        near = pass(one, others, near, &mut found)?;
    }
    Ok(found)
}

// One more seen. Answers where it would stand among the others: no later one stands in front of
// that.
fn pass<'a>(
    one: &'a FiledPartition,
    others: &[&FiledPartition],
    near: usize,
    found: &mut Vec<&'a FiledPartition>,
) -> Result<usize, AllocError>
    requires rise { NumbersRise 0 (filed_at others.now) }
    requires front { LowerBefore one.now others.now near }
    ensures found { (seen : _) → filed_at found.old.items ≡ specs.only_in seen (filed_at others.now)
        → OnOk result (filed_at found.new.items
        ≡ specs.only_in (seen ++ one.now ∷ []) (filed_at others.now)) }
    ensures front { IfOk result (λ place. LowerBefore one.now others.now place) }
{
    let place = first_not_lower(one, others, near);
    if !stands_at(one, others, place) {
        found.push(one)?;
    }
    Ok(place)
}

// The place of the first one whose number isn't lower, from a place on; the end where there is
// none.
fn first_not_lower(one: &FiledPartition, others: &[&FiledPartition], from: usize) -> usize
    requires { LowerBefore one.now others.now from }
    ensures front { LowerBefore one.now others.now result }
    ensures behind { NoneLowerAt one.now others.now result }
{
    for place in from..others.len() {
        if one.number() <= others[place].number() {
            return place;
        }
    }
    others.len()
}

// Whether one has its number, by the place where it would stand.
fn stands_at(one: &FiledPartition, others: &[&FiledPartition], place: usize) -> bool
    requires rise { NumbersRise 0 (filed_at others.now) }
    requires front { LowerBefore one.now others.now place }
    requires behind { NoneLowerAt one.now others.now place }
    ensures { result ≡ has same_number (filed_at others.now) one.now }
{
    place < others.len() && one.number() == others[place].number()
}
