//! How many values rows have, as far as it is known before they are read. No clause needs it.
use crate::{Loaded, Parts, Source};
use wh_algebra::{Operator, Physical};
use wh_part::Partition;

/// Of the rows of a plan.
pub(crate) fn width_of(plan: &Physical, sources: &[Source<'_>]) -> usize {
    match plan.operator() {
        Operator::Scan(source) => match sources.get(source as usize) {
            Some(source) => source_width(source),
            None => 0,
        },
        Operator::Filter(input, _) => width_of(input, sources),
        Operator::Project(_, items) => items.len(),
        Operator::Join(left, right, _) => {
            width_of(left, sources).saturating_add(width_of(right, sources))
        }
        Operator::UnionAll(left, right) => { width_of(left, sources).max(width_of(right, sources)) }
        Operator::Group(_, by, calls) => by.len().saturating_add(calls.len()),
    }
}

fn source_width(source: &Source<'_>) -> usize {
    match source {
        Source::Parts(parts) => parts_width(parts),
        Source::Loaded(parts) => loaded_width(parts),
        Source::Rows(rows) => match rows.first() {
            Some(row) => row.len(),
            None => 0,
        },
    }
}

fn parts_width(parts: &Parts<'_>) -> usize {
    match parts.filed.first() {
        Some(filed) => filed.meta().columns.len(),
        None => made_width(parts.made),
    }
}

fn loaded_width(parts: &Loaded<'_>) -> usize {
    match parts.loaded.first() {
        Some(part) => part_width(part),
        None => made_width(parts.made),
    }
}

fn made_width(made: &[Partition]) -> usize {
    match made.first() {
        Some(part) => part_width(part),
        None => 0,
    }
}

fn part_width(part: &Partition) -> usize {
    part.rows()[0].row.len()
}
