//! What the sources of a dynamic table hold at a moment, some of which were brought to it.
ghost use Rattle.std.specs.Prelude.{◌≡◌, ◌||◌, ◌⊎◌, ℕ, List, is_some, Contains, IfOk};
ghost use Rattle.std.specs.List.{AllByRecursion};
ghost use Rattle.wh_exec.specs.Source.{filed_in, instance_in};
ghost use Rattle.wh_state.specs.Moments.{bag_at, instance_at};
ghost use Rattle.wh_machine.specs.Refresh as machine;
ghost use Rattle.wh_machine.specs.Brought.{after_all, AreAbove, edits_sought};
ghost use Rattle.wh_delta.specs.Moved.{views_of};
ghost use Rattle.wh_refresh.specs.Objects.{objects_in, stored_in, filed_at_objects, filed_at_id};
ghost use Rattle.wh_refresh.specs.Brought.{AreBrought};
ghost use Rattle.wh_refresh.specs.Sources.{is_new_at, bag_held, bags_held, filed_by, filed_held};
ghost use Rattle.wh_refresh.specs.Sources.{views_held, IsPartOf, AreParts};
ghost use Rattle.wh_refresh.specs.Asked.{ids_of, StandsAt, IsBroughtIn, AllStanding};

use crate::brought::{Brought, new_rows_of};
use crate::objects::table_at;
use std::alloc::{AllocError, Global};
use wh_catalog::StoredObject;
use wh_exec::{Parts, Source};
use wh_filed::FiledPartition;
use wh_part::Partition;

/// Where the rows of a source stand at a moment: in partitions of the file, and in those of a
/// version to come.
#[derive(Debug, Drop)]
pub(crate) struct SourceHeld<'a> {
    pub filed: Vec<&'a FiledPartition>,
    pub made: &'a [Partition],
}

/// What each source holds at a moment.
pub(crate) fn sources_held<'a>(
    alloc: Global,
    objects: &[&'a StoredObject],
    brought: &'a [Brought],
    moment: u64,
    ids: &[u32],
) -> Result<Vec<SourceHeld<'a>>, AllocError>
    ensures held { IfOk result (λ sources. (stamp : ℕ) (bs : List machine.Brought)
        → AreBrought (stored_in objects.now) brought.now bs → AreAbove 0 bs
        → bags_held sources.items
        ≡ instance_at (after_all stamp moment bs (objects_in objects.now)) moment ids.now) }
    ensures among { IfOk result (λ sources.
        AllByRecursion (Contains (filed_at_objects objects.now)) (filed_held sources.items)) }
    ensures parts { IfOk result (λ sources. (bs : List machine.Brought)
        → AreBrought (stored_in objects.now) brought.now bs
        → AreParts objects.now ids.now sources.items) }
    ensures stand { IfOk result (λ sources. AllStanding objects.now (ids_of brought.now) moment
        ids.now sources.items) }
{
    let mut sources = Vec::new(alloc);
    for id in ids {
        let source = source_held(alloc, objects, brought, moment, *id)?;
        sources.push(source)?;
    }
    Ok(sources)
}

fn source_held<'a>(
    alloc: Global,
    objects: &[&'a StoredObject],
    brought: &'a [Brought],
    moment: u64,
    id: u32,
) -> Result<SourceHeld<'a>, AllocError>
    ensures held { IfOk result (λ source. (stamp : ℕ) (bs : List machine.Brought)
        → AreBrought (stored_in objects.now) brought.now bs → AreAbove 0 bs
        → bag_held source
        ≡ bag_at (after_all stamp moment bs (objects_in objects.now)) moment id) }
    ensures among { IfOk result (λ source.
        AllByRecursion (Contains (filed_at_objects objects.now)) (filed_by source)) }
    ensures part { IfOk result (λ source. (bs : List machine.Brought)
        → AreBrought (stored_in objects.now) brought.now bs
        → IsPartOf (filed_at_id objects.now id) (filed_by source)) }
    ensures stands { IfOk result (λ source. IsBroughtIn objects.now (ids_of brought.now) id source
        ⊎ StandsAt objects.now moment id source) }
{
    let Some(table) = table_at(objects, id) else {
        return Ok(SourceHeld {
            filed: Vec::new(alloc),
            made: &[],
        });
    };
    match new_rows_of(brought, id) {
        Some(rows) => {
            let filed = table.staying(alloc, &rows.edited)?;
            let made = rows.edited.added();
            Ok(SourceHeld { filed, made })
        }
        None => {
            let filed = table.standing_at(alloc, moment)?;
            Ok(SourceHeld { filed, made: &[] })
        }
    }
}

/// Where the rows of each of them stand.
pub(crate) fn sources_of<'a>(
    alloc: Global,
    held: &'a [SourceHeld<'_>],
) -> Result<Vec<Source<'a>>, AllocError>
    ensures rows { IfOk result (λ sources. instance_in sources.items ≡ bags_held held.now) }
    ensures filed { IfOk result (λ sources. filed_in sources.items ≡ filed_held held.now) }
    ensures views { IfOk result (λ sources. views_of sources.items ≡ views_held held.now) }
{
    let mut sources = Vec::new(alloc);
    for source in held {
        sources.push(Source::Parts(Parts {
            filed: &source.filed,
            made: source.made,
        }))?;
    }
    Ok(sources)
}

/// Whether one of the sources has a version for a moment behind one, up to another.
pub(crate) fn has_new_data(
    objects: &[&StoredObject],
    brought: &[Brought],
    from: u64,
    to: u64,
    ids: &[u32],
) -> bool
    ensures { (stamp : ℕ) (bs : List machine.Brought)
        → AreBrought (stored_in objects.now) brought.now bs → AreAbove 0 bs
        → result ≡ machine.has_new_data (after_all stamp to bs (objects_in objects.now)) from to
        ids.now }
{
    for id in ids {
        if has_version_between(objects, brought, from, to, *id) {
            return true;
        }
    }
    false
}

fn has_version_between(
    objects: &[&StoredObject],
    brought: &[Brought],
    from: u64,
    to: u64,
    id: u32,
) -> bool
    ensures { (stamp : ℕ) (bs : List machine.Brought)
        → AreBrought (stored_in objects.now) brought.now bs → AreAbove 0 bs
        → result ≡ is_new_at (after_all stamp to bs (objects_in objects.now)) from to id }
{
    let Some(table) = table_at(objects, id) else {
        return false;
    };
    if table.has_version_between(from, to) {
        return true;
    }
    from < to && new_rows_of(brought, id).is_some()
}
