//! The offsets of streams in the commit that consumes them.
ghost use Rattle.std.specs.Prelude.{◌≡◌, ◌++◌, [], ◌∷◌, cond, map, OnOk};
ghost use Rattle.wh_record.specs.View.{change_of};
ghost use Rattle.wh_state.specs.Objects.{stream_at};
ghost use Rattle.wh_state.specs.Act.{MovesOffset};
ghost use Rattle.wh_machine.specs.Offsets.{offset_move, offset_moves};
ghost use Rattle.wh_catalog.specs.Catalog.{state_of};
ghost use Rattle.wh_txn.specs.Recording.{offsets_written};

use std::alloc::AllocError;
use wh_catalog::Catalog;
use wh_record::Change;

/// Adds what a commit changes that consumes these streams up to a stamp, in their order: the offset
/// of each that is below it. An offset never falls.
pub(crate) fn add_offsets(
    changes: &mut Vec<Change>,
    catalog: &Catalog,
    start: u64,
    streams: &[u32],
) -> Result<(), AllocError>
    ensures { OnOk result (map change_of changes.new.items ≡ map change_of changes.old.items
        ++ offsets_written (offset_moves (state_of catalog.now).objects start streams.now)) }
{
    for id in streams {
        add_offset(changes, catalog, start, *id)?;
    }
    Ok(())
}

fn add_offset(
    changes: &mut Vec<Change>,
    catalog: &Catalog,
    start: u64,
    id: u32,
) -> Result<(), AllocError>
    ensures { OnOk result (map change_of changes.new.items ≡ map change_of changes.old.items
        ++ offsets_written (offset_move start id (stream_at (state_of catalog.now).objects id))) }
{
    if !is_below(catalog, id, start) {
        return Ok(());
    }
    let Ok(()) = changes.push(Change::SetsOffset { id, offset: start }) else {
        return Err(AllocError);
    };
    Ok(())
}

// Whether there is a stream of that id whose offset is below a stamp.
fn is_below(catalog: &Catalog, id: u32, start: u64) -> bool
    ensures { offset_move start id (stream_at (state_of catalog.now).objects id)
        ≡ cond result (MovesOffset id start ∷ []) [] }
{
    match catalog.stream(id) {
        Some(stream) => stream.offset() < start,
        None => false,
    }
}
