//! What changes of the groups that rows touch.
ghost use Rattle.std.specs.Prelude.{OnOk};
ghost use Rattle.std.specs.Option.{option_copied};
ghost use Rattle.std.specs.FinMap as maps;
ghost use Rattle.wh_algebra.specs.View.{calls_of};
ghost use Rattle.wh_group.specs.Slots.{kept_groups};
ghost use Rattle.wh_group.specs.Settling.{Settles, Enters, Notes};

use crate::groups::{Entry, Groups};
use crate::moved::moved;
use crate::moving::Moving;
use crate::showing::push_shown;
use crate::standing::{Standing, is_same};
use crate::touched::Touched;
use std::alloc::{AllocError, Global};
use wh_algebra::Call;
use wh_scalar::EvalFault;
use wh_value::Row;

/// What an update found: entries by rising key, exactly of the groups that it changed, made or
/// removed, and the rows of groups that come and go.
#[derive(Debug, Drop)]
pub struct Updated {
    pub entries: Vec<Entry>,
    pub comes: Vec<Row>,
    pub goes: Vec<Row>,
}

/// The groups of the touched keys, before and afterwards.
pub(crate) fn settled(
    alloc: Global,
    calls: &[Call],
    groups: &Groups,
    touched: Touched,
) -> Result<Updated, EvalFault>
    ensures { Settles result (calls_of calls.now) (kept_groups groups.now) (maps.entries touched) }
{
    let Touched { map } = touched;
    let mut updated = Updated {
        entries: Vec::new(alloc),
        comes: Vec::with_capacity(alloc, map.len())?,
        goes: Vec::new(alloc),
    };
    for (key, moving) in map {
        settle(alloc, calls, groups, key, &moving, &mut updated)?;
    }
    Ok(updated)
}

// The group of one key.
fn settle(
    alloc: Global,
    calls: &[Call],
    groups: &Groups,
    key: Row,
    moving: &Moving,
    updated: &mut Updated,
) -> Result<(), EvalFault>
    ensures { Enters result (calls_of calls.now) (kept_groups groups.now) (key, moving.now)
        updated.old updated.new }
{
    let was = groups.get(&key);
    let now = moved(alloc, calls, was, moving)?;
    push_shown(alloc, calls, &key, was, &mut updated.goes)?;
    push_shown(alloc, calls, &key, now.as_ref(), &mut updated.comes)?;
    note(key, was, now, &mut updated.entries)?;
    Ok(())
}

// Notes what stands at a key, if it isn't as before.
fn note(
    key: Row,
    was: Option<&Standing>,
    now: Option<Standing>,
    entries: &mut Vec<Entry>,
) -> Result<(), AllocError>
    ensures { OnOk result
        (Notes key (option_copied was.entry) now entries.old.items entries.new.items) }
{
    if is_same(was, now.as_ref()) {
        return Ok(());
    }
    entries.push(Entry { key, group: now })?;
    Ok(())
}
