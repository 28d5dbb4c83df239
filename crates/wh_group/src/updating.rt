//! Kept groups after rows came and rows went.
ghost use Rattle.std.specs.Prelude.{◌≡◌, Err, IfOk};
ghost use Rattle.wh_meaning.specs.Bag.{Bag, bag_of};
ghost use Rattle.wh_maintenance.specs.Standing.{IsGroupsOf};
ghost use Rattle.wh_scalar.specs.declared.fault.EvalFault.TheVariants.{NumberOutOfRange};
ghost use Rattle.wh_algebra.specs.View.{calls_of, scalars_of};
ghost use Rattle.wh_group.specs.Slots.{kept_groups};
ghost use Rattle.wh_group.specs.Updates.{change_of, StandIn, IsUpdated, LeavesNone};

use crate::groups::Groups;
use crate::moving::Side;
use crate::settling::{Updated, settled};
use crate::touched::Touched;
use std::alloc::Global;
use wh_algebra::Call;
use wh_scalar::{EvalFault, Scalar};
use wh_value::Row;

/// What rows that come and go make of groups. Every row that goes was one of theirs.
pub fn updated(
    alloc: Global,
    by: &[Scalar],
    calls: &[Call],
    groups: &Groups,
    comes: &[Row],
    goes: &[Row],
) -> Result<Updated, EvalFault>
    ensures updated { IfOk result (IsUpdated (scalars_of by.now) (calls_of calls.now)
        (change_of comes.now goes.now) (kept_groups groups.now)) }

    // Of whatever rows they are the groups.
    ensures out_of_range { result ≡ Err NumberOutOfRange → (b : Bag)
        → IsGroupsOf (scalars_of by.now) (calls_of calls.now) b (kept_groups groups.now)
        → StandIn (bag_of goes.now) b → LeavesNone (scalars_of by.now) (calls_of calls.now)
        (change_of comes.now goes.now) (kept_groups groups.now) }
{
    let mut touched = Touched::new(alloc);
    touched.add(alloc, by, calls, comes, Side::Comes)?;
    touched.add(alloc, by, calls, goes, Side::Goes)?;
    settled(alloc, calls, groups, touched)
}
