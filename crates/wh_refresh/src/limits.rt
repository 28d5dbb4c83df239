//! The numbers that the versions of a refresh would pass.
ghost use Rattle.std.specs.Prelude.{◌≡◌, List, option_map};
ghost use Rattle.std.specs.List.{list_any};
ghost use Rattle.wh_reply.specs.View.{refusal_view};
ghost use Rattle.wh_machine.specs.Refresh as machine;
ghost use Rattle.wh_refresh.specs.Objects.{objects_in, stored_in};
ghost use Rattle.wh_refresh.specs.Brought.{AreBrought, IsBrought};

use crate::brought::Brought;
use crate::objects::table_at;
use wh_catalog::StoredObject;
use wh_reply::Refusal;
use wh_value::Limit;

/// Row numbers of any table come first.
pub(crate) fn number_refusal(objects: &[&StoredObject], all: &[Brought]) -> Option<Refusal>
    ensures { (bs : List machine.Brought) → AreBrought (stored_in objects.now) all.now bs
        → option_map refusal_view result ≡ machine.number_refusal (objects_in objects.now) bs }
{
    if some_row_past(objects, all) {
        return Some(Refusal::OverLimit(Limit::RowNumber));
    }
    if some_partition_past(objects, all) {
        return Some(Refusal::OverLimit(Limit::PartitionNumber));
    }
    None
}

#[cycle(some_row_past)]
fn some_row_past(objects: &[&StoredObject], all: &[Brought]) -> bool
    ensures { (bs : List machine.Brought) → AreBrought (stored_in objects.now) all.now bs
        → result ≡ list_any (machine.is_row_past (objects_in objects.now)) bs }
{
    match all {
        [] => false,
        [one, others @ ..] => is_row_past(objects, one) || some_row_past(objects, others),
    }
}

#[cycle(some_partition_past)]
fn some_partition_past(objects: &[&StoredObject], all: &[Brought]) -> bool
    ensures { (bs : List machine.Brought) → AreBrought (stored_in objects.now) all.now bs
        → result ≡ list_any (machine.is_partition_past (objects_in objects.now)) bs }
{
    match all {
        [] => false,
        [one, others @ ..] => {
            is_partition_past(objects, one) || some_partition_past(objects, others)
        }
    }
}

fn is_row_past(objects: &[&StoredObject], one: &Brought) -> bool
    ensures { (b : machine.Brought) → IsBrought (stored_in objects.now) one.now b
        → result ≡ machine.is_row_past (objects_in objects.now) b }
{
    let Some(rows) = &one.rows else {
        return false;
    };
    match table_at(objects, one.id) {
        Some(table) => Limit::RowNumber.bound() - table.next_row() < rows.plus,
        None => false,
    }
}

fn is_partition_past(objects: &[&StoredObject], one: &Brought) -> bool
    ensures { (b : machine.Brought) → IsBrought (stored_in objects.now) one.now b
        → result ≡ machine.is_partition_past (objects_in objects.now) b }
{
    let Some(rows) = &one.rows else {
        return false;
    };
    match table_at(objects, one.id) {
        Some(table) => {
            let more = rows.edited.added().len() as u64;
            Limit::PartitionNumber.bound() < table.next_partition() + more
        }
        None => false,
    }
}
