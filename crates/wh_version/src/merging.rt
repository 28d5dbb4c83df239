ghost use Rattle.std.specs.Prelude.{◌≡◌, ◌<◌, ◌++◌, ◌∷◌, [], true, None, IfSome, OnOk, IfOk};
ghost use Rattle.std.specs.FinMap.{is_sorted};
ghost use Rattle.std.specs.Ordering.{nat_cmp};
ghost use Rattle.std.specs.Option.{option_to_list};
ghost use Rattle.wh_version.specs.RowEdits.{entry_of, entries_in, puts, below, not_below};
ghost use Rattle.wh_version.specs.RowEdits.{other_than};

use crate::row_edit::RowEdit;
use std::alloc::{AllocError, Global};
use std::collections::VecDeque;

/// Both lists by rising number, where the later edit of a row takes the place of an earlier one.
/// Takes linear time, and none where no edit is earlier.
pub(crate) fn merged(
    alloc: Global,
    earlier: Vec<RowEdit>,
    later: Vec<RowEdit>,
) -> Result<Vec<RowEdit>, AllocError>
    requires { is_sorted nat_cmp (entries_in later.items) ≡ true }
    ensures { IfOk result (λ merged. entries_in merged.items
        ≡ puts (entries_in earlier.items) (entries_in later.items)) }
{
    if earlier.is_empty() {
        return Ok(later);
    }
    let mut merged = Vec::with_capacity(alloc, earlier.len())?;
    let mut earlier = VecDeque::from_vec(earlier);
    for edit in later {
        add_later(&mut merged, &mut earlier, edit)?;
    }
    let mut rest = earlier.into_vec();
    merged.append(&mut rest)?;
    Ok(merged)
}

fn add_later(
    merged: &mut Vec<RowEdit>,
    earlier: &mut VecDeque<RowEdit>,
    edit: RowEdit,
) -> Result<(), AllocError>
    ensures merged { OnOk result (entries_in merged.new.items ≡ entries_in merged.old.items
        ++ below edit.number (entries_in earlier.old.items) ++ entry_of edit ∷ []) }
    ensures earlier { OnOk result (entries_in earlier.new.items
        ≡ other_than edit.number (not_below edit.number (entries_in earlier.old.items))) }
{
    move_below(merged, earlier, edit.number)?;
    pass(earlier, edit.number);
    merged.push(edit)?;
    Ok(())
}

// Those whose numbers are below that one.
fn move_below(
    merged: &mut Vec<RowEdit>,
    earlier: &mut VecDeque<RowEdit>,
    number: u64,
) -> Result<(), AllocError>
    ensures merged { OnOk result (entries_in merged.new.items ≡ entries_in merged.old.items
        ++ below number (entries_in earlier.old.items)) }
    ensures earlier { OnOk result (entries_in earlier.new.items
        ≡ not_below number (entries_in earlier.old.items)) }
{
    while let Some(edit) = next_below(earlier, number) {
        merged.push(edit)?;
    }
    Ok(())
}

fn next_below(earlier: &mut VecDeque<RowEdit>, number: u64) -> Option<RowEdit>
    ensures items { earlier.old.items ≡ option_to_list result ++ earlier.new.items }
    ensures some { IfSome result (λ edit. edit.number < number) }
    ensures none_below { result ≡ None → below number (entries_in earlier.old.items) ≡ [] }
    ensures all_behind { result ≡ None
        → not_below number (entries_in earlier.old.items) ≡ entries_in earlier.old.items }
{
    let first = earlier.front()?;
    if first.number < number {
        return earlier.pop_front();
    }
    None
}

// An earlier edit of that row counts no more.
fn pass(earlier: &mut VecDeque<RowEdit>, number: u64)
    ensures { entries_in earlier.new.items ≡ other_than number (entries_in earlier.old.items) }
{
    let Some(first) = earlier.front() else {
        return;
    };
    if first.number == number {
        earlier.pop_front();
    }
}
