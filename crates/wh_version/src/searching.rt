//! Places in lists of edits that rise by number.
ghost use Rattle.std.specs.Prelude.{◌≡◌, ◌<◌, ◌≤◌, true, take, drop, length};
ghost use Rattle.std.specs.Bool.{OnTrue, OnFalse};
ghost use Rattle.std.specs.FinMap.{is_sorted};
ghost use Rattle.std.specs.Ordering.{nat_cmp};
ghost use Rattle.wh_version.specs.RowEdits.{entries_in, below, not_below, IsPlaceOf, IsBelowIn};
ghost use Rattle.wh_version.specs.RowEdits.{IsBehindIn};

use crate::row_edit::RowEdit;

/// Whether the numbers rise strictly.
pub(crate) fn rises(list: &[RowEdit]) -> bool
    ensures rising { OnTrue result (is_sorted nat_cmp (entries_in list.now) ≡ true) }
    ensures several { OnFalse result (1 < length list.now) }
{
    for place in 1..list.len() {
        if list[place].number <= list[place - 1].number {
            return false;
        }
    }
    true
}

/// The place of the first edit whose number isn't below that one.
pub(crate) fn place_of(list: &[RowEdit], number: u64) -> usize
    requires { is_sorted nat_cmp (entries_in list.now) ≡ true }
    ensures within { result ≤ length list.now }
    ensures front { entries_in (take result list.now) ≡ below number (entries_in list.now) }
    ensures behind { entries_in (drop result list.now) ≡ not_below number (entries_in list.now) }
{
    list.partition_point(|edit| edit.number < number)
}

/// The same place, which is sought where it is guessed first: takes few steps where it is right.
pub(crate) fn place_near(list: &[RowEdit], guess: usize, number: u64) -> usize
    requires { is_sorted nat_cmp (entries_in list.now) ≡ true }
    ensures within { result ≤ length list.now }
    ensures front { entries_in (take result list.now) ≡ below number (entries_in list.now) }
    ensures behind { entries_in (drop result list.now) ≡ not_below number (entries_in list.now) }
{
    if is_place(list, guess, number) {
        return guess;
    }
    place_of(list, number)
}

fn is_place(list: &[RowEdit], place: usize, number: u64) -> bool
    ensures { OnTrue result (IsPlaceOf number list.now place) }
{
    place <= list.len() && ends_below(list, place, number) && starts_behind(list, place, number)
}

// Whether the last one in front of the place is below the number, if there is one.
fn ends_below(list: &[RowEdit], place: usize, number: u64) -> bool
    requires { place ≤ length list.now }
    ensures { OnTrue result (IsBelowIn number list.now place) }
{
    place == 0 || list[place - 1].number < number
}

// Whether the one at the place isn't below the number, if there is one.
fn starts_behind(list: &[RowEdit], place: usize, number: u64) -> bool
    ensures { OnTrue result (IsBehindIn number list.now place) }
{
    place >= list.len() || number <= list[place].number
}
