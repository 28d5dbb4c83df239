//! What the calls of a group have added up.
ghost use Rattle.std.specs.Prelude.{◌≡◌, ◌↔◌, IsTrue};
ghost use Rattle.std.specs.Option.{option_copied};

use smallvec::SmallVec;
use std::alloc::{AllocError, Global};
use std::marker::Model;
use wh_algebra::Call;

/// A sum of numbers, and how many values were added that aren't NULL.
#[derive(Debug, Default, Drop)]
pub struct Total {
    pub sum: i64,
    pub values: u64,
}

impl Model for Total {
    ghost use Rattle.wh_meaning.specs.Query as meaning;
    ghost use Rattle.wh_aggregate.specs.Tally.{coded_total};

    ghost Value = { meaning.Total };

    ghost coded = { coded_total };

    ghost view = { λ t. record { sum = t.sum; values = t.values } };
}

/// What the calls of a group have added up, in their order. Those of one or two calls take no
/// memory of their own.
pub type Totals = SmallVec<Total, 2>;

/// A kept group: how many rows it has, and what each call has added up. A COUNT's sum is 0.
#[derive(Debug, Drop)]
pub struct Standing {
    pub rows: u64,
    pub totals: Totals,
}

impl Model for Standing {
    ghost use Rattle.wh_maintenance.specs.Standing as kept;
    ghost use Rattle.wh_group.specs.Standing.{coded_standing};

    ghost Value = { kept.Standing };

    ghost coded = { coded_standing };

    ghost view = { λ s. record { rows = s.rows; totals = s.totals.items } };
}

impl Standing {
    ghost use Rattle.std.specs.Prelude.{◌≡◌, IfOk};
    ghost use Rattle.wh_algebra.specs.View.{calls_of};
    ghost use Rattle.wh_group.specs.Tally.{begun_standing};
    ghost use Rattle.wh_group.specs.Slots.{gone};

    // What a group that is removed leaves.
    pub(crate) fn gone(alloc: Global) -> Standing
        ensures { result ≡ gone }
    {
        Standing {
            rows: 0,
            totals: Totals::new(alloc),
        }
    }

    /// Of no rows.
    pub(crate) fn begun(alloc: Global, calls: &[Call]) -> Result<Standing, AllocError>
        ensures { IfOk result (λ s. s ≡ begun_standing (calls_of calls.now)) }
    {
        let mut totals = Totals::new(alloc);
        totals.reserve(calls.len())?;
        for _ in calls {
            totals.push(Total { sum: 0, values: 0 })?;
        }
        Ok(Standing { rows: 0, totals })
    }
}

/// Whether a group stands as another does.
pub(crate) fn is_same(a: Option<&Standing>, b: Option<&Standing>) -> bool
    ensures { IsTrue result ↔ (option_copied a.entry ≡ option_copied b.entry) }
{
    match (a, b) {
        (None, None) => true,
        (Some(a), Some(b)) => is_same_standing(a, b),
        _ => false,
    }
}

fn is_same_standing(a: &Standing, b: &Standing) -> bool
    ensures { IsTrue result ↔ (a.now ≡ b.now) }
{
    a.rows == b.rows && are_same(a.totals.as_slice(), b.totals.as_slice())
}

#[cycle(are_same)]
fn are_same(a: &[Total], b: &[Total]) -> bool
    ensures { IsTrue result ↔ (a.now ≡ b.now) }
{
    match (a, b) {
        ([], []) => true,
        ([x, a @ ..], [y, b @ ..]) => is_same_total(x, y) && are_same(a, b),
        _ => false,
    }
}

fn is_same_total(a: &Total, b: &Total) -> bool
    ensures { IsTrue result ↔ (a.now ≡ b.now) }
{
    a.sum == b.sum && a.values == b.values
}
