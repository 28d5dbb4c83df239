//! Partitions compared with each other.
ghost use Rattle.std.specs.Prelude.{◌≡◌, ◌&&◌, ◌||◌, not, map, filter};
ghost use Rattle.std.specs.List.{list_all};
ghost use Rattle.wh_state.specs.Edits.{without, is_among};
ghost use Rattle.wh_version.specs.Lasting.{is_standing, partitions_in};
ghost use Rattle.wh_table.specs.Apart.{are_apart, all_apart};

use crate::ranged::Ranged;
use wh_version::Lasting;

/// Whether each partition is apart from those that stand and stay, and from those before it.
pub(crate) fn compared_apart<P: Ranged>(kept: &[Lasting], removed: &[u64], added: &[P]) -> bool
    ensures { result
        ≡ all_apart (without removed.now (partitions_in (filter is_standing kept.now)))
        (map P.rows added.now) }
{
    for place in 0..added.len() {
        let partition = &added[place];
        if !is_free(partition, kept, removed, &added[..place]) {
            return false;
        }
    }
    true
}

fn is_free<P: Ranged>(partition: &P, kept: &[Lasting], removed: &[u64], earlier: &[P]) -> bool
    ensures { result ≡ (list_all (are_apart (P.rows partition.now))
        (without removed.now (partitions_in (filter is_standing kept.now)))
        && list_all (λ p. are_apart (P.rows partition.now) (P.rows p)) earlier.now) }
{
    is_apart_from_kept(partition, kept, removed) && is_apart_from(partition, earlier)
}

fn is_apart_from_kept<P: Ranged>(partition: &P, kept: &[Lasting], removed: &[u64]) -> bool
    ensures { result ≡ list_all (λ k. not (is_standing k)
        || (is_among k.filed.partition.number removed.now
        || are_apart (P.rows partition.now) k.filed.partition)) kept.now }
{
    kept.iter()
        .all(|one| is_gone_or_apart(partition, one, removed))
}

fn is_gone_or_apart<P: Ranged>(partition: &P, one: &Lasting, removed: &[u64]) -> bool
    ensures { result ≡ (not (is_standing one.now)
        || (is_among one.now.filed.partition.number removed.now
        || are_apart (P.rows partition.now) one.now.filed.partition)) }
{
    !one.stands() || is_apart(partition, one.filed()) || is_among(one.filed().number(), removed)
}

/// Whether it is one of the numbers.
pub(crate) fn is_among(number: u64, numbers: &[u64]) -> bool
    ensures { result ≡ is_among number numbers.now }
{
    numbers.contains(&number)
}

fn is_apart_from<P: Ranged>(partition: &P, others: &[P]) -> bool
    ensures { result
        ≡ list_all (λ p. are_apart (P.rows partition.now) (P.rows p)) others.now }
{
    others.iter().all(|other| is_apart(partition, other))
}

fn is_apart<P: Ranged, Q: Ranged>(partition: &P, other: &Q) -> bool
    ensures { result ≡ are_apart (P.rows partition.now) (Q.rows other.now) }
{
    partition.last_row() < other.first_row() || other.last_row() < partition.first_row()
}
