ghost use Rattle.std.specs.Prelude.{◌≡◌, Err, IfOk};
ghost use Rattle.wh_meaning.specs.BagChange.{IsNet, IsChanged, IsWithin, Lacks, Overflows};
ghost use Rattle.wh_bag.specs.declared.fault.ApplyFault.TheVariants.{Missing, TooMany};

use crate::{ApplyFault, Bag};
use std::alloc::{AllocError, Global};

/// A change of a bag: the rows that are added, and those that are taken away.
#[derive(Drop)]
pub struct Signed {
    pub plus: Bag,
    pub minus: Bag,
}

/// The least change from one bag to another: no row is on both sides.
pub fn net(alloc: Global, old: &Bag, new: &Bag) -> Result<Signed, AllocError>
    ensures { IfOk result (λ change. IsNet old.now new.now change.plus change.minus) }
{
    let plus = new.excess(alloc, old)?;
    let minus = old.excess(alloc, new)?;
    Ok(Signed { plus, minus })
}

/// The bag that a change leaves.
pub fn apply(alloc: Global, old: &Bag, change: &Signed) -> Result<Bag, ApplyFault>
    ensures changed { IfOk result (IsChanged old.now change.now.plus change.now.minus) }
    ensures within { IfOk result IsWithin }
    ensures missing { result ≡ Err Missing → Lacks old.now change.now.plus change.now.minus }
    ensures too_many { result ≡ Err TooMany → Overflows old.now change.now.plus change.now.minus }
{
    // What is on both sides goes first: then no count is passed on the way to one that is within.
    let least = net(alloc, &change.minus, &change.plus)?;
    if !least.minus.excess(alloc, old)?.is_empty() {
        return Err(ApplyFault::Missing);
    }
    let mut new = old.excess(alloc, &least.minus)?;
    new.add_all(alloc, &least.plus)?;
    Ok(new)
}
