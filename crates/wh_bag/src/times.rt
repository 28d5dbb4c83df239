use crate::AddFault;
use std::marker::Model;

/// How often a row is in a bag that has it. Contracts see the count less one.
#[derive(Debug, Drop)]
pub struct Times {
    less_one: u64,
}

impl Model for Times {
    ghost use Rattle.std.specs.Prelude.{ℕ, suc, ◌^◌, ◌<◌};

    ghost Value = { ℕ };

    ghost view = { λ t. t.less_one };

    ghost invariant = { λ t. suc t.less_one < 2 ^ 64 };
}

impl Times {
    ghost use Rattle.std.specs.Prelude.{◌≡◌, suc, ◌+◌, ◌^◌, ◌≤◌, ◌↔◌, Err, OnOk, OnErr};
    ghost use Rattle.wh_meaning.specs.Bag.{times};
    ghost use Rattle.wh_bag.specs.declared.fault.AddFault.TheVariants.{TooMany};

    /// None of 0.
    pub(crate) fn new(count: u64) -> Option<Times>
        ensures { times result ≡ count }
    {
        if count == 0 {
            return None;
        }
        let less_one = count - 1;
        Some(Times { less_one })
    }

    pub fn count(&self) -> u64
        ensures { result ≡ suc self.now }
    {
        self.less_one + 1
    }

    /// So often more. A fault leaves it as it was.
    pub(crate) fn add(&mut self, count: u64) -> Result<(), AddFault>
        ensures ok { OnOk result (self.new ≡ count + self.old) }
        ensures err { OnErr result (self.new ≡ self.old) }
        ensures too_many { (result ≡ Err TooMany) ↔ (2 ^ 64 ≤ suc self.old + count) }
    {
        let Some(sum) = self.count().checked_add(count) else {
            return Err(AddFault::TooMany);
        };
        self.less_one = sum - 1;
        Ok(())
    }
}
