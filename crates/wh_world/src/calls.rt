ghost use Rattle.std.specs.Prelude.{◌≡◌, ◌≤◌};
ghost use Rattle.wh_world.specs.Calls.{next, no_calls, is_due, passed};

use crate::Failed;
use std::marker::Model;

/// The numbered calls of a form in memory: how many were made, which are to fail, and how many did.
#[derive(Debug, Drop)]
pub struct Calls {
    made: u64,
    faults: u64,
    failing: Vec<u64>,
}

impl Model for Calls {
    ghost use Rattle.wh_world.specs.Calls.{CallCount};

    ghost Value = { CallCount };

    ghost view = { λ c. record { made = c.made; faults = c.faults; failing = c.failing.items } };
}

impl Calls {
    /// No calls so far. `failing` has the numbers, from 1, of those that are to fail.
    pub fn new(failing: Vec<u64>) -> Calls
        ensures { result ≡ no_calls failing.items }
    {
        Calls {
            made: 0,
            faults: 0,
            failing,
        }
    }

    /// Counts a call, and tells whether it is to fail.
    pub fn count(&mut self) -> bool
        ensures due { result ≡ is_due self.old }
        ensures counted { self.new ≡ passed self.old }
    {
        self.made = self.made.saturating_add(1);
        self.failing.contains(&self.made)
    }

    /// Counts a fault of the call that was counted last.
    pub fn fail(&mut self) -> Failed
        ensures counted { self.new ≡ record self.old { faults = next self.old.faults } }
        ensures later { self.old.faults ≤ self.new.faults }
    {
        self.faults = self.faults.saturating_add(1);
        Failed
    }

    /// How often a call failed.
    pub fn faults(&self) -> u64
        ensures { result ≡ self.now.faults }
    {
        self.faults
    }
}
