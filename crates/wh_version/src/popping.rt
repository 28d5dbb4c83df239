ghost use Rattle.std.specs.Prelude.{◌≡◌, map};
ghost use Rattle.wh_version.specs.Lasting.{stands_again};

use crate::mark::last_mark;
use crate::{History, Lasting};

impl History {
    ghost use Rattle.std.specs.Prelude.{◌≡◌, ◌-◌, take};
    ghost use Rattle.wh_version.specs.Lists.{shortened};
    ghost use Rattle.wh_version.specs.History.{versions_of, nexts_of, filed_of, next_in, popped};

    /// Takes the last version back, as if it had never been pushed. The one with which the table
    /// was created stays. Takes no memory.
    pub fn pop(&mut self)
        ensures versions { versions_of self.new
            ≡ popped self.old.starts_empty (versions_of self.old) }
        ensures nexts { nexts_of self.new ≡ shortened (nexts_of self.old) }
        ensures filed { filed_of self.new
            ≡ take (next_in (nexts_of self.new) - 1) (filed_of self.old) }
        ensures empty { self.new.starts_empty ≡ self.old.starts_empty }
    {
        let place = self.later.len();
        if place == 0 {
            return;
        }
        self.later.truncate(place - 1);
        let mark = last_mark(self.first, &self.later);
        self.kept.truncate(mark.partitions);
        stand_again(&mut self.kept, place);
    }
}

// What was gone from the place on stands again.
fn stand_again(kept: &mut [Lasting], place: usize)
    ensures { kept.new ≡ map (stands_again place) kept.old }
{
    for one in kept.iter_mut() {
        one.stand_again(place);
    }
}
