use crate::{History, VersionMark};

impl History {
    ghost use Rattle.std.specs.Prelude.{◌≡◌};
    ghost use Rattle.std.specs.List.{list_any};
    ghost use Rattle.wh_version.specs.Times.{is_between};
    ghost use Rattle.wh_version.specs.History.{versions_of};

    /// Whether a version stands for a moment behind one, up to another.
    pub fn has_between(&self, from: u64, to: u64) -> bool
        ensures { result
            ≡ list_any (λ v. is_between from to v.data_timestamp) (versions_of self.now) }
    {
        if self.starts_empty {
            return some_between(&self.later, from, to);
        }
        lies_between(self.first, from, to) || some_between(&self.later, from, to)
    }
}

ghost use Rattle.std.specs.Prelude.{◌≡◌};
ghost use Rattle.std.specs.List.{list_any};
ghost use Rattle.wh_version.specs.Times.{is_between};

fn some_between(marks: &[VersionMark], from: u64, to: u64) -> bool
    ensures { result ≡ list_any (λ mark. is_between from to mark.data_timestamp) marks.now }
{
    marks.iter().any(|mark| lies_between(*mark, from, to))
}

fn lies_between(mark: VersionMark, from: u64, to: u64) -> bool
    ensures { result ≡ is_between from to mark.data_timestamp }
{
    from < mark.data_timestamp && mark.data_timestamp <= to
}
