use wh_filed::FiledPartition;

/// A partition, and the place of the version that it is gone from: `usize::MAX` while it stands.
#[derive(Debug, Drop)]
pub struct Lasting {
    pub(crate) filed: FiledPartition,
    pub(crate) until: usize,
}

impl Lasting {
    ghost use Rattle.std.specs.Prelude.{◌≡◌};
    ghost use Rattle.wh_version.specs.Lasting.{is_standing, stands_again};

    pub fn filed(&self) -> &FiledPartition
        ensures { result.now ≡ self.now.filed }
    {
        &self.filed
    }

    /// Whether it stands in the last version.
    pub fn stands(&self) -> bool
        ensures { result ≡ is_standing self.now }
    {
        self.until == usize::MAX
    }

    /// If it was gone from the place on, it stands again.
    pub(crate) fn stand_again(&mut self, place: usize)
        ensures { self.new ≡ stands_again place self.old }
    {
        if self.until == place {
            self.until = usize::MAX;
        }
    }
}
