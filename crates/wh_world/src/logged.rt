ghost use Rattle.std.specs.Prelude.{◌≡◌};
ghost use Rattle.wh_world.specs.Logged.{is_sync, kept_of};

/// A call that a disk in memory keeps: a write by its place and its number of bytes, or a sync.
#[derive(Clone, Copy, Debug)]
pub enum Logged {
    Wrote { at: u64, size: u64 },
    Tore { at: u64, size: u64 },
    Synced,
}

impl Logged {
    /// Whether it is a sync.
    pub fn is_sync(self) -> bool
        ensures { result ≡ is_sync self }
    {
        matches!(self, Logged::Synced)
    }

    /// How many bytes are kept for it.
    pub fn kept(self) -> usize
        ensures { result ≡ kept_of self }
    {
        match self {
            Logged::Wrote { size, .. } => size as usize,
            Logged::Tore { .. } | Logged::Synced => 0,
        }
    }
}
