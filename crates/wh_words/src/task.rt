use std::alloc::AllocError;

/// What words ask for.
#[derive(Clone, Copy, Debug, PartialEq, Eq)]
pub enum Task {
    /// The script is carried out; its readings are the system's, where that is asked for.
    Run { workers: u32, system_clock: bool },
    /// The generated script of so many rows is carried out.
    Bench { workers: u32, rows: u32, seed: u32 },
}

/// Why no task was read.
#[derive(Clone, Copy, Debug, PartialEq, Eq)]
pub enum Misread {
    /// The words aren't in the grammar.
    Usage,
    OutOfMemory,
}

impl From<AllocError> for Misread {
    ghost use Rattle.std.specs.Prelude.{◌≡◌};
    ghost use Rattle.wh_words.specs.declared.task.Misread.TheVariants.{OutOfMemory};

    ghost from_gives = { λ _ fault. fault ≡ OutOfMemory };

    fn from(_: AllocError) -> Self {
        Misread::OutOfMemory
    }
}
