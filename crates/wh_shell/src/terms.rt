ghost use Rattle.std.specs.Prelude.{◌≤◌, ◌^◌};

/// On which terms a script is carried out.
#[derive(Clone, Copy, Debug)]
pub struct Terms {
    /// How many threads reads may use, from 1 to 64; no answer depends on it.
    pub workers: u32,
    /// The readings are the system's, and not those of the script's ticks.
    pub system_clock: bool,
    /// The most bytes of the file, from 8 to 2^40.
    pub limit: u64,
    ghost some_worker: { 1 ≤ workers },
    ghost most_workers: { workers ≤ 64 },
    ghost some: { 8 ≤ limit },
    ghost most: { limit ≤ 2 ^ 40 },
}
