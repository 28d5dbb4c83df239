ghost use Rattle.std.specs.Prelude.{◌≡◌, ◌≤◌};

use std::alloc::Global;
use std::thread::Threads;

/// By how many workers lists are gone over, and where their answers are kept. No answer depends on
/// the number.
#[derive(Drop)]
pub struct Workers<'a, R: Threads + Sync> {
    pub rt: &'a R,
    pub alloc: Global,
    pub count: u32,
    ghost some: { 1 ≤ count },
}

impl<'a, R: Threads + Sync> Workers<'a, R> {
    /// One of them alone.
    pub fn alone(&self) -> Workers<'a, R>
        ensures { result.count ≡ 1 }
    {
        Workers {
            rt: self.rt,
            alloc: self.alloc,
            count: 1,
        }
    }
}
