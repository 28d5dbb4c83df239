//! Runs over a disk whose reads are counted, and that gives other bytes than were written.

use crate::running::{clock_at_0, sink_of, source_of, the_word};
use std::alloc::Global;
use std::process::Abort;
use std::thread::Threads;
use wh_shell::{Status, run};
use wh_world::{Disk, Failed, MemDisk, MemSink};

/// Which bytes read as others than were written: behind so many reads, those from one position up
/// to another read as the fill.
#[derive(Clone, Copy)]
pub(crate) struct Spoilt {
    pub(crate) after: u64,
    pub(crate) from: u64,
    pub(crate) to: u64,
    pub(crate) fill: u8,
}

/// Each byte reads as it was written.
pub(crate) const SOUND: Spoilt = Spoilt {
    after: 0,
    from: 0,
    to: 0,
    fill: 0,
};

/// Each byte reads as ff.
pub(crate) const WHOLLY: Spoilt = Spoilt {
    after: 0,
    from: 0,
    to: u64::MAX,
    fill: 0xff,
};

impl Spoilt {
    // What is read at a position, with the fill in its place.
    fn spoil(self, at: u64, buf: &mut [u8]) {
        let from = self.from.saturating_sub(at);
        let to = self.to.saturating_sub(at).min(buf.len() as u64);
        if from < to {
            buf[from as usize..to as usize].fill(self.fill);
        }
    }
}

/// A disk whose reads are counted, and spoilt. It tells no content.
#[derive(Drop)]
struct WatchedDisk<E> {
    disk: E,
    spoilt: Spoilt,
    reads: u64,
}

impl<E: Disk> Disk for WatchedDisk<E> {
    ghost use Rattle.std.specs.Prelude.{None};

    ghost bytes = { λ d. None };

    ghost may_leave = { λ d. E.may_leave d.disk };

    ghost moment = { λ d. E.moment d.disk };

    ghost left_since = { λ d. E.left_since d.disk };

    ghost faults = { λ d. E.faults d.disk };

    ghost reads = { λ d. E.reads d.disk };

    ghost size = { λ d. E.size d.disk };

    ghost spans = { λ d b is. Prim.cc };

    ghost shown = { λ d b is. Prim.cc };

    ghost counts_now = { λ d. E.counts_now d.disk };

    ghost only_now = { λ d. E.only_now d.disk };

    fn len(&mut self) -> Result<u64, Failed> {
        self.disk.len()
    }

    fn fault_count(&self) -> u64 {
        self.disk.fault_count()
    }

    fn read(&mut self, at: u64, buf: &mut [u8]) -> Result<(), Failed> {
        self.reads = self.reads.saturating_add(1);
        self.disk.read(at, buf)?;
        if self.spoilt.after < self.reads {
            self.spoilt.spoil(at, buf);
        }
        Ok(())
    }

    fn write_at(&mut self, at: u64, piece: &[u8]) -> Result<(), Failed> {
        self.disk.write_at(at, piece)
    }

    fn sync(&mut self) -> Result<(), Failed> {
        self.disk.sync()
    }
}

// A disk in memory that takes many calls.
fn spare_disk(rt: &impl Abort, alloc: Global, file: &[u8], failing: &[u64]) -> MemDisk {
    let file = file.to_vec(alloc).expect(rt, "memory");
    let failing = failing.to_vec(alloc).expect(rt, "memory");
    MemDisk::new(alloc, file, 1 << 17, 4000, failing).expect(rt, "memory")
}

/// How a run ended, what it printed, and how often it read.
#[derive(Drop)]
pub(crate) struct Watched {
    pub(crate) status: Status,
    pub(crate) out: MemSink,
    pub(crate) reads: u64,
}

/// Carries out a script over a file that is spoilt, where these calls of the disk fail.
pub(crate) fn run_watched<'x>(
    rt: &(impl Abort + Threads + Sync),
    alloc: Global,
    file: &'x [u8],
    script: &'x [u8],
    spoilt: Spoilt,
    failing: &'x [u64],
) -> Watched {
    let words = the_word(rt, alloc);
    let mut source = source_of(rt, alloc, script, &[]);
    let mut out = sink_of(rt, alloc, 1 << 16, &[]);
    let disk = WatchedDisk {
        disk: spare_disk(rt, alloc, file, failing),
        spoilt,
        reads: 0,
    };
    let mut clock = clock_at_0(rt, alloc);
    let (status, disk) = run(rt, alloc, &words, &mut source, &mut out, disk, &mut clock);
    Watched {
        status,
        out,
        reads: disk.reads,
    }
}
