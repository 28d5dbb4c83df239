//! Runs over the forms in memory. Where memory runs out a call ends the test: a step that returned
//! would drop all that is alive.

use std::alloc::Global;
use std::process::Abort;
use std::thread::Threads;
use wh_shell::{Status, run};
use wh_value::Bytes;
use wh_world::{MemDisk, MemSink, MemSource, SetClock};

/// What a run answers, writes and leaves.
#[derive(Drop)]
pub(crate) struct RunEnd {
    pub(crate) status: Status,
    pub(crate) out: MemSink,
    pub(crate) disk: MemDisk,
}

/// The calls that are to fail, by their numbers from 1.
#[derive(Clone, Copy)]
pub(crate) struct Failing<'a> {
    pub(crate) source: &'a [u64],
    pub(crate) sink: &'a [u64],
    pub(crate) disk: &'a [u64],
}

/// The word of a run.
pub(crate) fn the_word(rt: &impl Abort, alloc: Global) -> Vec<String> {
    let word = String::from_str(alloc, "run").expect(rt, "memory");
    let mut words = Vec::new(alloc);
    words.push(word).expect(rt, "memory");
    words
}

pub(crate) fn source_of(
    rt: &impl Abort,
    alloc: Global,
    script: &[u8],
    failing: &[u64],
) -> MemSource {
    let script = script.to_vec(alloc).expect(rt, "memory");
    let failing = failing.to_vec(alloc).expect(rt, "memory");
    MemSource::new(script, failing)
}

pub(crate) fn sink_of(rt: &impl Abort, alloc: Global, room: u64, failing: &[u64]) -> MemSink {
    let failing = failing.to_vec(alloc).expect(rt, "memory");
    MemSink::new(alloc, room, failing).expect(rt, "memory")
}

pub(crate) fn disk_of(
    rt: &impl Abort,
    alloc: Global,
    file: &[u8],
    room: u64,
    failing: &[u64],
) -> MemDisk {
    let file = file.to_vec(alloc).expect(rt, "memory");
    let failing = failing.to_vec(alloc).expect(rt, "memory");
    MemDisk::new(alloc, file, room, 100, failing).expect(rt, "memory")
}

pub(crate) fn clock_at_0(rt: &impl Abort, alloc: Global) -> SetClock {
    SetClock::new([0].to_vec(alloc).expect(rt, "memory"))
}

/// What a run is over: the bytes of its file, its script, the calls that fail, and for how many
/// more bytes disk and sink have room.
#[derive(Clone, Copy)]
pub(crate) struct Given<'a> {
    pub(crate) file: &'a [u8],
    pub(crate) script: &'a [u8],
    pub(crate) failing: Failing<'a>,
    pub(crate) room: u64,
}

pub(crate) fn run_with(
    rt: &(impl Abort + Threads + Sync),
    alloc: Global,
    given: &Given<'_>,
) -> RunEnd {
    let failing = given.failing;
    let words = the_word(rt, alloc);
    let mut source = source_of(rt, alloc, given.script, failing.source);
    let mut out = sink_of(rt, alloc, given.room, failing.sink);
    let disk = disk_of(rt, alloc, given.file, given.room, failing.disk);
    let mut clock = clock_at_0(rt, alloc);
    let (status, disk) = run(rt, alloc, &words, &mut source, &mut out, disk, &mut clock);
    RunEnd { status, out, disk }
}

// A script over a file, where no call fails but these of the disk.
fn with_calls<'x>(file: &'x [u8], script: &'x [u8], calls: &'x [u64], room: u64) -> Given<'x> {
    let failing = Failing {
        source: &[],
        sink: &[],
        disk: calls,
    };
    Given {
        file,
        script,
        failing,
        room,
    }
}

/// Carries out a script over a file, where these calls of the disk fail, with room for few bytes.
pub(crate) fn stopped<'x>(
    rt: &(impl Abort + Threads + Sync),
    alloc: Global,
    file: &'x [u8],
    script: &'x [u8],
    calls: &'x [u64],
) -> RunEnd {
    run_with(rt, alloc, &with_calls(file, script, calls, 1 << 12))
}

/// Carries out a script over a file, with no failure and room for many bytes.
pub(crate) fn carried_out<'x>(
    rt: &(impl Abort + Threads + Sync),
    alloc: Global,
    file: &'x [u8],
    script: &'x [u8],
) -> RunEnd {
    run_with(rt, alloc, &with_calls(file, script, &[], 1 << 20))
}

/// A command that adds the rows (1, 1), (2, 2) and so on to T, without its end.
pub(crate) fn inserting(rt: &impl Abort, alloc: Global, count: u64) -> Vec<u8> {
    let mut text = Bytes::new(alloc);
    text.extend(b"INSERT INTO T VALUES (1, 1)")
        .expect(rt, "memory");
    for number in 2..=count {
        push_row(rt, &mut text, number);
    }
    text.as_slice().to_vec(alloc).expect(rt, "memory")
}

fn push_row(rt: &impl Abort, text: &mut Bytes, number: u64) {
    text.extend(b", (").expect(rt, "memory");
    text.extend_decimal(number).expect(rt, "memory");
    text.extend(b", ").expect(rt, "memory");
    text.extend_decimal(number).expect(rt, "memory");
    text.push(b')').expect(rt, "memory");
}
