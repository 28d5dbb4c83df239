ghost use Rattle.std.specs.Prelude.{◌≡◌, [], ◌∷◌, Some};
ghost use Rattle.wh_world.specs.Crash.{Only};

mod images;

use std::alloc::Global;
use std::process::Abort;
use wh_world::*;

fn assert_framed(rt: &impl Abort, alloc: Global, name: &str, payload: &[u8], want: &[u8]) {
    let framed = Framed::of(alloc, payload).expect(rt, "memory");
    assert_eq!(rt; framed.as_slice(), want, "{name}");
}

#[test]
fn a_record_has_its_length_and_a_closed_gate(rt: HostRuntime) {
    let alloc = rt.alloc();
    assert_framed(&rt, alloc, "empty", &[], &[0, 0, 0, 0, 0, 0, 0, 0, 0]);
    let two = &[0, 0, 0, 0, 0, 0, 0, 2, 7, 8, 0];
    assert_framed(&rt, alloc, "two bytes", &[7, 8], two);
}

fn source_of(rt: &impl Abort, alloc: Global, bytes: &[u8], failing: &[u64]) -> MemSource {
    let bytes = bytes.to_vec(alloc).expect(rt, "memory");
    let failing = failing.to_vec(alloc).expect(rt, "memory");
    MemSource::new(bytes, failing)
}

// Each of four calls asks for two bytes. Its number of bytes stands before what the buffer then
// holds; 9 is a call that failed.
fn reads(rt: &impl Abort, alloc: Global, source: &mut MemSource) -> Vec<u8> {
    let mut got = Vec::new(alloc);
    let mut buf = [0u8; 2];
    for _ in 0..4 {
        got.push(source.read(&mut buf).map_or(9, |n| n as u8))
            .expect(rt, "memory");
        got.extend_from_slice(&buf).expect(rt, "memory");
    }
    got
}

fn assert_reads(rt: &impl Abort, alloc: Global, name: &str, failing: &[u64], want: &[u8]) {
    let mut source = source_of(rt, alloc, &[1, 2, 3, 4, 5], failing);
    let got = reads(rt, alloc, &mut source);
    assert_eq!(rt; got.as_slice(), want, "{name}");
}

#[test]
fn a_source_gives_its_bytes_in_order(rt: HostRuntime) {
    const CASES: &[(&str, &[u64], &[u8])] = &[
        ("no failure", &[], &[2, 1, 2, 2, 3, 4, 1, 5, 4, 0, 5, 4]),
        (
            "the first call",
            &[1],
            &[9, 0, 0, 2, 1, 2, 2, 3, 4, 1, 5, 4],
        ),
        (
            "the third call",
            &[3],
            &[2, 1, 2, 2, 3, 4, 9, 3, 4, 1, 5, 4],
        ),
        (
            "two calls, unsorted",
            &[4, 2],
            &[2, 1, 2, 9, 1, 2, 2, 3, 4, 9, 3, 4],
        ),
    ];
    for (name, failing, want) in CASES {
        assert_reads(&rt, rt.alloc(), name, failing, want);
    }
}

fn sink_of(rt: &impl Abort, alloc: Global, room: u64, failing: &[u64]) -> MemSink {
    let failing = failing.to_vec(alloc).expect(rt, "memory");
    MemSink::new(alloc, room, failing).expect(rt, "memory")
}

// What the writes of two bytes, of three and of one give; 9 where one fails.
fn counts(sink: &mut MemSink) -> [usize; 3] {
    let first = sink.write(&[1, 2]).unwrap_or(9);
    let second = sink.write(&[3, 4, 5]).unwrap_or(9);
    let third = sink.write(&[6]).unwrap_or(9);
    [first, second, third]
}

// Its name, its room, the calls that fail, what the writes give, and what the sink then holds.
type SinkCase = (&'static str, u64, &'static [u64], [usize; 3], &'static [u8]);

fn assert_writes(rt: &impl Abort, alloc: Global, case: &SinkCase) {
    let (name, room, failing, wanted, held) = *case;
    let mut sink = sink_of(rt, alloc, room, failing);
    assert_eq!(rt; counts(&mut sink), wanted, "{name}");
    assert_eq!(rt; sink.held(), held, "{name}");
}

#[test]
fn a_sink_takes_what_fits(rt: HostRuntime) {
    const CASES: &[SinkCase] = &[
        ("room for all", 6, &[], [2, 3, 1], &[1, 2, 3, 4, 5, 6]),
        ("more room", 9, &[], [2, 3, 1], &[1, 2, 3, 4, 5, 6]),
        ("part of a piece", 4, &[], [2, 2, 9], &[1, 2, 3, 4]),
        ("no room", 0, &[], [9, 9, 9], &[]),
        ("the first call fails", 9, &[1], [9, 3, 1], &[3, 4, 5, 6]),
        ("the second call fails", 9, &[2], [2, 9, 1], &[1, 2, 6]),
        ("the last call fails", 9, &[3], [2, 3, 9], &[1, 2, 3, 4, 5]),
    ];
    for case in CASES {
        assert_writes(&rt, rt.alloc(), case);
    }
}

fn assert_reading(rt: &impl Abort, clock: &mut SetClock, name: &str, want: u64) {
    assert_eq!(rt; clock.now(), want, "{name}");
}

#[test]
fn a_clock_stays_at_its_last_reading(rt: HostRuntime) {
    const CASES: &[(&str, u64)] = &[
        ("first", 5),
        ("second", 7),
        ("last", 6),
        ("again", 6),
        ("and again", 6),
    ];
    let mut clock = SetClock::new([5, 7, 6].to_vec(rt.alloc()).expect(&rt, "memory"));
    for (name, want) in CASES {
        assert_reading(&rt, &mut clock, name, *want);
    }
}

#[derive(Clone, Copy)]
enum Step {
    Len(u64),
    Read(u64, &'static [u8]),
    Write(u64, &'static [u8]),
    Sync,
}

// Whether the call succeeded, with what it was to give.
fn run(rt: &impl Abort, disk: &mut MemDisk, step: Step) -> bool {
    let size = disk.bytes().len() as u64;
    match step {
        Step::Len(want) => match disk.len() {
            Ok(n) => n == want,
            Err(Failed) => false,
        },
        Step::Read(at, want) => {
            let mut buf = [0u8; 4];
            assert!(rt; want.len() <= 4 && at <= size && want.len() as u64 <= size - at);
            let part = &mut buf[..want.len()];
            disk.read(at, part).is_ok() && *part == *want
        }
        Step::Write(at, piece) => {
            assert!(rt; at <= size && at < 1000 && piece.len() < 1000);
            disk.write_at(at, piece).is_ok()
        }
        Step::Sync => disk.sync().is_ok(),
    }
}

struct Case {
    name: &'static str,
    room: u64,
    calls: u64,
    failing: &'static [u64],
    steps: &'static [Step],
    // The steps that fail, from 1.
    failed: &'static [u64],
    bytes: &'static [u8],
}

const CASES: [Case; 15] = [
    Case {
        name: "over the middle",
        room: 10,
        calls: 10,
        failing: &[],
        steps: &[
            Step::Len(4),
            Step::Read(1, &[20, 30]),
            Step::Write(1, &[5, 6]),
            Step::Read(0, &[10, 5, 6, 40]),
            Step::Sync,
            Step::Len(4),
        ],
        failed: &[],
        bytes: &[10, 5, 6, 40],
    },
    Case {
        name: "past the end",
        room: 10,
        calls: 10,
        failing: &[],
        steps: &[
            Step::Write(3, &[1, 2, 3]),
            Step::Len(6),
            Step::Read(2, &[30, 1, 2, 3]),
        ],
        failed: &[],
        bytes: &[10, 20, 30, 1, 2, 3],
    },
    Case {
        name: "at the end",
        room: 1,
        calls: 1,
        failing: &[],
        steps: &[Step::Write(4, &[50]), Step::Len(5), Step::Read(5, &[])],
        failed: &[],
        bytes: &[10, 20, 30, 40, 50],
    },
    Case {
        name: "an empty piece",
        room: 0,
        calls: 2,
        failing: &[],
        steps: &[Step::Write(4, &[]), Step::Write(2, &[]), Step::Len(4)],
        failed: &[],
        bytes: &[10, 20, 30, 40],
    },
    Case {
        name: "over all and past the end",
        room: 5,
        calls: 1,
        failing: &[],
        steps: &[Step::Write(0, &[1, 2, 3, 4, 5]), Step::Len(5)],
        failed: &[],
        bytes: &[1, 2, 3, 4, 5],
    },
    Case {
        name: "a length fails",
        room: 0,
        calls: 0,
        failing: &[1],
        steps: &[Step::Len(4), Step::Len(4)],
        failed: &[1],
        bytes: &[10, 20, 30, 40],
    },
    Case {
        name: "a read fails",
        room: 0,
        calls: 0,
        failing: &[2],
        steps: &[
            Step::Read(0, &[10]),
            Step::Read(0, &[10]),
            Step::Read(3, &[40]),
        ],
        failed: &[2],
        bytes: &[10, 20, 30, 40],
    },
    Case {
        name: "a write fails",
        room: 10,
        calls: 10,
        failing: &[1],
        steps: &[
            Step::Write(0, &[1]),
            Step::Read(0, &[10]),
            Step::Write(1, &[2]),
        ],
        failed: &[1],
        bytes: &[10, 2, 30, 40],
    },
    Case {
        name: "a sync fails",
        room: 10,
        calls: 10,
        failing: &[2],
        steps: &[Step::Write(0, &[1]), Step::Sync, Step::Sync],
        failed: &[2],
        bytes: &[1, 20, 30, 40],
    },
    Case {
        name: "the room at its bound",
        room: 3,
        calls: 10,
        failing: &[],
        steps: &[
            Step::Write(0, &[1, 2]),
            Step::Write(2, &[3]),
            Step::Write(0, &[]),
            Step::Write(0, &[9]),
        ],
        failed: &[4],
        bytes: &[1, 2, 3, 40],
    },
    Case {
        name: "a piece longer than the room",
        room: 1,
        calls: 10,
        failing: &[],
        steps: &[Step::Write(0, &[1, 2]), Step::Write(0, &[1])],
        failed: &[1],
        bytes: &[1, 20, 30, 40],
    },
    Case {
        name: "the calls at their bound",
        room: 10,
        calls: 2,
        failing: &[],
        steps: &[
            Step::Write(0, &[1]),
            Step::Sync,
            Step::Sync,
            Step::Write(0, &[2]),
            Step::Write(0, &[]),
            Step::Read(0, &[1]),
        ],
        failed: &[3, 4, 5],
        bytes: &[1, 20, 30, 40],
    },
    Case {
        name: "no calls",
        room: 10,
        calls: 0,
        failing: &[],
        steps: &[Step::Sync, Step::Write(4, &[]), Step::Len(4)],
        failed: &[1, 2],
        bytes: &[10, 20, 30, 40],
    },
    Case {
        name: "a failing write takes a call and no room",
        room: 1,
        calls: 2,
        failing: &[1],
        steps: &[Step::Write(0, &[1]), Step::Write(0, &[2]), Step::Sync],
        failed: &[1, 3],
        bytes: &[2, 20, 30, 40],
    },
    Case {
        name: "a failing sync takes no call",
        room: 10,
        calls: 1,
        failing: &[1],
        steps: &[Step::Sync, Step::Sync, Step::Sync],
        failed: &[1, 3],
        bytes: &[10, 20, 30, 40],
    },
];

#[test]
fn a_disk_takes_writes_within_its_bounds(rt: HostRuntime) {
    for case in &CASES {
        check(&rt, rt.alloc(), case);
    }
}

fn disk_of(
    rt: &impl Abort,
    alloc: Global,
    bytes: &[u8],
    room: u64,
    calls: u64,
    failing: &[u64],
) -> MemDisk {
    let bytes = bytes.to_vec(alloc).expect(rt, "memory");
    let failing = failing.to_vec(alloc).expect(rt, "memory");
    MemDisk::new(alloc, bytes, room, calls, failing).expect(rt, "memory")
}

// A step, by its number from 1, succeeds or fails as it is to.
fn assert_step(rt: &impl Abort, disk: &mut MemDisk, case: &Case, number: u64, step: Step) {
    let name = case.name;
    let succeeds = !case.failed.contains(&number);
    let found = run(rt, disk, step);
    assert_eq!(rt; found, succeeds, "{name}, step {number}");
}

fn assert_left(rt: &impl Abort, disk: &MemDisk, case: &Case) {
    let name = case.name;
    assert_eq!(rt; disk.bytes(), case.bytes, "{name}");
    assert_eq!(rt; disk.fault_count(), case.failed.len() as u64, "{name}");
}

fn check(rt: &impl Abort, alloc: Global, case: &Case) {
    let bytes = &[10, 20, 30, 40];
    let mut disk = disk_of(rt, alloc, bytes, case.room, case.calls, case.failing);
    for (i, step) in case.steps.iter().enumerate() {
        assert_step(rt, &mut disk, case, i as u64 + 1, *step);
    }
    assert_left(rt, &disk, case);
}

// Through the bounds a caller knows what a new form holds, from which it reads and writes.
#[test]
fn a_new_form_tells_what_it_holds(rt: HostRuntime) {
    let alloc = rt.alloc();
    let mut source = MemSource::new([7, 8].to_vec(alloc).expect(&rt, "memory"), Vec::new(alloc));
    let mut sink = MemSink::new(alloc, 2, Vec::new(alloc)).expect(&rt, "memory");
    let mut disk = MemDisk::new(alloc, Vec::new(alloc), 2, 2, Vec::new(alloc)).expect(
        &rt, "memory",
    );
    store(&rt, &mut source, &mut disk);
    show(&rt, &mut disk, &mut sink);
    assert_eq!(rt; disk.bytes(), [7, 8].as_slice());
    assert_eq!(rt; sink.held(), [7, 8].as_slice());
}

fn store<S: Source, D: Disk>(rt: &impl Abort, source: &mut S, disk: &mut D)
    requires left { S.left source.old ≡ Some (7 ∷ 8 ∷ []) }
    requires empty { D.bytes disk.old ≡ Some [] }
    requires durable { Only [] (D.may_leave disk.old) }
    requires faults { (D.faults disk.old ≡ 0) × (D.reads disk.old ≡ 0) × (D.moment disk.old ≡ 0) }
{
    let mut buf = [0; 2];
    assert_eq!(rt; source.read(&mut buf), Ok(2));
    assert_eq!(rt; disk.write_at(0, &buf), Ok(()));
    assert_eq!(rt; disk.sync(), Ok(()));
}

fn show<D: Disk, T: Sink>(rt: &impl Abort, disk: &mut D, sink: &mut T)
    requires held { T.held sink.old ≡ Some [] }
{
    assert_eq!(rt; disk.len(), Ok(2));
    let mut buf = [0; 2];
    assert_eq!(rt; disk.read(0, &mut buf), Ok(()));
    assert_eq!(rt; sink.write(&buf), Ok(2));
}
