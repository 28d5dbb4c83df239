ghost use Rattle.std.specs.Prelude.{◌≤◌, ◌^◌, Some};

use crate::running::{
    Failing, Given, carried_out, clock_at_0, disk_of, run_with, sink_of, source_of, the_word,
};
use std::alloc::Global;
use std::process::Abort;
use std::thread::Threads;
use wh_shell::{Fault, Status, Terms, run, run_within};
use wh_world::{Failed, Sink};

const SCRIPT: &[u8] = b"CREATE TABLE T(K NUMBER, V NUMBER);
INSERT INTO T VALUES (2, 5), (1, NULL), (2, 5);
SELECT * FROM T;
";

const REPLIES: &[u8] = b"CREATED TABLE T
INSERTED 3
K | V
1 | NULL
2 | 5
2 | 5
(3 rows)
";

/// A sink that takes one byte at a time.
#[derive(Drop)]
struct ByteSink {
    held: Vec<u8>,
    faults: u64,
}

impl ByteSink {
    fn new(alloc: Global) -> ByteSink {
        ByteSink {
            held: Vec::new(alloc),
            faults: 0,
        }
    }
}

impl Sink for ByteSink {
    ghost held = { λ s. Some s.held.items };

    ghost faults = { λ s. s.faults };

    fn write(&mut self, piece: &[u8]) -> Result<usize, Failed> {
        if self.held.push(piece[0]).is_err() {
            self.faults = self.faults.saturating_add(1);
            return Err(Failed);
        }
        Ok(1)
    }
}

/// Carries out a script over a file of at most so many bytes.
fn assert_limited(
    rt: &(impl Abort + Threads + Sync),
    alloc: Global,
    limit: u64,
    status: Status,
    text: &[u8],
)
    requires some { 8 ≤ limit }
    requires most { limit ≤ 2 ^ 40 }
{
    let script = b"CREATE TABLE T(K NUMBER); INSERT INTO T VALUES (1);";
    let mut source = source_of(rt, alloc, script, &[]);
    let mut out = sink_of(rt, alloc, 100, &[]);
    let disk = disk_of(rt, alloc, b"", 200, &[]);
    let mut clock = clock_at_0(rt, alloc);
    let terms = Terms {
        workers: 1,
        system_clock: false,
        limit,
    };
    let (ended, _) = run_within(rt, alloc, terms, &mut source, &mut out, disk, &mut clock);
    assert_eq!(rt; ended, status, "{limit} bytes");
    assert_eq!(rt; out.held(), text, "{limit} bytes");
}

// The table's record ends at 50, with the gate behind it, and the row's needs 83 bytes more.
#[test]
fn a_file_is_full_where_its_limit_is_passed(rt: HostRuntime) {
    let full = Status::Stopped(Fault::FileFull { len: 50, need: 83 });
    assert_limited(&rt, rt.alloc(), 132, full, b"CREATED TABLE T\n");
    let read = Status::Read { refusals: 0 };
    assert_limited(&rt, rt.alloc(), 133, read, b"CREATED TABLE T\nINSERTED 1\n");
}

#[test]
fn replies_are_written_byte_by_byte(rt: HostRuntime) {
    let alloc = rt.alloc();
    let words = the_word(&rt, alloc);
    let mut source = source_of(&rt, alloc, SCRIPT, &[]);
    let mut out = ByteSink::new(alloc);
    let disk = disk_of(&rt, alloc, b"", 1000, &[]);
    let mut clock = clock_at_0(&rt, alloc);
    let (ended, _) = run(&rt, alloc, &words, &mut source, &mut out, disk, &mut clock);
    assert_eq!(rt; ended, Status::Read { refusals: 0 });
    assert_eq!(rt; out.held.as_slice(), REPLIES);
}

// 3 times 2^9 rows, which are those of two partitions.
const MANY_ROWS: &[u8] = b"CREATE TABLE T(K NUMBER);
INSERT INTO T VALUES (1), (2), (3);
INSERT INTO T SELECT K FROM T;
INSERT INTO T SELECT K FROM T;
INSERT INTO T SELECT K FROM T;
INSERT INTO T SELECT K FROM T;
INSERT INTO T SELECT K FROM T;
INSERT INTO T SELECT K FROM T;
INSERT INTO T SELECT K FROM T;
INSERT INTO T SELECT K FROM T;
INSERT INTO T SELECT K FROM T;
";

#[test]
fn a_second_run_finds_the_rows(rt: HostRuntime) {
    const SECOND: &[u8] = b"SELECT K, COUNT(*) AS N FROM T GROUP BY K;";
    const ROWS: &[u8] = b"K | N\n1 | 512\n2 | 512\n3 | 512\n(3 rows)\n";
    let first = carried_out(&rt, rt.alloc(), b"", MANY_ROWS);
    let second = carried_out(&rt, rt.alloc(), first.disk.bytes(), SECOND);
    assert_eq!(rt; second.status, Status::Read { refusals: 0 });
    assert_eq!(rt; second.out.held(), ROWS);
    assert_eq!(rt; second.disk.bytes(), first.disk.bytes());
}

#[derive(Clone, Copy)]
enum Device {
    Script,
    Output,
    Disk,
}

/// These calls of a device fail.
fn failing_at(device: Device, calls: &[u64]) -> Failing<'_> {
    match device {
        Device::Script => Failing {
            source: calls,
            sink: &[],
            disk: &[],
        },
        Device::Output => Failing {
            source: &[],
            sink: calls,
            disk: &[],
        },
        Device::Disk => Failing {
            source: &[],
            sink: &[],
            disk: calls,
        },
    }
}

/// How a run ends where that call of a device fails, and whether it has written all the replies. It
/// has written a front of them.
fn ended(
    rt: &(impl Abort + Threads + Sync),
    alloc: Global,
    name: &str,
    device: Device,
    call: u64,
) -> (Status, bool) {
    let calls = [call];
    let given = Given {
        file: b"",
        script: SCRIPT,
        failing: failing_at(device, &calls),
        room: 1 << 12,
    };
    let done = run_with(rt, alloc, &given);
    let written = done.out.held();
    assert!(rt; REPLIES.starts_with(written), "{name} at call {call}");
    (done.status, written == REPLIES)
}

/// Whether that call of a device stops a run, by that fault. Else it writes all.
fn is_stopped(
    rt: &(impl Abort + Threads + Sync),
    alloc: Global,
    name: &str,
    device: Device,
    fault: Fault,
    call: u64,
) -> bool {
    let (status, whole) = ended(rt, alloc, name, device, call);
    let stopped = status == Status::Stopped(fault);
    if !stopped {
        assert_eq!(rt;
            status,
            Status::Read { refusals: 0 },
            "{name} at call {call}"
        );
        assert!(rt; whole, "{name} at call {call}");
    }
    stopped
}

/// Some of the first 40 calls of a device stop a run by that fault, and others don't.
fn assert_stops(
    rt: &(impl Abort + Threads + Sync),
    alloc: Global,
    name: &str,
    device: Device,
    fault: Fault,
) {
    let mut faults = 0u64;
    for call in 1..41u64 {
        if is_stopped(rt, alloc, name, device, fault, call) {
            faults = faults.saturating_add(1);
        }
    }
    assert!(rt; 0 < faults && faults < 40, "{name}");
}

#[test]
fn a_device_that_fails_leaves_a_front(rt: HostRuntime) {
    assert_stops(&rt, rt.alloc(), "script", Device::Script, Fault::Script);
    assert_stops(&rt, rt.alloc(), "output", Device::Output, Fault::Output);
    assert_stops(&rt, rt.alloc(), "disk", Device::Disk, Fault::Disk);
}
