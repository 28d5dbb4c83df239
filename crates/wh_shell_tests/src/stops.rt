//! What a stop leaves, seen through whole runs: every call of the disk fails in turn, and every
//! file that a crash may then leave is opened.

use crate::running::stopped;
use crate::told::{Held, commits_in};
use std::alloc::Global;
use std::process::Abort;
use std::thread::Threads;
use wh_shell::{Fault, Status};
use wh_world::MemDisk;

const CREATE: &[u8] = b"CREATE TABLE T(K NUMBER);";

/// Ten commands, each of which makes a commit.
const COMMANDS: &[&[u8]] = &[
    CREATE,
    b"INSERT INTO T VALUES (1);",
    b"INSERT INTO T VALUES (2), (3);",
    b"CREATE TABLE U(A NUMBER, B NUMBER);",
    b"INSERT INTO U SELECT K, K + 6 FROM T WHERE K < 3;",
    b"UPDATE T SET K = K + 3 WHERE K > 1;",
    b"MERGE INTO T USING U ON T.K = U.A WHEN MATCHED THEN DELETE WHEN NOT MATCHED THEN INSERT VALUES (U.B);",
    b"DELETE FROM U WHERE B = 7;",
    b"CREATE OR REPLACE TABLE U(C NUMBER);",
    b"DROP TABLE T;",
];

const LISTINGS: &[u8] = b"SELECT * FROM T; SELECT * FROM U;";

/// What the listings print after the first of the commands, after none to all of them.
const TEN: Held = Held {
    listings: LISTINGS,
    listed: &[
        b"E6 UnknownName T\nE6 UnknownName U\n",
        b"K\n(0 rows)\nE6 UnknownName U\n",
        b"K\n1\n(1 rows)\nE6 UnknownName U\n",
        b"K\n1\n2\n3\n(3 rows)\nE6 UnknownName U\n",
        b"K\n1\n2\n3\n(3 rows)\nA | B\n(0 rows)\n",
        b"K\n1\n2\n3\n(3 rows)\nA | B\n1 | 7\n2 | 8\n(2 rows)\n",
        b"K\n1\n5\n6\n(3 rows)\nA | B\n1 | 7\n2 | 8\n(2 rows)\n",
        b"K\n5\n6\n8\n(3 rows)\nA | B\n1 | 7\n2 | 8\n(2 rows)\n",
        b"K\n5\n6\n8\n(3 rows)\nA | B\n2 | 8\n(1 rows)\n",
        b"K\n5\n6\n8\n(3 rows)\nC\n(0 rows)\n",
        b"E6 UnknownName T\nC\n(0 rows)\n",
    ],
};

/// A pick: of the bytes that were written and not synced the first `cut` are there, and in the
/// place of those behind them stands `fill`, or for 256 what was there before.
fn torn(cut: u64, fill: u64) -> u64 {
    cut.saturating_mul(257)
        .saturating_add(fill)
        .saturating_add(2)
}

/// The commands from a place on, as one script.
fn commands_from(rt: &impl Abort, alloc: Global, first: usize) -> Vec<u8> {
    let commands = COMMANDS.get(first..).expect(rt, "a command");
    commands.concat(alloc).expect(rt, "memory")
}

/// How a run of the listings over a file ends.
fn listing_status(rt: &(impl Abort + Threads + Sync), alloc: Global, file: &[u8]) -> Status {
    stopped(rt, alloc, file, LISTINGS, &[]).status
}

fn lines(text: &[u8]) -> usize {
    let mut lines = 0usize;
    for byte in text {
        if *byte == b'\n' {
            lines = lines.saturating_add(1);
        }
    }
    lines
}

/// How a run of the commands from a place on ends over a file, and how many of the commands the
/// file then holds.
fn gone_on(
    rt: &(impl Abort + Threads + Sync),
    alloc: Global,
    file: &[u8],
    held: usize,
) -> (Status, Option<usize>) {
    let script = commands_from(rt, alloc, held);
    let rest = stopped(rt, alloc, file, &script, &[]);
    (rest.status, commits_in(rt, alloc, &TEN, rest.disk.bytes()))
}

/// Whether a file holds the commands that were answered, at most one more, and the others go on
/// from there.
fn holds_what_was_answered(
    rt: &(impl Abort + Threads + Sync),
    alloc: Global,
    file: &[u8],
    answered: usize,
) -> bool {
    let Some(held) = commits_in(rt, alloc, &TEN, file) else {
        return false;
    };
    let (status, all) = gone_on(rt, alloc, file, held);
    let goes_on = status == Status::Read { refusals: 0 } && all == Some(COMMANDS.len());
    (held == answered || held == answered.saturating_add(1)) && goes_on
}

/// Whether a pick's file holds what was answered.
fn pick_holds(
    rt: &(impl Abort + Threads + Sync),
    alloc: Global,
    disk: &MemDisk,
    pick: u64,
    answered: usize,
) -> bool {
    let image = disk.image(alloc, pick).expect(rt, "memory");
    let is_shown = 1 < pick && image.as_slice() == disk.bytes();
    is_shown || holds_what_was_answered(rt, alloc, &image, answered)
}

/// Whether each pick's file holds what was answered, where what is torn at a place has each of
/// these bytes behind.
fn torn_hold(
    rt: &(impl Abort + Threads + Sync),
    alloc: Global,
    disk: &MemDisk,
    cut: u64,
    answered: usize,
) -> bool {
    const FILLS: &[u64] = &[0, 1, 255, 256];
    for fill in FILLS {
        if !pick_holds(rt, alloc, disk, torn(cut, *fill), answered) {
            return false;
        }
    }
    true
}

/// Whether each file that a crash may leave holds what was answered: the synced bytes, what a
/// read gives, and what is torn at each place.
fn picks_hold(
    rt: &(impl Abort + Threads + Sync),
    alloc: Global,
    disk: &MemDisk,
    answered: usize,
) -> bool {
    for cut in 0..130u64 {
        if !torn_hold(rt, alloc, disk, cut, answered) {
            return false;
        }
    }
    pick_holds(rt, alloc, disk, 0, answered) && pick_holds(rt, alloc, disk, 1, answered)
}

/// A script that is stopped at that call leaves what was answered.
fn assert_stop(rt: &(impl Abort + Threads + Sync), alloc: Global, script: &[u8], call: u64) {
    let left = stopped(rt, alloc, b"", script, &[call]);
    assert_eq!(rt; left.status, Status::Stopped(Fault::Disk), "call {call}");
    let answered = lines(left.out.held());
    let holds = picks_hold(rt, alloc, &left.disk, answered);
    assert!(rt; holds, "call {call}");
}

#[test]
fn each_file_that_a_failed_call_may_leave_holds_what_was_answered(rt: HostRuntime) {
    let alloc = rt.alloc();
    let script = commands_from(&rt, alloc, 0);
    // Four calls to open, four for each commit, and two for each of four partitions that are read.
    for call in 1..53u64 {
        assert_stop(&rt, alloc, &script, call);
    }
    let done = stopped(&rt, alloc, b"", &script, &[53]);
    assert_eq!(rt; done.status, Status::Read { refusals: 0 });
}

/// How many bytes the file has after a script.
fn size_after(rt: &(impl Abort + Threads + Sync), alloc: Global, script: &[u8]) -> usize {
    stopped(rt, alloc, b"", script, &[]).disk.bytes().len()
}

/// How many bytes the file has after none to all of the commands.
fn sizes(rt: &(impl Abort + Threads + Sync), alloc: Global) -> Vec<usize> {
    let mut sizes = Vec::new(alloc);
    let mut script = Vec::new(alloc);
    sizes
        .push(size_after(rt, alloc, &script))
        .expect(rt, "memory");
    for command in COMMANDS {
        script.extend_from_slice(command).expect(rt, "memory");
        sizes
            .push(size_after(rt, alloc, &script))
            .expect(rt, "memory");
    }
    sizes
}

/// Where a file that ends within its open records has its first fault: at the gate of the record
/// that is cut, or at its end where a gate is missing. The gates are the last bytes of the files
/// after each of the commands.
fn first_fault(sizes: &[usize], len: usize) -> u64 {
    let mut at = 0;
    for size in sizes {
        if *size <= len.saturating_add(1) {
            at = size.saturating_sub(1) as u64;
        }
    }
    at
}

/// Whether a front of a file holds what it is to hold: no command in at most 8 bytes, a first
/// fault within the open records, which end there, and what was answered from then on.
fn front_holds(
    rt: &(impl Abort + Threads + Sync),
    alloc: Global,
    front: &[u8],
    sizes: &[usize],
    end: usize,
    answered: usize,
) -> bool {
    if front.len() <= 8 {
        return commits_in(rt, alloc, &TEN, front) == Some(0);
    }
    if end <= front.len() {
        return holds_what_was_answered(rt, alloc, front, answered);
    }
    let at = first_fault(sizes, front.len());
    listing_status(rt, alloc, front) == Status::Stopped(Fault::NotWarehouse { at })
}

/// Whether each front of a file does.
fn fronts_hold(
    rt: &(impl Abort + Threads + Sync),
    alloc: Global,
    file: &[u8],
    sizes: &[usize],
    answered: usize,
) -> bool {
    let Some(held) = commits_in(rt, alloc, &TEN, file) else {
        return false;
    };
    let Some(end) = sizes.get(held) else {
        return false;
    };
    for len in 0..file.len() {
        if !front_holds(rt, alloc, &file[..len], sizes, *end, answered) {
            return false;
        }
    }
    true
}

/// Each front of what a script leaves that is stopped at that call does.
fn assert_fronts(
    rt: &(impl Abort + Threads + Sync),
    alloc: Global,
    script: &[u8],
    sizes: &[usize],
    call: u64,
) {
    let left = stopped(rt, alloc, b"", script, &[call]);
    let answered = lines(left.out.held());
    let holds = fronts_hold(rt, alloc, left.disk.bytes(), sizes, answered);
    assert!(rt; holds, "call {call}");
}

#[test]
fn each_front_of_a_file_holds_whole_commits_or_has_a_first_fault(rt: HostRuntime) {
    let alloc = rt.alloc();
    let script = commands_from(&rt, alloc, 0);
    let sizes = sizes(&rt, alloc);
    for call in 4..54u64 {
        assert_fronts(&rt, alloc, &script, &sizes, call);
    }
}

/// A file with a byte turned to ff.
fn turned(rt: &impl Abort, alloc: Global, file: &[u8], at: usize) -> Vec<u8> {
    let mut turned = file.to_vec(alloc).expect(rt, "memory");
    if let Some(byte) = turned.get_mut(at) {
        *byte = 0xff;
    }
    turned
}

/// A file with a byte turned to ff opens, or is no warehouse.
fn assert_named(rt: &(impl Abort + Threads + Sync), alloc: Global, file: &[u8], at: usize) {
    let turned = turned(rt, alloc, file, at);
    let named = match listing_status(rt, alloc, &turned) {
        Status::Read { .. } | Status::Stopped(Fault::NotWarehouse { .. }) => true,
        _ => false,
    };
    assert!(rt; named, "byte {at}");
}

#[test]
fn a_file_with_any_byte_turned_opens_or_is_no_warehouse(rt: HostRuntime) {
    let alloc = rt.alloc();
    let script = commands_from(&rt, alloc, 0);
    let whole = stopped(&rt, alloc, b"", &script, &[]);
    for at in 0..whole.disk.bytes().len() {
        assert_named(&rt, alloc, whole.disk.bytes(), at);
    }
}

/// The table is there in a file exactly where its gate is open.
fn assert_gate(rt: &(impl Abort + Threads + Sync), alloc: Global, disk: &MemDisk, gate: u8) {
    let pick = torn(0, u64::from(gate));
    let image = disk.image(alloc, pick).expect(rt, "memory");
    let commits = if gate == 1 { 1 } else { 0 };
    assert_eq!(rt; image.get(7).copied(), Some(gate), "gate {gate}");
    assert_eq!(rt;
        commits_in(rt, alloc, &TEN, &image),
        Some(commits),
        "gate {gate}"
    );
}

#[test]
fn a_stop_at_the_gate_leaves_the_table_or_not(rt: HostRuntime) {
    let alloc = rt.alloc();
    // The eighth call is the sync behind the write of the gate.
    let left = stopped(&rt, alloc, b"", CREATE, &[8]);
    assert_eq!(rt; left.status, Status::Stopped(Fault::Disk));
    assert_eq!(rt; left.out.held(), b"".as_slice());
    for gate in 0..=255u8 {
        assert_gate(&rt, alloc, &left.disk, gate);
    }
}

/// A pick's file has the table.
fn assert_table(rt: &(impl Abort + Threads + Sync), alloc: Global, disk: &MemDisk, pick: u64) {
    let image = disk.image(alloc, pick).expect(rt, "memory");
    assert_eq!(rt; commits_in(rt, alloc, &TEN, &image), Some(1), "pick {pick}");
}

#[test]
fn after_the_reply_each_file_has_the_table(rt: HostRuntime) {
    let alloc = rt.alloc();
    let done = stopped(&rt, alloc, b"", CREATE, &[]);
    assert_eq!(rt; done.status, Status::Read { refusals: 0 });
    for pick in 0..1000u64 {
        assert_table(&rt, alloc, &done.disk, pick);
    }
}
