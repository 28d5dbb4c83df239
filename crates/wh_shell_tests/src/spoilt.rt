//! What is read of a file whose rows stand in it: how often, which partitions are passed over, and
//! what is answered where one isn't as it was written.

use crate::running::{carried_out, inserting};
use crate::watched::{SOUND, Spoilt, WHOLLY, run_watched};
use std::alloc::Global;
use std::process::Abort;
use std::thread::Threads;
use wh_shell::{Fault, Status};

fn joined(rt: &impl Abort, alloc: Global, pieces: &[&[u8]]) -> Vec<u8> {
    let mut all = Vec::new(alloc);
    for piece in pieces {
        all.extend_from_slice(piece).expect(rt, "memory");
    }
    all
}

// The table's record ends at 49. Behind that gate stand eight bytes of length, a stamp and a count
// of twelve bytes, and 33 bytes of the new version in front of its partition.
#[test]
fn a_partition_that_is_not_as_it_was_written_is_told(rt: HostRuntime) {
    const SPOILT: &[u8] =
        b"CREATE TABLE T(K NUMBER); INSERT INTO T VALUES (1); SELECT * FROM T; BEGIN;";
    const REPLIES: &[u8] = b"CREATED TABLE T\nINSERTED 1\n";
    let found = run_watched(&rt, rt.alloc(), b"", SPOILT, WHOLLY, &[]);
    assert_eq!(rt; found.status, Status::Stopped(Fault::Damaged { at: 103 }));
    assert_eq!(rt; found.status.code(), 10);
    assert_eq!(rt; found.out.held(), REPLIES);
}

/// The rows of a partition, a condition, and whether the partition is read for it.
type Bound = (&'static [u8], &'static [u8], bool);

/// A statement in front of its condition, and what it answers where no partition is read.
type Passing = (&'static [u8], &'static [u8]);

// Whether a statement with the condition stops at the partition of the rows, which can't be read.
// Where it doesn't, it answers that there is nothing.
fn is_read(
    rt: &(impl Abort + Threads + Sync),
    alloc: Global,
    statement: &[u8],
    rows: &[u8],
    condition: &[u8],
    nothing: &[u8],
) -> bool {
    let script = joined(
        rt,
        alloc,
        &[
            b"CREATE TABLE T(K NUMBER); CREATE TABLE E(K NUMBER); INSERT INTO T VALUES ",
            rows,
            b"; ",
            statement,
            condition,
            b";",
        ],
    );
    let found = run_watched(rt, alloc, b"", &script, WHOLLY, &[]);
    if found.status.code() == 10 {
        return true;
    }
    let replies = joined(
        rt,
        alloc,
        &[b"CREATED TABLE T\nCREATED TABLE E\nINSERTED 2\n", nothing],
    );
    assert_eq!(rt; found.out.held(), replies.as_slice());
    false
}

// Whether each statement reads the partition for each condition as it is told.
fn all_are_read_so(
    rt: &(impl Abort + Threads + Sync),
    alloc: Global,
    bounds: &[Bound],
    statements: &[Passing],
) {
    for (rows, condition, read) in bounds {
        for (statement, nothing) in statements {
            let stops = is_read(rt, alloc, statement, rows, condition, nothing);
            assert!(rt; stops == *read);
        }
    }
}

#[test]
fn a_partition_is_passed_over_where_no_row_can_meet_the_condition(rt: HostRuntime) {
    const STATEMENTS: &[Passing] = &[
        (b"SELECT K FROM T WHERE ", b"K\n(0 rows)\n"),
        (b"UPDATE T SET K = 5 WHERE ", b"UPDATED 0\n"),
        (b"DELETE FROM T WHERE ", b"DELETED 0\n"),
    ];
    // The condition goes to the side of T.
    const JOINS: &[Passing] = &[
        (
            b"SELECT K FROM T JOIN (SELECT COUNT(*) AS N FROM E) R ON TRUE WHERE ",
            b"K\n(0 rows)\n",
        ),
        (
            b"SELECT K FROM (SELECT COUNT(*) AS N FROM E) L JOIN T ON TRUE WHERE ",
            b"K\n(0 rows)\n",
        ),
    ];
    const BOUNDS: &[Bound] = &[
        (b"(5), (7)", b"K < 5", false),
        (b"(5), (7)", b"K < 6", true),
        (b"(5), (7)", b"K <= 4", false),
        (b"(5), (7)", b"K <= 5", true),
        (b"(5), (7)", b"K > 7", false),
        (b"(5), (7)", b"K > 6", true),
        (b"(5), (7)", b"K >= 8", false),
        (b"(5), (7)", b"K >= 7", true),
        (b"(5), (7)", b"K = 4", false),
        (b"(5), (7)", b"K = 5", true),
        (b"(5), (7)", b"K = 7", true),
        (b"(5), (7)", b"K = 8", false),
        (b"(5), (5)", b"K <> 5", false),
        (b"(5), (7)", b"K <> 5", true),
        (b"(5), (7)", b"5 > K", false),
        (b"(5), (7)", b"5 >= K", true),
        (b"(5), (7)", b"7 < K", false),
        (b"(5), (7)", b"7 <= K", true),
        (b"(NULL), (NULL)", b"K = 5", false),
        (b"(NULL), (NULL)", b"K <> 5", false),
        (b"(5), (NULL)", b"K > 5", true),
        (b"(5), (7)", b"K = NULL", false),
        (b"(5), (7)", b"K IS NULL", false),
        (b"(5), (NULL)", b"K IS NULL", true),
        (b"(5), (7)", b"K = 4 AND K + 1 = 0", true),
        (b"(5), (7)", b"K < 5 OR K > 7", false),
        (b"(5), (7)", b"K < 5 OR K > 6", true),
        (b"(5), (7)", b"NOT K >= 5", true),
    ];
    // A minus sign is arithmetic, which stays above a Join.
    const SIGNED: &[Bound] = &[
        (b"(5), (7)", b"K = -1", false),
        (b"(-7), (5)", b"K = -1", true),
        (b"(-7), (-5)", b"-4 <= K", false),
        (b"(5), (7)", b"K < -(K)", true),
    ];
    let alloc = rt.alloc();
    all_are_read_so(&rt, alloc, BOUNDS, STATEMENTS);
    all_are_read_so(&rt, alloc, BOUNDS, JOINS);
    all_are_read_so(&rt, alloc, SIGNED, STATEMENTS);
}

// How often rows are read by SELECTs, in a run that has made so many partitions of one row.
fn reads_of(
    rt: &(impl Abort + Threads + Sync),
    alloc: Global,
    partitions: u64,
    selects: u64,
) -> u64 {
    let mut script = joined(rt, alloc, &[b"CREATE TABLE T(K NUMBER);"]);
    for _ in 0..partitions {
        script
            .extend_from_slice(b"INSERT INTO T VALUES (1);")
            .expect(rt, "memory");
    }
    for _ in 0..selects {
        script
            .extend_from_slice(b"SELECT COUNT(*) FROM T;")
            .expect(rt, "memory");
    }
    run_watched(rt, alloc, b"", &script, SOUND, &[]).reads
}

#[test]
fn the_last_256_partitions_are_read_once(rt: HostRuntime) {
    let alloc = rt.alloc();
    let opening = reads_of(&rt, alloc, 600, 0);
    let first = reads_of(&rt, alloc, 600, 1);
    let second = reads_of(&rt, alloc, 600, 2);
    assert!(rt; opening <= first && first - opening == 600);
    assert!(rt; first <= second && second - first == 600);
    let kept = reads_of(&rt, alloc, 256, 1);
    assert!(rt; reads_of(&rt, alloc, 256, 2) == kept);
}

/// A file, and how often opening reads it.
#[derive(Drop)]
struct Filed {
    file: Vec<u8>,
    reads: u64,
}

// The file that a script makes.
fn filed_by(rt: &(impl Abort + Threads + Sync), alloc: Global, script: &[u8]) -> Filed {
    let made = carried_out(rt, alloc, b"", script);
    let file = made.disk.bytes().to_vec(alloc).expect(rt, "memory");
    let reads = run_watched(rt, alloc, &file, b"", SOUND, &[]).reads;
    Filed { file, reads }
}

impl Filed {
    // From one position up to another another byte is read, once the file is open.
    fn reading_as(&self, from: u64, to: u64, fill: u8) -> Spoilt {
        Spoilt {
            after: self.reads,
            from,
            to,
            fill,
        }
    }
}

#[test]
fn a_partition_that_is_spoilt_once_the_file_is_open_is_told(rt: HostRuntime) {
    let alloc = rt.alloc();
    let insert = inserting(&rt, alloc, 1500);
    let script = joined(
        &rt,
        alloc,
        &[b"CREATE TABLE T(K NUMBER, V NUMBER);", &insert],
    );
    let filed = filed_by(&rt, alloc, &script);
    // The first partition, of 1,000 rows of 26 bytes behind its number and their count.
    let spoilt = filed.reading_as(109, 109 + 26012, 0xff);
    let first = b"SELECT K FROM T WHERE K = 1;";
    let found = run_watched(&rt, alloc, &filed.file, first, spoilt, &[]);
    assert_eq!(rt; found.status, Status::Stopped(Fault::Damaged { at: 109 }));
    let second = b"SELECT K FROM T WHERE K = 1001;";
    let found = run_watched(&rt, alloc, &filed.file, second, spoilt, &[]);
    assert_eq!(rt; found.out.held(), b"K\n1001\n(1 rows)\n".as_slice());
}

const TWO_ROWS: &[u8] = b"CREATE TABLE T(K NUMBER, B BOOLEAN, S VARCHAR);
INSERT INTO T VALUES (5, TRUE, 'hi'), (NULL, FALSE, NULL);";

// Where the partition of the two rows stands, and in how many bytes.
const PLACE: u64 = 115;

const LENGTH: u64 = 48;

// How many calls of the disk a run of the SELECT makes.
const CALLS: u64 = 10;

const SELECT: &[u8] = b"SELECT * FROM T;";

// The file with another byte at a place.
fn turned(rt: &impl Abort, alloc: Global, filed: &Filed, at: u64, fill: u8) -> Vec<u8> {
    let mut file = filed.file.to_vec(alloc).expect(rt, "memory");
    if let Some(byte) = file.get_mut(at as usize) {
        *byte = fill;
    }
    file
}

// Whether a byte that reads as another one once the file is open is answered as where it always
// stood there. Else it is told that the partition is damaged.
fn is_answered(
    rt: &(impl Abort + Threads + Sync),
    alloc: Global,
    filed: &Filed,
    at: u64,
    fill: u8,
) -> bool {
    let spoilt = filed.reading_as(at, at.saturating_add(1), fill);
    let found = run_watched(rt, alloc, &filed.file, SELECT, spoilt, &[]);
    if found.status == Status::Stopped(Fault::Damaged { at: PLACE }) {
        assert_eq!(rt; found.out.held(), b"".as_slice(), "byte {at}");
        return false;
    }
    let file = turned(rt, alloc, filed, at, fill);
    let known = carried_out(rt, alloc, &file, SELECT);
    assert_eq!(rt; found.status, Status::Read { refusals: 0 }, "byte {at}");
    assert_eq!(rt; found.out.held(), known.out.held(), "byte {at}");
    true
}

// Where a call of the disk fails, too, the run ends there and prints nothing.
fn assert_stops(
    rt: &(impl Abort + Threads + Sync),
    alloc: Global,
    filed: &Filed,
    at: u64,
    fill: u8,
) {
    let spoilt = filed.reading_as(at, at.saturating_add(1), fill);
    for call in 1..=CALLS {
        let found = run_watched(rt, alloc, &filed.file, SELECT, spoilt, &[call]);
        assert_eq!(rt;
            found.status,
            Status::Stopped(Fault::Disk),
            "byte {at}, call {call}"
        );
        assert_eq!(rt; found.out.held(), b"".as_slice(), "byte {at}, call {call}");
    }
}

// How many bytes of the partition are answered where these of their bits are turned.
fn answered(rt: &(impl Abort + Threads + Sync), alloc: Global, filed: &Filed, bits: u8) -> usize {
    let mut count = 0usize;
    for at in PLACE..PLACE + LENGTH {
        let byte = filed.file.get(at as usize).copied().expect(rt, "a byte");
        assert_stops(rt, alloc, filed, at, byte ^ bits);
        if is_answered(rt, alloc, filed, at, byte ^ bits) {
            count = count.saturating_add(1);
        }
    }
    count
}

#[test]
fn a_byte_that_is_turned_is_told_or_answered_as_it_stands(rt: HostRuntime) {
    let alloc = rt.alloc();
    let filed = filed_by(&rt, alloc, TWO_ROWS);
    // The eight bytes of the number 5 spell another one.
    assert_eq!(rt; answered(&rt, alloc, &filed, 0xff), 8);
    // So they do, and both truths become the other one, and both letters others.
    assert_eq!(rt; answered(&rt, alloc, &filed, 1), 12);
}
