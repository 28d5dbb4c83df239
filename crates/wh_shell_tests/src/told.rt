//! Scripts that are stopped at every call of the disk, and what is listed of the file that is left:
//! transactions of two sessions, commits that consume a stream, and refreshes of kept groups.

use crate::running::{RunEnd, stopped};
use std::alloc::Global;
use std::process::Abort;
use std::thread::Threads;
use wh_shell::{Fault, Status};
use wh_world::MemDisk;

/// What a file holds of a script, by what is listed of it.
#[derive(Clone, Copy)]
pub(crate) struct Held {
    pub(crate) listings: &'static [u8],
    /// What the listings print after none to all of the commits.
    pub(crate) listed: &'static [&'static [u8]],
}

/// A script each of whose commits is answered by a line that begins with `C`: `CREATED`,
/// `COMMITTED` or the name of a table that is refreshed.
#[derive(Clone, Copy)]
struct Commits {
    script: &'static [u8],
    refusals: u64,
    held: Held,
}

/// Four commits: two tables, and a transaction of each session. A third is open at the end: the
/// next run finds none open, and what it held is free.
const TRANSACTIONS: Commits = Commits {
    script: b"CREATE TABLE T(K NUMBER);
CREATE TABLE U(K NUMBER);
BEGIN;
INSERT INTO T VALUES (1);
!session 2
BEGIN;
INSERT INTO U VALUES (10);
!session 1
INSERT INTO T VALUES (2);
UPDATE U SET K = 0;
COMMIT;
!session 2
UPDATE U SET K = K + 1;
INSERT INTO U VALUES (20);
DELETE FROM T WHERE K = 1;
COMMIT;
BEGIN;
DELETE FROM T;
ROLLBACK;
BEGIN;
DELETE FROM T;
INSERT INTO U VALUES (5);
",
    refusals: 1,
    held: Held {
        listings: b"SELECT * FROM T; SELECT * FROM U; COMMIT;
!session 2
DELETE FROM T;",
        listed: &[
            b"E6 UnknownName T\nE6 UnknownName U\nE5 NoTransaction\nE6 UnknownName T\n",
            b"K\n(0 rows)\nE6 UnknownName U\nE5 NoTransaction\nDELETED 0\n",
            b"K\n(0 rows)\nK\n(0 rows)\nE5 NoTransaction\nDELETED 0\n",
            b"K\n1\n2\n(2 rows)\nK\n(0 rows)\nE5 NoTransaction\nDELETED 2\n",
            b"K\n2\n(1 rows)\nK\n11\n20\n(2 rows)\nE5 NoTransaction\nDELETED 1\n",
        ],
    },
};

/// Seven commits. The fifth and the last move changes of T on to C.
const CHANGES: Commits = Commits {
    script: b"CREATE TABLE T(K NUMBER);
CREATE TABLE C(K NUMBER);
CREATE STREAM S ON TABLE T;
BEGIN;
INSERT INTO T VALUES (1), (2);
COMMIT;
BEGIN;
INSERT INTO C SELECT K FROM S;
COMMIT;
BEGIN;
UPDATE T SET K = 11 WHERE K = 1;
DELETE FROM T WHERE K = 2;
COMMIT;
BEGIN;
INSERT INTO C SELECT K FROM S WHERE METADATA$ACTION = 'INSERT';
COMMIT;
",
    refusals: 0,
    held: Held {
        listings: b"SELECT * FROM T; SELECT * FROM C; SELECT K, METADATA$ACTION AS A FROM S;",
        listed: &[
            b"E6 UnknownName T\nE6 UnknownName C\nE6 UnknownName S\n",
            b"K\n(0 rows)\nE6 UnknownName C\nE6 UnknownName S\n",
            b"K\n(0 rows)\nK\n(0 rows)\nE6 UnknownName S\n",
            b"K\n(0 rows)\nK\n(0 rows)\nK | A\n(0 rows)\n",
            b"K\n1\n2\n(2 rows)\nK\n(0 rows)\nK | A\n1 | 'INSERT'\n2 | 'INSERT'\n(2 rows)\n",
            b"K\n1\n2\n(2 rows)\nK\n1\n2\n(2 rows)\nK | A\n(0 rows)\n",
            b"K\n11\n(1 rows)\nK\n1\n2\n(2 rows)\nK | A\n1 | 'DELETE'\n2 | 'DELETE'\n11 | 'INSERT'\n(3 rows)\n",
            b"K\n11\n(1 rows)\nK\n1\n2\n11\n(3 rows)\nK | A\n(0 rows)\n",
        ],
    },
};

/// The same with a stream of appended rows: a row that is changed or goes is moved on as it came.
const APPENDED: Commits = Commits {
    script: b"CREATE TABLE T(K NUMBER);
CREATE TABLE F(K NUMBER);
CREATE STREAM A ON TABLE T APPEND_ONLY = TRUE;
BEGIN;
INSERT INTO T VALUES (1), (2);
COMMIT;
BEGIN;
INSERT INTO F SELECT K FROM A;
COMMIT;
BEGIN;
UPDATE T SET K = 11 WHERE K = 1;
DELETE FROM T WHERE K = 2;
INSERT INTO T VALUES (3);
COMMIT;
BEGIN;
INSERT INTO F SELECT K FROM A;
COMMIT;
",
    refusals: 0,
    held: Held {
        listings: b"SELECT * FROM T; SELECT * FROM F; SELECT K FROM A;",
        listed: &[
            b"E6 UnknownName T\nE6 UnknownName F\nE6 UnknownName A\n",
            b"K\n(0 rows)\nE6 UnknownName F\nE6 UnknownName A\n",
            b"K\n(0 rows)\nK\n(0 rows)\nE6 UnknownName A\n",
            b"K\n(0 rows)\nK\n(0 rows)\nK\n(0 rows)\n",
            b"K\n1\n2\n(2 rows)\nK\n(0 rows)\nK\n1\n2\n(2 rows)\n",
            b"K\n1\n2\n(2 rows)\nK\n1\n2\n(2 rows)\nK\n(0 rows)\n",
            b"K\n3\n11\n(2 rows)\nK\n1\n2\n(2 rows)\nK\n3\n(1 rows)\n",
            b"K\n3\n11\n(2 rows)\nK\n1\n2\n3\n(3 rows)\nK\n(0 rows)\n",
        ],
    },
};

/// Six commits: a table of groups is refreshed twice. What is listed refreshes it once more, by the
/// groups that the file has.
const GROUPS: Commits = Commits {
    script: b"CREATE TABLE T(K NUMBER, V NUMBER);
CREATE DYNAMIC TABLE COUNTS TARGET_LAG = '1 hour' INITIALIZE = ON_SCHEDULE
AS SELECT K, COUNT(*) AS N, SUM(V) AS S FROM T GROUP BY K;
BEGIN;
INSERT INTO T VALUES (1, 10), (2, 20), (2, 22);
COMMIT;
ALTER DYNAMIC TABLE COUNTS REFRESH;
BEGIN;
INSERT INTO T VALUES (1, 5), (3, NULL);
DELETE FROM T WHERE V = 20;
COMMIT;
ALTER DYNAMIC TABLE COUNTS REFRESH;
",
    refusals: 0,
    held: Held {
        listings: b"SELECT * FROM COUNTS;
INSERT INTO T VALUES (2, 1);
ALTER DYNAMIC TABLE COUNTS REFRESH;
SELECT * FROM COUNTS;",
        listed: &[
            b"E6 UnknownName COUNTS\nE6 UnknownName T\nE6 UnknownName COUNTS\nE6 UnknownName COUNTS\n",
            b"E6 UnknownName COUNTS\nINSERTED 1\nE6 UnknownName COUNTS\nE6 UnknownName COUNTS\n",
            b"E14 NotInitialized COUNTS\nINSERTED 1\nCOUNTS REFRESHED 5 FULL +1 -0\nK | N | S\n2 | 1 | 1\n(1 rows)\n",
            b"E14 NotInitialized COUNTS\nINSERTED 1\nCOUNTS REFRESHED 8 FULL +2 -0\nK | N | S\n1 | 1 | 10\n2 | 3 | 43\n(2 rows)\n",
            b"K | N | S\n1 | 1 | 10\n2 | 2 | 42\n(2 rows)\nINSERTED 1\nCOUNTS REFRESHED 9 INCREMENTAL +1 -1\nK | N | S\n1 | 1 | 10\n2 | 3 | 43\n(2 rows)\n",
            b"K | N | S\n1 | 1 | 10\n2 | 2 | 42\n(2 rows)\nINSERTED 1\nCOUNTS REFRESHED 13 INCREMENTAL +3 -2\nK | N | S\n1 | 2 | 15\n2 | 2 | 23\n3 | 1 | NULL\n(3 rows)\n",
            b"K | N | S\n1 | 2 | 15\n2 | 1 | 22\n3 | 1 | NULL\n(3 rows)\nINSERTED 1\nCOUNTS REFRESHED 14 INCREMENTAL +1 -1\nK | N | S\n1 | 2 | 15\n2 | 2 | 23\n3 | 1 | NULL\n(3 rows)\n",
        ],
    },
};

/// How many commits the listings of a file show; none where they print anything else.
pub(crate) fn commits_in(
    rt: &(impl Abort + Threads + Sync),
    alloc: Global,
    held: &Held,
    file: &[u8],
) -> Option<usize> {
    let left = stopped(rt, alloc, file, held.listings, &[]);
    for (count, listed) in held.listed.iter().enumerate() {
        if *listed == left.out.held() {
            return Some(count);
        }
    }
    None
}

/// How many commits are told: lines that begin with `C`.
fn commits_told(text: &[u8]) -> usize {
    let mut count = 0usize;
    let mut begins = true;
    for byte in text {
        if begins && *byte == b'C' {
            count = count.saturating_add(1);
        }
        begins = *byte == b'\n';
    }
    count
}

/// Whether a pick's file holds the commits that were told, or one more, and no part of another.
fn pick_holds(
    rt: &(impl Abort + Threads + Sync),
    alloc: Global,
    commits: &Commits,
    disk: &MemDisk,
    pick: u64,
    told: usize,
) -> bool {
    let image = disk.image(alloc, pick).expect(rt, "memory");
    let held = commits_in(rt, alloc, &commits.held, &image);
    held == Some(told) || held == Some(told.saturating_add(1))
}

/// What is left of a script that is stopped at a call is what was told.
fn assert_stop(
    rt: &(impl Abort + Threads + Sync),
    alloc: Global,
    commits: &Commits,
    call: u64,
    left: &RunEnd,
) {
    let told = commits_told(left.out.held());
    // The synced bytes, what a read gives, and what is torn within the first bytes.
    for pick in 0..100u64 {
        let holds = pick_holds(rt, alloc, commits, &left.disk, pick, told);
        assert!(rt; holds, "call {call}, pick {pick}");
    }
}

/// The script isn't stopped: all of its commits are told, and in the file.
fn assert_whole(
    rt: &(impl Abort + Threads + Sync),
    alloc: Global,
    commits: &Commits,
    done: &RunEnd,
) {
    let refusals = commits.refusals;
    assert_eq!(rt; done.status, Status::Read { refusals });
    let told = commits_told(done.out.held());
    assert_eq!(rt; told.saturating_add(1), commits.held.listed.len(), "told");
    assert_eq!(rt;
        commits_in(rt, alloc, &commits.held, done.disk.bytes()),
        Some(told),
        "held"
    );
}

/// Whether that call stops the script.
fn is_stopped(
    rt: &(impl Abort + Threads + Sync),
    alloc: Global,
    commits: &Commits,
    call: u64,
) -> bool {
    let end = stopped(rt, alloc, b"", commits.script, &[call]);
    if end.status == Status::Stopped(Fault::Disk) {
        assert_stop(rt, alloc, commits, call, &end);
        return true;
    }
    assert_whole(rt, alloc, commits, &end);
    false
}

/// The script is stopped at each of its calls: four to open, four for each commit, which is one
/// record, and two for each partition that is read.
fn assert_stops(rt: &(impl Abort + Threads + Sync), alloc: Global, commits: &Commits, reads: u64) {
    let records = commits.held.listed.len() as u64;
    let last = records
        .saturating_mul(4)
        .saturating_add(reads.saturating_mul(2));
    for call in 1..=last {
        assert!(rt; is_stopped(rt, alloc, commits, call), "call {call}");
    }
    assert!(rt;
        !is_stopped(rt, alloc, commits, last.saturating_add(1)),
        "{last}"
    );
}

#[test]
fn a_stop_in_transactions_leaves_the_commits_that_were_told(rt: HostRuntime) {
    assert_stops(&rt, rt.alloc(), &TRANSACTIONS, 2);
}

#[test]
fn a_stop_while_changes_are_moved_on_leaves_them_moved_once(rt: HostRuntime) {
    assert_stops(&rt, rt.alloc(), &CHANGES, 2);
}

#[test]
fn a_stop_while_appended_rows_are_moved_on_leaves_them_moved_once(rt: HostRuntime) {
    assert_stops(&rt, rt.alloc(), &APPENDED, 3);
}

#[test]
fn a_stop_while_groups_are_kept_leaves_them_beside_their_rows(rt: HostRuntime) {
    assert_stops(&rt, rt.alloc(), &GROUPS, 4);
}
