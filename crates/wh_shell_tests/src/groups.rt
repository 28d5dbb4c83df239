//! Dynamic tables with kept groups: what a refresh writes of them, and what it asks for.

use crate::halts::{Asking, assert_asked, filled};
use crate::running::carried_out;

#[test]
fn a_refresh_writes_the_groups_that_it_changes_and_no_others(rt: HostRuntime) {
    // A row of group 1 comes and goes again.
    const SCRIPT: &[u8] = b"CREATE TABLE T(K NUMBER, V NUMBER);
INSERT INTO T VALUES (1, 10), (2, 20), (3, 30);
CREATE DYNAMIC TABLE D TARGET_LAG = '1 hour'
AS SELECT K, COUNT(*) AS N, SUM(V) AS S FROM T GROUP BY K;
INSERT INTO T VALUES (1, 5), (2, 2), (4, 40);
DELETE FROM T WHERE V = 5;
DELETE FROM T WHERE K = 3;
ALTER DYNAMIC TABLE D REFRESH;
";
    const WRITTEN: &[u8] = &[
        12, // groups
        0, 0, 0, 2, 0, 0, 0, 1, 0, 0, 0, 2, // of object 2: one key, two calls
        0, 0, 0, 3, // three entries
        1, 0, 0, 0, 0, 0, 0, 0, 2, // the key 2
        0, 0, 0, 0, 0, 0, 0, 2, // two rows
        0, 0, 0, 0, 0, 0, 0, 0, 0, 0, 0, 0, 0, 0, 0, 2, // a count of 2
        0, 0, 0, 0, 0, 0, 0, 22, 0, 0, 0, 0, 0, 0, 0, 2, // the sum 22 of two values
        1, 0, 0, 0, 0, 0, 0, 0, 3, // the key 3
        0, 0, 0, 0, 0, 0, 0, 0, // goes
        0, 0, 0, 0, 0, 0, 0, 0, 0, 0, 0, 0, 0, 0, 0, 0, //
        0, 0, 0, 0, 0, 0, 0, 0, 0, 0, 0, 0, 0, 0, 0, 0, //
        1, 0, 0, 0, 0, 0, 0, 0, 4, // the key 4
        0, 0, 0, 0, 0, 0, 0, 1, // one row
        0, 0, 0, 0, 0, 0, 0, 0, 0, 0, 0, 0, 0, 0, 0, 1, // a count of 1
        0, 0, 0, 0, 0, 0, 0, 40, 0, 0, 0, 0, 0, 0, 0, 1, // the sum 40 of one value
        9, // a dynamic table's state
        0, 0, 0, 2, 0, 0, 14, 16, 0, // object 2, an hour, not suspended
        0, 0, 0, 0, 0, 0, 0, 0, 0, 0, 0, 0, // no failure
        0, 0, 0, 0, 0, 0, 0, 7, // it stands for 7
        0, // the next gate, closed
    ];
    let done = carried_out(&rt, rt.alloc(), b"", SCRIPT);
    let bytes = done.disk.bytes();
    let behind = bytes.len().saturating_sub(WRITTEN.len());
    assert_eq!(rt; bytes.get(behind..), Some(WRITTEN));
}

#[test]
fn a_refresh_by_groups_asks_for_the_partitions_that_moved(rt: HostRuntime) {
    const COMMANDS: &[Asking] = &[
        (
            b"CREATE DYNAMIC TABLE D TARGET_LAG = '1 hour' AS SELECT V, COUNT(*) AS N, SUM(K) AS S FROM T GROUP BY V",
            b"CREATED DYNAMIC TABLE D\nD REFRESHED 3 FULL +1500 -0\n",
            &[(1, 1), (1, 2)],
        ),
        (
            b"INSERT INTO T VALUES (7, 1), (7, 2000)",
            b"INSERTED 2\n",
            &[],
        ),
        // What came, and of the table's own partitions those that it puts anew: to tell which rows
        // go, and to keep the others.
        (
            b"ALTER DYNAMIC TABLE D REFRESH",
            b"D REFRESHED 5 INCREMENTAL +2 -1\n",
            &[(1, 3), (2, 1), (2, 1)],
        ),
        (
            b"DELETE FROM T WHERE K = 1500",
            b"DELETED 1\n",
            &[(1, 2), (1, 2)],
        ),
        (
            b"ALTER DYNAMIC TABLE D REFRESH",
            b"D REFRESHED 7 INCREMENTAL +0 -1\n",
            &[(1, 4), (1, 2), (2, 2), (2, 2)],
        ),
        (
            b"ALTER DYNAMIC TABLE D REFRESH",
            b"D REFRESHED 8 NO_DATA +0 -0\n",
            &[],
        ),
    ];
    let alloc = rt.alloc();
    let mut warehouse = filled(&rt, alloc);
    assert_asked(&rt, alloc, &mut warehouse, COMMANDS);
}
