//! Events over an open warehouse: what they ask for, and what a halt leaves.

use crate::running::{disk_of, inserting};
use std::alloc::Global;
use std::process::Abort;
use std::thread::Threads;
use wh_engine::{Event, Halt, Warehouse};
use wh_part::PartId;
use wh_text::print_reply;
use wh_value::Bytes;
use wh_world::MemDisk;

/// The warehouse of a disk.
pub(crate) fn opened(
    rt: &(impl Abort + Threads + Sync),
    alloc: Global,
    disk: MemDisk,
) -> Warehouse<MemDisk> {
    Warehouse::open(rt, alloc, disk, 1, 1 << 20)
        .map_err(|_| "not opened")
        .expect(rt, "a warehouse")
}

/// What an event is answered.
pub(crate) fn event_answered(
    rt: &(impl Abort + Threads + Sync),
    alloc: Global,
    warehouse: &mut Warehouse<MemDisk>,
    event: &Event,
) -> Result<Bytes, Halt> {
    let reply = warehouse.carry_out(rt, event)?;
    let mut lines = Bytes::new(alloc);
    print_reply(alloc, reply, &mut lines).expect(rt, "memory");
    Ok(lines)
}

/// A command of a session.
pub(crate) fn command(rt: &impl Abort, alloc: Global, text: &[u8]) -> Event {
    Event::Command {
        reading: 0,
        session: 1,
        text: Bytes::from_slice(alloc, text).expect(rt, "memory"),
    }
}

// What a command is answered.
fn answered(
    rt: &(impl Abort + Threads + Sync),
    alloc: Global,
    warehouse: &mut Warehouse<MemDisk>,
    text: &[u8],
) -> Result<Bytes, Halt> {
    event_answered(rt, alloc, warehouse, &command(rt, alloc, text))
}

fn assert_answer(
    rt: &(impl Abort + Threads + Sync),
    alloc: Global,
    warehouse: &mut Warehouse<MemDisk>,
    text: &[u8],
    lines: &[u8],
) {
    let found = answered(rt, alloc, warehouse, text).expect(rt, "no halt");
    assert_eq!(rt; found.as_slice(), lines);
}

fn assert_halt(
    rt: &(impl Abort + Threads + Sync),
    alloc: Global,
    warehouse: &mut Warehouse<MemDisk>,
    text: &[u8],
    halt: Halt,
) {
    let found = answered(rt, alloc, warehouse, text).err();
    assert_eq!(rt; found, Some(halt));
}

#[test]
fn a_halt_leaves_the_warehouse_as_it_was(rt: HostRuntime) {
    const SELECT: &[u8] = b"SELECT * FROM T";
    const INSERT: &[u8] = b"INSERT INTO T VALUES (2)";
    const ONE: &[u8] = b"K\n1\n(1 rows)\n";
    let alloc = rt.alloc();
    // Opening makes four calls, each commit four, and a read two. The read of the first SELECT
    // fails, and the first sync of the second INSERT.
    let disk = disk_of(&rt, alloc, b"", 1 << 12, &[14, 18]);
    let mut warehouse = opened(&rt, alloc, disk);
    assert_answer(
        &rt,
        alloc,
        &mut warehouse,
        b"CREATE TABLE T(K NUMBER)",
        b"CREATED TABLE T\n",
    );
    assert_answer(
        &rt,
        alloc,
        &mut warehouse,
        b"INSERT INTO T VALUES (1)",
        b"INSERTED 1\n",
    );
    assert_halt(&rt, alloc, &mut warehouse, SELECT, Halt::ReadFault);
    assert_answer(&rt, alloc, &mut warehouse, SELECT, ONE);
    assert_halt(&rt, alloc, &mut warehouse, INSERT, Halt::DiskFault);
    assert_halt(
        &rt,
        alloc,
        &mut warehouse,
        INSERT,
        Halt::NeedsReopen { faults: 2 },
    );
    let mut again = opened(&rt, alloc, warehouse.close());
    assert_answer(&rt, alloc, &mut again, SELECT, ONE);
    assert_answer(&rt, alloc, &mut again, INSERT, b"INSERTED 1\n");
}

/// A command, its answer, and the partitions that it asks for, by object and number.
pub(crate) type Asking = (&'static [u8], &'static [u8], &'static [(u32, u64)]);

/// Each command in turn asks for these partitions.
pub(crate) fn assert_asked(
    rt: &(impl Abort + Threads + Sync),
    alloc: Global,
    warehouse: &mut Warehouse<MemDisk>,
    commands: &[Asking],
) {
    for (command, lines, asked) in commands {
        assert_answer(rt, alloc, warehouse, command, lines);
        let wanted = names(rt, alloc, asked);
        assert_eq!(rt; warehouse.fetched(), wanted.as_slice());
    }
}

/// Partitions by object and number.
pub(crate) fn names(rt: &impl Abort, alloc: Global, asked: &[(u32, u64)]) -> Vec<PartId> {
    let mut wanted = Vec::new(alloc);
    for (object, number) in asked {
        let part = PartId {
            object: *object,
            number: *number,
        };
        wanted.push(part).expect(rt, "memory");
    }
    wanted
}

/// A table of 1,500 rows: 1,000 in its first partition, and 500 in the second.
pub(crate) fn filled(rt: &(impl Abort + Threads + Sync), alloc: Global) -> Warehouse<MemDisk> {
    let mut warehouse = opened(rt, alloc, disk_of(rt, alloc, b"", 1 << 20, &[]));
    let create = b"CREATE TABLE T(K NUMBER, V NUMBER)";
    assert_answer(rt, alloc, &mut warehouse, create, b"CREATED TABLE T\n");
    let insert = inserting(rt, alloc, 1500);
    assert_answer(rt, alloc, &mut warehouse, &insert, b"INSERTED 1500\n");
    warehouse
}

#[test]
fn a_command_asks_for_the_partitions_that_may_hold_its_rows(rt: HostRuntime) {
    const COMMANDS: &[Asking] = &[
        (
            b"SELECT K FROM T WHERE K >= 1000 AND K <= 1001",
            b"K\n1000\n1001\n(2 rows)\n",
            &[(1, 1), (1, 2)],
        ),
        (
            b"SELECT K FROM T WHERE K = 1",
            b"K\n1\n(1 rows)\n",
            &[(1, 1)],
        ),
        (
            b"SELECT K FROM T WHERE V = 1001",
            b"K\n1001\n(1 rows)\n",
            &[(1, 2)],
        ),
        (b"SELECT K FROM T WHERE K > 1500", b"K\n(0 rows)\n", &[]),
        (b"DELETE FROM T WHERE K < 1", b"DELETED 0\n", &[]),
        // The rows on which its condition may be TRUE, and the partition that it puts anew.
        (
            b"UPDATE T SET V = 0 WHERE K = 1500",
            b"UPDATED 1\n",
            &[(1, 2), (1, 2)],
        ),
        (
            b"SELECT K FROM T WHERE V = 0",
            b"K\n1500\n(1 rows)\n",
            &[(1, 3)],
        ),
    ];
    let alloc = rt.alloc();
    let mut warehouse = filled(&rt, alloc);
    assert_asked(&rt, alloc, &mut warehouse, COMMANDS);
}

#[test]
fn a_stream_and_a_linear_refresh_ask_for_the_partitions_that_moved(rt: HostRuntime) {
    const MADE: &[Asking] = &[
        (b"CREATE STREAM S ON TABLE T", b"CREATED STREAM S\n", &[]),
        (
            b"CREATE STREAM A ON TABLE T APPEND_ONLY = TRUE",
            b"CREATED STREAM A\n",
            &[],
        ),
        (b"SELECT K FROM S", b"K\n(0 rows)\n", &[]),
        (b"SELECT SYSTEM$STREAM_HAS_DATA('A')", b"FALSE\n", &[]),
        (
            b"CREATE DYNAMIC TABLE SAME TARGET_LAG = '1 hour' AS SELECT K, V FROM T",
            b"CREATED DYNAMIC TABLE SAME\nSAME REFRESHED 7 FULL +1500 -0\n",
            &[(1, 1), (1, 2)],
        ),
        (
            b"CREATE DYNAMIC TABLE FEW TARGET_LAG = '1 hour' AS SELECT K FROM T WHERE V < 3",
            b"CREATED DYNAMIC TABLE FEW\nFEW REFRESHED 8 FULL +2 -0\n",
            &[(1, 1)],
        ),
        (
            b"CREATE DYNAMIC TABLE SUMS TARGET_LAG = '1 hour' AS SELECT K + V AS W FROM T",
            b"CREATED DYNAMIC TABLE SUMS\nSUMS REFRESHED 9 FULL +1500 -0\n",
            &[(1, 1), (1, 2)],
        ),
        (
            b"CREATE DYNAMIC TABLE BOTH TARGET_LAG = '1 hour' AS SELECT K FROM T WHERE K < 3 UNION ALL SELECT V FROM T WHERE V > 1499",
            b"CREATED DYNAMIC TABLE BOTH\nBOTH REFRESHED 10 FULL +3 -0\n",
            &[(1, 1), (1, 2)],
        ),
    ];
    const CAME: &[Asking] = &[
        (b"INSERT INTO T VALUES (1501, 2)", b"INSERTED 1\n", &[]),
        (b"SELECT K FROM S", b"K\n1501\n(1 rows)\n", &[(1, 3)]),
        (b"SELECT SYSTEM$STREAM_HAS_DATA('S')", b"TRUE\n", &[(1, 3)]),
        (b"SELECT K FROM A", b"K\n1501\n(1 rows)\n", &[(1, 3)]),
        (
            b"SELECT S.K FROM S JOIN A ON S.K = A.K",
            b"K\n1501\n(1 rows)\n",
            &[(1, 3), (1, 3)],
        ),
        (
            b"ALTER DYNAMIC TABLE SAME REFRESH",
            b"SAME REFRESHED 16 INCREMENTAL +1 -0\n",
            &[(1, 3)],
        ),
        (
            b"ALTER DYNAMIC TABLE FEW REFRESH",
            b"FEW REFRESHED 17 INCREMENTAL +1 -0\n",
            &[(1, 3)],
        ),
        (
            b"ALTER DYNAMIC TABLE SUMS REFRESH",
            b"SUMS REFRESHED 18 INCREMENTAL +1 -0\n",
            &[(1, 3)],
        ),
        // No row of what came may meet one of its conditions.
        (
            b"ALTER DYNAMIC TABLE BOTH REFRESH",
            b"BOTH REFRESHED 19 INCREMENTAL +0 -0\n",
            &[],
        ),
    ];
    const WENT: &[Asking] = &[
        // The rows on which its condition may be TRUE, and the partition that it puts anew.
        (
            b"DELETE FROM T WHERE K = 2",
            b"DELETED 1\n",
            &[(1, 1), (1, 1)],
        ),
        (
            b"SELECT K FROM S ORDER BY K",
            b"K\n2\n1501\n(2 rows)\n",
            &[(1, 1), (1, 3), (1, 4)],
        ),
        (
            b"SELECT SYSTEM$STREAM_HAS_DATA('S')",
            b"TRUE\n",
            &[(1, 1), (1, 3), (1, 4)],
        ),
        // What came with each version, and of those in front the one with numbers in common.
        (
            b"SELECT K FROM A",
            b"K\n1501\n(1 rows)\n",
            &[(1, 1), (1, 3), (1, 4)],
        ),
        // What came and what went, and the table's own partition, which it puts anew.
        (
            b"ALTER DYNAMIC TABLE SAME REFRESH",
            b"SAME REFRESHED 24 INCREMENTAL +0 -1\n",
            &[(1, 4), (1, 1), (4, 1), (4, 1)],
        ),
        (
            b"ALTER DYNAMIC TABLE FEW REFRESH",
            b"FEW REFRESHED 25 INCREMENTAL +0 -1\n",
            &[(1, 4), (1, 1), (5, 1), (5, 1)],
        ),
        (
            b"ALTER DYNAMIC TABLE SUMS REFRESH",
            b"SUMS REFRESHED 26 INCREMENTAL +0 -1\n",
            &[(1, 4), (1, 1), (6, 1), (6, 1)],
        ),
        (
            b"ALTER DYNAMIC TABLE BOTH REFRESH",
            b"BOTH REFRESHED 27 INCREMENTAL +0 -1\n",
            &[(1, 4), (1, 1), (7, 1), (7, 1)],
        ),
        (
            b"ALTER DYNAMIC TABLE BOTH REFRESH",
            b"BOTH REFRESHED 28 NO_DATA +0 -0\n",
            &[],
        ),
        // Read for the last time: what is consumed is asked for no more.
        (b"CREATE TABLE C(K NUMBER)", b"CREATED TABLE C\n", &[]),
        (
            b"INSERT INTO C SELECT K FROM S",
            b"INSERTED 2\n",
            &[(1, 1), (1, 3), (1, 4)],
        ),
        (b"SELECT K FROM S", b"K\n(0 rows)\n", &[]),
    ];
    let alloc = rt.alloc();
    let mut warehouse = filled(&rt, alloc);
    assert_asked(&rt, alloc, &mut warehouse, MADE);
    assert_asked(&rt, alloc, &mut warehouse, CAME);
    assert_asked(&rt, alloc, &mut warehouse, WENT);
}
