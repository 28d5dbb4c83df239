//! What each refresh of a whole script asks for: of the sources what moved since the one before.

use crate::halts::{command, event_answered, names, opened};
use crate::running::disk_of;
use std::alloc::Global;
use std::process::Abort;
use std::thread::Threads;
use wh_engine::{Event, Warehouse};
use wh_generator::Generator;
use wh_part::PartId;
use wh_value::Bytes;
use wh_world::{MemDisk, Source};

/// A line of a script, its answer, and the partitions that it asks for, by object and number.
type Turn = (&'static str, &'static [u8], &'static [(u32, u64)]);

// Carries out a command without its end, or a tick at a reading of the clock.
fn turned(
    rt: &(impl Abort + Threads + Sync),
    alloc: Global,
    warehouse: &mut Warehouse<MemDisk>,
    line: &str,
) -> Bytes {
    let event = match line.strip_prefix("!tick ") {
        Some(reading) => Event::Tick {
            reading: u64::from_str_radix(reading, 10)
                .map_err(|_| "no number")
                .expect(rt, "a reading"),
        },
        None => command(rt, alloc, line.as_bytes()),
    };
    event_answered(rt, alloc, warehouse, &event).expect(rt, "no halt")
}

fn assert_turns(
    rt: &(impl Abort + Threads + Sync),
    alloc: Global,
    warehouse: &mut Warehouse<MemDisk>,
    turns: &[Turn],
) {
    for (line, answer, asked) in turns {
        let found = turned(rt, alloc, warehouse, line);
        assert_eq!(rt; found.as_slice(), *answer);
        let wanted = names(rt, alloc, asked);
        assert_eq!(rt; warehouse.fetched(), wanted.as_slice());
    }
}

// A command that adds rows to RAW, from one number to another: the regions take turns.
fn raw_rows(rt: &impl Abort, alloc: Global, first: u64, last: u64) -> Vec<u8> {
    let mut text = Bytes::new(alloc);
    let mut before: &[u8] = b"INSERT INTO RAW VALUES (";
    for number in first..=last {
        text.extend(before).expect(rt, "memory");
        text.extend_decimal(number).expect(rt, "memory");
        let region: &[u8] = if number % 2 == 1 {
            b", 'EAST', "
        } else {
            b", 'WEST', "
        };
        text.extend(region).expect(rt, "memory");
        text.extend_decimal(number).expect(rt, "memory");
        before = b"), (";
    }
    text.push(b')').expect(rt, "memory");
    text.as_slice().to_vec(alloc).expect(rt, "memory")
}

#[test]
fn each_refresh_of_a_pipeline_asks_for_what_moved_since_the_one_before(rt: HostRuntime) {
    const MADE: &[Turn] = &[
        (
            "CREATE TABLE RAW(ID NUMBER, REGION VARCHAR, AMOUNT NUMBER)",
            b"CREATED TABLE RAW\n",
            &[],
        ),
        (
            "CREATE TABLE SALES(ID NUMBER, REGION VARCHAR, AMOUNT NUMBER)",
            b"CREATED TABLE SALES\n",
            &[],
        ),
        (
            "CREATE STREAM RAW_CHANGES ON TABLE RAW",
            b"CREATED STREAM RAW_CHANGES\n",
            &[],
        ),
        (
            "CREATE TASK LOAD SCHEDULE = '5 MINUTE' WHEN SYSTEM$STREAM_HAS_DATA('RAW_CHANGES')
AS MERGE INTO SALES AS S USING (
SELECT ID, REGION, AMOUNT, METADATA$ACTION AS ACT, METADATA$ISUPDATE AS UPD FROM RAW_CHANGES
) AS C ON S.ID = C.ID
WHEN MATCHED AND C.ACT = 'DELETE' AND NOT C.UPD THEN DELETE
WHEN MATCHED AND C.ACT = 'INSERT' THEN UPDATE SET REGION = C.REGION, AMOUNT = C.AMOUNT
WHEN NOT MATCHED AND C.ACT = 'INSERT'
THEN INSERT (ID, REGION, AMOUNT) VALUES (C.ID, C.REGION, C.AMOUNT)",
            b"CREATED TASK LOAD\n",
            &[],
        ),
        (
            "CREATE DYNAMIC TABLE BY_REGION TARGET_LAG = DOWNSTREAM
AS SELECT REGION, COUNT(*) AS N, SUM(AMOUNT) AS TOTAL FROM SALES GROUP BY REGION",
            b"CREATED DYNAMIC TABLE BY_REGION\nBY_REGION REFRESHED 5 FULL +0 -0\n",
            &[],
        ),
        (
            "CREATE DYNAMIC TABLE BIG TARGET_LAG = '10 minutes'
AS SELECT REGION, TOTAL FROM BY_REGION WHERE TOTAL > 1563000",
            b"CREATED DYNAMIC TABLE BIG
BY_REGION REFRESHED 6 NO_DATA +0 -0
BIG REFRESHED 6 FULL +0 -0
",
            &[],
        ),
        ("ALTER TASK LOAD RESUME", b"RESUMED LOAD\n", &[]),
    ];
    // The rows that came into SALES are read once, and BIG reads what the call itself brought.
    const CAME: &[Turn] = &[
        ("!tick 300007", b"STARTED LOAD\n", &[]),
        (
            "!tick 300007",
            b"TASK LOAD SUCCEEDED MERGED 2500 INSERTED 0 UPDATED 0 DELETED
GRAPH LOAD SUCCEEDED
",
            &[(1, 1), (1, 2), (1, 3), (1, 1), (1, 2), (1, 3)],
        ),
        (
            "!tick 384000",
            b"BY_REGION REFRESHED 384000 INCREMENTAL +2 -0
BIG REFRESHED 384000 INCREMENTAL +1 -0
",
            &[(2, 1), (2, 2), (2, 3)],
        ),
    ];
    // Of SALES one row changed in one partition, and one went from another: the third is left.
    const WENT: &[Turn] = &[
        (
            "UPDATE RAW SET AMOUNT = AMOUNT + 1000 WHERE ID = 1",
            b"UPDATED 1\n",
            &[(1, 1), (1, 1)],
        ),
        (
            "DELETE FROM RAW WHERE ID = 2500",
            b"DELETED 1\n",
            &[(1, 3), (1, 3)],
        ),
        ("!tick 600007", b"STARTED LOAD\n", &[]),
        (
            "!tick 600007",
            b"TASK LOAD SUCCEEDED MERGED 0 INSERTED 1 UPDATED 1 DELETED
GRAPH LOAD SUCCEEDED
",
            &[
                // by the condition of the task
                (1, 1),
                (1, 3),
                (1, 4),
                (1, 5),
                // by its MERGE: the target, what moves on, and what is put anew
                (2, 1),
                (2, 2),
                (2, 3),
                (1, 1),
                (1, 3),
                (1, 4),
                (1, 5),
                (2, 1),
                (2, 3),
            ],
        ),
        (
            "!tick 768000",
            b"BY_REGION REFRESHED 768000 INCREMENTAL +2 -2
BIG REFRESHED 768000 INCREMENTAL +1 -1
",
            &[
                // what came into SALES, and what went
                (2, 4),
                (2, 5),
                (2, 1),
                (2, 3),
                // their own, which they put anew; BIG reads what went from BY_REGION
                (5, 1),
                (5, 1),
                (5, 1),
                (6, 1),
                (6, 1),
            ],
        ),
    ];
    let alloc = rt.alloc();
    let mut first = opened(&rt, alloc, disk_of(&rt, alloc, b"", 1 << 20, &[]));
    assert_turns(&rt, alloc, &mut first, MADE);
    for (from, to) in [(1, 1000), (1001, 2000), (2001, 2500)] {
        let text = raw_rows(&rt, alloc, from, to);
        let event = command(&rt, alloc, &text);
        event_answered(&rt, alloc, &mut first, &event).expect(&rt, "no halt");
    }
    assert_turns(&rt, alloc, &mut first, CAME);
    let mut second = opened(&rt, alloc, first.close());
    assert_turns(&rt, alloc, &mut second, WENT);
}

// The script of 2,000 rows behind the seed 1.
fn generated(rt: &impl Abort, alloc: Global) -> String {
    let mut generator = Generator::new(alloc, 2000, 1).expect(rt, "memory");
    let mut script = Bytes::new(alloc);
    let mut piece = [0; 256];
    // its opening, its rows, its last command and its end
    for _ in 0..2010 {
        let count = generator.read(&mut piece).expect(rt, "a piece");
        script.extend(&piece[..count]).expect(rt, "memory");
    }
    let text = str::from_utf8(script.as_slice()).map_err(|_| "no text");
    String::from_str(alloc, text.expect(rt, "a text")).expect(rt, "memory")
}

#[test]
fn each_refresh_of_the_generated_script_asks_for_the_batch_that_came(rt: HostRuntime) {
    // BENCH_T is the third object, and BENCH_D, which stands on it, the fourth.
    const ASKED: &[(u32, u64)] = &[(3, 1), (3, 2), (3, 3), (3, 4)];
    let alloc = rt.alloc();
    let script = generated(&rt, alloc);
    let mut warehouse = opened(&rt, alloc, disk_of(&rt, alloc, b"", 1 << 20, &[]));
    let mut asked = Vec::new(alloc);
    for line in script.lines() {
        turned(
            &rt,
            alloc,
            &mut warehouse,
            line.strip_suffix(";").unwrap_or(line),
        );
        if line.starts_with("!tick ") {
            push_sources(&rt, warehouse.fetched(), &mut asked);
        }
    }
    assert_eq!(rt; asked.as_slice(), names(&rt, alloc, ASKED).as_slice());
}

// Adds the partitions that aren't the dynamic table's own.
fn push_sources(rt: &impl Abort, fetched: &[PartId], asked: &mut Vec<PartId>) {
    for part in fetched {
        if part.object != 4 {
            asked.push(*part).expect(rt, "memory");
        }
    }
}
