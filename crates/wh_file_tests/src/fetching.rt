ghost use Rattle.std.specs.Prelude.{◌≡◌};

use std::alloc::Global;
use std::process::Abort;
use std::sync::Arc;
use wh_fetch::{Fetch, MemFetch};
use wh_part::{NumberedRow, PartId, PartMeta, Partition};
use wh_value::Row;

const FIRST: PartId = PartId {
    object: 1,
    number: 1,
};

const SECOND: PartId = PartId {
    object: 1,
    number: 2,
};

// A partition of one row without values, whose number is this one.
fn part(rt: &impl Abort, alloc: Global, number: u64) -> Arc<Partition> {
    let mut rows = Vec::new(alloc);
    rows.push(NumberedRow {
        number: 1,
        row: Row::new(alloc),
    })
    .expect(rt, "memory");
    Arc::new(alloc, Partition::make(number, rows)).expect(rt, "memory")
}

fn meta(alloc: Global, id: PartId) -> PartMeta
    ensures { result.id ≡ id }
{
    PartMeta {
        id,
        at: 0,
        length: 0,
        rows: 1,
        first: 1,
        last: 1,
        columns: Vec::new(alloc),
    }
}

#[test]
fn a_partition_is_given_by_its_name(rt: HostRuntime) {
    let alloc = rt.alloc();
    let mut parts = Vec::new(alloc);
    parts
        .push((meta(alloc, FIRST), part(&rt, alloc, 7)))
        .expect(&rt, "memory");
    parts
        .push((meta(alloc, SECOND), part(&rt, alloc, 8)))
        .expect(&rt, "memory");
    parts
        .push((meta(alloc, FIRST), part(&rt, alloc, 9)))
        .expect(&rt, "memory");
    let mut fetch = MemFetch::new(alloc, parts).expect(&rt, "memory");
    let second = meta(alloc, SECOND);
    let first = meta(alloc, FIRST);
    let found = fetch
        .fetch(&second)
        .map_err(|_| "not given")
        .expect(&rt, "memory");
    assert_eq!(rt; found.number(), 8);
    let last = fetch
        .fetch(&first)
        .map_err(|_| "not given")
        .expect(&rt, "memory");
    assert_eq!(rt; last.number(), 9);
    assert_eq!(rt; fetch.fetched(), 2);
}
