use crate::{Before, Entry, Groups, Standing, Totals, updated};
use std::alloc::Global;
use std::process::Abort;
use wh_algebra::Call;
use wh_scalar::Scalar;
use wh_value::{Row, Value};

fn key_of(rt: &impl Abort, alloc: Global, key: i64) -> Row {
    let mut row = Row::new(alloc);
    row.push(Value::Number(key)).expect(rt, "memory");
    row
}

fn rows_of(rt: &impl Abort, alloc: Global, rows: &[[i64; 2]]) -> Vec<Row> {
    let mut made = Vec::new(alloc);
    for [key, number] in rows {
        let mut row = key_of(rt, alloc, *key);
        row.push(Value::Number(*number)).expect(rt, "memory");
        made.push(row).expect(rt, "memory");
    }
    made
}

// Moves groups by key with a SUM and a COUNT(*). Says how many entries and rows were found, and
// gives what takes the move back.
fn moved(
    rt: &impl Abort,
    alloc: Global,
    groups: &mut Groups,
    comes: &[[i64; 2]],
    goes: &[[i64; 2]],
) -> ((usize, usize, usize), Before) {
    let by = [Scalar::Column(0)];
    let calls = [Call::Sum(Scalar::Column(1)), Call::CountRows];
    let comes = rows_of(rt, alloc, comes);
    let goes = rows_of(rt, alloc, goes);
    let found = updated(alloc, &by, &calls, groups, &comes, &goes)
        .map_err(|_| "no update")
        .expect(rt, "an update");
    let counts = (found.entries.len(), found.comes.len(), found.goes.len());
    let was = groups.set_all(alloc, found.entries).expect(rt, "memory");
    (counts, was)
}

// The sum and the rows of the group at a key; two zeros where none stands.
fn found_at(rt: &impl Abort, alloc: Global, groups: &Groups, key: i64) -> (i64, u64) {
    match groups.get(&key_of(rt, alloc, key)) {
        Some(group) => (
            group.totals.as_slice().first().expect(rt, "a total").sum,
            group.rows,
        ),
        None => (0, 0),
    }
}

#[test]
fn a_group_comes_and_one_goes(rt: HostRuntime) {
    let alloc = rt.alloc();
    let mut groups = Groups::new(alloc);
    let (first, was) = moved(&rt, alloc, &mut groups, &[[1, 10], [2, 20], [1, 5]], &[]);
    assert_eq!(rt; first, (2, 2, 0));
    groups.settle_all(&was);
    // The group of 1 is touched and stays as it was.
    let (second, was) = moved(
        &rt,
        alloc,
        &mut groups,
        &[[3, 7], [1, 5]],
        &[[2, 20], [1, 5]],
    );
    assert_eq!(rt; second, (2, 2, 2));
    groups.settle_all(&was);
    for (key, sum, rows) in [(1, 15, 2), (2, 0, 0), (3, 7, 1)] {
        assert_eq!(rt; found_at(&rt, alloc, &groups, key), (sum, rows), "{key}");
    }
}

#[test]
fn a_move_is_taken_back(rt: HostRuntime) {
    let alloc = rt.alloc();
    let mut groups = Groups::new(alloc);
    let (_, was) = moved(&rt, alloc, &mut groups, &[[1, 10], [2, 20]], &[]);
    groups.settle_all(&was);
    let (_, was) = moved(&rt, alloc, &mut groups, &[[2, 5], [3, 7]], &[[1, 10]]);
    for (key, sum, rows) in [(1, 0, 0), (2, 25, 2), (3, 7, 1)] {
        assert_eq!(rt; found_at(&rt, alloc, &groups, key), (sum, rows), "{key}");
    }
    groups.put_back_all(was);
    for (key, sum, rows) in [(1, 10, 1), (2, 20, 1), (3, 0, 0)] {
        assert_eq!(rt;
            found_at(&rt, alloc, &groups, key),
            (sum, rows),
            "{key} back"
        );
    }
}

// Sets the group of the key 1, by its rows; None removes it.
fn set_rows(
    rt: &impl Abort,
    alloc: Global,
    groups: &mut Groups,
    rows: Option<u64>,
) -> Option<Entry> {
    let group = rows.map(|rows| Standing {
        rows,
        totals: Totals::new(alloc),
    });
    let key = key_of(rt, alloc, 1);
    groups.set(alloc, Entry { key, group }).ok()
}

#[test]
fn one_group_is_set_and_put_back(rt: HostRuntime) {
    let alloc = rt.alloc();
    let mut groups = Groups::new(alloc);
    let key = key_of(&rt, alloc, 1);
    assert!(rt; set_rows(&rt, alloc, &mut groups, Some(0)).is_none());
    assert!(rt; set_rows(&rt, alloc, &mut groups, Some(3)).is_some());
    let was = set_rows(&rt, alloc, &mut groups, None).expect(&rt, "memory");
    assert!(rt; groups.get(&key).is_none());
    groups.put_back(was);
    assert!(rt; groups.get(&key).is_some_and(|group| group.rows == 3));
    assert!(rt; set_rows(&rt, alloc, &mut groups, None).is_some());
    groups.settle(&key);
    assert!(rt; groups.get(&key).is_none());
}
