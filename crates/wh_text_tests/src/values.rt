//! Rows that are sorted by themselves: the program sorts by keys (wh_listing).

use std::alloc::Global;
use std::process::Abort;
use wh_value::{Row, Value, sort_rows};

fn row(rt: &impl Abort, alloc: Global, number: i64) -> Row {
    let mut row = Row::new(alloc);
    row.push(Value::Number(number)).expect(rt, "memory");
    row
}

fn rows(rt: &impl Abort, alloc: Global, numbers: &[i64]) -> Vec<Row> {
    let mut rows = Vec::new(alloc);
    for number in numbers {
        rows.push(row(rt, alloc, *number)).expect(rt, "memory");
    }
    rows
}

#[test]
fn rows_are_sorted(rt: HostRuntime) {
    let alloc = rt.alloc();
    let mut found = rows(&rt, alloc, &[2, 10, -1, 2]);
    sort_rows(&mut found).expect(&rt, "memory");
    assert_eq!(rt; found, rows(&rt, alloc, &[-1, 2, 2, 10]));
}
