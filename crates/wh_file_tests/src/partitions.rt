use std::alloc::Global;
use std::process::Abort;
use wh_part::*;
use wh_value::{Bytes, print_literal};

/// Partition 7: row 2 is (NULL, -1, FALSE), and row 258 is (TRUE, 'hi', NULL).
const ALL_KINDS: [u8; 48] = [
    0, 0, 0, 0, 0, 0, 0, 7, 0, 0, 0, 2, 0, 0, 0, 0, 0, 0, 0, 2, 0, 1, 255, 255, 255, 255, 255, 255,
    255, 255, 2, 0, 0, 0, 0, 0, 0, 1, 2, 3, 4, 0, 0, 0, 2, 104, 105, 0,
];

/// Partition 9: row 3 is (5, 'b', NULL), row 4 (NULL, 'ba', NULL), row 10 (-7, 'a', NULL), and row
/// 11 (5, 'b', NULL).
const FOUR_ROWS: [u8; 101] = [
    0, 0, 0, 0, 0, 0, 0, 9, 0, 0, 0, 4, 0, 0, 0, 0, 0, 0, 0, 3, 1, 0, 0, 0, 0, 0, 0, 0, 5, 4, 0, 0,
    0, 1, 98, 0, 0, 0, 0, 0, 0, 0, 0, 4, 0, 4, 0, 0, 0, 2, 98, 97, 0, 0, 0, 0, 0, 0, 0, 0, 10, 1,
    255, 255, 255, 255, 255, 255, 255, 249, 4, 0, 0, 0, 1, 97, 0, 0, 0, 0, 0, 0, 0, 0, 11, 1, 0, 0,
    0, 0, 0, 0, 0, 5, 4, 0, 0, 0, 1, 98, 0,
];

/// The outline of the partition that these bytes begin with.
fn seen(rt: &impl Abort, alloc: Global, bytes: &[u8], width: u32) -> Outline {
    let (outline, _) = Outline::read(alloc, bytes, width)
        .ok()
        .expect(rt, "a partition");
    outline
}

/// The same of its rows.
#[tactic(auto, using(wh_part::proofs::MetaLemmas::even_partition))]
fn drawn(rt: &impl Abort, alloc: Global, bytes: &[u8], width: u32) -> Outline {
    let found = Partition::decode(alloc, bytes, width).expect(rt, "a partition");
    let (partition, _) = found.expect(rt, "memory");
    Outline::of(alloc, &partition).expect(rt, "memory")
}

fn print_bounds(rt: &impl Abort, columns: &[Bounds], out: &mut Bytes) {
    for bounds in columns {
        print_literal(&bounds.least, out).expect(rt, "memory");
        out.extend(b"..").expect(rt, "memory");
        print_literal(&bounds.greatest, out).expect(rt, "memory");
        out.push(b' ').expect(rt, "memory");
    }
}

/// What an outline says: its partition's number, how many rows it has and the numbers of the first
/// and the last, and the bounds of its three columns.
fn assert_outlined(
    rt: &impl Abort,
    alloc: Global,
    outline: Outline,
    length: usize,
    number: u64,
    rows: (usize, u64, u64),
    bounds: &[u8],
) {
    let (meta, _) = outline.filed(3, 100);
    assert_eq!(rt; meta.id.object, 3, "the table");
    assert_eq!(rt; meta.id.number, number, "the number");
    assert_eq!(rt; (meta.at, meta.length), (100, length as u64), "the place");
    assert_eq!(rt; (meta.rows, meta.first, meta.last), rows, "the rows");
    assert_eq!(rt; meta.columns.len(), 3, "the columns");
    let mut printed = Bytes::new(alloc);
    print_bounds(rt, &meta.columns, &mut printed);
    assert_eq!(rt; printed.as_slice(), bounds, "the bounds");
}

/// What is known of the partition that these bytes spell, seen in the bytes and in its rows.
fn assert_known(
    rt: &impl Abort,
    alloc: Global,
    bytes: &[u8],
    number: u64,
    rows: (usize, u64, u64),
    bounds: &[u8],
) {
    let outline = seen(rt, alloc, bytes, 3);
    assert_outlined(rt, alloc, outline, bytes.len(), number, rows, bounds);
    let outline = drawn(rt, alloc, bytes, 3);
    assert_outlined(rt, alloc, outline, bytes.len(), number, rows, bounds);
}

#[test]
fn bounds_follow_the_value_order(rt: HostRuntime) {
    let bounds = b"TRUE..NULL -1..'hi' FALSE..NULL ".as_slice();
    assert_known(&rt, rt.alloc(), &ALL_KINDS, 7, (2, 2, 258), bounds);
}

#[test]
fn bounds_are_those_of_all_rows(rt: HostRuntime) {
    let bounds = b"-7..NULL 'a'..'ba' NULL..NULL ".as_slice();
    assert_known(&rt, rt.alloc(), &FOUR_ROWS, 9, (4, 3, 11), bounds);
}
