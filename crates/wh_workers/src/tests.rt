//! Two workers at once, and one list's answers for each worker count.

use crate::{Workers, map_parts, map_pieces};
use std::alloc::{AllocError, Global};
use std::process::Abort;
use std::sync::Arc;
use std::sync::atomic::{AtomicBool, Ordering};
use std::thread::Threads;
use wh_part::{NumberedRow, Partition};
use wh_value::Row;

// Partitions with the numbers from 0 on, each of one row without values.
fn parts_of(rt: &impl Abort, alloc: Global, count: u64) -> Vec<Arc<Partition>> {
    let mut parts = Vec::new(alloc);
    for number in 0..count {
        let row = NumberedRow {
            number: 0,
            row: Row::new(alloc),
        };
        let rows = vec![in alloc; row].expect(rt, "memory");
        let part = Arc::new(alloc, Partition::make(number, rows)).expect(rt, "memory");
        parts.push(part).expect(rt, "memory");
    }
    parts
}

// Sets a flag, and looks for the other one for so many turns at most.
fn meets(mine: &AtomicBool, other: &AtomicBool) -> bool {
    mine.store(true, Ordering::SeqCst);
    for _ in 0..100_000_000u64 {
        if other.load(Ordering::SeqCst) {
            return true;
        }
    }
    false
}

#[test]
fn two_workers_are_at_work_at_once(rt: HostRuntime) {
    let parts = parts_of(&rt, rt.alloc(), 2);
    let (first, second) = (AtomicBool::new(false), AtomicBool::new(false));
    let met = map_parts(
        &Workers {
            rt: &rt,
            alloc: rt.alloc(),
            count: 2,
        },
        parts.as_slice(),
        &|part: &Partition| {
            if part.number() == 0 {
                meets(&first, &second)
            } else {
                meets(&second, &first)
            }
        },
    )
    .expect(&rt, "memory");
    assert_eq!(rt; met.as_slice(), [true, true].as_slice());
}

const WORKERS: [u32; 5] = [1, 2, 3, 7, 64];

const COUNTS: [u64; 5] = [0, 1, 2, 5, 13];

// The numbers from 0 on.
fn numbers_of(rt: &impl Abort, alloc: Global, count: u64) -> Vec<u64> {
    let mut numbers = Vec::new(alloc);
    for number in 0..count {
        numbers.push(number).expect(rt, "memory");
    }
    numbers
}

// The numbers of partitions, and those of pieces side by side, are in order.
fn assert_in_order(rt: &(impl Abort + Threads + Sync), alloc: Global, workers: u32, count: u64) {
    assert!(rt; workers > 0);
    let crew = Workers {
        rt,
        alloc,
        count: workers,
    };
    let numbers = numbers_of(rt, alloc, count);
    let parts = parts_of(rt, alloc, count);
    let told = map_parts(
        &crew,
        parts.as_slice(),
        &|part: &Partition| { part.number() },
    )
    .expect(rt, "memory");
    assert_eq!(rt; told, numbers, "{count} partitions, {workers} workers");
    let pieces = map_pieces(
        &crew,
        numbers.as_slice(),
        &|piece: &[u64]| -> Result<Vec<u64>, AllocError> { piece.to_vec(alloc) },
    )
    .expect(rt, "memory");
    let mut side_by_side = Vec::new(alloc);
    for piece in pieces {
        let mut piece = piece.expect(rt, "memory");
        side_by_side.append(&mut piece).expect(rt, "memory");
    }
    assert_eq!(rt; side_by_side, numbers, "{count} items, {workers} workers");
}

#[test]
fn answers_are_in_the_order_of_the_list(rt: HostRuntime) {
    for workers in WORKERS {
        for count in COUNTS {
            assert_in_order(&rt, rt.alloc(), workers, count);
        }
    }
}
