use super::{Step, disk_of, run};
use std::alloc::Global;
use std::process::Abort;
use wh_world::MemDisk;

// In the place of a fill: the bytes behind the cut are left as they are.
const NONE: u64 = 256;

struct Case {
    name: &'static str,
    failing: &'static [u64],
    steps: &'static [Step],
    // The cuts and fills of picks, and what each gives.
    images: &'static [(u64, u64, &'static [u8])],
    synced: &'static [u8],
    shown: &'static [u8],
}

const CASES: [Case; 8] = [
    Case {
        name: "a write before a sync and one behind it",
        failing: &[],
        steps: &[Step::Write(0, &[1]), Step::Sync, Step::Write(1, &[2])],
        images: &[
            (0, NONE, &[1, 20, 30, 40]),
            (0, 7, &[1, 7, 30, 40]),
            (1, NONE, &[1, 2, 30, 40]),
            (1, 7, &[1, 2, 30, 40]),
        ],
        synced: &[1, 20, 30, 40],
        shown: &[1, 2, 30, 40],
    },
    Case {
        name: "prefixes of a write past the end",
        failing: &[],
        steps: &[Step::Write(3, &[1, 2, 3])],
        images: &[
            (0, NONE, &[10, 20, 30, 40]),
            (1, NONE, &[10, 20, 30, 1]),
            (2, NONE, &[10, 20, 30, 1, 2]),
            (3, NONE, &[10, 20, 30, 1, 2, 3]),
            (0, 9, &[10, 20, 30, 9, 9, 9]),
            (1, 9, &[10, 20, 30, 1, 9, 9]),
            (2, 9, &[10, 20, 30, 1, 2, 9]),
            (3, 9, &[10, 20, 30, 1, 2, 3]),
            (1000, 0, &[10, 20, 30, 1, 2, 3]),
        ],
        synced: &[10, 20, 30, 40],
        shown: &[10, 20, 30, 1, 2, 3],
    },
    Case {
        name: "the cut goes through two writes",
        failing: &[],
        steps: &[Step::Write(0, &[1, 2]), Step::Write(4, &[3, 4])],
        images: &[
            (0, NONE, &[10, 20, 30, 40]),
            (1, NONE, &[1, 20, 30, 40]),
            (2, NONE, &[1, 2, 30, 40]),
            (3, NONE, &[1, 2, 30, 40, 3]),
            (1, 9, &[1, 9, 30, 40, 9, 9]),
            (3, 9, &[1, 2, 30, 40, 3, 9]),
        ],
        synced: &[10, 20, 30, 40],
        shown: &[1, 2, 30, 40, 3, 4],
    },
    Case {
        name: "the later of two writes stands over the earlier",
        failing: &[],
        steps: &[Step::Write(0, &[1, 2]), Step::Write(1, &[3])],
        images: &[
            (2, NONE, &[1, 2, 30, 40]),
            (2, 9, &[1, 9, 30, 40]),
            (3, NONE, &[1, 3, 30, 40]),
        ],
        synced: &[10, 20, 30, 40],
        shown: &[1, 3, 30, 40],
    },
    Case {
        name: "a write that failed may leave fill bytes",
        failing: &[1],
        steps: &[Step::Write(3, &[1, 2, 3])],
        images: &[
            (0, NONE, &[10, 20, 30, 40]),
            (2, NONE, &[10, 20, 30, 40]),
            (0, 9, &[10, 20, 30, 9, 9, 9]),
            (1, 9, &[10, 20, 30, 40, 9, 9]),
            (2, 9, &[10, 20, 30, 40, 9, 9]),
            (3, 9, &[10, 20, 30, 40]),
        ],
        synced: &[10, 20, 30, 40],
        shown: &[10, 20, 30, 40],
    },
    Case {
        name: "the bytes of a write that failed count in the cut",
        failing: &[1],
        steps: &[Step::Write(0, &[1, 2]), Step::Write(2, &[3, 4])],
        images: &[
            (1, 9, &[10, 9, 9, 9]),
            (2, NONE, &[10, 20, 30, 40]),
            (3, NONE, &[10, 20, 3, 40]),
            (4, 9, &[10, 20, 3, 4]),
        ],
        synced: &[10, 20, 30, 40],
        shown: &[10, 20, 3, 4],
    },
    Case {
        name: "a sync that failed",
        failing: &[2],
        steps: &[Step::Write(0, &[1]), Step::Sync],
        images: &[(0, NONE, &[10, 20, 30, 40]), (0, 9, &[9, 20, 30, 40])],
        synced: &[10, 20, 30, 40],
        shown: &[1, 20, 30, 40],
    },
    Case {
        name: "two syncs",
        failing: &[],
        steps: &[
            Step::Write(4, &[1, 2]),
            Step::Sync,
            Step::Write(5, &[3]),
            Step::Sync,
            Step::Write(6, &[4]),
        ],
        images: &[
            (0, NONE, &[10, 20, 30, 40, 1, 3]),
            (0, 9, &[10, 20, 30, 40, 1, 3, 9]),
            (1, 9, &[10, 20, 30, 40, 1, 3, 4]),
        ],
        synced: &[10, 20, 30, 40, 1, 3],
        shown: &[10, 20, 30, 40, 1, 3, 4],
    },
];

// A pick gives these bytes.
fn assert_image(
    rt: &impl Abort,
    alloc: Global,
    disk: &MemDisk,
    pick: u64,
    want: &[u8],
    name: &str,
) {
    let image = disk.image(alloc, pick).expect(rt, "memory");
    assert_eq!(rt; image.as_slice(), want, "{name}, pick {pick}");
}

fn assert_torn(rt: &impl Abort, alloc: Global, disk: &MemDisk, case: &Case) {
    for (cut, fill, want) in case.images {
        assert_image(rt, alloc, disk, pick_of(*cut, *fill), want, case.name);
    }
}

// The first pick gives the synced bytes, the second the shown, and others a torn write.
fn check(rt: &impl Abort, alloc: Global, case: &Case) {
    let disk = disk_after(rt, alloc, case.failing, case.steps);
    assert_image(rt, alloc, &disk, 0, case.synced, case.name);
    assert_image(rt, alloc, &disk, 1, case.shown, case.name);
    assert_torn(rt, alloc, &disk, case);
}

#[test]
fn a_pick_gives_the_synced_bytes_or_the_shown_or_a_torn_write(rt: HostRuntime) {
    for case in &CASES {
        check(&rt, rt.alloc(), case);
    }
}

#[test]
fn the_picks_give_each_value_of_one_byte(rt: HostRuntime) {
    let alloc = rt.alloc();
    let disk = disk_after(&rt, alloc, &[], &[Step::Write(1, &[5])]);
    for value in 0..=255u8 {
        let pick = pick_of(0, u64::from(value));
        assert_image(&rt, alloc, &disk, pick, &[10, value, 30, 40], "a value");
    }
}

#[test]
fn after_a_sync_all_picks_give_the_same(rt: HostRuntime) {
    const STEPS: &[Step] = &[Step::Write(0, &[9]), Step::Write(3, &[1, 2]), Step::Sync];
    let alloc = rt.alloc();
    let disk = disk_after(&rt, alloc, &[1], STEPS);
    for pick in 0..1000u64 {
        assert_image(&rt, alloc, &disk, pick, &[10, 20, 30, 1, 2], "synced");
    }
}

fn pick_of(cut: u64, fill: u64) -> u64 {
    cut.saturating_mul(257)
        .saturating_add(fill)
        .saturating_add(2)
}

fn disk_after(rt: &impl Abort, alloc: Global, failing: &[u64], steps: &[Step]) -> MemDisk {
    let mut disk = disk_of(rt, alloc, &[10, 20, 30, 40], 10, 10, failing);
    for step in steps {
        let _ = run(rt, &mut disk, *step);
    }
    disk
}
