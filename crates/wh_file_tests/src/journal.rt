ghost use Rattle.std.specs.Prelude.{◌≤◌};
ghost use Rattle.wh_journal.specs.Journal.{end_of};

use std::alloc::Global;
use std::process::Abort;
use wh_journal::*;
use wh_world::{Disk, Framed, MemDisk};

// Room for the first writes of each test, and for its calls.
const ROOM: u64 = 200;

const CALLS: u64 = 40;

// A disk on which the call of that number fails; none has the number 0.
fn disk_of(rt: &impl Abort, alloc: Global, bytes: &[u8], failing: u64) -> MemDisk {
    MemDisk::new(
        alloc,
        bytes.to_vec(alloc).expect(rt, "memory"),
        ROOM,
        CALLS,
        [failing].to_vec(alloc).expect(rt, "memory"),
    )
    .expect(rt, "memory")
}

// Adds a payload, with the memory for it.
fn add<D: Disk>(
    rt: &impl Abort,
    alloc: Global,
    journal: &mut Journal,
    disk: &mut D,
    payload: &[u8],
) -> Result<(), AppendFault>
    requires { end_of journal.old ≤ D.size disk.old }
    ensures { end_of journal.new ≤ D.size disk.new }
{
    journal.reserve().expect(rt, "memory");
    let frame = Framed::of(alloc, payload).expect(rt, "memory");
    journal.append(disk, &frame)
}

#[test]
fn payloads_are_found_again(rt: HostRuntime) {
    let alloc = rt.alloc();
    let mut disk = disk_of(&rt, alloc, b"", 0);
    let mut journal = Journal::open(alloc, &mut disk, 1000).expect(&rt, "memory");
    add(&rt, alloc, &mut journal, &mut disk, &[7, 8]).expect(&rt, "memory");
    add(&rt, alloc, &mut journal, &mut disk, &[]).expect(&rt, "memory");
    assert_eq!(rt;
        disk.bytes(),
        b"WHCORE1\x01\0\0\0\0\0\0\0\x02\x07\x08\x01\0\0\0\0\0\0\0\0\0".as_slice()
    );

    let again = Journal::open(alloc, &mut disk, 1000).expect(&rt, "memory");
    assert_eq!(rt; again.count(), 2);
    assert_eq!(rt; again.place(0), (16, 2));
    assert_eq!(rt;
        again
            .payload(alloc, &mut disk, 0)
            .expect(&rt, "memory")
            .as_slice(),
        [7, 8].as_slice()
    );
    assert_eq!(rt;
        again
            .payload(alloc, &mut disk, 1)
            .expect(&rt, "memory")
            .as_slice(),
        [].as_slice()
    );
}

// How many payloads a file has and where the next would stand, or why it is none.
#[test]
fn a_file_stands_only_with_a_closed_gate(rt: HostRuntime) {
    let alloc = rt.alloc();
    let cases = [
        ("empty", b"".as_slice(), Ok((0, 16))),
        (
            "a header without a gate",
            b"WHCORE1".as_slice(),
            Ok((0, 16)),
        ),
        ("eight other bytes", b"SELECT 1".as_slice(), Ok((0, 16))),
        (
            "another header",
            b"WHCORE2\0\0".as_slice(),
            Err(OpenFault::NotWarehouse { at: 0 }),
        ),
        (
            "bytes behind a closed gate",
            b"WHCORE1\0\x01".as_slice(),
            Ok((0, 16)),
        ),
        ("a gate of 2", b"WHCORE1\x02\x01".as_slice(), Ok((0, 16))),
        (
            "a record",
            b"WHCORE1\x01\0\0\0\0\0\0\0\x01\x09\0".as_slice(),
            Ok((1, 26)),
        ),
        (
            "a length cut short",
            b"WHCORE1\x01\0\0\0".as_slice(),
            Err(OpenFault::NotWarehouse { at: 7 }),
        ),
        (
            "a payload cut short",
            b"WHCORE1\x01\0\0\0\0\0\0\0\x02\x09".as_slice(),
            Err(OpenFault::NotWarehouse { at: 7 }),
        ),
        (
            "the greatest length",
            b"WHCORE1\x01\xff\xff\xff\xff\xff\xff\xff\xff\0".as_slice(),
            Err(OpenFault::NotWarehouse { at: 7 }),
        ),
        (
            "no next gate",
            b"WHCORE1\x01\0\0\0\0\0\0\0\x01\x09".as_slice(),
            Err(OpenFault::NotWarehouse { at: 17 }),
        ),
        (
            "a second record cut short",
            b"WHCORE1\x01\0\0\0\0\0\0\0\0\x01".as_slice(),
            Err(OpenFault::NotWarehouse { at: 16 }),
        ),
    ];
    for (name, bytes, want) in cases {
        let mut disk = disk_of(&rt, alloc, bytes, 0);
        let got = Journal::open(alloc, &mut disk, 1000).map(|journal| (
            journal.count(),
            journal.next_place(),
        ));
        assert_eq!(rt; got, want, "{name}");
    }
}

// A record of two bytes takes eleven, and the header and its gate take eight.
#[test]
fn a_record_fits_up_to_the_limit(rt: HostRuntime) {
    let alloc = rt.alloc();
    let cases = [
        ("at the limit", 19, Ok(())),
        (
            "one byte less",
            18,
            Err(AppendFault::FileFull { len: 8, need: 11 }),
        ),
    ];
    for (name, limit, want) in cases {
        let mut disk = disk_of(&rt, alloc, b"", 0);
        let mut journal = Journal::open(alloc, &mut disk, limit).expect(&rt, "memory");
        assert_eq!(rt;
            add(&rt, alloc, &mut journal, &mut disk, &[7, 8]),
            want,
            "{name}"
        );
    }
}

// Opening an empty file makes four calls, and an append four more.
#[test]
fn a_failing_call_is_told(rt: HostRuntime) {
    let alloc = rt.alloc();
    for failing in 1..5 {
        let mut disk = disk_of(&rt, alloc, b"", failing);
        let got = Journal::open(alloc, &mut disk, 1000).map(|journal| journal.count());
        assert_eq!(rt; got, Err(OpenFault::DiskFault), "call {failing}");
    }
    for (failing, found) in [(5, 0), (6, 0), (7, 0), (8, 1)] {
        let mut disk = disk_of(&rt, alloc, b"", failing);
        let mut journal = Journal::open(alloc, &mut disk, 1000).expect(&rt, "memory");
        assert_eq!(rt;
            add(&rt, alloc, &mut journal, &mut disk, &[7]),
            Err(AppendFault::DiskFault),
            "call {failing}"
        );
        let next = add(&rt, alloc, &mut journal, &mut disk, &[7]);
        assert_eq!(rt;
            next,
            Err(AppendFault::NeedsReopen { faults: 1 }),
            "after call {failing}"
        );
        assert_eq!(rt;
            Journal::open(alloc, &mut disk, 1000)
                .expect(&rt, "memory")
                .count(),
            found,
            "after call {failing}"
        );
    }
}
