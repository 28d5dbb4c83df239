//! The lines of limits to which no script comes.

use std::alloc::Global;
use std::process::Abort;
use wh_reply::{Refusal, Reply};
use wh_text::print_reply;
use wh_value::{Bytes, Limit};

/// The reply is printed so, behind what stands there.
fn assert_printed(rt: &impl Abort, alloc: Global, name: &str, reply: Reply, want: &[u8]) {
    let mut out = Bytes::from_slice(alloc, b"#").expect(rt, "memory");
    print_reply(alloc, reply, &mut out).expect(rt, "memory");
    assert_eq!(rt; out.as_slice().get(1..), Some(want), "{name}");
}

#[test]
fn a_limit_is_printed_with_its_number(rt: HostRuntime) {
    const CASES: &[(&str, Limit, &[u8])] = &[
        (
            "partition numbers",
            Limit::PartitionNumber,
            b"E13 Limit PARTITION_NUMBER 4611686018427387904\n",
        ),
        (
            "ids",
            Limit::ObjectIds,
            b"E13 Limit OBJECT_IDS 4294967295\n",
        ),
    ];
    for (name, limit, want) in CASES {
        let reply = Reply::Refused(Refusal::OverLimit(*limit));
        assert_printed(&rt, rt.alloc(), name, reply, want);
    }
}
