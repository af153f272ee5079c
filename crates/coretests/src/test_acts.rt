//! Acts that a pool of one thread makes, one after another.
use crate::test_texts::same;
use seqpool::{SeqPool, read_acts};
use std::alloc::AllocGlobal;
use std::process::Abort;

/// Of these acts so many are made, and the next is refused by the fault of this number; 0 where all are made.
fn makes<R: Abort + AllocGlobal>(rt: &R, text: &[u8], made: usize, fault: u32) {
    let (shape, acts) = read_acts(rt.alloc(), text)
        .ok()
        .expect(rt, "a text of acts");
    assert!(rt; shape.guests == 0 && shape.check().is_ok());
    let mut pool = SeqPool::new(rt.alloc(), shape)
        .ok()
        .expect(rt, "memory for a pool");
    for (index, act) in acts.as_slice().iter().enumerate() {
        if let Err(refusal) = pool.apply(act) {
            return same(rt, &(index, refusal.number()), &(made, fault));
        }
    }
    same(rt, &(acts.len(), 0), &(made, fault));
}

#[test]
fn makes_acts(rt: HostRuntime) {
    makes(
        &rt,
        b"shape 2 1 1 4294967295\n0 publish 16777216 - 1\n0 clear 16777216 true\n0 release 16777216\n1 get 16777216 none\n1 reclaim 16777216\n1 home 0\n",
        6,
        0,
    );
    makes(
        &rt,
        b"shape 2 1 1 4294967295\n1 publish 16777216 - 0\n",
        0,
        11,
    );
    makes(
        &rt,
        b"shape 2 1 1 4294967295\n2 clear 16777216 false\n",
        0,
        11,
    );
    makes(
        &rt,
        b"shape 2 1 1 4294967295\n0 publish 33554432 - 0\n",
        0,
        12,
    );
    makes(
        &rt,
        b"shape 2 1 1 4294967295\n0 publish 16777216 - 0\n1 release 16777216\n",
        1,
        14,
    );
    makes(
        &rt,
        b"shape 2 1 1 4294967295\n0 publish 16777216 - 1\n1 clear 16777216 true\n1 reclaim 16777216\n",
        2,
        15,
    );
    makes(
        &rt,
        b"shape 2 1 1 4294967295\n0 publish 16777216 - 0\n0 reclaim 16777216\n",
        1,
        16,
    );
    makes(&rt, b"shape 2 1 1 4294967295\n0 collect 0\n", 0, 17);
    makes(&rt, b"shape 2 1 1 4294967295\n", 0, 0);
    makes(
        &rt,
        b"shape 1 2 1 4294967295\n0 publish 16777216 6869 0\n0 get 16777216 none\n",
        1,
        13,
    );
}
