//! Schedules that are drawn.
ghost use Rattle.std.specs.Prelude.{◌≤◌};

use crate::test_texts::same;
use schedules::draw;
use std::alloc::AllocGlobal;
use std::process::Abort;

/// These are drawn from a seed for so many lanes.
fn draws_these<R: Abort + AllocGlobal>(rt: &R, seed: u64, lanes: u32, entries: &[u32])
    requires { 1 ≤ lanes }
{
    let count = u32::try_from(entries.len()).ok().expect(rt, "few entries");
    let schedule = draw(rt.alloc(), seed, lanes, count)
        .ok()
        .expect(rt, "memory for a schedule");
    same(rt, &schedule.as_slice(), &entries);
}

// The first words of the generator of 0 are those of upstream's table; the others were computed apart.
#[test]
fn draws(rt: HostRuntime) {
    draws_these(&rt, 0, 4_294_967_295, &[298_703_107, 4_236_525_527]);
    draws_these(&rt, 1, 3, &[0, 2, 1, 2, 2, 2, 0, 1, 2, 1, 1, 2]);
    draws_these(
        &rt,
        18_446_744_073_709_551_615,
        16,
        &[14, 6, 12, 13, 10, 0, 13, 13, 10, 8],
    );
    draws_these(&rt, 7, 1, &[0, 0, 0]);
    draws_these(&rt, 7, 16, &[]);
}
