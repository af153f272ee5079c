//! Schedules in which a lane stops.
ghost use Rattle.std.specs.Prelude.{◌≡◌, [], IfOk, IsOk};
ghost use Rattle.schedules.specs.Stops.{IsStopped};

use crate::fault::Memory;
use std::alloc::Global;

/// The schedule without the entries of a lane after its k-th. The error is `Memory`, which isn't
/// answered for an empty schedule.
pub fn stop_after(alloc: Global, schedule: &[u32], lane: u32, k: u32) -> Result<Vec<u32>, Memory>
    ensures stopped { IfOk result (λ stopped. IsStopped lane k schedule.now stopped.items) }
    ensures empty { schedule.now ≡ [] → IsOk result }
{
    let mut entries = Vec::with_capacity(alloc, schedule.len())?;
    let mut left = k;
    for entry in schedule {
        if *entry == lane {
            if left == 0 {
                continue;
            }
            left -= 1;
        }
        entries.push(*entry)?;
    }
    Ok(entries)
}
