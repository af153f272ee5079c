//! Schedules that are drawn from a seed.
ghost use Rattle.std.specs.Prelude.{◌≡◌, ◌≤◌, IfOk, IsOk};
ghost use Rattle.schedules.specs.Draws.{drawn};

use crate::fault::Memory;
use rand_core::SeedableRng;
use rand_core::utils::NextWord;
use rand_pcg::Pcg32;
use std::alloc::Global;

/// Draws a schedule of so many entries: each is the next word of the generator of the seed, modulo the
/// number of lanes. The error is `Memory`, which isn't answered where no entry is wanted.
pub fn draw(alloc: Global, seed: u64, lanes: u32, n: u32) -> Result<Vec<u32>, Memory>
    requires { 1 ≤ lanes }
    ensures drawn { IfOk result (λ schedule. schedule.items ≡ drawn seed lanes n) }
    ensures empty { n ≡ 0 → IsOk result }
{
    let mut generator = Pcg32::seed_from_u64(seed);
    let mut entries = Vec::with_capacity(alloc, n as usize)?;
    for _ in 0..n {
        let word = generator.next_word();
        entries.push(word % lanes)?;
    }
    Ok(entries)
}
