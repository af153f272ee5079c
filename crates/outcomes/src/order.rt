//! The order of schedules.
ghost use Rattle.std.specs.Prelude.{◌≡◌, true, false};
ghost use Rattle.outcomes.specs.Schedules.{IsUpTo};

/// Whether the one schedule comes before the other by the order of lane numbers.
pub(crate) fn comes_before(schedule: &[u32], other: &[u32]) -> bool
    ensures before { result ≡ true → IsUpTo schedule.now other.now }
    ensures behind { result ≡ false → IsUpTo other.now schedule.now }
{
    let mut rest = schedule;
    let mut others = other;
    while let (Some((lane, more)), Some((first, left))) = (
        rest.split_first(),
        others.split_first(),
    ) {
        if lane != first {
            return lane < first;
        }
        rest = more;
        others = left;
    }
    rest.is_empty() && !others.is_empty()
}
