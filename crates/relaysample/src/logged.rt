//! What a thread that logged a line hands on to the collector.
ghost use Rattle.relaysample.specs.Lines.{IsLine};

use crate::lines::Entry;
use guards::{PoolName, Told};

/// Word of a line that was logged.
#[derive(Drop)]
pub struct Logged<N: PoolName> {
    pub told: Told<N, Entry>,
    pub ghost is_line: { IsLine told.content },
}
