//! How much a search may try.

/// How much a search may try: replays of so many entries of schedules, and where that is given so many replays.
#[derive(Clone, Copy)]
pub struct Bounds {
    /// How many entries of schedules may be replayed, before no more replay is begun.
    pub left: u64,
    /// How many replays may be made.
    pub tries: Option<u64>,
}
