//! What the checker counts of a legal history.

/// What a legal history did, and where the places are after it.
#[derive(Clone, Copy, Debug, PartialEq, Eq)]
pub struct Summary {
    /// How many acts there are, and how many of them publish and reclaim.
    pub acts: usize,
    pub published: usize,
    pub reclaimed: usize,
    /// How many places have a key in the pool without the mark, and with it.
    pub present: usize,
    pub marked: usize,
    /// How many places are home, and retired.
    pub home: usize,
    pub retired: usize,
}

/// Places that are counted together.
#[derive(Clone, Copy)]
pub(crate) enum Group {
    /// Those whose key is in the pool without the mark.
    Present,
    /// Those whose key is in the pool with the mark.
    Marked,
    Home,
    Retired,
}
