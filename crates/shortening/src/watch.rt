//! Who is told how far a search is.

/// Is told how far a search for a shorter schedule is. What the search finds doesn't depend on it.
pub trait Watch {
    /// Is told that a schedule of so many entries is tried next, where so many are left.
    fn tries(&mut self, entries: usize, left: usize);
}
