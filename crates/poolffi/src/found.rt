//! What a get found.

/// Where the bytes of a key are, how many, and which lane keeps the reference to it.
#[derive(Drop)]
pub struct Found {
    /// Null where there are none.
    pub at: *const u8,
    pub len: usize,
    pub lane: u32,
}
