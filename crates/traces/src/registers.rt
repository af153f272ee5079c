//! What registers hold.
use seqpool::Bytes;

/// What a register holds.
#[derive(Drop)]
pub enum Holding {
    Empty,
    /// A filling that will have this key, with the bytes written so far.
    Filling { key: u64, content: Bytes },
    /// A reference to this key, with the key's content.
    Reference { key: u64, content: Bytes },
}

/// A register: what it holds, and the last key that it had.
#[derive(Drop)]
pub struct RegisterState {
    pub holding: Holding,
    pub last_key: Option<u64>,
}
