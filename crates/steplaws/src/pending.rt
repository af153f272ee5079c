//! What a lane has under way between two steps of a call.

/// What a lane has under way between two steps of a call. Keys and places go by their numbers.
#[derive(Clone, Copy)]
pub enum Pending {
    /// Nothing.
    Nothing,
    /// An ENTER still to be undone: its key, and whether it is that of a clear that hit.
    Undo {
        key: u64,
        hit: bool,
    },
    /// A claim owed for a place and generation.
    Owes {
        place: u32,
        generation: u32,
    },
    /// A place still to be returned to its shard: the expected top that was linked, if one was, and whether a PUSH of
    /// it failed.
    Returns {
        place: u32,
        linked: Option<u64>,
        failed: bool,
    },
}
