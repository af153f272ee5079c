//! Why a call did nothing.

/// Why a call did nothing.
#[derive(Clone, Copy)]
pub enum Refusal {
    /// Other calls have all lanes that could serve it. Who may wait calls again.
    Busy,
    /// Memory was refused.
    Memory,
    /// No place of the lane is free.
    Full,
    /// The lane has no reference to the key.
    NoReference,
    /// The key isn't published, or it is cleared, or it is none.
    Gone,
    /// The lane has as many references as it can.
    References,
    /// Others share the pool.
    Shared,
}
