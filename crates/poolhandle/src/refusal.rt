//! Why a call did nothing.

/// Why a call did nothing.
#[derive(Clone, Copy, PartialEq, Eq, Debug)]
pub enum Refusal {
    /// Memory was refused.
    Memory,
    /// No place is free.
    Full,
    /// The lane fills as many places as it can.
    Fillings,
    /// The lane has no filling under the key.
    NoFilling,
    /// The lane has no reference to the key.
    NoReference,
    /// The key isn't published, or it is cleared, or it is none.
    Gone,
    /// The lane has as many references as it can.
    References,
    /// The lanes are of different pools.
    OtherPool,
    /// The lane isn't the one that is wanted next, or lanes are missing.
    Lanes,
    /// There is no room of so many bytes.
    Room,
    /// All lanes were given, and yet the pool isn't let go.
    Shared,
}
