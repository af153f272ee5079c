//! A reference that a lane of a store keeps for its caller.

/// A reference to the object of a key, which a lane keeps for who got it. It must be spent, by a release or `forget`.
pub struct Lent {
    pub(crate) lane: u32,
    pub(crate) key: u64,
}

impl Lent {
    ghost use Rattle.std.specs.Prelude.{◌≡◌};

    /// The number of the lane that keeps it.
    pub fn lane(&self) -> u32
        ensures { result ≡ self.now.lane }
    {
        self.lane
    }

    /// The key of the object.
    pub fn key(&self) -> u64
        ensures { result ≡ self.now.key }
    {
        self.key
    }

    /// The token ends, and the lane isn't told: it keeps the reference until the store is closed.
    pub fn forget(self) {
        let Lent { lane: _, key: _ } = self;
    }
}
