//! Why no reference was given.

/// Why a lender gave no reference.
#[derive(Clone, Copy, PartialEq, Eq, Debug)]
pub enum Refusal {
    /// The lane has as many references as a lane can.
    References,
    /// Memory was refused. If the object was there, its reference was given back at once.
    Memory,
    /// The loan has 9,223,372,036,854,775,807 owners.
    Owners,
}
