//! Why a call did nothing.

/// Why a call did nothing.
#[derive(Clone, Copy, PartialEq, Eq, Debug)]
pub enum Refusal {
    /// Other calls have all lanes that could serve it. Who may wait calls again.
    Busy,
    /// The lane that would have served it has as many references as a lane can.
    References,
    /// The lane that would have served it keeps as many fillings as a lane can.
    Fillings,
    /// No filling is kept under the key.
    NoFilling,
}
