//! The laws of what decides a trace, as calls that do nothing: whoever calls one may use its law in a proof.

ghost use Rattle.onetrace.specs.Decided.{OneTraceLaw, OnwardLaw};

/// Scripts have one lawful trace over a schedule. So a replay is the only one: whoever replays the schedule again gets
/// the same steps, acts and replies.
pub fn one_trace_law()
    ensures { OneTraceLaw }
{}

/// Turns can come from a world just where they can from another one in which the pool, the words and the books are the
/// same, whatever led to either; and behind them these are the same again.
pub fn onward_law()
    ensures { OnwardLaw }
{}
