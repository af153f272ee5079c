//! How a task was done.
ghost use Rattle.std.specs.Prelude.{◌≡◌};
ghost use Rattle.poolprogram.specs.Tasks.{done_by, done_short};

use crate::replayed::Replayed;

/// How a task was done.
#[derive(Drop)]
pub enum Done {
    /// All is well.
    Well,
    /// This replay was made.
    Replayed(Replayed),
    /// Acts are illegal, or a number is no key's.
    Badly,
    /// A schedule was shortened by as many replays as may be, and more can perhaps be left out.
    Early,
}

/// How a task was done that says whether all is well.
pub(crate) fn done_by(good: bool) -> Done
    ensures { result ≡ done_by good }
{
    if good { Done::Well } else { Done::Badly }
}

/// How a schedule was shortened, by whether no entry more can be left out.
pub(crate) fn done_short(least: bool) -> Done
    ensures { result ≡ done_short least }
{
    if least { Done::Well } else { Done::Early }
}
