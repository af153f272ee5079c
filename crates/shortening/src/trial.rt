//! What a schedule has to pass.
ghost use Rattle.std.specs.Prelude.{◌≡◌, ℕ, true, List, Option, MatchBool, IfOk, IfErr};
ghost use Rattle.shortening.specs.Shortest.{is_left, one_less, IsSameTrial, GivesUp};

use crate::fault::Unshortened;
use std::alloc::Global;

/// A trial of schedules.
pub trait Trial {
    /// The schedules that it may pass.
    ghost passes: { Self → List ℕ → Type 0 };

    /// The schedules that it may fail.
    ghost fails: { Self → List ℕ → Type 0 };

    /// It may try no more.
    ghost is_spent: { Self → Type 0 };

    /// How many schedules it may still try, where that is bounded.
    ghost tries: { Self → Option ℕ };

    /// Whether it may still try a schedule.
    fn may_try(&self) -> bool
        ensures { result ≡ is_left (tries self.now) };

    /// Whether a schedule passes, which takes one of the tries. The errors: `Limit` where it may try no more, and
    /// `Memory`. What passes and what fails is the same after each trial.
    fn is_passed(&mut self, alloc: Global, schedule: &[u32]) -> Result<bool, Unshortened>
        requires { is_left (tries self.old) ≡ true }
        ensures ok { IfOk result (λ passed. MatchBool passed (passes self.old schedule.now) (fails self.old schedule.now)) }
        ensures err { IfErr result (GivesUp (is_spent self.new)) }
        ensures spent { tries self.new ≡ one_less (tries self.old) }
        ensures same { IsSameTrial (passes self.old) (fails self.old) (tries self.old)
            (passes self.new) (fails self.new) (tries self.new) };
}
