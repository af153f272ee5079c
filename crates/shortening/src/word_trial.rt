//! The trial of schedules by a word.
ghost use Rattle.std.specs.Prelude.{◌≡◌, ◌+◌, ◌-◌, true, length, MatchBool, IfOk, IfErr, string_bytes};
ghost use Rattle.shortening.specs.Replays.{AreScriptsOf, Shows, Lacks};
ghost use Rattle.shortening.specs.Shortest.{is_left, one_less, IsSameTrial, GivesUp};

use crate::bounds::Bounds;
use crate::fault::Unshortened;
use crate::printing::is_shown;
use crate::trial::Trial;
use keybits::Shape;
use std::alloc::Global;
use std::marker::Model;
use traces::Script;

/// One try less, where their number is given.
pub(crate) fn one_less(tries: Option<u64>) -> Option<u64>
    ensures { result ≡ one_less tries }
{
    match tries {
        Some(left) => Some(left.saturating_sub(1)),
        None => None,
    }
}

/// Whether a word stands in the text of the replay of some scripts: in a line of the trace, or of its acts, between
/// spaces or at an end of the line; or else in a decoded line of the trace. Only so many entries of schedules are replayed: behind the replay that reaches that
/// number there is no more. Where their number is given, only so many replays are made.
#[derive(Drop)]
pub struct WordTrial {
    shape: Shape,
    scripts: Vec<Script>,
    word: String,
    decoded: bool,
    left: u64,
    tries: Option<u64>,
}

impl Model for WordTrial {
    ghost use Rattle.std.specs.Prelude.{string_bytes};
    ghost use Rattle.shortening.specs.Replays.{Asked, AreScriptsOf};

    ghost Value = { Asked };

    ghost view = { λ t. record {
      shape = t.shape;
      scripts = t.scripts.items;
      word = string_bytes t.word;
      decoded = t.decoded;
      left = t.left;
      tries = t.tries;
    } };

    ghost invariant = { λ t. AreScriptsOf t.shape t.scripts.items };
}

impl WordTrial {
    /// The trial by a word of replays of these scripts, decoded or not, in which so many entries may be replayed, and
    /// where that is given in so many replays.
    pub fn new(
        shape: Shape,
        scripts: Vec<Script>,
        word: String,
        decoded: bool,
        left: u64,
        tries: Option<u64>,
    ) -> Self
        requires { AreScriptsOf shape scripts.items }
        ensures { result ≡ record {
          shape = shape;
          scripts = scripts.items;
          word = string_bytes word;
          decoded = decoded;
          left = left;
          tries = tries;
        } }
    {
        WordTrial {
            shape,
            scripts,
            word,
            decoded,
            left,
            tries,
        }
    }
}

impl WordTrial {
    /// How much may still be tried.
    pub(crate) fn bounds(&self) -> Bounds
        ensures left { result.left ≡ self.now.left }
        ensures tries { result.tries ≡ self.now.tries }
    {
        Bounds {
            left: self.left,
            tries: self.tries,
        }
    }
}

impl Trial for WordTrial {
    ghost passes = { λ t. Shows t.shape t.scripts t.decoded t.word };

    ghost fails = { λ t. Lacks t.shape t.scripts t.decoded t.word };

    ghost is_spent = { λ t. t.left ≡ 0 };

    ghost tries = { λ t. t.tries };

    fn may_try(&self) -> bool {
        match self.tries {
            Some(left) => left != 0,
            None => true,
        }
    }

    fn is_passed(&mut self, alloc: Global, schedule: &[u32]) -> Result<bool, Unshortened>
        requires { is_left self.old.tries ≡ true }
        ensures ok { IfOk result (λ passed. MatchBool passed
            (Shows self.old.shape self.old.scripts self.old.decoded self.old.word schedule.now)
            (Lacks self.old.shape self.old.scripts self.old.decoded self.old.word schedule.now)) }
        ensures err { IfErr result (GivesUp (self.new.left ≡ 0)) }
        ensures same { self.new ≡ record self.old { left = self.old.left - (length schedule.now + 1); tries = one_less self.old.tries } }
    {
        self.tries = one_less(self.tries);
        if self.left == 0 {
            return Err(Unshortened::Limit);
        }
        self.left = self.left.saturating_sub(schedule.len() as u64 + 1);
        is_shown(
            alloc,
            &self.shape,
            self.scripts.as_slice(),
            schedule,
            self.word.as_str(),
            self.decoded,
        )
    }
}
