//! The trial of commands by a word.
ghost use Rattle.std.specs.Prelude.{◌≡◌, ◌+◌, ◌-◌, ◌<◌, ◌^◌, true, length, MatchBool, IfOk, IfErr, string_bytes};
ghost use Rattle.shortening.specs.Choices.{chosen_scripts, commands_in};
ghost use Rattle.shortening.specs.Replays.{AreScriptsOf, Shows, Lacks};
ghost use Rattle.shortening.specs.Shortest.{is_left, one_less, IsSameTrial, GivesUp};

use crate::bounds::Bounds;
use crate::choices::choose_scripts;
use crate::fault::Unshortened;
use crate::printing::is_shown;
use crate::trial::Trial;
use crate::word_trial::one_less;
use keybits::Shape;
use std::alloc::Global;
use std::marker::Model;
use traces::Script;

/// Whether a word stands in the text of a replay over a schedule, of the commands of some numbers. What may be tried is
/// bounded as for `WordTrial`.
#[derive(Drop)]
pub(crate) struct CommandTrial {
    shape: Shape,
    scripts: Vec<Script>,
    word: String,
    decoded: bool,
    schedule: Vec<u32>,
    left: u64,
    tries: Option<u64>,
}

impl Model for CommandTrial {
    ghost use Rattle.std.specs.Prelude.{◌<◌, ◌^◌, string_bytes};
    ghost use Rattle.shortening.specs.Choices.{commands_in};
    ghost use Rattle.shortening.specs.Replays.{AreScriptsOf};
    ghost use Rattle.shortening.specs.Choosing.{Choosing};

    ghost Value = { Choosing };

    ghost view = { λ t. record {
      shape = t.shape;
      scripts = t.scripts.items;
      word = string_bytes t.word;
      decoded = t.decoded;
      schedule = t.schedule.items;
      left = t.left;
      tries = t.tries;
    } };

    ghost invariant = { λ t. AreScriptsOf t.shape t.scripts.items × (commands_in t.scripts.items < 2 ^ 32) };
}

impl CommandTrial {
    /// The trial by a word of replays of these scripts over this schedule, within these bounds.
    pub(crate) fn new(
        shape: Shape,
        scripts: Vec<Script>,
        word: String,
        decoded: bool,
        schedule: Vec<u32>,
        bounds: Bounds,
    ) -> Self
        requires scripts { AreScriptsOf shape scripts.items }
        requires few { commands_in scripts.items < 2 ^ 32 }
        ensures { result ≡ record {
          shape = shape;
          scripts = scripts.items;
          word = string_bytes word;
          decoded = decoded;
          schedule = schedule.items;
          left = bounds.left;
          tries = bounds.tries;
        } }
    {
        let Bounds { left, tries } = bounds;
        CommandTrial {
            shape,
            scripts,
            word,
            decoded,
            schedule,
            left,
            tries,
        }
    }

    /// How much may still be tried.
    pub(crate) fn bounds(&self) -> Bounds
        ensures left { result.left ≡ self.now.left }
        ensures tries { result.tries ≡ self.now.tries }
    {
        Bounds {
            left: self.left,
            tries: self.tries,
        }
    }
}

impl Trial for CommandTrial {
    ghost passes = { λ t numbers. Shows t.shape (chosen_scripts numbers 0 t.scripts) t.decoded t.word t.schedule };

    ghost fails = { λ t numbers. Lacks t.shape (chosen_scripts numbers 0 t.scripts) t.decoded t.word t.schedule };

    ghost is_spent = { λ t. t.left ≡ 0 };

    ghost tries = { λ t. t.tries };

    fn may_try(&self) -> bool {
        match self.tries {
            Some(left) => left != 0,
            None => true,
        }
    }

    fn is_passed(&mut self, alloc: Global, numbers: &[u32]) -> Result<bool, Unshortened>
        requires { is_left self.old.tries ≡ true }
        ensures ok { IfOk result (λ passed. MatchBool passed
            (Shows self.old.shape (chosen_scripts numbers.now 0 self.old.scripts) self.old.decoded self.old.word self.old.schedule)
            (Lacks self.old.shape (chosen_scripts numbers.now 0 self.old.scripts) self.old.decoded self.old.word self.old.schedule)) }
        ensures err { IfErr result (GivesUp (self.new.left ≡ 0)) }
        ensures same { self.new ≡ record self.old {
          left = self.old.left - (length self.old.schedule + 1);
          tries = one_less self.old.tries;
        } }
    {
        self.tries = one_less(self.tries);
        if self.left == 0 {
            return Err(Unshortened::Limit);
        }
        self.left = self.left.saturating_sub(self.schedule.len() as u64 + 1);
        let scripts = choose_scripts(alloc, self.scripts.as_slice(), numbers)?;
        is_shown(
            alloc,
            &self.shape,
            scripts.as_slice(),
            self.schedule.as_slice(),
            self.word.as_str(),
            self.decoded,
        )
    }
}
