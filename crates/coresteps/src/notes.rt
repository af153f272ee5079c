//! What a lane notes of the steps and the acts that it makes.
ghost use Rattle.std.specs.Prelude.{◌≡◌, ◌∷◌, ◌++◌, ◌+◌, ◌<◌, ◌≤◌, ℕ, List, None, Some, length, slice_index, if◌then◌else◌};
ghost use Rattle.keybits.specs.Keys.{place_of};
ghost use Rattle.keybits.specs.declared.step.Kind.TheVariants as kinds;
ghost use Rattle.keybits.specs.declared.step.Word.TheVariants as words;
ghost use Rattle.seqpool.specs.Pool.{IsLegal};
ghost use Rattle.traces.specs.declared.script.Command.{Command};
ghost use Rattle.traces.specs.Books.{act_list, stepped, pushed_by};
ghost use Rattle.traces.specs.Lawful.{World, IsStep};
ghost use Rattle.coresteps.specs.declared.lane.Lane.{Lane};
ghost use Rattle.coresteps.specs.declared.shared.Shared.{Shared};
ghost use Rattle.coresteps.specs.Lanes.{counted};
ghost use Rattle.coresteps.specs.Kept.{IsDraft, IsLaneAt};
ghost use Rattle.coresteps.specs.Notes.{returns_own, act_noted};

use crate::progress::{Chain, LANES, Progress};
use crate::shared::Made;
use keybits::{Kind, MOST_LANES, Shape, Step, Word, generation_of, place_of, shard_of};
use seqpool::Act;
use traces::Command;

impl Progress {
    /// Notes a step of the lane's call, whose act will have this index in the history.
    pub(crate) fn note(
        &mut self,
        shape: &Shape,
        number: u32,
        command: &Command,
        made: &Made,
        index: usize,
    )
        requires lane { number < shape.now.lanes }
        requires draft { (shared : Shared) × (w : World) × (lane : Lane) × (shared.shape ≡ shape.now)
            × IsDraft shared w None × IsLaneAt shape.now w.history number lane self.old (w.books number)
            × IsStep shape.now number w.words (w.books number) made.now.step made.now.act }
        ensures lane { (shared : Shared) (w : World) (lane : Lane) (more : List Command) → shared.shape ≡ shape.now
            → IsDraft shared w None → IsLaneAt shape.now w.history number lane self.old (w.books number)
            → IsStep shape.now number w.words (w.books number) made.now.step made.now.act
            → IsLegal shape.now (w.history ++ act_list made.now.act)
            → index ≡ length w.history → (w.books number).left ≡ command.now ∷ more → self.old.own.added ≡ None
            → IsLaneAt shape.now (w.history
            ++ act_list made.now.act) number lane self.new (stepped (w.books number) made.now.step made.now.act)
            × (self.new.most ≡ counted (command.now ∷ more) (length (w.books number).steps + 1) self.old.most) }
    {
        self.count(command, made.step);
        self.note_push(made.step);
        if let Some(act) = &made.act {
            self.note_act(shape, number, act, index);
        }
    }

    /// Counts a step, which is now the last of its call.
    fn count(&mut self, command: &Command, step: Step)
        requires { self.old.made ≤ MOST_LANES }
        ensures { (more : List Command) → self.new ≡ record self.old {
          last = Some step;
          made = self.old.made + 1;
          most = counted (command.now ∷ more) (self.old.made + 1) self.old.most;
        } }
    {
        self.last = Some(step);
        self.made += 1;
        match command {
            Command::Create(_) => self.most.create = self.most.create.max(self.made),
            _ => self.most.other = self.most.other.max(self.made),
        }
    }

    /// Remembers the word that a PUSH that succeeded left on its stack.
    fn note_push(&mut self, step: Step)
        requires count { length self.old.pushed ≡ LANES }
        requires shard { (expected link shard lane : ℕ) → step.kind ≡ kinds.Push expected link → step.word ≡ words.Stack shard lane
            → shard < MOST_LANES }
        ensures others { self.new ≡ record self.old { pushed = self.new.pushed } }
        ensures count { length self.new.pushed ≡ LANES }
        ensures pushed { (shard : ℕ) → slice_index self.new.pushed shard
            ≡ pushed_by step step.kind step.word (λ (n : ℕ). slice_index self.old.pushed n) shard }
    {
        if let (Kind::Push { expected, link }, Word::Stack { shard, .. }) = (step.kind, step.word) {
            if step.before == expected {
                self.pushed[shard as usize] = link;
            }
        }
    }

    /// Notes an act, which will have this index in the history.
    fn note_act(&mut self, shape: &Shape, number: u32, act: &Act, index: usize)
        ensures { self.new ≡ act_noted shape.now number act.now index self.old }
    {
        match act {
            Act::Clear { reply, .. } => self.cleared = *reply,
            Act::Collect { .. } => {
                self.chain = Chain {
                    collect: Some(index),
                    followed: 0,
                }
            }
            Act::Reclaim { key, .. } => self.note_reclaim(shape, number, *key),
            _ => {}
        }
    }

    /// Adds a reclaimed place of the lane's own shard to its list, but for a retired one.
    fn note_reclaim(&mut self, shape: &Shape, number: u32, key: u64)
        ensures { self.new ≡ record self.old {
          own = if returns_own shape.now number key then record self.old.own { added = Some (place_of key) } else self.old.own;
        } }
    {
        let place = place_of(key);
        if generation_of(key) != shape.last_generation && shard_of(place) == number {
            self.own.add(place);
        }
    }
}
