//! What a lane does by itself between two steps, and what it replies.
ghost use Rattle.std.specs.Prelude.{◌+◌, option_copied, true, ◌≡◌, ◌∷◌, ◌++◌, ◌<◌, nat_lt, ℕ, [], List, Option, Some, None, IfOk, MatchOption, if◌then◌else◌};
ghost use Rattle.keybits.specs.declared.shape.Shape.{Shape};
ghost use Rattle.keybits.specs.Shapes.{IsShape, is_place};
ghost use Rattle.keybits.specs.Places.{place_at};
ghost use Rattle.seqpool.specs.Pool.{pool_after};
ghost use Rattle.traces.specs.declared.script.Command.{Command};
ghost use Rattle.traces.specs.declared.script.Command.TheVariants.{Create, Write, Publish, Downgrade, Get, Read, Release, Clear};
ghost use Rattle.traces.specs.declared.registers.Holding.TheVariants.{Empty};
ghost use Rattle.traces.specs.Books.{Book, next_aim, handed_first, handed_out, after_own, holding_at, answered};
ghost use Rattle.traces.specs.Following.{CommandReplies, IsReply};
ghost use Rattle.traces.specs.Lawful.{World, IsAtRest};
ghost use Rattle.traces.specs.Keeping.{IsKept};
ghost use Rattle.coresteps.specs.declared.lane.Lane.{Lane};
ghost use Rattle.coresteps.specs.OwnLists.{IsOwnList, own_places};
ghost use Rattle.coresteps.specs.Lanes.{IsChained};
ghost use Rattle.coresteps.specs.Kept.{made_acts, IsDraft, IsLaneAt, IsReplied, IsWorked};

use crate::fault::CoreFault;
use crate::lane::Lane;
use crate::progress::{Held, Progress};
use crate::shared::{Made, Shared};
use keybits::{Kind, Life, Word, generation_of, place_of};
use traces::{Command, Operand, Register, Replies, Reply};

impl Shared {
    /// Does all work of the lane's own up to its next step or the script's end, and answers its replies.
    pub(crate) fn work(
        &self,
        lane: &Lane,
        number: u32,
        progress: &mut Progress,
        made: Option<&Made>,
    ) -> Result<Replies, CoreFault>
        requires lane { number < self.now.shape.lanes }
        requires draft { (w : World) × IsDraft self.now w (option_copied made)
            × IsLaneAt self.now.shape w.history number lane.now progress.old (w.books number) }
        ensures { IfOk result (λ replies. (w : World) → IsDraft self.now w (option_copied made.entry)
            → IsLaneAt self.now.shape w.history number lane.now progress.old (w.books number)
            → IsWorked self.now w (option_copied made.entry) number lane.now progress.old replies progress.new) }
    {
        let mut replies = Replies::empty(self.alloc);
        while let Some(reply) = self.answer(lane, number, progress, made)? {
            replies.push(reply)?;
        }
        Ok(replies)
    }

    /// The reply of the lane's next command; none at the script's end, or where a step comes first.
    fn answer(
        &self,
        lane: &Lane,
        number: u32,
        progress: &mut Progress,
        made: Option<&Made>,
    ) -> Result<Option<Reply>, CoreFault>
        requires lane { number < self.now.shape.lanes }
        requires draft { (w : World) × IsDraft self.now w (option_copied made)
            × IsLaneAt self.now.shape w.history number lane.now progress.old (w.books number) }
        ensures { IfOk result (λ response. (w : World) → IsDraft self.now w (option_copied made.entry)
            → IsLaneAt self.now.shape w.history number lane.now progress.old (w.books number)
            → MatchOption response
            (IsAtRest self.now.shape number (w.books number) × (progress.new ≡ progress.old))
            (λ reply. IsReply self.now.shape (pool_after self.now.shape w.history) number (w.books number) reply
            × IsLaneAt self.now.shape w.history number lane.now progress.new (answered self.now.shape number (w.books number) reply)
            × (progress.new.most ≡ progress.old.most) × (progress.new.done ≡ progress.old.done + 1)
            × (progress.old.own.added ≡ None → progress.new.own.added ≡ None))) }
    {
        let Some(command) = lane.script.as_slice().get(progress.done) else {
            return Ok(None);
        };
        if self.next_aim(lane, number, progress, made).is_some() {
            return Ok(None);
        }
        let reply = self.reply(lane, number, progress, command, made)?;
        progress.finish();
        Ok(Some(reply))
    }

    /// The reply of a command whose steps are made, with what it changes in registers and lists.
    fn reply(
        &self,
        lane: &Lane,
        number: u32,
        progress: &mut Progress,
        command: &Command,
        made: Option<&Made>,
    ) -> Result<Reply, CoreFault>
        requires lane { number < self.now.shape.lanes }
        requires draft { (w : World) × (more : List Command) × IsDraft self.now w (option_copied made)
            × IsLaneAt self.now.shape w.history number lane.now progress.old (w.books number)
            × (next_aim self.now.shape number (w.books number) ≡ None) × ((w.books number).left ≡ command.now ∷ more) }
        ensures { IfOk result (λ reply. (w : World) (more : List Command) → IsDraft self.now w (option_copied made.entry)
            → IsLaneAt self.now.shape w.history number lane.now progress.old (w.books number)
            → next_aim self.now.shape number (w.books number) ≡ None → (w.books number).left ≡ command.now ∷ more
            → CommandReplies self.now.shape (pool_after self.now.shape w.history) number (w.books number) (command.now) reply
            × IsReplied self.now.shape w.history number lane.now (w.books number) (command.now) reply progress.old progress.new) }
    {
        match command {
            Command::Create(register) => Ok(self.create(lane, number, progress, *register, made)),
            Command::Write(register, _) => Ok(progress.write(*register)),
            Command::Publish(register) => Ok(progress.publish(*register)),
            Command::Downgrade(register) => Ok(progress.downgrade(*register)),
            Command::Get(register, operand) => {
                self.get(lane, number, progress, *register, *operand, made)
            },
            Command::Read(register) => self.read(lane, number, progress, *register, made),
            Command::Release(register) => Ok(progress.release(*register)),
            Command::Clear(operand) => Ok(progress.clear(*operand)),
        }
    }

    /// Hands out a free place into a register.
    fn create(
        &self,
        lane: &Lane,
        number: u32,
        progress: &mut Progress,
        register: Register,
        made: Option<&Made>,
    ) -> Reply
        requires lane { number < self.now.shape.lanes }
        requires draft { (w : World) × (more : List Command) × IsDraft self.now w (option_copied made)
            × IsLaneAt self.now.shape w.history number lane.now progress.old (w.books number)
            × (next_aim self.now.shape number (w.books number) ≡ None) × ((w.books number).left ≡ Create register ∷ more) }
        ensures { (w : World) (more : List Command) → IsDraft self.now w (option_copied made.entry)
            → IsLaneAt self.now.shape w.history number lane.now progress.old (w.books number)
            → next_aim self.now.shape number (w.books number) ≡ None → (w.books number).left ≡ Create register ∷ more
            → CommandReplies self.now.shape (pool_after self.now.shape w.history) number (w.books number) (Create register) result
            × IsReplied self.now.shape w.history number lane.now (w.books number) (Create register) result progress.old progress.new }
    {
        let Held::Empty = progress.slot(register).held else {
            return Reply::Skip;
        };
        let Some(place) = self.hand_out(lane, number, progress, made) else {
            return Reply::Full;
        };
        let generation = Life::of_word(self.life(place, made)).generation;
        let key = self.key_of(place, generation);
        let held = Held::Filling {
            key,
            created: progress.done,
        };
        progress.set_slot(register, held, Some(key));
        Reply::Filling(key)
    }

    /// Takes the place that a create hands out: the first of the lane's own list, else of its chain, else of its next
    /// page.
    fn hand_out(
        &self,
        lane: &Lane,
        number: u32,
        progress: &mut Progress,
        made: Option<&Made>,
    ) -> Option<u32>
        requires shape { IsShape self.now.shape }
        requires lane { number < self.now.shape.lanes }
        requires list { IsOwnList self.now.shape lane.now.ring.items progress.old.own }
        requires chain { (places : List ℕ) × IsChained (self.now.acts.items ++ made_acts (option_copied made)) progress.old.chain places }
        ensures place { (places : List ℕ)
            → IsChained (self.now.acts.items ++ made_acts (option_copied made.entry)) progress.old.chain places
            → result ≡ handed_first (own_places self.now.shape number lane.now.ring.items progress.old.own)
            (handed_first places (if nat_lt progress.old.own.opened self.now.shape.pages then Some
            (place_at number progress.old.own.opened 0) else None)) }
        ensures free { (places : List ℕ) → IsChained (self.now.acts.items ++ made_acts (option_copied made.entry)) progress.old.chain places
            → (own_places self.now.shape number lane.now.ring.items progress.new.own
            ≡ (after_own self.now.shape number progress.old.own.opened [] places
            (own_places self.now.shape number lane.now.ring.items progress.old.own)).own)
            × IsChained (self.now.acts.items ++ made_acts (option_copied made.entry)) progress.new.chain
            (after_own self.now.shape number progress.old.own.opened [] places
            (own_places self.now.shape number lane.now.ring.items progress.old.own)).chain
            × (progress.new.own.opened
            ≡ (after_own self.now.shape number progress.old.own.opened [] places
            (own_places self.now.shape number lane.now.ring.items progress.old.own)).opened) }
        ensures list { IsOwnList self.now.shape lane.now.ring.items progress.new.own }
        ensures rest { progress.new ≡ record progress.old { own = progress.new.own; chain = progress.new.chain } }
        ensures settled { progress.old.own.added ≡ None → progress.new.own.added ≡ None }
    {
        if let Some(place) = progress.own.take(&self.shape, number, lane.ring.as_slice()) {
            return Some(place);
        }
        if let Some(place) = self.chained(progress.chain, made) {
            progress.chain.followed += 1;
            return Some(place);
        }
        progress
            .own
            .open_page(&self.shape, number, lane.ring.as_slice())
    }

    /// The value of a lifecycle word, also of the one that is about to be changed.
    fn life(&self, place: u32, made: Option<&Made>) -> u64
        requires draft { (w : World) × IsDraft self.now w (option_copied made) }
        requires place { is_place self.now.shape place ≡ true }
        ensures { (w : World) → IsDraft self.now w (option_copied made.entry) → result ≡ w.words.life place }
    {
        if let Some(made) = made {
            if let Word::Life { place: changed } = made.step.word {
                if changed == place {
                    return made.step.after;
                }
            }
        }
        self.words.load(&self.shape, Word::Life { place })
    }

    /// Answers a get, whose steps are made.
    fn get(
        &self,
        lane: &Lane,
        number: u32,
        progress: &mut Progress,
        register: Register,
        operand: Operand,
        made: Option<&Made>,
    ) -> Result<Reply, CoreFault>
        requires lane { number < self.now.shape.lanes }
        requires draft { (w : World) × (more : List Command) × IsDraft self.now w (option_copied made)
            × IsLaneAt self.now.shape w.history number lane.now progress.old (w.books number)
            × (next_aim self.now.shape number (w.books number) ≡ None) × ((w.books number).left ≡ Get register operand ∷ more) }
        ensures { IfOk result (λ reply. (w : World) (more : List Command) → IsDraft self.now w (option_copied made.entry)
            → IsLaneAt self.now.shape w.history number lane.now progress.old (w.books number)
            → next_aim self.now.shape number (w.books number) ≡ None → (w.books number).left ≡ Get register operand ∷ more
            → CommandReplies self.now.shape (pool_after self.now.shape w.history) number (w.books number) (Get register operand) reply
            × IsReplied self.now.shape w.history number lane.now (w.books number) (Get register operand) reply progress.old progress.new) }
    {
        let _ = lane;
        let _ = number;
        let Held::Empty = progress.slot(register).held else {
            return Ok(Reply::Skip);
        };
        let Some(key) = progress.operand_key(operand) else {
            return Ok(Reply::Skip);
        };
        match progress.last {
            Some(step) if matches!(step.kind, Kind::Enter) => {
                let content = self.content(place_of(key), made)?;
                let held = Held::Reference { key };
                progress.set_slot(register, held, Some(key));
                Ok(Reply::Found(content))
            }
            _ => Ok(Reply::Missing),
        }
    }

    /// Answers a read.
    fn read(
        &self,
        lane: &Lane,
        number: u32,
        progress: &Progress,
        register: Register,
        made: Option<&Made>,
    ) -> Result<Reply, CoreFault>
        requires lane { number < self.now.shape.lanes }
        requires draft { (w : World) × (more : List Command) × IsDraft self.now w (option_copied made)
            × IsLaneAt self.now.shape w.history number lane.now progress.now (w.books number)
            × (next_aim self.now.shape number (w.books number) ≡ None) × ((w.books number).left ≡ Read register ∷ more) }
        ensures { IfOk result (λ reply. (w : World) (more : List Command) → IsDraft self.now w (option_copied made.entry)
            → IsLaneAt self.now.shape w.history number lane.now progress.now (w.books number)
            → next_aim self.now.shape number (w.books number) ≡ None → (w.books number).left ≡ Read register ∷ more
            → CommandReplies self.now.shape (pool_after self.now.shape w.history) number (w.books number) (Read register) reply
            × IsReplied self.now.shape w.history number lane.now (w.books number) (Read register) reply progress.now progress.now) }
    {
        let _ = lane;
        let _ = number;
        match progress.slot(register).held {
            Held::Reference { key } => {
                let content = self.content(place_of(key), made)?;
                Ok(Reply::Content(content))
            }
            _ => Ok(Reply::Skip),
        }
    }
}

impl Progress {
    /// Answers a write: the bytes stand in the script.
    fn write(&self, register: Register) -> Reply
        ensures { (z : Shape) (w : World) (number : ℕ) (lane : Lane) (bytes : List ℕ) (more : List Command) → IsKept z w → number < z.lanes
            → IsLaneAt z w.history number lane self.now (w.books number) → (w.books number).left ≡ Write register bytes ∷ more
            → CommandReplies z (pool_after z w.history) number (w.books number) (Write register bytes) result
            × IsReplied z w.history number lane (w.books number) (Write register bytes) result self.now self.now }
    {
        match self.slot(register).held {
            Held::Filling { .. } => Reply::Done,
            _ => Reply::Skip,
        }
    }

    /// Answers a publish, whose step is made: the register is empty then.
    fn publish(&mut self, register: Register) -> Reply
        ensures { (z : Shape) (w : World) (number : ℕ) (lane : Lane) (more : List Command) → IsKept z w → number < z.lanes
            → IsLaneAt z w.history number lane self.old (w.books number) → (w.books number).left ≡ Publish register ∷ more
            → CommandReplies z (pool_after z w.history) number (w.books number) (Publish register) result
            × IsReplied z w.history number lane (w.books number) (Publish register) result self.old self.new }
    {
        let slot = self.slot(register);
        let Held::Filling { key, .. } = slot.held else {
            return Reply::Skip;
        };
        self.set_slot(register, Held::Empty, slot.last_key);
        Reply::Key(key)
    }

    /// Answers a downgrade, whose step is made: the register has a reference then.
    fn downgrade(&mut self, register: Register) -> Reply
        ensures { (z : Shape) (w : World) (number : ℕ) (lane : Lane) (more : List Command) → IsKept z w → number < z.lanes
            → IsLaneAt z w.history number lane self.old (w.books number) → (w.books number).left ≡ Downgrade register ∷ more
            → CommandReplies z (pool_after z w.history) number (w.books number) (Downgrade register) result
            × IsReplied z w.history number lane (w.books number) (Downgrade register) result self.old self.new }
    {
        let slot = self.slot(register);
        let Held::Filling { key, .. } = slot.held else {
            return Reply::Skip;
        };
        self.set_slot(register, Held::Reference { key }, slot.last_key);
        Reply::Key(key)
    }

    /// Answers a release, whose steps are made: the register is empty then.
    fn release(&mut self, register: Register) -> Reply
        ensures { (z : Shape) (w : World) (number : ℕ) (lane : Lane) (more : List Command) → IsKept z w → number < z.lanes
            → IsLaneAt z w.history number lane self.old (w.books number) → (w.books number).left ≡ Release register ∷ more
            → CommandReplies z (pool_after z w.history) number (w.books number) (Release register) result
            × IsReplied z w.history number lane (w.books number) (Release register) result self.old self.new }
    {
        let slot = self.slot(register);
        let Held::Reference { .. } = slot.held else {
            return Reply::Skip;
        };
        self.set_slot(register, Held::Empty, slot.last_key);
        Reply::Done
    }

    /// Answers a clear, whose steps are made.
    fn clear(&self, operand: Operand) -> Reply
        ensures { (z : Shape) (w : World) (number : ℕ) (lane : Lane) (more : List Command) → IsKept z w → number < z.lanes
            → IsLaneAt z w.history number lane self.now (w.books number) → (w.books number).left ≡ Clear operand ∷ more
            → CommandReplies z (pool_after z w.history) number (w.books number) (Clear operand) result
            × IsReplied z w.history number lane (w.books number) (Clear operand) result self.now self.now }
    {
        match self.operand_key(operand) {
            Some(_) => Reply::Cleared(self.cleared),
            None => Reply::Skip,
        }
    }
}
