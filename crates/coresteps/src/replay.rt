//! The core, turn by turn, and replays of scripts over a schedule.
ghost use Rattle.std.specs.Prelude.{ℕ, Bool, List, ◌≡◌, ◌∷◌, ◌++◌, ◌<◌, ◌≤◌, ◌+◌, [], true, false, None, Some, IsOk, IfOk, OnOk, OnErr, length, replicate, slice_get, slice_index};
ghost use Rattle.keybits.specs.declared.shape.Shape.{Shape};
ghost use Rattle.keybits.specs.Shapes.{IsShape, shard_places, all_places, is_place, position_of};
ghost use Rattle.keybits.specs.Keys.{place_of};
ghost use Rattle.seqpool.specs.declared.act.Act.{Act};
ghost use Rattle.seqpool.specs.declared.act.Act.TheVariants as acts;
ghost use Rattle.seqpool.specs.declared.act.Act.TheVariants.{Publish};
ghost use Rattle.traces.specs.Books.{Book};
ghost use Rattle.traces.specs.Lawful.{IsLawful, World, first_world, is_finished, world_after, book_before, book_after, IsNextTurn};
ghost use Rattle.traces.specs.Parts.{StandsThroughout};
ghost use Rattle.coresteps.specs.declared.progress.Most.{Most};
ghost use Rattle.coresteps.specs.Lanes.{first_progress, no_most, counted_step, most_other_steps};
ghost use Rattle.coresteps.specs.Kept.{IsCore, IsCoreAt, IsDraft, IsLaneAt, IsRun, IsWordOf, IsWorked, MakesTurn, SameShared, Turns, index_of_publish};

use crate::commands::Commands;
use crate::fault::CoreFault;
use crate::lane::Lane;
use crate::progress::Progress;
use crate::shared::{Made, Shared};
use crate::words::Table;
use keybits::{Shape, place_of};
use seqpool::Act;
use std::alloc::Global;
use std::marker::Model;
use traces::{Replies, Script, Trace, Turn};

/// The pool's algorithm as a pure machine, after some turns of its scripts.
#[derive(Drop)]
pub struct Core {
    shared: Shared,
    lanes: Vec<Lane>,
}

impl Model for Core {
    ghost use Rattle.coresteps.specs.Kept.{CoreState, IsCoreAt};
    ghost use Rattle.traces.specs.Lawful.{World};
    ghost use Rattle.coresteps.specs.declared.progress.Most.{Most};
    ghost use Rattle.std.specs.Prelude.{ℕ};

    ghost Value = { CoreState };

    ghost view = { λ c. record { shared = c.shared; lanes = c.lanes.items } };

    ghost invariant = { λ c. (w : World) × (most : ℕ → Most) × IsCoreAt w most c.shared c.lanes.items };
}

impl Core {
    /// The core of these scripts, one for each lane, before the first turn. Memory (25) where it was refused.
    pub fn new(alloc: Global, shape: Shape, scripts: Vec<Script>) -> Result<Core, CoreFault>
        requires shape { IsShape shape }
        requires alone { shape.guests ≡ 0 }
        requires scripts { length scripts.items ≡ shape.lanes }
        ensures kept { IfOk result (λ core. IsCore (first_world scripts.items) (λ _. no_most) core) }
        ensures shape { IfOk result (λ core. core.shared.shape ≡ shape) }
    {
        let words = Table::new(alloc, &shape)?;
        let published = vec![in alloc; 0; shape.all_places()]?;
        let lanes = new_lanes(alloc, &shape, scripts)?;
        let shared = Shared {
            alloc,
            shape,
            words,
            published,
            acts: Vec::new(alloc),
        };
        Ok(Core { shared, lanes })
    }

    /// One turn of a lane: its next atomic step, with the work of its own before its first step and after each one. A
    /// turn of a finished lane, or of a number that is no lane, does nothing and takes no memory. Where memory is
    /// refused (25), the core is as before.
    pub fn turn(&mut self, lane: u32) -> Result<Turn, CoreFault>
        ensures ok { IfOk result (λ turn. (w : World) (most : ℕ → Most) → IsCore w most self.old
            → Turns self.old w most lane turn self.new) }
        ensures finished { (w : World) (most : ℕ → Most) → IsCore w most self.old → is_finished self.old.shared.shape w lane ≡ true
            → IsOk result }
        ensures err { OnErr result ((w : World) (most : ℕ → Most) → IsCore w most self.old → IsCore w most self.new) }
        ensures same { OnErr result (SameShared self.old.shared self.new.shared × (self.new.lanes ≡ self.old.lanes)) }
        ensures shape { self.new.shared.shape ≡ self.old.shared.shape }
    {
        if self.finished(lane) {
            return Ok(Turn::empty(self.shared.alloc, lane));
        }
        next_turn(&mut self.shared, &mut self.lanes, lane)
    }

    /// Whether a lane's script is at its end; true for a number that is no lane.
    pub fn finished(&self, lane: u32) -> bool
        ensures { (w : World) (most : ℕ → Most) → IsCore w most self.now → result ≡ is_finished self.now.shared.shape w lane }
    {
        match self.lanes.get(lane as usize) {
            Some(of) => of.progress.done >= of.script.as_slice().len(),
            None => true,
        }
    }

    /// The acts of the turns so far, in order.
    pub fn acts(&self) -> &[Act]
        ensures { (w : World) (most : ℕ → Most) → IsCore w most self.now → result.now ≡ w.history }
    {
        self.shared.acts.as_slice()
    }

    /// The greatest number of steps of one create of a lane so far, and of one other call. A call under way counts with
    /// its steps so far. A create has at most as many as there are lanes: a TAKE for each other one, and a FOLLOW. It is
    /// (0, 0) for a number that is no lane. It takes no memory.
    pub fn most(&self, lane: u32) -> (u32, u32)
        ensures lane { (w : World) (most : ℕ → Most) → IsCore w most self.now → lane < self.now.shared.shape.lanes
            → result ≡ ((most lane).create, (most lane).other) }
        ensures none { self.now.shared.shape.lanes ≤ lane → result ≡ (0, 0) }
        ensures create { result.0 ≤ self.now.shared.shape.lanes }
        ensures other { result.1 ≤ most_other_steps }
    {
        match self.lanes.get(lane as usize) {
            Some(of) => (of.progress.most.create, of.progress.most.other),
            None => (0, 0),
        }
    }
}

impl Shared {
    /// Makes a step: a copy of its act joins the history, and its word has the value after it. Where memory is refused,
    /// nothing changes.
    fn keep(&mut self, made: &Made) -> Result<(), CoreFault>
        requires draft { (w : World) × IsDraft self.old w (Some made.now) }
        requires word { IsWordOf self.old.shape made.now.step.word }
        requires place { (lane key : ℕ) (content : List ℕ) (with_ref : Bool) → made.now.act ≡ Some (Publish lane key content with_ref)
            → is_place self.old.shape (place_of key) ≡ true }
        ensures ok { OnOk result ((w : World) → IsDraft self.old w (Some made.now) → IsDraft self.new w None) }
        ensures same { OnErr result (SameShared self.old self.new) }
        ensures shape { self.new.shape ≡ self.old.shape }
    {
        if let Some(act) = &made.act {
            self.keep_act(act)?;
        }
        self.words
            .store(&self.shape, made.step.word, made.step.after);
        Ok(())
    }

    /// A copy of an act joins the history, and where it publishes a key, that key's place has its index. Where memory
    /// is refused, nothing changes.
    fn keep_act(&mut self, act: &Act) -> Result<(), CoreFault>
        requires shape { IsShape self.old.shape }
        requires rows { length self.old.published.items ≡ all_places self.old.shape }
        requires place { (lane key : ℕ) (content : List ℕ) (with_ref : Bool) → act.now ≡ Publish lane key content with_ref
            → is_place self.old.shape (place_of key) ≡ true }
        ensures history { OnOk result (self.new.acts.items ≡ self.old.acts.items ++ act.now ∷ []) }
        ensures published { OnOk result ((place : ℕ) → is_place self.old.shape place ≡ true
            → slice_index self.new.published.items (position_of self.old.shape place)
            ≡ index_of_publish self.old.shape self.old.published.items (length self.old.acts.items) (act.now ∷ []) place) }
        ensures same { OnErr result (SameShared self.old self.new) }
        ensures rows { length self.new.published.items ≡ length self.old.published.items }
        ensures words { self.new.words ≡ self.old.words }
        ensures shape { self.new.shape ≡ self.old.shape }
    {
        let index = self.acts.len();
        self.acts.push(act.copy(self.alloc)?)?;
        if let Act::Publish { key, .. } = act {
            self.published[self.shape.position(place_of(*key))] = index;
        }
        Ok(())
    }
}

/// The next turn of a lane that isn't finished. Where memory is refused, the core is as before.
fn next_turn(shared: &mut Shared, lanes: &mut Vec<Lane>, lane: u32) -> Result<Turn, CoreFault>
    requires { (w : World) × (most : ℕ → Most) × IsCoreAt w most shared.old lanes.old.items
        × (is_finished shared.old.shape w lane ≡ false) }
    ensures ok { IfOk result (λ turn. (w : World) (most : ℕ → Most) → IsCoreAt w most shared.old lanes.old.items
        → is_finished shared.old.shape w lane ≡ false
        → MakesTurn (record { shared = shared.old; lanes = lanes.old.items }) w most lane turn
        (record { shared = shared.new; lanes = lanes.new.items })) }
    ensures same { OnErr result (SameShared shared.old shared.new × (lanes.new.items ≡ lanes.old.items)) }
    ensures shape { shared.new.shape ≡ shared.old.shape }
{
    let index = lane as usize;
    let of = &lanes[index];
    let mut progress = of.progress;
    let turn = advance(shared, of, lane, &mut progress)?;
    keep_progress(&mut lanes[index], progress);
    Ok(turn)
}

/// Makes the next turn of a lane: its next step, with the work before and behind it, or only the work that ends its
/// script. It is left to keep how far the lane has come. Where memory is refused, what all lanes share is as before.
fn advance(
    shared: &mut Shared,
    of: &Lane,
    lane: u32,
    progress: &mut Progress,
) -> Result<Turn, CoreFault>
    requires lane { lane < shared.old.shape.lanes }
    requires draft { (w : World) × IsDraft shared.old w None × IsLaneAt shared.old.shape w.history lane of.now progress.old (w.books lane) }
    requires added { progress.old.own.added ≡ None }
    ensures ok { IfOk result (λ turn. (w : World) → IsDraft shared.old w None
        → IsLaneAt shared.old.shape w.history lane of.now progress.old (w.books lane)
        → is_finished shared.old.shape w lane ≡ false
        → (turn.lane ≡ lane) × IsNextTurn shared.old.shape w turn × IsDraft shared.new (world_after shared.old.shape w turn) None
        × IsLaneAt shared.old.shape (world_after shared.old.shape w turn).history lane of.now progress.new
        (book_after shared.old.shape w turn)
        × (progress.new.most ≡ counted_step (book_before shared.old.shape w turn) turn.step progress.old.most)) }
    ensures same { OnErr result (SameShared shared.old shared.new) }
    ensures shape { shared.new.shape ≡ shared.old.shape }
{
    let before = shared.work(of, lane, progress, None)?;
    let Some(aim) = shared.next_aim(of, lane, progress, None) else {
        return Ok(Turn {
            lane,
            before,
            step: None,
            act: None,
            after: Replies::empty(shared.alloc),
        });
    };
    let made = shared.make(of, lane, progress, aim)?;
    let index = shared.acts.len();
    let command = &of.script.as_slice()[progress.done];
    progress.note(&shared.shape, lane, command, &made, index);
    let after = finish_step(shared, of, lane, progress, &made)?;
    Ok(Turn {
        lane,
        before,
        step: Some(made.step),
        act: made.act,
        after,
    })
}

/// The work behind a step that was noted, and then the step itself, with the replies of that work. Where memory is
/// refused, what all lanes share is as before.
fn finish_step(
    shared: &mut Shared,
    of: &Lane,
    lane: u32,
    progress: &mut Progress,
    made: &Made,
) -> Result<Replies, CoreFault>
    requires lane { lane < shared.old.shape.lanes }
    requires draft { (w : World) × IsDraft shared.old w (Some made.now)
        × IsLaneAt shared.old.shape w.history lane of.now progress.old (w.books lane) }
    requires word { IsWordOf shared.old.shape made.now.step.word }
    requires place { (lane key : ℕ) (content : List ℕ) (with_ref : Bool) → made.now.act ≡ Some (Publish lane key content with_ref)
        → is_place shared.old.shape (place_of key) ≡ true }
    ensures ok { IfOk result (λ replies. (w : World) → IsDraft shared.old w (Some made.now)
        → IsLaneAt shared.old.shape w.history lane of.now progress.old (w.books lane)
        → IsWorked shared.old w (Some made.now) lane of.now progress.old replies progress.new
        × ((v : World) → IsDraft shared.old v (Some made.now) → IsDraft shared.new v None)) }
    ensures same { OnErr result (SameShared shared.old shared.new) }
    ensures shape { shared.new.shape ≡ shared.old.shape }
{
    let replies = shared.work(of, lane, progress, Some(made))?;
    shared.keep(made)?;
    Ok(replies)
}

/// Keeps how far a lane has come.
fn keep_progress(of: &mut Lane, progress: Progress)
    requires length { (place : ℕ) → progress.own.added ≡ Some place → progress.own.length < length of.old.ring.items }
    requires first { progress.own.first < length of.old.ring.items }
    ensures lane { (z : Shape) (history : List Act) (number : ℕ) (b : Book) → IsLaneAt z history number of.old progress b
        → IsLaneAt z history number of.new of.new.progress b }
    ensures added { of.new.progress.own.added ≡ None }
    ensures most { of.new.progress.most ≡ progress.most }
{
    of.progress = progress;
    of.progress.own.put_added(&mut of.ring);
}

/// The lanes of these scripts before their first turns, each with room for the places of its shard.
fn new_lanes(alloc: Global, shape: &Shape, scripts: Vec<Script>) -> Result<Vec<Lane>, CoreFault>
    requires { IsShape shape.now }
    ensures { IfOk result (λ lanes. (length lanes.items ≡ length scripts.items)
        × ((number : ℕ) (lane : Lane) → slice_get lanes.items number ≡ Some lane
        → (slice_get scripts.items number ≡ Some lane.script) × (lane.ring.items ≡ replicate (shard_places shape.now) 0)
        × (lane.progress ≡ first_progress))) }
{
    let mut lanes = Vec::with_capacity(alloc, scripts.len())?;
    for script in scripts {
        lanes.push(new_lane(alloc, shape, script)?)?;
    }
    Ok(lanes)
}

/// A lane before its first turn.
fn new_lane(alloc: Global, shape: &Shape, script: Script) -> Result<Lane, CoreFault>
    requires { IsShape shape.now }
    ensures { IfOk result (λ lane. (lane.script ≡ script) × (lane.ring.items ≡ replicate (shard_places shape.now) 0)
        × (lane.progress ≡ first_progress)) }
{
    let ring = vec![in alloc; 0; shape.shard_places() as usize]?;
    Ok(Lane {
        script: Commands::new(alloc, script)?,
        ring,
        progress: Progress::new(),
    })
}

/// One more entry of a schedule: the turn that it makes, if it makes one, goes into the trace.
fn add_turn(core: &mut Core, trace: &mut Trace, lane: u32) -> Result<(), CoreFault>
    ensures run { OnOk result ((w : World) (schedule : List ℕ)
        → IsRun core.old.shared.shape w schedule trace.old core.old
        → IsRun core.old.shared.shape w (schedule ++ lane ∷ []) trace.new core.new) }
    ensures shape { core.new.shared.shape ≡ core.old.shared.shape }
{
    if core.finished(lane) {
        return Ok(());
    }
    let turn = core.turn(lane)?;
    trace.push(turn)?;
    Ok(())
}

/// Replays scripts over a schedule: one turn for each entry that names an unfinished lane. Memory (25) where it was
/// refused.
pub fn run(
    alloc: Global,
    shape: Shape,
    scripts: Vec<Script>,
    schedule: &[u32],
) -> Result<Trace, CoreFault>
    requires shape { IsShape shape }
    requires alone { shape.guests ≡ 0 }
    requires scripts { length scripts.items ≡ shape.lanes }
    ensures lawful { IfOk result (λ trace. IsLawful shape scripts.items schedule.now trace) }

    // After each turn each place is in one part, and the facts of words, history and books hold.
    ensures stands { IfOk result (λ trace. StandsThroughout shape (first_world scripts.items) trace) }
{
    let mut core = Core::new(alloc, shape, scripts)?;
    let mut trace = Trace::empty(alloc);
    for lane in schedule {
        add_turn(&mut core, &mut trace, *lane)?;
    }
    Ok(trace)
}
