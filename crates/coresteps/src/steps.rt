//! The next step of a lane, with the act that it makes.
ghost use Rattle.std.specs.Prelude.{option_copied, ◌<◌, ◌≤◌, ◌==◌, Bool, true, false, Option, Some, None, length, ◌≡◌, ◌++◌, ℕ, List, IfOk, if◌then◌else◌};
ghost use Rattle.steplaws.specs.StepLaws.{CountFits};
ghost use Rattle.steplaws.specs.Calls as steps;
ghost use Rattle.steplaws.specs.Calls.{Caller, is_hit, is_claimed, key_in, EnterMakes, LeaveMakes, PublishMakes, TakeMakes, MarkMakes};
ghost use Rattle.steplaws.specs.Facts.{Words};
ghost use Rattle.keybits.specs.Steps.{Changes};
ghost use Rattle.keybits.specs.Words.{state_in, claimable};
ghost use Rattle.keybits.specs.declared.step.Kind.TheVariants as kinds;
ghost use Rattle.keybits.specs.Links.{Leads};
ghost use Rattle.seqpool.specs.declared.act.Act.{Act};
ghost use Rattle.seqpool.specs.declared.act.Act.TheVariants as acts;
ghost use Rattle.seqpool.specs.Pool.{Pool, NoRepeats, AllHome, pool_after, IsLegal};
ghost use Rattle.traces.specs.declared.script.Command.{Command};
ghost use Rattle.traces.specs.Books.{Book, act_list, call_under_way, next_aim};
ghost use Rattle.traces.specs.Following.{row_content};
ghost use Rattle.traces.specs.Lawful.{World, IsStep};
ghost use Rattle.keybits.specs.Shapes.{IsShape, all_places, is_place};
ghost use Rattle.keybits.specs.Keys.{key_number, place_of};
ghost use Rattle.coresteps.specs.Lanes.{aim_of, IsCall};
ghost use Rattle.coresteps.specs.Kept.{IsTable, made_acts, index_of_publish, IsDraft, IsLaneAt};

use crate::aims::Aim;
use crate::fault::CoreFault;
use crate::lane::Lane;
use crate::progress::{Call, Progress};
use crate::shared::{Made, Shared};
use keybits::{
    Key, Kind, Place, Step, Word, claimable, claimed, entered, is_hit, is_present, left,
    linked_place, marked, place_of, published,
};
use seqpool::{Act, Bytes, Places};
use std::alloc::Global;

impl Shared {
    /// The step that a lane makes next, with its act. It changes nothing yet.
    pub(crate) fn make(
        &self,
        lane: &Lane,
        number: u32,
        progress: &Progress,
        aim: Aim,
    ) -> Result<Made, CoreFault>
        requires lane { number < self.now.shape.lanes }
        requires draft { (w : World) × IsDraft self.now w None
            × IsLaneAt self.now.shape w.history number lane.now progress.now (w.books number)
            × (next_aim self.now.shape number (w.books number) ≡ Some (aim_of aim)) }
        ensures { IfOk result (λ made. (w : World) → IsDraft self.now w None
            → IsLaneAt self.now.shape w.history number lane.now progress.now (w.books number)
            → next_aim self.now.shape number (w.books number) ≡ Some (aim_of aim)
            → IsStep self.now.shape number w.words (w.books number) made.step made.act
            × IsLegal self.now.shape (w.history ++ act_list made.act)) }
    {
        let before = self.words.load(&self.shape, aim.word);
        let after = word_after(aim.kind, before, self.shape.last_generation);
        let step = Step {
            kind: aim.kind,
            word: aim.word,
            before,
            after,
        };
        let act = self.act_of(lane, number, progress, step)?;
        Ok(Made { step, act })
    }

    /// The act of a step of the lane's call, if it makes one.
    fn act_of(
        &self,
        lane: &Lane,
        number: u32,
        progress: &Progress,
        step: Step,
    ) -> Result<Option<Act>, CoreFault>
        requires lane { number < self.now.shape.lanes }
        requires draft { (w : World) × (act : Option Act) × IsDraft self.now w None
            × IsLaneAt self.now.shape w.history number lane.now progress.now (w.books number)
            × IsStep self.now.shape number w.words (w.books number) step act × IsLegal self.now.shape (w.history ++ act_list act) }
        ensures { IfOk result (λ made. (w : World) (act : Option Act) → IsDraft self.now w None
            → IsLaneAt self.now.shape w.history number lane.now progress.now (w.books number)
            → IsStep self.now.shape number w.words (w.books number) step act → IsLegal self.now.shape (w.history ++ act_list act)
            → made ≡ act) }
    {
        let Some(command) = lane.script.as_slice().get(progress.done) else {
            return Ok(None);
        };
        let Some(call) = progress.call_of(command) else {
            return Ok(None);
        };
        self.act_of_call(lane, number, progress.done, call, step)
    }

    /// The act of a step of a call, by its kind.
    fn act_of_call(
        &self,
        lane: &Lane,
        number: u32,
        done: usize,
        call: Call,
        step: Step,
    ) -> Result<Option<Act>, CoreFault>
        requires lane { number < self.now.shape.lanes }
        requires done { done ≤ length lane.now.script }
        requires draft { (w : World) × (act : Option Act) × IsDraft self.now w None
            × IsCall lane.now.script done (w.books number) (Some call) (call_under_way (w.books number))
            × IsStep self.now.shape number w.words (w.books number) step act × IsLegal self.now.shape (w.history ++ act_list act) }
        ensures { IfOk result (λ made. (w : World) (act : Option Act) → IsDraft self.now w None
            → IsCall lane.now.script done (w.books number) (Some call) (call_under_way (w.books number))
            → IsStep self.now.shape number w.words (w.books number) step act → IsLegal self.now.shape (w.history ++ act_list act)
            → made ≡ act) }
    {
        match step.kind {
            Kind::Enter => self.act_of_enter(number, call, step.before),
            Kind::Leave => Ok(act_of_leave(number, call)),
            Kind::Publish { .. } => self.act_of_publish(lane, number, done, call),
            Kind::Mark => Ok(act_of_mark(number, call, step.before)),
            Kind::Claim { generation } => {
                Ok(self.act_of_claim(number, call, generation, step.before))
            },
            Kind::Push { expected, .. } => Ok(act_of_push(number, call, expected, step.before)),
            Kind::Take => self.act_of_take(number, step.before),
            Kind::Link { .. } | Kind::Follow => Ok(None),
        }
    }

    /// The act of an ENTER that found this word: a get with its content or nothing, or a clear that missed.
    fn act_of_enter(&self, number: u32, call: Call, before: u64) -> Result<Option<Act>, CoreFault>
        requires draft { (w : World) × (called : steps.Call) × (act : Option Act) × (c : Caller) × (script : List Command) × (done : ℕ)
            × (b : Book)
            × IsDraft self.now w None × IsCall script done b (Some call) (Some called) × EnterMakes c called before act
            × IsLegal self.now.shape (w.history ++ act_list act) }
        ensures { IfOk result (λ made. (w : World) (called : steps.Call) (act : Option Act) (c : Caller) (script : List Command)
            (done : ℕ) (b : Book)
            → IsDraft self.now w None → IsCall script done b (Some call) (Some called) → EnterMakes c called before act → c.lane ≡ number
            → IsLegal self.now.shape (w.history ++ act_list act) → made ≡ act) }
    {
        match call {
            Call::Get { key } => {
                let reply = if is_hit(key, before) {
                    Some(self.content(place_of(key), None)?)
                } else {
                    None
                };
                Ok(Some(Act::Get {
                    lane: number,
                    key,
                    reply,
                }))
            },
            Call::Clear { key } => Ok(clear_missed(number, key, before)),
            _ => Ok(None),
        }
    }

    /// The act of a PUBLISH: the bytes that were written to the register since its create.
    fn act_of_publish(
        &self,
        lane: &Lane,
        number: u32,
        done: usize,
        call: Call,
    ) -> Result<Option<Act>, CoreFault>
        requires done { done ≤ length lane.now.script }
        requires call { (called : Option steps.Call) × (b : Book) × IsCall lane.now.script done b (Some call) called }
        ensures { IfOk result (λ made. (called : steps.Call) (act : Option Act) (c : Caller) (b : Book)
            → IsCall lane.now.script done b (Some call) (Some called) → PublishMakes c called act → c.lane ≡ number → made ≡ act) }
    {
        let Call::Publish {
            register,
            key,
            created,
            with_ref,
        } = call
        else {
            return Ok(None);
        };
        let content = lane
            .script
            .written_since(self.alloc, created, done, register)?;
        Ok(Some(Act::Publish {
            lane: number,
            key,
            content,
            with_ref,
        }))
    }

    /// The act of a CLAIM of this generation that found this word, where it succeeded.
    fn act_of_claim(&self, number: u32, call: Call, generation: u32, before: u64) -> Option<Act>
        requires shape { IsShape self.now.shape }
        requires claim { is_claimed generation before ≡ true → (called : steps.Call) × (script : List Command) × (done : ℕ) × (b : Book)
            × IsCall script done b (Some call) (Some called) × (is_place self.now.shape (place_of (key_in called)) ≡ true)
            × (1 ≤ generation) }
        ensures { (called : steps.Call) (script : List Command) (done : ℕ) (b : Book) → IsCall script done b (Some call) (Some called)
            → result ≡ (if is_claimed generation before then Some
            (acts.Reclaim number (key_number self.now.shape.tag (place_of (key_in called)) generation)) else None) }
    {
        if before == claimable(generation) {
            Some(Act::Reclaim {
                lane: number,
                key: self.key_of(place_of(key_in(call)), generation),
            })
        } else {
            None
        }
    }

    /// The act of a TAKE that found this word: it collects the places of a chain.
    fn act_of_take(&self, number: u32, before: u64) -> Result<Option<Act>, CoreFault>
        requires shape { IsShape self.now.shape }
        requires lane { number < self.now.shape.lanes }
        requires take { (words : Words) × (c : Caller) × (act : Option Act) × (history : List Act)
            × IsTable self.now.shape words self.now.words
            × TakeMakes c words.link before act × (c.lane ≡ number) × IsLegal self.now.shape (history ++ act_list act) }
        ensures { IfOk result (λ made. (words : Words) (c : Caller) (act : Option Act) → IsTable self.now.shape words self.now.words
            → TakeMakes c words.link before act → c.lane ≡ number → made ≡ act) }
    {
        if before == 0 {
            return Ok(None);
        }
        let places = self.linked_from(number, before)?;
        Ok(Some(Act::Collect {
            lane: number,
            places,
        }))
    }

    /// The places of a shard to which a stack word leads, by their link words.
    fn linked_from(&self, shard: u32, stack: u64) -> Result<Places, CoreFault>
        requires shape { IsShape self.now.shape }
        requires shard { shard < self.now.shape.lanes }
        requires leads { (words : Words) × (places : List ℕ) × (pool : Pool) × IsTable self.now.shape words self.now.words
            × Leads words.link shard stack places × NoRepeats places × AllHome self.now.shape pool shard places }
        ensures { IfOk result (λ found. (words : Words) (places : List ℕ) → IsTable self.now.shape words self.now.words
            → Leads words.link shard stack places → found ≡ places) }
    {
        let mut places = Vec::new(self.alloc);
        let mut word = stack;
        while word != 0 {
            let place = linked_place(shard, word);
            places.push(place)?;
            word = self.words.load(&self.shape, Word::Link { place });
        }
        Ok(Places::from_vec(places))
    }

    /// The key of a place, of this generation.
    pub(crate) fn key_of(&self, place: u32, generation: u32) -> u64
        requires shape { IsShape self.now.shape }
        requires place { is_place self.now.shape place ≡ true }
        requires generation { 1 ≤ generation }
        ensures { result ≡ key_number self.now.shape.tag place generation }
    {
        let place = Place::of_number(place);
        Key::pack_tagged(self.shape.tag as u8, place, generation)
            .unwrap()
            .number()
    }

    /// The content of a published place, also of one that is about to be published.
    pub(crate) fn content(&self, place: u32, made: Option<&Made>) -> Result<Bytes, CoreFault>
        requires draft { (w : World) × (text : List ℕ) × IsDraft self.now w (option_copied made)
            × (row_content (pool_after self.now.shape w.history place).phase ≡ Some text) }
        requires place { is_place self.now.shape place ≡ true }
        ensures { IfOk result (λ bytes. (w : World) (text : List ℕ) → IsDraft self.now w (option_copied made.entry)
            → row_content (pool_after self.now.shape w.history place).phase ≡ Some text → bytes ≡ text) }
    {
        let index = self.index_of_publish(place, made);
        if index < self.acts.len() {
            return copied_content(self.alloc, &self.acts[index]);
        }
        let Some(made) = made else {
            return Ok(Bytes::empty(self.alloc));
        };
        match &made.act {
            Some(act) => copied_content(self.alloc, act),
            None => Ok(Bytes::empty(self.alloc)),
        }
    }

    /// Which act published the key of a place: the one that is about to be made, or one of the history.
    fn index_of_publish(&self, place: u32, made: Option<&Made>) -> usize
        requires shape { IsShape self.now.shape }
        requires place { is_place self.now.shape place ≡ true }
        requires published { length self.now.published.items ≡ all_places self.now.shape }
        ensures { result ≡ index_of_publish self.now.shape self.now.published.items (length self.now.acts.items)
            (made_acts (option_copied made.entry)) place }
    {
        if let Some(
            Made {
                act: Some(Act::Publish { key, .. }),
                ..
            },
        ) = made
        {
            if place_of(*key) == place {
                return self.acts.len();
            }
        }
        self.published[self.shape.position(place)]
    }
}

/// The act of a LEAVE: a release, and none in another call.
fn act_of_leave(number: u32, call: Call) -> Option<Act>
    ensures { (called : steps.Call) (act : Option Act) (c : Caller) (script : List Command) (done : ℕ) (b : Book)
        → IsCall script done b (Some call) (Some called) → LeaveMakes c called act → c.lane ≡ number → result ≡ act }
{
    match call {
        Call::Release { key } => Some(Act::Release { lane: number, key }),
        _ => None,
    }
}

/// The act of an ENTER of a clear: none where it hit, since its MARK makes the act.
fn clear_missed(number: u32, key: u64, before: u64) -> Option<Act>
    ensures { result ≡ (if is_hit key before then None else Some (acts.Clear number key false)) }
{
    if is_hit(key, before) {
        None
    } else {
        Some(Act::Clear {
            lane: number,
            key,
            reply: false,
        })
    }
}

/// The act of a MARK: a clear, which marked the key where it had no mark.
fn act_of_mark(number: u32, call: Call, before: u64) -> Option<Act>
    ensures { (called : steps.Call) (act : Option Act) (c : Caller) (script : List Command) (done : ℕ) (b : Book)
        → IsCall script done b (Some call) (Some called) → MarkMakes c called before act → c.lane ≡ number → result ≡ act }
{
    match call {
        Call::Clear { key } => Some(Act::Clear {
            lane: number,
            key,
            reply: is_present(before),
        }),
        _ => None,
    }
}

/// The act of a PUSH that found this word: the place of the call's key is home, where the word was expected.
fn act_of_push(number: u32, call: Call, expected: u64, before: u64) -> Option<Act>
    ensures { (called : steps.Call) (script : List Command) (done : ℕ) (b : Book) → IsCall script done b (Some call) (Some called)
        → result ≡ (if before == expected then Some (acts.Home number (place_of (key_in called))) else None) }
{
    if before == expected {
        Some(Act::Home {
            lane: number,
            place: place_of(key_in(call)),
        })
    } else {
        None
    }
}

/// The key of a call; 0 of a create.
fn key_in(call: Call) -> u64
    ensures { (called : steps.Call) (script : List Command) (done : ℕ) (b : Book) → IsCall script done b (Some call) (Some called)
        → result ≡ key_in called }
{
    match call {
        Call::Publish { key, .. }
        | Call::Get { key }
        | Call::Release { key }
        | Call::Clear { key } => key,
        Call::Create => 0,
    }
}

/// The content that an act published.
fn copied_content(alloc: Global, act: &Act) -> Result<Bytes, CoreFault>
    ensures { IfOk result (λ bytes. (lane key : ℕ) (text : List ℕ) (with_ref : Bool) → act.now ≡ acts.Publish lane key text with_ref
        → bytes ≡ text) }
{
    match act {
        Act::Publish { content, .. } => Ok(content.copy(alloc)?),
        _ => Ok(Bytes::empty(alloc)),
    }
}

/// The value that a step of this kind leaves in a word.
fn word_after(kind: Kind, before: u64, last_generation: u32) -> u64
    requires changes { (value : ℕ) × Changes last_generation kind before value }
    requires room { CountFits kind before }
    requires claim { (generation : ℕ) → kind ≡ kinds.Claim generation → before ≡ claimable generation → generation ≤ last_generation }
    ensures { Changes last_generation kind before result }
{
    match kind {
        Kind::Enter => entered(before),
        Kind::Leave => left(before),
        Kind::Publish { with_ref } => published(before, with_ref),
        Kind::Mark => marked(before),
        Kind::Claim { generation } => {
            if before == claimable(generation) {
                claimed(before, last_generation)
            } else {
                before
            }
        }
        Kind::Link { expected } => expected,
        Kind::Push { expected, link } => { if before == expected { link } else { before } }
        Kind::Take => 0,
        Kind::Follow => before,
    }
}
