//! Which step a lane makes next.
ghost use Rattle.std.specs.Prelude.{option_copied, MatchBool, MatchOption, ◌≡◌, ◌≢◌, ◌∷◌, ◌++◌, ◌<◌, ◌≤◌, ℕ, [], List, Some, None, true, false, nat_lt, slice_get, slice_index, if◌then◌else◌};
ghost use Rattle.keybits.specs.Shapes.{IsShape};
ghost use Rattle.keybits.specs.Places.{shard_of};
ghost use Rattle.keybits.specs.Keys.{place_of};
ghost use Rattle.steplaws.specs.Calls.{is_hit, AreSteps, key_in};
ghost use Rattle.steplaws.specs.Calls as calls;
ghost use Rattle.seqpool.specs.declared.act.Act.{Act};
ghost use Rattle.traces.specs.declared.script.Command.{Command};
ghost use Rattle.traces.specs.Books.{Book, caller, next_aim, pushed_after};
ghost use Rattle.traces.specs.Keeping.{AreFound};
ghost use Rattle.traces.specs.Lawful.{World};
ghost use Rattle.coresteps.specs.Lanes.{IsAim, IsCall, IsChained, last_step};
ghost use Rattle.coresteps.specs.Kept.{IsDraft, IsLaneAt, made_acts};
ghost use Rattle.keybits.specs.declared.step.Word.TheVariants as words;
ghost use Rattle.keybits.specs.declared.step.Kind.TheVariants as kinds;

use crate::lane::Lane;
use crate::progress::{Call, Chain, LANES, Progress};
use crate::shared::{Made, Shared};
use keybits::{
    Kind, Life, MOST_LANES, SHARD_NUMBERS, Shape, Step, Word, claimable, fits, is_hit, link_to,
    linked_place, owes_claim, place_of, shard_of,
};
use seqpool::Act;

/// What a step is to do to which word.
#[derive(Clone, Copy)]
pub(crate) struct Aim {
    pub(crate) kind: Kind,
    pub(crate) word: Word,
}

impl Shared {
    /// The step that a lane makes next, before any further reply; none where the next is a reply, or the script is at
    /// its end.
    pub(crate) fn next_aim(
        &self,
        lane: &Lane,
        number: u32,
        progress: &Progress,
        made: Option<&Made>,
    ) -> Option<Aim>
        requires lane { number < self.now.shape.lanes }
        requires draft { (w : World) × IsDraft self.now w (option_copied made)
            × IsLaneAt self.now.shape w.history number lane.now progress.now (w.books number) }
        ensures { (w : World) → IsDraft self.now w (option_copied made.entry)
            → IsLaneAt self.now.shape w.history number lane.now progress.now (w.books number)
            → IsAim result (next_aim self.now.shape number (w.books number)) }
    {
        let Some(command) = lane.script.as_slice().get(progress.done) else {
            return None;
        };
        let Some(call) = progress.call_of(command) else {
            return None;
        };
        match progress.last {
            Some(step) => next_step(&self.shape, number, &progress.pushed, call, step),
            None => self.first_step(number, progress, call, made),
        }
    }

    /// The first step of a call.
    fn first_step(
        &self,
        number: u32,
        progress: &Progress,
        call: Call,
        made: Option<&Made>,
    ) -> Option<Aim>
        requires shape { IsShape self.now.shape }
        requires pages { progress.now.own.opened ≤ self.now.shape.pages }
        ensures { (w : World) (lane : Lane) (is : calls.Call) → IsDraft self.now w (option_copied made.entry)
            → IsLaneAt self.now.shape w.history number lane progress.now (w.books number)
            → number < self.now.shape.lanes → (w.books number).steps ≡ []
            → IsCall lane.script progress.now.done (w.books number) (Some call) (Some is)
            → IsAim result (calls.next_step (caller self.now.shape number (w.books number)) is []) }
    {
        match call {
            Call::Publish { key, with_ref, .. } => {
                on_life(Kind::Publish { with_ref }, place_of(key))
            }
            Call::Get { key } | Call::Clear { key } => {
                if fits(key, &self.shape) {
                    on_life(Kind::Enter, place_of(key))
                } else {
                    None
                }
            }
            Call::Release { key } => on_life(Kind::Leave, place_of(key)),
            Call::Create => self.first_of_create(number, progress, made),
        }
    }

    /// The first step of a create: a FOLLOW where a chain is to be followed, else a TAKE where a page is opened.
    fn first_of_create(&self, number: u32, progress: &Progress, made: Option<&Made>) -> Option<Aim>
        requires shape { IsShape self.now.shape }
        requires pages { progress.now.own.opened ≤ self.now.shape.pages }
        ensures { (w : World) (lane : Lane) → IsDraft self.now w (option_copied made.entry)
            → IsLaneAt self.now.shape w.history number lane progress.now (w.books number)
            → number < self.now.shape.lanes → (w.books number).steps ≡ []
            → IsAim result (calls.next_step (caller self.now.shape number (w.books number))
            (calls.Creating (w.books number).own (w.books number).chain (w.books number).opened) []) }
    {
        if !progress.own.is_empty(&self.shape) {
            return None;
        }
        if let Some(place) = self.chained(progress.chain, made) {
            return Some(Aim {
                kind: Kind::Follow,
                word: Word::Link { place },
            });
        }
        let none_opened = progress.own.opened == 0;
        if none_opened {
            return None;
        }
        take_from(&self.shape, number, if number == 0 { 1 } else { 0 })
    }

    /// The first place of a chain that is still to be followed.
    pub(crate) fn chained(&self, chain: Chain, made: Option<&Made>) -> Option<u32>
        ensures { (places : List ℕ) → IsChained (self.now.acts.items ++ made_acts (option_copied made.entry)) chain places
            → MatchOption result (places ≡ []) (λ place. (more : List ℕ) × (places ≡ place ∷ more)
            × (chain.followed < 18446744073709551615)) }
    {
        let Some(index) = chain.collect else {
            return None;
        };
        match self.act_at(index, made) {
            Some(Act::Collect { places, .. }) => places.as_slice().get(chain.followed).copied(),
            _ => None,
        }
    }

    /// An act of the history, or the one that is about to be made. Nothing is said of an index beyond these.
    fn act_at<'a>(&'a self, index: usize, made: Option<&'a Made>) -> Option<&'a Act>
        ensures { (act : Act) → slice_get (self.now.acts.items ++ made_acts (option_copied made.entry)) index ≡ Some act
            → option_copied result ≡ Some act }
    {
        if index < self.acts.len() {
            return self.acts.get(index);
        }
        match made {
            Some(made) => made.act.as_ref(),
            None => None,
        }
    }
}

/// Whether the step is an ENTER that hit the key.
fn has_hit(key: u64, step: Step) -> bool
    ensures { MatchBool result ((step.kind ≡ kinds.Enter) × (is_hit key step.before ≡ true)) (step.kind ≡ kinds.Enter
        → is_hit key step.before ≡ false) }
{
    match step.kind {
        Kind::Enter => is_hit(key, step.before),
        _ => false,
    }
}

/// A kind of step on a place's lifecycle word.
fn on_life(kind: Kind, place: u32) -> Option<Aim>
    ensures { result ≡ Some (record { kind = kind; word = words.Life place }) }
{
    Some(Aim {
        kind,
        word: Word::Life { place },
    })
}

/// The step of a call after this one, which was its last so far.
fn next_step(shape: &Shape, lane: u32, pushed: &[u64; LANES], call: Call, step: Step) -> Option<Aim>
    requires lane { lane < MOST_LANES }
    requires place { (script : List Command) × (done : ℕ) × (b : Book) × (is : calls.Call)
        × IsCall script done b (Some call) (Some is) × (shard_of (place_of (key_in is)) < MOST_LANES) }
    requires take { (shard from : ℕ) → step.kind ≡ kinds.Take → step.word ≡ words.Stack shard from → (from < MOST_LANES)
        × (step.before ≤ SHARD_NUMBERS) }
    ensures { (script : List Command) (done : ℕ) (b : Book) (is : calls.Call) → IsCall script done b (Some call) (Some is)
        → AreSteps (caller shape.now lane b) is [] b.steps → AreFound b.steps → last_step b.steps ≡ Some step
        → ((shard : ℕ) → shard < MOST_LANES → slice_index pushed.now shard ≡ pushed_after b.steps b.pushed shard)
        → IsAim result (calls.next_step (caller shape.now lane b) is b.steps) }
{
    match call {
        Call::Publish { .. } => None,
        Call::Create => next_of_create(shape, lane, step),
        Call::Release { key } => end_step(shape, lane, pushed, place_of(key), step),
        Call::Get { key } => {
            if has_hit(key, step) {
                None
            } else {
                end_step(shape, lane, pushed, place_of(key), step)
            }
        }
        Call::Clear { key } => {
            if has_hit(key, step) {
                on_life(Kind::Mark, place_of(key))
            } else {
                end_step(shape, lane, pushed, place_of(key), step)
            }
        }
    }
}

/// The step after this one in the LEAVE, the CLAIM and the return of a place, as far as they are owed.
fn end_step(shape: &Shape, lane: u32, pushed: &[u64; LANES], place: u32, step: Step) -> Option<Aim>
    requires { shard_of place < MOST_LANES }
    ensures { (b : Book) (call : calls.Call) → AreSteps (caller shape.now lane b) call [] b.steps → AreFound b.steps
        → last_step b.steps ≡ Some step
        → slice_index pushed.now (shard_of place) ≡ pushed_after b.steps b.pushed (shard_of place)
        → place_of (key_in call) ≡ place
        → ((own chain : List ℕ) (opened : ℕ) → call ≢ calls.Creating own chain opened)
        → (step.kind ≡ kinds.Enter → is_hit (key_in call) step.before ≡ false)
        → IsAim result (calls.next_step (caller shape.now lane b) call b.steps) }
{
    match step.kind {
        Kind::Enter | Kind::Mark => on_life(Kind::Leave, place),
        Kind::Leave => {
            if owes_claim(step.before) {
                let generation = Life::of_word(step.before).generation;
                on_life(Kind::Claim { generation }, place)
            } else {
                None
            }
        }
        Kind::Claim { generation } => {
            let claimed = step.before == claimable(generation);
            if claimed && generation != shape.last_generation && shard_of(place) != lane {
                link(pushed[shard_of(place) as usize], place)
            } else {
                None
            }
        }
        Kind::Link { expected } => Some(Aim {
            kind: Kind::Push {
                expected,
                link: link_to(place),
            },
            word: Word::Stack {
                shard: shard_of(place),
                lane,
            },
        }),
        Kind::Push { expected, .. } => {
            if step.before == expected {
                None
            } else {
                link(0, place)
            }
        }
        Kind::Publish { .. } | Kind::Take | Kind::Follow => None,
    }
}

/// A LINK of a place to the expected top.
fn link(expected: u64, place: u32) -> Option<Aim>
    ensures { result ≡ Some (record { kind = kinds.Link expected; word = words.Link place }) }
{
    Some(Aim {
        kind: Kind::Link { expected },
        word: Word::Link { place },
    })
}

/// The step of a create after this one: the next TAKE where it found none, a FOLLOW where it took a chain.
fn next_of_create(shape: &Shape, lane: u32, step: Step) -> Option<Aim>
    requires lane { lane < MOST_LANES }
    requires take { (shard from : ℕ) → step.kind ≡ kinds.Take → step.word ≡ words.Stack shard from → (from < MOST_LANES)
        × (step.before ≤ SHARD_NUMBERS) }
    ensures { (b : Book) (own chain : List ℕ) (opened : ℕ) → AreSteps (caller shape.now lane b) (calls.Creating own chain opened) [] b.steps
        → last_step b.steps ≡ Some step
        → IsAim result (calls.next_step (caller shape.now lane b) (calls.Creating own chain opened) b.steps) }
{
    let (Kind::Take, Word::Stack { lane: from, .. }) = (step.kind, step.word) else {
        return None;
    };
    if step.before == 0 {
        let next = if from + 1 == lane { from + 2 } else { from + 1 };
        return take_from(shape, lane, next);
    }
    Some(Aim {
        kind: Kind::Follow,
        word: Word::Link {
            place: linked_place(lane, step.before),
        },
    })
}

/// A TAKE of the places that a lane returned, where there is such a lane.
fn take_from(shape: &Shape, lane: u32, from: u32) -> Option<Aim>
    ensures { IsAim result (if nat_lt from shape.now.lanes then Some (calls.aim kinds.Take (words.Stack lane from)) else None) }
{
    if from < shape.lanes {
        Some(Aim {
            kind: Kind::Take,
            word: Word::Stack {
                shard: lane,
                lane: from,
            },
        })
    } else {
        None
    }
}
