//! Threads that call one pool, each with a lane of its own.
ghost use Rattle.std.specs.Prelude.{◌≡◌};
ghost use Rattle.guards.specs.Here.{HoldNothing};

use crate::test_calls::{NO_PLACE, close_all, open_of, same, shape_of};
use guards::{Job, Opened, PoolName, Seat, run_lanes};
use shardpool::Census;
use slotcell::ByteBuf;
use std::alloc::Global;
use std::marker::Brand;
use std::process::Abort;
use std::sync::Wait;
use std::sync::atomic::{AtomicU64, Ordering};
use std::thread::Threads;

/// How many threads there are, each with a lane.
const THREADS: usize = 4;

/// How often each passes a key on.
const PASSES: u32 = 3_000_000;

/// How often each does something with the keys over which all fight.
const TURNS: u32 = 200_000;

/// How many such keys there are.
const KEYS: usize = 8;

/// Words for the keys that lanes pass round: each lane leaves keys in its own.
type Ring = [AtomicU64; THREADS];

/// Keys over which threads fight, and how many were published and marked.
#[derive(Drop)]
struct Brawl {
    keys: [AtomicU64; KEYS],
    published: AtomicU64,
    marked: AtomicU64,
}

/// An object is published with the bytes of its key, the lowest first. Answers the key, or 0 where there is no place.
fn publish_key<N: PoolName>(seat: &mut Seat<'_, N, ByteBuf>) -> u64
    ensures { seat.new.lane.number ≡ seat.old.lane.number }
{
    let Ok(mut filling) = seat.create() else {
        return 0;
    };
    let key = filling.key();
    let _ = filling.value_mut().append(key.to_le_bytes().as_slice());
    seat.publish(filling)
}

/// Whether a key shows its own bytes. None where it isn't found.
fn shows_key<N: PoolName>(seat: &mut Seat<'_, N, ByteBuf>, key: u64) -> Option<bool>
    ensures { seat.new.lane.number ≡ seat.old.lane.number }
{
    seat.with(
        key,
        |bytes: &ByteBuf| bytes.as_slice() == key.to_le_bytes().as_slice(),
    )
}

/// A key that no other lane clears is cleared: whether it is found before, with its bytes, and not behind.
fn take<N: PoolName>(seat: &mut Seat<'_, N, ByteBuf>, key: u64) -> bool
    ensures { seat.new.lane.number ≡ seat.old.lane.number }
{
    let shown = shows_key(seat, key);
    let marked = seat.clear(key);
    let behind = shows_key(seat, key);
    shown == Some(true) && marked && behind.is_none()
}

/// A lane leaves a key in its own word, and clears the one that still stood there; and takes the key out of another
/// lane's word, if one stands there. So each key is cleared once, by whoever took it out of its word: whether it was.
fn pass_on<N: PoolName>(seat: &mut Seat<'_, N, ByteBuf>, own: &AtomicU64, other: &AtomicU64) -> bool
    ensures { seat.new.lane.number ≡ seat.old.lane.number }
{
    let key = publish_key(seat);
    let left = own.swap(key, Ordering::SeqCst);
    let cleared = left == 0 || seat.clear(left);
    let passed = other.swap(0, Ordering::SeqCst);
    let taken = passed == 0 || take(seat, passed);
    key != 0 && cleared && taken
}

/// A key is cleared that anybody may clear, and may have cleared.
fn clear_any<N: PoolName>(seat: &mut Seat<'_, N, ByteBuf>, key: u64, brawl: &Brawl)
    ensures { seat.new.lane.number ≡ seat.old.lane.number }
{
    let marked = seat.clear(key);
    brawl.marked.fetch_add(u64::from(marked), Ordering::SeqCst);
}

/// A key is published in the place of another, which is cleared. Whether there was a place.
fn replace<N: PoolName>(seat: &mut Seat<'_, N, ByteBuf>, word: &AtomicU64, brawl: &Brawl) -> bool
    ensures { seat.new.lane.number ≡ seat.old.lane.number }
{
    let key = publish_key(seat);
    brawl.published.fetch_add(1, Ordering::SeqCst);
    clear_any(seat, word.swap(key, Ordering::SeqCst), brawl);
    key != 0
}

/// One thing of three is done with a key: whether all was well.
fn fight<N: PoolName>(seat: &mut Seat<'_, N, ByteBuf>, random: u64, brawl: &Brawl) -> bool
    ensures { seat.new.lane.number ≡ seat.old.lane.number }
{
    let word = &brawl.keys[(random >> 32) as usize % KEYS];
    let key = word.load(Ordering::SeqCst);
    match random >> 8 & 3 {
        0 => replace(seat, word, brawl),
        1 => {
            clear_any(seat, key, brawl);
            true
        }
        _ => shows_key(seat, key) != Some(false),
    }
}

/// The next number of a linear congruential generator.
fn next(random: u64) -> u64 {
    random
        .wrapping_mul(6364136223846793005)
        .wrapping_add(1442695040888963407)
}

/// What a lane does in a thread of its own: whether each turn went well.
#[derive(Clone, Copy)]
enum Play<'a> {
    Pass(&'a Ring),
    Fight(&'a Brawl),
    Meet(&'a Ring),
    Miss,
}

/// Passes keys on.
fn pass_all<N: PoolName>(seat: &mut Seat<'_, N, ByteBuf>, ring: &Ring) -> bool
    ensures { seat.new.lane.number ≡ seat.old.lane.number }
{
    let number = seat.number() as usize % THREADS;
    for _ in 0..PASSES {
        if !pass_on(seat, &ring[number], &ring[(number + 1) % THREADS]) {
            return false;
        }
    }
    true
}

/// Fights over keys.
fn fight_all<N: PoolName>(seat: &mut Seat<'_, N, ByteBuf>, brawl: &Brawl) -> bool
    ensures { seat.new.lane.number ≡ seat.old.lane.number }
{
    let mut random = next(u64::from(seat.number()));
    for _ in 0..TURNS {
        random = next(random);
        if !fight(seat, random, brawl) {
            return false;
        }
    }
    true
}

/// Whether a word isn't 0, which is read until it isn't, but no more than so many times.
fn is_set(word: &AtomicU64) -> bool {
    for _ in 0..4_000_000_000u32 {
        if word.load(Ordering::SeqCst) != 0 {
            return true;
        }
    }
    false
}

/// Whether the jobs of all lanes run at the same time: each says so in its lane's word, and waits for the others.
fn meet_all<N: PoolName>(seat: &mut Seat<'_, N, ByteBuf>, words: &Ring) -> bool
    ensures { seat.new.lane.number ≡ seat.old.lane.number }
{
    if let Some(own) = words.get(seat.number() as usize) {
        own.store(1, Ordering::SeqCst);
    }
    words.iter().all(|word| is_set(word))
}

/// Whether a key that was never published isn't found, and no closure runs for it.
fn misses<N: PoolName>(seat: &mut Seat<'_, N, ByteBuf>) -> bool
    ensures { seat.new.lane.number ≡ seat.old.lane.number }
{
    let runs = AtomicU64::new(0);
    let found = seat.with(16777216, |_: &ByteBuf| runs.fetch_add(1, Ordering::SeqCst));
    found.is_none() && runs.load(Ordering::SeqCst) == 0
}

impl<N: PoolName> Job<N, ByteBuf> for Play<'_> {
    type Answer = bool;

    ghost does = { λ play before after answer. Unit {0} };

    fn run<R: Threads + Wait + Sync>(self, _rt: &R, seat: &mut Seat<'_, N, ByteBuf>) -> bool {
        match self {
            Play::Pass(ring) => pass_all(seat, ring),
            Play::Fight(brawl) => fight_all(seat, brawl),
            Play::Meet(words) => meet_all(seat, words),
            Play::Miss => misses(seat),
        }
    }
}

/// Each lane plays in a thread of its own, and each turn goes well.
fn play_all<N: PoolName + Send, R: Threads + Wait + Abort + Sync>(
    rt: &R,
    alloc: Global,
    opened: &mut Opened<ByteBuf>,
    play: Play<'_>,
)
    requires pool { opened.old.pool ≡ N.pool }
    requires nothing { HoldNothing opened.old.lanes }
{
    let plays = vec![in alloc; play, play, play, play].expect(rt, "memory for the plays");
    let Ok(answers) = run_lanes::<N, ByteBuf, Play<'_>, R>(rt, alloc, opened, plays) else {
        panic!(rt; "all lanes are here")
    };
    let well = [true; THREADS];
    same(rt, &answers.as_slice(), &well.as_slice());
}

/// What is counted when four lanes of this shape have played.
fn census_of<R: Threads + Wait + Abort + Sync>(
    rt: &R,
    alloc: Global,
    pages: u32,
    play: Play<'_>,
) -> Census {
    let mut opened = open_of(rt, alloc, shape_of(THREADS as u32, 4, pages));
    play_all::<Brand, R>(rt, alloc, &mut opened, play);
    close_all(rt, opened)
}

/// So many keys are left, and each other place is free, or of a page that was never opened.
fn has_left<R: Abort>(rt: &R, census: Census, present: u32) {
    let Census { free, unopened, .. } = census;
    same(
        rt,
        &census,
        &Census {
            free,
            unopened,
            present,
            ..NO_PLACE
        },
    );
}

/// In how many words a key stands.
fn standing(words: &[AtomicU64]) -> u32 {
    let mut count = 0u32;
    for word in words {
        count = count.saturating_add(u32::from(word.load(Ordering::SeqCst) != 0));
    }
    count
}

#[test]
fn passes_keys_round_four_threads(rt: HostRuntime) {
    let ring = [
        AtomicU64::new(0),
        AtomicU64::new(0),
        AtomicU64::new(0),
        AtomicU64::new(0),
    ];
    let census = census_of(&rt, rt.alloc(), 1, Play::Pass(&ring));
    has_left(&rt, census, standing(&ring));
}

#[test]
fn jobs_run_one_beside_another(rt: HostRuntime) {
    let words = [
        AtomicU64::new(0),
        AtomicU64::new(0),
        AtomicU64::new(0),
        AtomicU64::new(0),
    ];
    let census = census_of(&rt, rt.alloc(), 1, Play::Meet(&words));
    has_left(&rt, census, 0);
}

#[test]
fn no_closure_runs_where_a_seat_misses(rt: HostRuntime) {
    let census = census_of(&rt, rt.alloc(), 1, Play::Miss);
    has_left(&rt, census, 0);
}

#[test]
fn each_key_is_marked_once(rt: HostRuntime) {
    let brawl = Brawl {
        keys: [
            AtomicU64::new(0),
            AtomicU64::new(0),
            AtomicU64::new(0),
            AtomicU64::new(0),
            AtomicU64::new(0),
            AtomicU64::new(0),
            AtomicU64::new(0),
            AtomicU64::new(0),
        ],
        published: AtomicU64::new(0),
        marked: AtomicU64::new(0),
    };
    let census = census_of(&rt, rt.alloc(), 2, Play::Fight(&brawl));
    let published = brawl.published.load(Ordering::SeqCst);
    let left = published.wrapping_sub(brawl.marked.load(Ordering::SeqCst));
    has_left(&rt, census, u32::try_from(left).unwrap_or(u32::MAX));
}
