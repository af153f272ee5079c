//! Keys that go from one lane to another, through words.
use std::alloc::{AllocError, Global};
use std::sync::Wait;
use std::sync::atomic::{AtomicU64, Ordering};
use std::thread;

/// How many keys may be under way from one lane to another.
const UNDER_WAY: u32 = 16;

/// What a word says where no key is under way in it.
const FREE: u64 = u64::MAX;

/// Words through which keys go from each lane of an even number to the next.
#[derive(Drop)]
pub struct Ways {
    words: Vec<AtomicU64>,
}

impl Ways {
    /// Free words for so many lanes.
    pub fn new(alloc: Global, lanes: u32) -> Result<Ways, AllocError> {
        let mut words = Vec::new(alloc);
        for _ in 0..lanes.saturating_mul(UNDER_WAY) {
            words.push(AtomicU64::new(FREE))?;
        }
        Ok(Ways { words })
    }

    /// The word for the key of a round that goes to or from this lane.
    #[inline]
    fn word(&self, lane: u32, round: u64) -> Option<&AtomicU64> {
        let first = u64::from(lane / 2) * u64::from(UNDER_WAY);
        self.words
            .get((first + round % u64::from(UNDER_WAY)) as usize)
    }

    /// Hands on the key of a round, when the word for it is free.
    #[inline]
    pub fn send<R: Wait>(&self, rt: &R, lane: u32, round: u64, key: u64) {
        let Some(word) = self.word(lane, round) else {
            return;
        };
        for _ in rt.forever() {
            if word.load(Ordering::SeqCst) == FREE {
                break;
            }
            thread::yield_now();
        }
        word.store(key, Ordering::SeqCst);
    }

    /// The key of a round, when it is there. 0, which is no key, where there is no word for it.
    #[inline]
    pub fn receive<R: Wait>(&self, rt: &R, lane: u32, round: u64) -> u64 {
        let Some(word) = self.word(lane, round) else {
            return 0;
        };
        for _ in rt.forever() {
            if word.load(Ordering::SeqCst) != FREE {
                break;
            }
            thread::yield_now();
        }
        word.swap(FREE, Ordering::SeqCst)
    }
}
