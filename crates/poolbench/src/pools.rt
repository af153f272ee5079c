//! The pool, and what a thread does with a lane of it.
ghost use Rattle.std.specs.Prelude.{◌≡◌, IfOk};
ghost use Rattle.shardpool.specs.Lanes.{Owns, SameLane, refs};
ghost use Rattle.shardpool.specs.Opened.{AreFirstLanes};

use keybits::Shape;
use shardpool::{Lane, OpenFault, Pool, open_wide};
use slotcell::{ByteBuf, Clear};
use std::alloc::{AllocError, Global};

/// The bytes of each object.
pub const BYTES: [u8; 64] = [7; 64];

/// How many places the shard of a lane has.
pub const PLACES: u32 = 32;

/// A lane that has no reference, and its pool.
#[derive(Drop)]
pub struct Worker<'a> {
    pool: &'a Pool<ByteBuf>,
    lane: Lane<ByteBuf>,
    ghost table: { lane.table ≡ pool.now.table },
    ghost directory: { lane.directory ≡ pool.now.directory },
    ghost shape: { lane.shape ≡ pool.now.shape },
    ghost unburdened: { refs lane ≡ 0 },
}

impl<'a> Worker<'a> {
    /// The pool, and the lane.
    pub fn into_parts(self) -> (&'a Pool<ByteBuf>, Lane<ByteBuf>)
        ensures { Owns result.0.now result.1 × (refs result.1 ≡ 0) }
    {
        let Worker { pool, lane } = self;
        (pool, lane)
    }

    /// The number of the lane.
    pub fn number(&self) -> u32 {
        self.lane.number()
    }

    /// Publishes an object. Answers its key, or none where there is no place or no memory for it.
    #[inline]
    pub fn put(&mut self) -> Option<u64> {
        put(self.pool, &mut self.lane)
    }

    /// Publishes an object for each key. 0, which is no key, stands where there is no place or no memory.
    pub fn put_all(&mut self, keys: &mut [u64]) {
        for key in keys {
            *key = self.put().unwrap_or(0);
        }
    }

    /// Gets an object, reads how long it is, and gives the reference back.
    #[inline]
    pub fn read(&mut self, key: u64) -> usize {
        let Some(reference) = self.pool.get(&mut self.lane, key) else {
            return 0;
        };
        let length = self.lane.read(&reference).len();
        self.pool.release(&mut self.lane, reference);
        length
    }

    /// Gets an object, clears it, reads how long it is, and gives the reference back.
    #[inline]
    pub fn read_last(&mut self, key: u64) -> usize {
        let Some(last) = self.pool.get(&mut self.lane, key) else {
            return 0;
        };
        self.pool.clear(&mut self.lane, key);
        let length = self.lane.read(&last).len();
        self.pool.release(&mut self.lane, last);
        length
    }

    /// Clears an object.
    #[inline]
    pub fn take(&mut self, key: u64) -> bool {
        self.pool.clear(&mut self.lane, key)
    }
}

/// Publishes an object. A filling whose bytes find no memory is left.
#[inline]
pub fn put(pool: &Pool<ByteBuf>, lane: &mut Lane<ByteBuf>) -> Option<u64>
    requires owns { Owns pool.now lane.old }
    ensures same { SameLane lane.old lane.new }
    ensures refs { refs lane.new ≡ refs lane.old }
{
    let Ok(mut filling) = pool.create(lane) else {
        return None;
    };
    if filling.value_mut().append(&BYTES).is_err() {
        filling.forget();
        return None;
    }
    Some(pool.publish(lane, filling))
}

/// A pool of so many lanes, each with 32 places in its shard.
pub fn open_pool(
    alloc: Global,
    lanes: u32,
) -> Result<(Pool<ByteBuf>, Vec<Lane<ByteBuf>>), OpenFault>
    ensures { IfOk result (λ made. AreFirstLanes made.0 made.1.items) }
{
    let shape = Shape {
        lanes,
        first_page: PLACES,
        pages: 1,
        last_generation: u32::MAX,
        tag: 0,
        guests: 0,
    };
    open_wide(alloc, shape)
}

/// The lanes of a pool, each with the pool.
pub fn workers<'a>(
    alloc: Global,
    pool: &'a Pool<ByteBuf>,
    lanes: Vec<Lane<ByteBuf>>,
) -> Result<Vec<Worker<'a>>, AllocError>
    requires { AreFirstLanes pool.now lanes.items }
{
    let mut all = Vec::with_capacity(alloc, lanes.len())?;
    for lane in lanes {
        all.push(Worker { pool, lane })?;
    }
    Ok(all)
}

/// Each worker publishes an object. Answers their keys.
pub fn put_each(alloc: Global, workers: &mut [Worker]) -> Result<Vec<u64>, AllocError> {
    let mut keys = Vec::new(alloc);
    for worker in workers {
        keys.push(worker.put().unwrap_or(0))?;
    }
    Ok(keys)
}
