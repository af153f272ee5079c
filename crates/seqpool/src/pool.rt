//! The pool of one thread, to which acts are applied.
ghost use Rattle.std.specs.Prelude.{◌≡◌, ◌≤◌, vec_len};
ghost use Rattle.keybits.specs.Shapes.{IsShape, IsNarrow, all_places};
ghost use Rattle.keybits.specs.declared.shape.TheConstants.{NARROW_LANES};
ghost use Rattle.keybits.specs.SameShapes.{IsShape-prop};
ghost use Rattle.seqpool.specs.Pool.{has};

use crate::act::Act;
use crate::contents::Bytes;
use crate::fault::{ApplyFault, Memory};
use crate::row::{Row, Standing};
use keybits::{Shape, fits, generation_of, place_of, shard_of};
use std::alloc::{AllocError, Global};

/// The pool of one thread, to which acts are applied one after another.
///
/// It keeps a row for each place of its shape, so an act costs about a look-up.
#[derive(Drop)]
pub struct SeqPool {
    alloc: Global,
    pub(crate) shape: Shape,
    rows: Vec<Row>,

    ghost checked: { IsShape shape } by { IsShape-prop shape },
    ghost narrow: { shape.lanes ≤ NARROW_LANES },
    ghost alone: { shape.guests ≡ 0 },
    ghost whole: { vec_len rows ≡ all_places shape },
}

impl SeqPool {
    ghost use Rattle.std.specs.Prelude.{◌≡◌, ◌≢◌, ℕ, Bool, List, ◌<◌, ◌↔◌, false, length, take, slice_index, IsTrue, IfOk, IfErr, OnOk, OnErr, IsErrOf, MatchOption};
    ghost use Rattle.keybits.specs.Shapes.{is_place, position_of};
    ghost use Rattle.seqpool.specs.declared.act.Act.TheVariants as acts;
    ghost use Rattle.seqpool.specs.declared.fault.ApplyFault.TheVariants as faults;
    ghost use Rattle.seqpool.specs.Pool.{with, Allowed, fresh, after, lane_of, is_current, spot, references_in, has, NoRepeats, AllHome};
    ghost use Rattle.seqpool.specs.Refusals.{Wrong, Refused, Adds};
    ghost use Rattle.seqpool.specs.Rows.{pool_in, spot_of, phase_of, with_spot, gained_spot, lost_spot, marked_spot, IsPlaceOf, IsHomeFor, Answers};

    /// The pool of a shape of the narrow limits before any act: each place is with the lane of its shard, and its next
    /// generation is 1.
    pub fn new(alloc: Global, shape: Shape) -> Result<SeqPool, Memory>
        requires { IsNarrow shape }
        ensures shape { IfOk result (λ pool. pool.shape ≡ shape) }
        ensures fresh { IfOk result (λ pool. pool_in pool ≡ fresh) }
    {
        let places = shape.all_places();
        let shard_places = shape.shard_places() as usize;
        let mut rows = Vec::with_capacity(alloc, places)?;
        for position in 0..places {
            let lane = (position / shard_places) as u32;
            rows.push(Row {
                generation: 1,
                standing: Standing::With { lane },
            })?;
        }
        Ok(SeqPool { alloc, shape, rows })
    }

    /// The row of a place.
    pub(crate) fn row(&self, place: u32) -> &Row
        requires { IsTrue (is_place self.now.shape place) }
        ensures { spot_of result.now ≡ pool_in self.now place }
    {
        &self.rows[self.shape.position(place)]
    }

    /// Writes the row of a place.
    fn put(&mut self, place: u32, generation: u32, standing: Standing)
        requires { IsTrue (is_place self.old.shape place) }
        ensures pool { pool_in self.new ≡ with_spot (pool_in self.old) place (spot generation (phase_of standing)) }
        ensures shape { self.new.shape ≡ self.old.shape }
    {
        let position = self.shape.position(place);
        self.rows[position] = Row {
            generation,
            standing,
        };
    }

    /// One reference more of the lane to the key of a place.
    fn gain(&mut self, place: u32, lane: u32) -> Result<(), AllocError>
        requires place { IsTrue (is_place self.old.shape place) }
        requires lane { lane < self.old.shape.lanes }
        ensures pool { OnOk result (pool_in self.new ≡ with_spot (pool_in self.old) place (gained_spot lane (pool_in self.old place))) }
        ensures shape { self.new.shape ≡ self.old.shape }
        ensures err { OnErr result (self.new ≡ self.old) }
    {
        let position = self.shape.position(place);
        self.rows[position].gain(lane)
    }

    /// One reference less of the lane to the key of a place, of which it has one.
    fn lose(&mut self, place: u32, lane: u32)
        requires place { IsTrue (is_place self.old.shape place) }
        requires lane { lane < self.old.shape.lanes }
        requires held { 0 < references_in (pool_in self.old place).phase lane }
        ensures pool { pool_in self.new ≡ with_spot (pool_in self.old) place (lost_spot lane (pool_in self.old place)) }
        ensures shape { self.new.shape ≡ self.old.shape }
    {
        let position = self.shape.position(place);
        self.rows[position].lose(lane);
    }

    /// The mark on the key of a place.
    fn mark(&mut self, place: u32)
        requires { IsTrue (is_place self.old.shape place) }
        ensures pool { pool_in self.new ≡ with_spot (pool_in self.old) place (marked_spot (pool_in self.old place)) }
        ensures shape { self.new.shape ≡ self.old.shape }
    {
        let position = self.shape.position(place);
        self.rows[position].mark();
    }

    /// The place of a key that is there.
    fn current(&self, key: u64) -> Option<u32>
        ensures { MatchOption result (is_current self.now.shape (pool_in self.now) key ≡ false) (λ place. IsPlaceOf self.now key place) }
    {
        if fits(key, &self.shape) && self.row(place_of(key)).generation == generation_of(key) {
            Some(place_of(key))
        } else {
            None
        }
    }

    /// The place that is with the lane, and that the key is the next one of.
    fn place_to_fill(&self, lane: u32, key: u64) -> Result<u32, ApplyFault>
        ensures ok { IfOk result (λ place. IsPlaceOf self.now key place × ((pool_in self.now place).phase ≡ with lane)) }
        ensures err { (content : List ℕ) (with_ref : Bool)
            → IfErr result (λ fault. (fault ≢ faults.Memory)
            × Wrong self.now.shape (pool_in self.now) (acts.Publish lane key content with_ref) fault) }
    {
        if !fits(key, &self.shape) {
            return Err(ApplyFault::NotWithLane);
        }
        let place = place_of(key);
        let row = self.row(place);
        if !row.is_with(lane) {
            return Err(ApplyFault::NotWithLane);
        }
        if row.generation != generation_of(key) {
            return Err(ApplyFault::WrongGeneration);
        }
        Ok(place)
    }

    fn publish(
        &mut self,
        lane: u32,
        key: u64,
        content: &Bytes,
        with_ref: bool,
    ) -> Result<(), ApplyFault>
        requires { lane < self.old.shape.lanes }
        ensures { Answers self.old (acts.Publish lane key content.now with_ref) result self.new }
    {
        let place = match self.place_to_fill(lane, key) {
            Ok(place) => place,
            Err(fault) => return Err(fault),
        };
        let content = content.copy(self.alloc)?;
        let standing = Standing::published(self.alloc, content, lane, with_ref)?;
        let generation = self.row(place).generation;
        self.put(place, generation, standing);
        Ok(())
    }

    fn get(&mut self, lane: u32, key: u64, reply: &Option<Bytes>) -> Result<(), ApplyFault>
        requires { lane < self.old.shape.lanes }
        ensures { Answers self.old (acts.Get lane key reply.now) result self.new }
    {
        match (self.current(key), reply) {
            (None, None) => Ok(()),
            (None, Some(_)) => Err(ApplyFault::WrongReply),
            (Some(place), None) => {
                if self.row(place).is_unmarked() {
                    return Err(ApplyFault::WrongReply);
                }
                Ok(())
            }
            (Some(place), Some(content)) => {
                if !self.row(place).shows(content) {
                    return Err(ApplyFault::WrongReply);
                }
                self.gain(place, lane)?;
                Ok(())
            }
        }
    }

    fn release(&mut self, lane: u32, key: u64) -> Result<(), ApplyFault>
        requires { lane < self.old.shape.lanes }
        ensures { Answers self.old (acts.Release lane key) result self.new }
    {
        match self.current(key) {
            None => Err(ApplyFault::NotHeld),
            Some(place) => {
                if self.row(place).references(lane) == 0 {
                    return Err(ApplyFault::NotHeld);
                }
                self.lose(place, lane);
                Ok(())
            }
        }
    }

    fn clear(&mut self, lane: u32, key: u64, reply: bool) -> Result<(), ApplyFault>
        requires { lane < self.old.shape.lanes }
        ensures { Answers self.old (acts.Clear lane key reply) result self.new }
    {
        match self.current(key) {
            Some(place) => {
                if self.row(place).is_unmarked() != reply {
                    return Err(ApplyFault::WrongReply);
                }
                if reply {
                    self.mark(place);
                }
                Ok(())
            }
            None => {
                if reply {
                    return Err(ApplyFault::WrongReply);
                }
                Ok(())
            }
        }
    }

    fn reclaim(&mut self, lane: u32, key: u64) -> Result<(), ApplyFault>
        requires { lane < self.old.shape.lanes }
        ensures { Answers self.old (acts.Reclaim lane key) result self.new }
    {
        match self.current(key) {
            None => Err(ApplyFault::NotMarked),
            Some(place) => {
                let row = self.row(place);
                if !row.is_marked() {
                    return Err(ApplyFault::NotMarked);
                }
                if row.is_held() {
                    return Err(ApplyFault::StillHeld);
                }
                let generation = row.generation;
                if generation == self.shape.last_generation {
                    self.put(place, generation, Standing::Retired);
                } else {
                    self.put(place, generation + 1, Standing::With { lane });
                }
                Ok(())
            }
        }
    }

    fn home(&mut self, lane: u32, place: u32) -> Result<(), ApplyFault>
        requires { lane < self.old.shape.lanes }
        ensures { Answers self.old (acts.Home lane place) result self.new }
    {
        if !self.shape.is_place(place) || shard_of(place) == lane {
            return Err(ApplyFault::NotWithLane);
        }
        let row = self.row(place);
        if !row.is_with(lane) {
            return Err(ApplyFault::NotWithLane);
        }
        let generation = row.generation;
        self.put(place, generation, Standing::Home);
        Ok(())
    }

    /// Whether a place is home and of the lane's shard.
    fn is_home_for(&self, lane: u32, place: u32) -> bool
        ensures { IsTrue result ↔ IsHomeFor self.now lane place }
    {
        self.shape.is_place(place) && shard_of(place) == lane && self.row(place).is_home()
    }

    /// Whether one of the places is home, of the lane's shard, and not named before.
    fn may_take(&self, lane: u32, places: &[u32], i: usize) -> bool
        requires { i < length places.now }
        ensures { IsTrue result ↔ (IsHomeFor self.now lane (slice_index places.now i)
            × (has (take i places.now) (slice_index places.now i) ≡ false)) }
    {
        self.is_home_for(lane, places[i]) && !is_among(places[i], &places[..i])
    }

    /// Whether all places are home and of the lane's shard, and none is named twice.
    fn are_home_for(&self, lane: u32, places: &[u32]) -> bool
        ensures { IsTrue result ↔ (NoRepeats places.now × AllHome self.now.shape (pool_in self.now) lane places.now) }
    {
        for i in 0..places.len() {
            if !self.may_take(lane, places, i) {
                return false;
            }
        }
        true
    }

    fn collect(&mut self, lane: u32, places: &[u32]) -> Result<(), ApplyFault>
        requires { lane < self.old.shape.lanes }
        ensures { Answers self.old (acts.Collect lane places.now) result self.new }
    {
        if places.is_empty() || !self.are_home_for(lane, places) {
            return Err(ApplyFault::NotHome);
        }
        for place in places {
            let generation = self.row(*place).generation;
            self.put(*place, generation, Standing::With { lane });
        }
        Ok(())
    }

    /// Makes an act, at the cost of about a look-up.
    ///
    /// The act is refused where there is no such lane, and then by the first of these that fits it. A publish: the
    /// place isn't with the lane or the key is outside the shape (`NotWithLane`); the place's next generation isn't the
    /// key's (`WrongGeneration`). A get or a clear: the reply isn't that of the pool (`WrongReply`). A release: the
    /// lane has no reference to the key (`NotHeld`). A reclaim: the key isn't in the pool or isn't marked
    /// (`NotMarked`); a lane has a reference to it (`StillHeld`). A return home: the place isn't with the lane, or is
    /// of its own shard (`NotWithLane`). A collect: there are no places, or one isn't home, isn't of the lane's shard
    /// or came before (`NotHome`). `Memory` comes where a content, or one more reference, can't be kept. After any
    /// fault the pool is as it was before.
    pub fn apply(&mut self, act: &Act) -> Result<(), ApplyFault>
        ensures ok { OnOk result ((lane_of act.now < self.old.shape.lanes) × Allowed self.old.shape (pool_in self.old) act.now) }
        ensures pool { OnOk result (pool_in self.new ≡ after self.old.shape act.now (pool_in self.old)) }
        ensures shape { self.new.shape ≡ self.old.shape }
        ensures refused { IfErr result (λ fault. fault ≢ faults.Memory → Refused self.old.shape (pool_in self.old) act.now fault) }
        ensures memory { IsErrOf result faults.Memory
            → (lane_of act.now < self.old.shape.lanes) × Allowed self.old.shape (pool_in self.old) act.now × Adds act.now }
        ensures err { OnErr result (self.new ≡ self.old) }
    {
        if act.lane() >= self.shape.lanes {
            return Err(ApplyFault::NotWithLane);
        }
        self.answer(act)
    }

    /// Makes an act of a lane of the shape.
    fn answer(&mut self, act: &Act) -> Result<(), ApplyFault>
        requires { lane_of act.now < self.old.shape.lanes }
        ensures { Answers self.old act.now result self.new }
    {
        match act {
            Act::Publish {
                lane,
                key,
                content,
                with_ref,
            } => self.publish(*lane, *key, content, *with_ref),
            Act::Get { lane, key, reply } => self.get(*lane, *key, reply),
            Act::Release { lane, key } => self.release(*lane, *key),
            Act::Clear { lane, key, reply } => self.clear(*lane, *key, *reply),
            Act::Reclaim { lane, key } => self.reclaim(*lane, *key),
            Act::Home { lane, place } => self.home(*lane, *place),
            Act::Collect { lane, places } => self.collect(*lane, places.as_slice()),
        }
    }
}

/// Whether a place is among some others.
fn is_among(place: u32, places: &[u32]) -> bool
    ensures { result ≡ has places.now place }
{
    places.contains(&place)
}
