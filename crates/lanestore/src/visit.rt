//! A lane of a store that a caller has for a while.
use crate::keeper::Keeper;
use crate::lent::Lent;
use shardpool::{CreateFault, Filling, MOST_REFERENCES, Note, Pool};
use slotcell::Clear;
use std::mem;

/// A lane that nobody else has meanwhile, with the fillings that it keeps for its callers. It must be given back, by
/// `Store::leave`.
pub struct Visit<T: Clear> {
    pub(crate) keeper: Box<Keeper<T>>,
}

impl<T: Clear + Drop> Visit<T> {
    ghost use Rattle.std.specs.Prelude.{◌≡◌, ◌≤◌, ◌<◌, ◌↔◌, ℕ, None, length, IsTrue, IsNone, IfOk, IfSome, MatchOption, option_map};
    ghost use Rattle.std.specs.Fn.{FnOnceReturnsAt, FnOnceReturnsAtMut};
    ghost use mathlib.Core.List.{IsPrefix};
    ghost use Rattle.seqpool.specs.Histories.{PublishedAt};
    ghost use Rattle.steplaws.specs.Facts.{most_references};
    ghost use Rattle.shardpool.specs.Tokens.{FillingOf};
    ghost use Rattle.shardpool.specs.Lanes.{Owns, Issued, Made, holds, refs};
    ghost use Rattle.shardpool.specs.AfterCalls.{AfterCreate, AfterPublish, AfterGet, AfterReleaseKey, AfterClear};
    ghost use Rattle.poolhandle.specs.Looks.{Looks};
    ghost use Rattle.lanestore.specs.declared.kept.TheConstants.{MOST_FILLINGS};
    ghost use Rattle.lanestore.specs.Fillings.{HaveNot, Turn};
    ghost use Rattle.lanestore.specs.Visits.{lane_of, kept_of, keeper_of, Hears, Tells, Lends, Creates, Publishes, Downgrades, Puts};

    /// The number of the lane.
    pub fn number(&self) -> u32
        ensures { result ≡ (lane_of self.now).number }
    {
        self.keeper.lane.lane().number()
    }

    /// Whether the lane can have a reference more.
    pub fn has_room(&self) -> bool
        ensures { IsTrue result ↔ (refs (lane_of self.now) < most_references) }
    {
        self.keeper.lane.lane().refs() < MOST_REFERENCES
    }

    /// Whether the lane can keep a filling more.
    pub fn can_create(&self) -> bool
        ensures { IsTrue result ↔ (length (kept_of self.now) < MOST_FILLINGS) }
    {
        self.keeper.fillings.has_room()
    }

    /// Takes in a note, as `Pool::hear`: of another thread, beside the one with which the lane was taken.
    pub fn hear(&mut self, pool: &Pool<T>, note: Note<T>)
        requires owns { Owns pool.now (lane_of self.old) }
        requires note { Issued pool.now note }
        ensures hears { Hears pool.now note (lane_of self.old) (lane_of self.new) }
        ensures kept { kept_of self.new ≡ kept_of self.old }
    {
        self.keeper.lane.hear(pool, note);
    }

    /// A note of all that the lane has seen, as `Pool::tell`: for another thread, while the lane is had.
    pub fn tell(&mut self, pool: &Pool<T>) -> Note<T>
        requires { Owns pool.now (lane_of self.old) }
        ensures tells { Tells pool.now (lane_of self.old) (lane_of self.new) result }
        ensures kept { kept_of self.new ≡ kept_of self.old }
    {
        self.keeper.lane.tell(pool)
    }

    /// A reference to the object of a key, where it is published and not cleared: the lane keeps it for the caller.
    pub fn get(&mut self, pool: &Pool<T>, key: u64) -> Option<Lent>
        requires owns { Owns pool.now (lane_of self.old) }
        requires room { refs (lane_of self.old) < most_references }
        ensures lends { Lends T pool.now key (lane_of self.old) (lane_of self.new) result }
        ensures kept { kept_of self.new ≡ kept_of self.old }
    {
        let lane = self.number();
        self.keeper.lane.get_at(pool, key)?;
        Some(Lent { lane, key })
    }

    /// The object of a key to which the lane has a reference. None where it has none.
    pub fn read(&self, key: u64) -> Option<&T>
        ensures some { IfSome result (λ object. (j : ℕ) × PublishedAt (lane_of self.now).book.seen j key (T.content object.now)) }
        ensures none { IsNone result → holds (lane_of self.now) key ≡ 0 }
    {
        let reference = self.keeper.lane.reference(key)?;
        let object = self.keeper.lane.lane().read(&reference);
        reference.forget();
        Some(object)
    }

    /// Calls `look` on the object of a key to which the lane has a reference. None, and `look` isn't called, where it has
    /// none.
    pub fn with<A, F: FnOnce(&T) -> A>(&self, key: u64, look: F) -> Option<A>
        requires { F.IsAlwaysCallable look }
        ensures { MatchOption result (holds (lane_of self.now) key ≡ 0) (λ answer. (object : T) × (j : ℕ)
            × PublishedAt (lane_of self.now).book.seen j key (T.content object) × FnOnceReturnsAt F.FnOnce look object answer) }
    {
        let object = self.read(key)?;
        Some(look(object))
    }

    /// Gets a key, calls `look` on its object, and gives the reference back. None, and `look` isn't called, where the get
    /// finds none.
    #[inline(always)]
    pub fn look<A, F: FnOnce(&T) -> A>(&mut self, pool: &Pool<T>, key: u64, look: F) -> Option<A>
        requires owns { Owns pool.now (lane_of self.old) }
        requires room { refs (lane_of self.old) < most_references }
        requires may { F.IsAlwaysCallable look }
        ensures looks { MatchOption result (AfterGet T pool.now key (lane_of self.old) (lane_of self.new) None)
            (λ answer. Looks T.content pool.now key (λ object. FnOnceReturnsAt F.FnOnce look object answer)
            (lane_of self.old) (lane_of self.new)) }
        ensures kept { kept_of self.new ≡ kept_of self.old }
    {
        self.keeper.lane.look(pool, key, look)
    }

    /// Gives back a reference to a key: whether the lane had one.
    pub fn release(&mut self, pool: &Pool<T>, key: u64) -> bool
        requires owns { Owns pool.now (lane_of self.old) }
        ensures releases { AfterReleaseKey T pool.now key (lane_of self.old) (lane_of self.new) result }
        ensures kept { kept_of self.new ≡ kept_of self.old }
    {
        self.keeper.lane.release_key(pool, key)
    }

    /// As `Pool::clear`.
    pub fn clear(&mut self, pool: &Pool<T>, key: u64) -> bool
        requires owns { Owns pool.now (lane_of self.old) }
        ensures clears { AfterClear T pool.now key (lane_of self.old) (lane_of self.new) result }
        ensures kept { kept_of self.new ≡ kept_of self.old }
    {
        self.keeper.lane.clear(pool, key)
    }

    /// As `Pool::create`: a place to be filled, which the lane keeps for its callers under the key that is answered. A
    /// later visit of this lane, by any thread, may write and publish it.
    pub fn create(&mut self, pool: &Pool<T>) -> Result<u64, CreateFault>
        requires owns { Owns pool.now (lane_of self.old) }
        requires room { length (kept_of self.old) < MOST_FILLINGS }
        ensures { Creates T.content T.room pool.now (keeper_of self.old) (keeper_of self.new) result }
    {
        let filling = self.keeper.lane.create(pool)?;
        let key = filling.key();
        self.keeper.fillings.keep(filling);
        Ok(key)
    }

    /// Calls `change` on the object of the filling that the lane keeps under a key. None, and `change` isn't called, where
    /// it keeps none.
    pub fn write<A, F: FnOnce(&mut T) -> A>(&mut self, key: u64, change: F) -> Option<A>
        requires { F.IsAlwaysCallable change }
        ensures lane { lane_of self.new ≡ lane_of self.old }
        ensures writes { MatchOption result (HaveNot key (kept_of self.old) × (kept_of self.new ≡ kept_of self.old))
            (λ answer. (filling : FillingOf T) × (object : T) × (filling.key ≡ key)
            × FnOnceReturnsAtMut F.FnOnce change filling.object answer object
            × Turn filling (record filling { object = object }) (kept_of self.old) (kept_of self.new)) }
    {
        let mut filling = self.keeper.fillings.take(key)?;
        let answer = change(filling.value_mut());
        self.keeper.fillings.keep(filling);
        Some(answer)
    }

    /// As `Pool::publish`, of the filling that the lane keeps under a key: whether it keeps one.
    pub fn publish(&mut self, pool: &Pool<T>, key: u64) -> bool
        requires owns { Owns pool.now (lane_of self.old) }
        ensures { Publishes T.content T.room pool.now key (keeper_of self.old) (keeper_of self.new) result }
    {
        let Some(filling) = self.keeper.fillings.take(key) else {
            return false;
        };
        self.keeper.lane.publish(pool, filling);
        true
    }

    /// As `Pool::downgrade`, of the filling that the lane keeps under a key: the lane keeps the reference for the caller.
    /// None where it keeps no such filling.
    pub fn downgrade(&mut self, pool: &Pool<T>, key: u64) -> Option<Lent>
        requires owns { Owns pool.now (lane_of self.old) }
        requires room { refs (lane_of self.old) < most_references }
        ensures { Downgrades T.content T.room pool.now key (keeper_of self.old) (keeper_of self.new) result }
    {
        let lane = self.number();
        let filling = self.keeper.fillings.take(key)?;
        let reference = self.keeper.lane.downgrade(pool, filling);
        reference.forget();
        Some(Lent { lane, key })
    }

    /// As `Pool::create`: a place that the caller fills while he has the lane, which doesn't keep it.
    pub fn begin(&mut self, pool: &Pool<T>) -> Result<Filling<T>, CreateFault>
        requires owns { Owns pool.now (lane_of self.old) }
        ensures creates { AfterCreate T.content T.room pool.now (lane_of self.old) (lane_of self.new) result }
        ensures apart { IfOk result (λ filling. HaveNot filling.key (kept_of self.old)) }
        ensures kept { kept_of self.new ≡ kept_of self.old }
    {
        self.keeper.lane.create(pool)
    }

    /// As `Pool::publish`, of a filling that the lane doesn't keep.
    pub fn finish(&mut self, pool: &Pool<T>, filling: Filling<T>) -> u64
        requires owns { Owns pool.now (lane_of self.old) }
        requires made { Made (lane_of self.old) filling }
        requires apart { HaveNot filling.key (kept_of self.old) }
        ensures publishes { AfterPublish T.content T.room pool.now filling (lane_of self.old) (lane_of self.new) result }
        ensures kept { kept_of self.new ≡ kept_of self.old }
    {
        self.keeper.lane.publish(pool, filling)
    }

    /// Publishes this object in a place of its own: a create and a publish. Answers the key. The object of the place,
    /// which is empty, comes back for it.
    ///
    /// # Errors
    ///
    /// As `Pool::create`. Nothing is published then, and the object stays.
    pub fn put(&mut self, pool: &Pool<T>, object: &mut T) -> Result<u64, CreateFault>
        requires owns { Owns pool.now (lane_of self.old) }
        ensures puts { Puts T.content T.room pool.now object.old object.new (lane_of self.old) (lane_of self.new) result }
        ensures kept { kept_of self.new ≡ kept_of self.old }
    {
        let mut filling = self.begin(pool)?;
        mem::swap(filling.value_mut(), object);
        Ok(self.finish(pool, filling))
    }
}
