//! What a thread of a foreign program has: its lane, the share of the pool, and the places that the lane fills.
ghost use Rattle.std.specs.Prelude.{◌≡◌, ◌≤◌, List, [], ◌∷◌};
ghost use Rattle.std.specs.Arc.{arc_value};
ghost use Rattle.shardpool.specs.Lanes.{Owns};
ghost use Rattle.poolhandle.specs.Filled.{AreMade};

use crate::counting_lane::CountingLane;
use crate::fillings::Fillings;
use crate::kept::Kept;
use crate::refusal::Refusal;
use crate::shared::Shared;
use shardpool::{CreateFault, Filling, Lane, MOST_REFERENCES};
use slotcell::ByteBuf;
use std::sync::Arc;

/// A lane, with its share of the pool and the places that it fills.
#[derive(Drop)]
pub struct Handle {
    pub shared: Arc<Shared>,
    pub lane: Box<CountingLane<ByteBuf>>,
    pub fillings: Fillings,
    /// How many lanes were joined to this one.
    pub joined: u32,
    /// Of lane 0, a row with room for all lanes, so that a close takes no memory.
    pub row: Vec<Lane<ByteBuf>>,
    ghost owned: { Owns (arc_value shared).pool lane.value },
    ghost made: { AreMade lane.value fillings.list.items },
    ghost empty: { row.items ≡ [] },
}

/// How many numbers a handle tells of its pool and itself.
pub const NUMBERS: usize = 9;

impl Handle {
    ghost use Rattle.std.specs.Prelude.{◌≡◌, ◌<◌, ◌≤◌, ℕ, Ok, Err, IfOk, IfErr, MatchResult};
    ghost use Rattle.keybits.specs.Keys.{place_of};
    ghost use Rattle.poolsteps.specs.Layout.{slot_start};
    ghost use Rattle.shardpool.specs.Lanes.{holds};
    ghost use Rattle.poolhandle.specs.declared.refusal.Refusal.TheVariants.{NoReference};
    ghost use Rattle.poolhandle.specs.Calls.{lane_of, filled, numbers_of, Stays, Creates, Appends, Rooms, Wrote, Publishes, Downgrades, Leaves, Puts, GivesUp, Got, NotGot, AreLent, Releases, Clears};
    ghost use Rattle.shardpool.specs.Lanes.{Made};
    ghost use Rattle.poolhandle.specs.Filled.{HaveNot};

    /// Takes a place to be filled. Answers the key under which it will be published.
    pub fn create(&mut self) -> Result<u64, Refusal>
        ensures { Creates self.old self.new result }
    {
        if self.fillings.is_full() {
            return Err(Refusal::Fillings);
        }
        match self.lane.create(&self.shared.pool) {
            Ok(filling) => {
                let key = filling.key();
                self.fillings.keep(Kept::new(filling));
                Ok(key)
            }
            Err(CreateFault::Full) => Err(Refusal::Full),
            Err(CreateFault::Memory) => Err(Refusal::Memory),
        }
    }

    /// Appends to a filling.
    pub fn append(&mut self, key: u64, bytes: &[u8]) -> Result<(), Refusal>
        ensures { Appends key bytes.now self.old self.new result }
    {
        let Some(index) = self.fillings.find(key) else {
            return Err(Refusal::NoFilling);
        };
        if self.fillings.append(index, bytes) {
            Ok(())
        } else {
            Err(Refusal::Memory)
        }
    }

    /// Gives room for so many bytes behind the content of a filling. They are zeros, and the program may write them
    /// until its next call on the filling. Answers where they begin, if there are any.
    pub fn room(&mut self, key: u64, count: usize) -> Result<*mut u8, Refusal>
        ensures ok { IfOk result (λ at. Rooms key count self.old self.new (Ok tt)) }
        ensures err { IfErr result (λ refusal. Rooms key count self.old self.new (Err refusal)) }
    {
        let Some(index) = self.fillings.find(key) else {
            return Err(Refusal::NoFilling);
        };
        if !self.fillings.grow(index, count) {
            return Err(Refusal::Memory);
        }
        Ok(self.fillings.room_address(index))
    }

    /// The first so many bytes of the room are content, and the others are gone.
    pub fn wrote(&mut self, key: u64, count: usize) -> Result<(), Refusal>
        ensures { Wrote key count self.old self.new result }
    {
        let Some(index) = self.fillings.find(key) else {
            return Err(Refusal::NoFilling);
        };
        if self.fillings.wrote(index, count) {
            Ok(())
        } else {
            Err(Refusal::Room)
        }
    }

    /// Publishes the content of a filling.
    pub fn publish(&mut self, key: u64) -> Result<(), Refusal>
        ensures { Publishes key self.old self.new result }
    {
        let Some(index) = self.fillings.find(key) else {
            return Err(Refusal::NoFilling);
        };
        let filling = self.fillings.take(index).into_content();
        self.lane.publish(&self.shared.pool, filling);
        Ok(())
    }

    /// Publishes the content of a filling. The lane then has a reference to it.
    pub fn downgrade(&mut self, key: u64) -> Result<(), Refusal>
        ensures { Downgrades key self.old self.new result }
    {
        let Some(index) = self.fillings.find(key) else {
            return Err(Refusal::NoFilling);
        };
        if self.lane.lane().refs() >= MOST_REFERENCES {
            return Err(Refusal::References);
        }
        let filling = self.fillings.take(index).into_content();
        let reference = self.lane.downgrade(&self.shared.pool, filling);
        reference.forget();
        Ok(())
    }

    /// A filling ends unpublished. Its place stays filling until the pool is closed.
    pub fn leave(&mut self, key: u64) -> Result<(), Refusal>
        ensures { Leaves key self.old self.new result }
    {
        let Some(index) = self.fillings.find(key) else {
            return Err(Refusal::NoFilling);
        };
        let filling = self.fillings.take(index).into_content();
        self.lane.leave(filling);
        Ok(())
    }

    /// Publishes these bytes in a place of their own: a create, an append and a publish in one. Answers the key. Where
    /// memory is refused, nothing stays published, and the lane fills no place more than before.
    pub fn put(&mut self, bytes: &[u8]) -> Result<u64, Refusal>
        ensures { Puts bytes.now self.old self.new result }
    {
        match self.lane.create(&self.shared.pool) {
            Ok(mut filling) => match filling.value_mut().append(bytes) {
                Ok(()) => Ok(self.lane.publish(&self.shared.pool, filling)),
                Err(_refused) => {
                    self.give_up(filling);
                    Err(Refusal::Memory)
                }
            },
            Err(CreateFault::Full) => Err(Refusal::Full),
            Err(CreateFault::Memory) => Err(Refusal::Memory),
        }
    }

    /// Gives a place back to which its bytes couldn't be appended: it is published as it is, and cleared.
    #[cold]
    #[inline(never)]
    fn give_up(&mut self, filling: Filling<ByteBuf>)
        requires made { Made (lane_of self.old) filling }
        requires apart { HaveNot filling.key (filled self.old) }
        ensures gives_up { GivesUp filling.key filling.object.bytes filling.object.room (lane_of self.old) (lane_of self.new) }
        ensures stays { Stays self.old self.new }
    {
        let key = self.lane.publish(&self.shared.pool, filling);
        self.lane.clear(&self.shared.pool, key);
    }

    /// A reference more to a key, where it is published and not cleared. Answers where `bytes_at` finds its bytes.
    pub fn get(&mut self, key: u64) -> Result<u32, Refusal>
        ensures got { IfOk result (λ at. (at ≡ slot_start (lane_of self.new).shape (place_of key)) × Got key self.old self.new) }
        ensures not_got { IfErr result (NotGot key self.old self.new) }
    {
        if self.lane.lane().refs() >= MOST_REFERENCES {
            return Err(Refusal::References);
        }
        self.lane
            .get_at(&self.shared.pool, key)
            .ok_or(Refusal::Gone)
    }

    /// The bytes of a key to which the lane has a reference, and whose place stands here.
    pub fn bytes_at(&self, start: u32, key: u64) -> &[u8]
        requires held { 1 ≤ holds (lane_of self.now) key }
        requires start { start ≡ slot_start (lane_of self.now).shape (place_of key) }
        ensures { AreLent key self.now result.now }
    {
        self.lane.lane().read_at(start, key).as_slice()
    }

    /// The bytes of a key to which the lane has a reference.
    pub fn read(&self, key: u64) -> Result<&[u8], Refusal>
        ensures { MatchResult result (λ bytes. AreLent key self.now bytes.now) (λ refusal. (refusal ≡ NoReference)
            × (holds (lane_of self.now) key ≡ 0)) }
    {
        let Some(reference) = self.lane.reference(key) else {
            return Err(Refusal::NoReference);
        };
        let bytes = self.lane.lane().read(&reference).as_slice();
        reference.forget();
        Ok(bytes)
    }

    /// Gives a reference back.
    pub fn release(&mut self, key: u64) -> Result<(), Refusal>
        ensures { Releases key self.old self.new result }
    {
        if self.lane.release_key(&self.shared.pool, key) {
            Ok(())
        } else {
            Err(Refusal::NoReference)
        }
    }

    /// Clears the object of a key.
    pub fn clear(&mut self, key: u64) -> Result<(), Refusal>
        ensures { Clears key self.old self.new result }
    {
        if self.lane.clear(&self.shared.pool, key) {
            Ok(())
        } else {
            Err(Refusal::Gone)
        }
    }

    /// The shape of the pool, the lane's number, how many references and fillings it has, and how many lanes were joined
    /// to it.
    pub fn numbers(&self) -> [u32; NUMBERS]
        ensures { result ≡ numbers_of self.now }
    {
        let shape = self.shared.pool.shape();
        [
            shape.lanes,
            shape.first_page,
            shape.pages,
            shape.last_generation,
            shape.tag,
            self.lane.lane().number(),
            self.lane.lane().refs(),
            self.fillings.list.len() as u32,
            self.joined,
        ]
    }

    /// The share of the pool, the lane and its row. Each filling is left.
    pub(crate) fn into_parts(self) -> (Arc<Shared>, Box<CountingLane<ByteBuf>>, Vec<Lane<ByteBuf>>)
        ensures parts { (arc_value result.0 ≡ arc_value self.shared) × (result.1.value ≡ self.lane.value) × (result.2.items ≡ []) }
        ensures owned { Owns (arc_value result.0).pool result.1.value }
    {
        let Handle {
            shared,
            mut lane,
            fillings,
            joined: _,
            row,
        } = self;
        leave_all(&mut lane, fillings);
        (shared, lane, row)
    }
}

/// All these fillings of the lane are left.
fn leave_all(lane: &mut CountingLane<ByteBuf>, fillings: Fillings)
    requires { AreMade lane.old fillings.list.items }
    ensures { lane.new ≡ lane.old }
{
    let Fillings { mut list } = fillings;
    while let Some(kept) = list.pop() {
        lane.leave(kept.into_filling());
    }
}
