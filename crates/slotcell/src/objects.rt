//! Objects, which are cleared in place and used again: what all can do, buffers of bytes, and records of numbers.
ghost use Rattle.std.specs.Prelude.{◌≡◌, ◌+◌, ◌-◌, ◌≤◌, ◌<◌, ◌↔◌, ℕ, List, [], ◌∷◌, ◌++◌, length, take, replicate, IsTrue, IsOk, OnOk, OnErr, if◌then◌else◌};
ghost use Rattle.std.specs.Vec.{vec_len, vec_capacity};

use arrayvec::ArrayVec;
use core::mem::replace_with;
use std::alloc::Global;
use std::error::Error;
use std::fmt;
use std::marker::Model;

/// An object that can be emptied in place and filled again, so that its memory is kept.
///
/// As in sharded-slab's documentation of `Clear`. An object's content is a list of whole numbers, its room is how much
/// it can hold in all without taking memory, and an empty object comes from `fresh`, which is handed the allocator, in
/// place of a default.
pub trait Clear {
    ghost content: { Self → List ℕ };

    ghost room: { Self → ℕ };

    /// Makes an empty object. It takes no memory.
    fn fresh(alloc: Global) -> Self
        ensures { content result ≡ [] };

    /// Empties the object, whose room is no smaller afterwards. It takes no memory.
    fn clear(&mut self)
        ensures empty { content self.new ≡ [] }
        ensures room_kept { room self.old ≤ room self.new };

    /// Answers how much the object can hold in all without taking memory.
    fn room(&self) -> usize
        ensures { result ≡ room self.now };
}

/// Want of memory: a growth was refused.
#[derive(Clone, Copy, Debug, PartialEq, Eq)]
pub struct Memory;

impl fmt::Display for Memory {
    fn fmt<W: fmt::Write>(&self, f: &mut fmt::Formatter<W>) -> fmt::Result {
        write!(f, "out of memory")
    }
}

impl Error for Memory {}

/// An object that is a buffer of bytes. Its content is the bytes, and its room, which never shrinks, is how many bytes
/// it can hold in all without taking memory.
#[derive(Debug, Drop)]
pub struct ByteBuf {
    bytes: Vec<u8>,
}

impl Model for ByteBuf {
    ghost use Rattle.std.specs.Prelude.{◌≤◌, length};
    ghost use Rattle.std.specs.Vec.{vec_items, vec_capacity};
    ghost use Rattle.slotcell.specs.ByteBuf.{ByteBuf as Buffer};

    ghost Value = { Buffer };

    ghost view = { λ b. record { bytes = vec_items b.bytes; room = vec_capacity b.bytes } };

    ghost invariant = { λ b. length (vec_items b.bytes) ≤ vec_capacity b.bytes };
}

impl Clear for ByteBuf {
    ghost content = { λ b. b.bytes };

    ghost room = { λ b. b.room };

    fn fresh(alloc: Global) -> ByteBuf
        ensures { result ≡ record { bytes = []; room = 0 } }
    {
        ByteBuf {
            bytes: Vec::new(alloc),
        }
    }

    fn clear(&mut self)
        ensures { self.new ≡ record self.old { bytes = [] } }
    {
        self.bytes.clear();
    }

    fn room(&self) -> usize
        ensures room { result ≡ self.now.room }
        ensures fits { length self.now.bytes ≤ result }
    {
        self.bytes.capacity()
    }
}

impl ByteBuf {
    /// Appends `more`. Where the new length is at most the room it takes no memory, so that it succeeds and the room
    /// stays the same.
    ///
    /// # Errors
    ///
    /// `Memory` where a growth was refused. The buffer, its room too, is then unchanged.
    pub fn append(&mut self, more: &[u8]) -> Result<(), Memory>
        ensures ok { OnOk result (self.new.bytes ≡ self.old.bytes ++ more.now) }
        ensures err { OnErr result (self.new ≡ self.old) }

        // Within the room, and in general.
        ensures within_room { length self.old.bytes + length more.now ≤ self.old.room → IsOk result }
        ensures same_room { length self.old.bytes + length more.now ≤ self.old.room → self.new.room ≡ self.old.room }
        ensures room_kept { self.old.room ≤ self.new.room }
        ensures fits { length self.new.bytes ≤ self.new.room }
    {
        if self.bytes.capacity() - self.bytes.len() < more.len()
            && self.bytes.reserve(more.len()).is_err()
        {
            return Err(Memory);
        }
        // As a vector of its own it is filled by a block copy, which a field of a borrowed buffer isn't.
        replace_with(&mut self.bytes, more, with_appended);
        Ok(())
    }

    /// Appends `count` zeros. Where the new length is at most the room it succeeds.
    ///
    /// # Errors
    ///
    /// `Memory` where a growth was refused. The buffer, its room too, is then unchanged.
    pub fn append_zeros(&mut self, count: usize) -> Result<(), Memory>
        ensures ok { OnOk result (self.new.bytes ≡ self.old.bytes ++ replicate count 0) }
        ensures err { OnErr result (self.new ≡ self.old) }
        ensures within_room { length self.old.bytes + count ≤ self.old.room → IsOk result }
        ensures room_kept { self.old.room ≤ self.new.room }
    {
        if self.bytes.reserve(count).is_ok() {
            let end = self.bytes.len() + count;
            match self.bytes.resize(end, 0) {
                Ok(()) => Ok(()),
                Err(_) => unreachable!(),
            }
        } else {
            Err(Memory)
        }
    }

    /// Drops the last `count` bytes. The room stays the same.
    pub fn drop_last(&mut self, count: usize)
        requires { count ≤ length self.old.bytes }
        ensures { self.new ≡ record self.old { bytes = take (length self.old.bytes - count) self.old.bytes } }
    {
        let kept = self.bytes.len() - count;
        self.bytes.truncate(kept);
    }

    /// Answers where the last `count` bytes stand, for a foreign program to write them before the next call on the
    /// buffer.
    pub fn address_of_last(&mut self, count: usize) -> *mut u8
        requires { (0 < count) × (count ≤ length self.old.bytes) }
        ensures { self.new ≡ self.old }
    {
        let first = self.bytes.len() - count;
        std::ptr::from_mut(&mut self.bytes[first])
    }

    /// Answers the bytes.
    pub fn as_slice(&self) -> &[u8]
        ensures { result.now ≡ self.now.bytes }
    {
        self.bytes.as_slice()
    }

    /// Answers the number of bytes.
    pub fn len(&self) -> usize
        ensures { result ≡ length self.now.bytes }
    {
        self.bytes.len()
    }

    /// Answers whether there is no byte.
    pub fn is_empty(&self) -> bool
        ensures { IsTrue result ↔ (self.now.bytes ≡ []) }
    {
        self.bytes.is_empty()
    }
}

// Appends where the capacity has room, and stays. `extend_from_slice` only says that it doesn't shrink.
#[inline]
fn with_appended(bytes: Vec<u8>, more: &[u8]) -> (Vec<u8>, ())
    requires { vec_len bytes + length more.now ≤ vec_capacity bytes }
    ensures items { result.0.items ≡ bytes.items ++ more.now }
    ensures capacity { vec_capacity result.0 ≡ vec_capacity bytes }
{
    let mut all = bytes;
    for byte in more {
        all.push_reserved(*byte);
    }
    (all, ())
}

/// An object of at most eight numbers, which are its content and lie in the value itself. Its room is 8, and it never
/// takes memory.
#[derive(Debug, Drop)]
pub struct Record {
    numbers: ArrayVec<u64, 8>,
}

impl Model for Record {
    ghost use Rattle.std.specs.Prelude.{ℕ, List, ◌≤◌, length};

    ghost Value = { List ℕ };

    ghost view = { λ r. r.numbers.items };

    ghost invariant = { λ r. length r.numbers.items ≤ 8 };
}

impl Clear for Record {
    ghost content = { λ r. r };

    ghost room = { λ _. 8 };

    fn fresh(_alloc: Global) -> Record
        ensures { result ≡ [] }
    {
        Record {
            numbers: ArrayVec::new(),
        }
    }

    fn clear(&mut self)
        ensures { self.new ≡ [] }
    {
        self.numbers.clear();
    }

    fn room(&self) -> usize
        ensures { result ≡ 8 }
    {
        8
    }
}

impl Record {
    /// Appends `number` and answers true. Where the record holds eight numbers it answers false and changes nothing.
    pub fn push(&mut self, number: u64) -> bool
        ensures variant { IsTrue result ↔ (length self.old < 8) }
        ensures numbers { self.new ≡ (if result then self.old ++ number ∷ [] else self.old) }
    {
        if self.numbers.is_full() {
            return false;
        }
        self.numbers.push(number);
        true
    }

    /// Answers the numbers, in the order in which they were pushed.
    pub fn as_slice(&self) -> &[u64]
        ensures numbers { result.now ≡ self.now }
        ensures at_most_eight { length result.now ≤ 8 }
    {
        self.numbers.as_slice()
    }
}
