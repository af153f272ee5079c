//! Objects that are read by a lane that lies in a store, and is had for the one call.
ghost use Rattle.std.specs.Prelude.{IfSome};
ghost use Rattle.shardpool.specs.Lanes.{Issued};

use crate::pools::{BYTES, PLACES};
use keybits::Shape;
use lanestore::Store;
use shardpool::Note;
use slotcell::{ByteBuf, Clear};
use std::alloc::Global;

/// How many objects are read in turn.
const MANY: usize = 16;

/// A buffer as a type of its own: so the calls of its pool are others than those of the other cases.
#[derive(Drop)]
struct Text {
    bytes: ByteBuf,
}

impl Clear for Text {
    ghost content = { λ text. text.bytes.bytes };

    ghost room = { λ text. text.bytes.room };

    fn fresh(alloc: Global) -> Text {
        Text {
            bytes: ByteBuf::fresh(alloc),
        }
    }

    fn clear(&mut self) {
        self.bytes.clear();
    }

    fn room(&self) -> usize {
        self.bytes.room()
    }
}

/// Objects are read in turn, each by a lane that is had for the call. Answers how many bytes. Apart from the other cases,
/// so that they are compiled as without it.
#[inline(never)]
pub fn look_many(alloc: Global, rounds: u64) -> u64 {
    look_or_stop(alloc, rounds).unwrap_or(0)
}

/// The same. None where a pool can't be opened, or an object can't be put.
fn look_or_stop(alloc: Global, rounds: u64) -> Option<u64> {
    let store = open_store(alloc)?;
    let mut keys = [0; MANY];
    let told = put_all(alloc, &store, store.enter(0)?, &mut keys)?;
    Some(look_at_each(&store, told, &keys, rounds))
}

/// A store of one lane, with 32 places in its shard.
fn open_store(alloc: Global) -> Option<Store<Text>> {
    let shape = Shape {
        lanes: 1,
        first_page: PLACES,
        pages: 1,
        last_generation: u32::MAX,
        tag: 0,
        guests: 0,
    };
    Store::open_wide(alloc, shape).ok()
}

/// Publishes an object for each key. Answers what the caller is then told.
fn put_all(
    alloc: Global,
    store: &Store<Text>,
    told: Note<Text>,
    keys: &mut [u64],
) -> Option<Note<Text>>
    requires { Issued store.now.pool told }
    ensures { IfSome result (λ note. Issued store.now.pool note) }
{
    let mut note = told;
    for key in keys {
        let (put, told) = put(alloc, store, note)?;
        *key = put;
        note = told;
    }
    Some(note)
}

/// Publishes an object. Answers its key, and what the caller is then told.
fn put(alloc: Global, store: &Store<Text>, told: Note<Text>) -> Option<(u64, Note<Text>)>
    requires { Issued store.now.pool told }
    ensures { IfSome result (λ put. Issued store.now.pool put.1) }
{
    let mut text = Text::fresh(alloc);
    text.bytes.append(&BYTES).ok()?;
    match store.put(0, told, &mut text) {
        Ok((Ok(key), told)) => Some((key, told)),
        _ => None,
    }
}

/// Reads one object after the other, so many times. Stops where a call is refused.
fn look_at_each(store: &Store<Text>, told: Note<Text>, keys: &[u64; MANY], rounds: u64) -> u64
    requires { Issued store.now.pool told }
{
    let mut note = told;
    let mut bytes = 0u64;
    for round in 0..rounds {
        let key = keys[(round % MANY as u64) as usize];
        match store.look(0, note, key, |text: &Text| text.bytes.len()) {
            Ok((length, told)) => {
                bytes = bytes.wrapping_add(length.unwrap_or(0) as u64);
                note = told;
            }
            Err(_refused) => return bytes,
        }
    }
    bytes
}
