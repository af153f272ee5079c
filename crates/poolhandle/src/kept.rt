//! A filling as a handle keeps it.
ghost use Rattle.std.specs.Prelude.{◌≡◌, ◌-◌, ◌<◌, ◌≤◌, ◌++◌, length, take, replicate, IsTrue, IsFalse, if◌then◌else◌};

use shardpool::Filling;
use slotcell::ByteBuf;

/// A filling, which is left where it is dropped.
pub struct Kept {
    pub filling: Filling<ByteBuf>,
    /// So many of its last bytes are room that was given to be written, and not content yet.
    pub room: usize,
    ghost fits: { room ≤ length filling.object.bytes },
}

impl Drop for Kept {
    fn drop(self) {
        self.into_filling().forget();
    }
}

impl Kept {
    ghost use Rattle.poolhandle.specs.Filled.{content_of, room_of, SameFilling, MustGrow};

    /// A filling without room.
    pub(crate) fn new(filling: Filling<ByteBuf>) -> Kept
        ensures { (result.filling ≡ filling) × (result.room ≡ 0) }
    {
        Kept { filling, room: 0 }
    }

    /// The filling.
    pub(crate) fn into_filling(self) -> Filling<ByteBuf>
        ensures { result ≡ self.filling }
    {
        let Kept { filling, room: _ } = self;
        filling
    }

    /// The filling, with its content alone.
    pub(crate) fn into_content(self) -> Filling<ByteBuf>
        ensures token { (result.table ≡ self.filling.table) × (result.key ≡ self.filling.key) × (result.start ≡ self.filling.start)
            × (result.directory ≡ self.filling.directory) }
        ensures content { result.object.bytes ≡ content_of self }
        ensures room { result.object.room ≡ self.filling.object.room }
    {
        let mut kept = self;
        let room = kept.room;
        kept.end_room(room);
        kept.into_filling()
    }

    /// Drops the last so many bytes of the room, and the others are content.
    pub(crate) fn end_room(&mut self, unwritten: usize)
        requires { unwritten ≤ self.old.room }
        ensures same { SameFilling self.old self.new }
        ensures bytes { self.new.filling.object.bytes
            ≡ take (length self.old.filling.object.bytes - unwritten) self.old.filling.object.bytes }
        ensures capacity { self.new.filling.object.room ≡ self.old.filling.object.room }
        ensures none { self.new.room ≡ 0 }
    {
        self.room = 0;
        if unwritten != 0 {
            self.filling.value_mut().drop_last(unwritten);
        }
    }

    /// Appends to the content: whether there was memory. Room that was given before ends.
    pub(crate) fn append(&mut self, bytes: &[u8]) -> bool
        ensures same { SameFilling self.old self.new }
        ensures bytes { self.new.filling.object.bytes ≡ (if result then content_of self.old ++ bytes.now else content_of self.old) }
        ensures none { self.new.room ≡ 0 }
        ensures grown { IsFalse result → MustGrow self.old (length bytes.now) }
    {
        self.end_room(self.room);
        self.filling.value_mut().append(bytes).is_ok()
    }

    /// Gives room for so many bytes behind the content, which are zeros: whether there was memory. Room that was given
    /// before ends.
    pub(crate) fn grow(&mut self, count: usize) -> bool
        ensures same { SameFilling self.old self.new }
        ensures content { content_of self.new ≡ content_of self.old }
        ensures zeros { room_of self.new ≡ replicate self.new.room 0 }
        ensures room { self.new.room ≡ (if result then count else 0) }
        ensures grown { IsFalse result → MustGrow self.old count }
    {
        self.end_room(self.room);
        if self.filling.value_mut().append_zeros(count).is_ok() {
            self.room = count;
            true
        } else {
            false
        }
    }

    /// Where the room begins. Null where there is none.
    pub(crate) fn room_address(&mut self) -> *mut u8
        ensures { self.new ≡ self.old }
    {
        let count = self.room;
        if count == 0 {
            return std::ptr::null_mut();
        }
        self.filling.value_mut().address_of_last(count)
    }

    /// The first so many bytes of the room are content, and the others are gone: whether there are so many. If not,
    /// nothing changes.
    pub(crate) fn wrote(&mut self, count: usize) -> bool
        ensures same { SameFilling self.old self.new }
        ensures yes { IsTrue result → (count ≤ self.old.room)
            × (content_of self.new ≡ content_of self.old ++ take count (room_of self.old)) × (self.new.room ≡ 0) }
        ensures no { IsFalse result → (self.new ≡ self.old) × (self.old.room < count) }
    {
        if count > self.room {
            return false;
        }
        self.end_room(self.room - count);
        true
    }
}
