//! Objects of one's own: entries of a log, each with a request.
ghost use Rattle.std.specs.Prelude.{◌≡◌, ◌<◌, ◌≤◌, [], length, IsOk, OnOk, OnErr};
ghost use Rattle.logsample.specs.Requests.{numbers_of, content_of, line_of};

use slotcell::{ByteBuf, Clear, Memory};
use std::alloc::Global;

/// A request that was served.
#[derive(Clone, Copy)]
pub struct Request<'a> {
    pub path: &'a [u8],
    pub status: u16,
    pub bytes: u64,
}

/// What the collector reads of an entry: its path's length in place of the path.
#[derive(Clone, Copy)]
pub struct Line {
    pub status: u16,
    pub bytes: u64,
    pub length: usize,
}

/// An entry of the log: a request, or none.
#[derive(Drop)]
pub struct Entry {
    /// 0 where there is no request.
    status: u16,
    bytes: u64,
    path: ByteBuf,
}

impl Clear for Entry {
    ghost content = { content_of };

    ghost room = { λ entry. entry.path.room };

    fn fresh(alloc: Global) -> Entry {
        Entry {
            status: 0,
            bytes: 0,
            path: ByteBuf::fresh(alloc),
        }
    }

    fn clear(&mut self) {
        self.status = 0;
        self.bytes = 0;
        self.path.clear();
    }

    fn room(&self) -> usize {
        self.path.room()
    }
}

impl Entry {
    /// Writes a request. Where its path fits in the room this takes no memory.
    ///
    /// # Errors
    ///
    /// `Memory` where it was refused for the path. The entry is then empty.
    pub fn write(&mut self, request: &Request<'_>) -> Result<(), Memory>
        requires { 0 < request.now.status }
        ensures ok { OnOk result (content_of self.new ≡ numbers_of request.now) }
        ensures err { OnErr result (content_of self.new ≡ []) }
        ensures fits { length request.now.path.now ≤ self.old.path.room → IsOk result × (self.new.path.room ≡ self.old.path.room) }
        ensures room { self.old.path.room ≤ self.new.path.room }
        ensures roomy { OnOk result (length request.now.path.now ≤ self.new.path.room) }
    {
        self.status = 0;
        self.path.clear();
        self.path.append(request.path)?;
        self.status = request.status;
        self.bytes = request.bytes;
        Ok(())
    }

    /// What is to be read of the entry.
    pub fn line(&self) -> Line
        ensures { result ≡ line_of (content_of self.now) }
    {
        if self.status == 0 {
            return Line {
                status: 0,
                bytes: 0,
                length: 0,
            };
        }
        Line {
            status: self.status,
            bytes: self.bytes,
            length: self.path.len(),
        }
    }
}
