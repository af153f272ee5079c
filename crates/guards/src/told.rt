//! What a lane tells another through a channel: a key, and that it is published.
ghost use Rattle.std.specs.Prelude.{◌≡◌, ℕ, List};
ghost use Rattle.poollaws.specs.Words.{IsPublished};
ghost use Rattle.guards.specs.Seated.{content_in};

use crate::named::PoolName;
use shardpool::Note;
use slotcell::Clear;
use std::marker::{Model, PhantomData};

/// A key, and a note of a lane that has seen its publish. Contracts see the key, and the content with which it is
/// published.
#[derive(Drop)]
pub struct Told<N: PoolName, T: Clear> {
    key: u64,
    note: Note<T>,
    of: PhantomData<N>,
}

impl<N: PoolName, T: Clear> Model for Told<N, T> {
    ghost use Rattle.std.specs.Prelude.{◌≡◌};
    ghost use Rattle.poollaws.specs.Words.{IsPublished};
    ghost use Rattle.guards.specs.Seated.{ToldOf, content_in};

    ghost Value = { ToldOf };

    ghost view = { λ told. record { key = told.key; content = content_in told.note.book.seen told.key } };

    ghost invariant = { λ told. (told.note.table ≡ N.pool.table)
        × IsPublished told.note.book.seen told.key (content_in told.note.book.seen told.key) };
}

impl<N: PoolName, T: Clear> Told<N, T> {
    /// The key.
    pub fn key(&self) -> u64
        ensures { result ≡ self.now.key }
    {
        self.key
    }

    /// Word of a key that is published in what the note has seen.
    pub(crate) fn of(key: u64, note: Note<T>) -> Told<N, T>
        requires table { note.table ≡ N.pool.table }
        requires published { IsPublished note.book.seen key (content_in note.book.seen key) }
        ensures { result ≡ record { key = key; content = content_in note.book.seen key } }
    {
        Told {
            key,
            note,
            of: PhantomData,
        }
    }

    /// The key and the note.
    pub fn into_parts(self) -> (u64, Note<T>)
        ensures key { result.0 ≡ self.key }
        ensures table { result.1.table ≡ N.pool.table }
        ensures published { IsPublished result.1.book.seen self.key self.content }
    {
        let Told { key, note, of: _ } = self;
        (key, note)
    }
}
