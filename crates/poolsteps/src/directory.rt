//! The words of places, with their objects.
ghost use Rattle.std.specs.Prelude.{◌≡◌, ◌+◌, ◌<◌, IfSome, length};
ghost use Rattle.core.specs.Mem.Slots.{slots_items, slots_ptr, slots_len, IsFull};

use crate::cells::{Base, Whole};
use crate::memory::{HeldLease, Run};
use core::slots::{Slots, release, reserve};
use slotcell::Clear;
use std::alloc::Global;
use std::marker::Model;
use std::mem::ManuallyDrop;

/// The words of a directory, a place each, that are not taken out of it, with their objects, and the right to its memory.
/// Whoever reads an object needs its `Base` alone.
pub struct Directory<T> {
    run: Run<T>,
    held_lease: HeldLease<T, Global>,
    count: usize,
}

impl<T> Model for Directory<T> {
    ghost use Rattle.poolsteps.specs.Directory.{Directory as Shown, directory_code};
    ghost use Rattle.poolsteps.specs.DirectoryFields.{IsDirectory};

    ghost Value = { Shown };

    ghost coded = { directory_code };

    ghost view = { λ d. record { at = d.run.ptr; next = d.run.first; count = d.count } };

    ghost invariant = { λ d. IsDirectory d.run d.held_lease.lease d.count };
}

fn write_all<T: Drop>(row: &mut Slots<T>, mut words: Vec<T>)
    requires { slots_len row.old ≡ length words.items }
    ensures { IsFull row.new × (slots_items row.new ≡ words.items) × (slots_ptr row.new ≡ slots_ptr row.old)
        × (slots_len row.new ≡ slots_len row.old) }
{
    while let Some(word) = words.pop() {
        row.put(words.len(), word);
    }
}

fn drop_all<T: Drop>(row: &mut Slots<T>, count: usize)
    requires { IsFull row.old × (slots_len row.old ≡ count) }
    ensures { (slots_ptr row.new ≡ slots_ptr row.old) × (slots_len row.new ≡ slots_len row.old) }
{
    for index in 0..count {
        drop(row.take(index));
    }
}

/// A directory that is dropped is let go, with its places that aren't out of it: `close` alone frees its memory.
impl<T> Drop for Directory<T> {
    fn drop(self) {
        let _leaked = unsafe { ManuallyDrop::new_unchecked(self) };
    }
}

impl<T: Clear + Drop> Directory<T> {
    /// A directory of so many places, each with an empty object. None where memory was refused.
    pub fn new(alloc: Global, count: usize) -> Option<Directory<T>>
        ensures { IfSome result (λ made. (made.next ≡ 0) × (made.count ≡ count)) }
    {
        let mut words = Vec::with_capacity(alloc, count).ok()?;
        for _ in 0..count {
            words.push_reserved(T::fresh(alloc));
        }
        let (mut row, lease) = (unsafe { reserve(&alloc, words.as_slice()) }).ok()?;
        write_all(&mut row, words);
        Some(Directory {
            run: Run::of(row),
            held_lease: HeldLease::new(lease),
            count,
        })
    }
}

impl<T: Drop> Directory<T> {
    /// Where its words begin.
    pub fn base(&mut self) -> Base<T>
        ensures { (result.ptr ≡ self.old.at) × (self.new ≡ self.old) }
    {
        self.run.base()
    }

    /// How many places it has.
    pub fn count(&self) -> usize
        ensures { result ≡ self.now.count }
    {
        self.count
    }

    /// Takes the place of the lowest number out.
    pub fn next(&mut self) -> Whole<T>
        requires { self.old.next < self.old.count }
        ensures { (result.spot.directory ≡ self.old.at) × (result.spot.index ≡ self.old.next)
            × (self.new ≡ record self.old { next = self.old.next + 1 }) }
    {
        Whole {
            word: self.run.cut(),
        }
    }

    /// Puts the place below the lowest number back.
    pub fn put_back(&mut self, whole: Whole<T>)
        requires { (whole.spot.directory ≡ self.old.at) × (whole.spot.index + 1 ≡ self.old.next) }
        ensures { self.new ≡ record self.old { next = whole.spot.index } }
    {
        let Whole { word } = whole;
        self.run.merge(word);
    }

    /// Frees a directory whose places are all back in it, and drops their objects.
    pub fn close(self, alloc: Global)
        requires { self.next ≡ 0 }
    {
        let Directory {
            run,
            held_lease,
            count,
        } = self;
        let mut row = run.into_slots(count);
        drop_all(&mut row, count);
        release(&alloc, row, held_lease.into_lease());
    }
}
