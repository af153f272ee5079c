//! What a lane has of places.
ghost use Rattle.std.specs.Prelude.{◌≡◌, ◌+◌, ◌-◌, ◌<◌, ◌≤◌, ◌^◌, Some, None, true, false, length, replicate, slice_get, slice_set, IfSome, IsNone};
ghost use Rattle.poolsteps.specs.declared.layout.TheConstants.{SHARDS_APART};
ghost use Rattle.poolsteps.specs.Objects.{spot_at};

use crate::cells::{Base, Whole};
use crate::directory::Directory;
use crate::layout::SHARDS_APART;
use crate::rows::{Own, claim, endow_row, none_own, part_with, right_in};
use core::mem::replace_with;
use slotcell::Clear;
use std::alloc::Global;
use std::marker::Model;

/// What a lane has of a directory's places: its own, whose words stand side by side there, and of each whether its object
/// waits. A place is named by its word's number.
#[derive(Drop)]
pub struct Objects<T> {
    directory: Base<T>,
    first: usize,
    places: usize,
    /// What the lane has of its own places, and of the words behind them.
    row: Vec<Own<T>>,
}

impl<T> Model for Objects<T> {
    ghost use Rattle.std.specs.Prelude.{map, take};
    ghost use Rattle.poolsteps.specs.Objects.{ObjectsOf, objects_code};
    ghost use Rattle.poolsteps.specs.Rows.{object_in, is_here, AreRows};

    ghost Value = { ObjectsOf T };

    ghost coded = { objects_code T.code };

    ghost view = { λ o. record {
      directory = o.directory.ptr;
      first = o.first;
      items = take o.places (map object_in o.row.items);
      rights =
          take o.places (map is_here o.row.items);
    } };

    ghost invariant = { λ o. AreRows o.directory.ptr o.first o.places o.row.items };
}

impl<T> Objects<T> {
    /// Where the directory's words begin.
    #[inline]
    pub fn base(&self) -> Base<T>
        ensures { result.ptr ≡ self.now.directory }
    {
        self.directory
    }

    /// Where the own places begin.
    #[inline]
    pub fn first(&self) -> usize
        ensures { result ≡ self.now.first }
    {
        self.first
    }
}

impl<T: Drop> Objects<T> {
    /// So many own places of a directory, from `first` on. No right is here yet. None where memory was refused; what is
    /// made needs no more of it.
    pub fn new(alloc: Global, directory: Base<T>, places: usize, first: usize) -> Option<Objects<T>>
        requires { first + places + SHARDS_APART < 2 ^ 64 }
        ensures { IfSome result (λ made. (made.directory ≡ directory.ptr) × (made.first ≡ first) × (made.items ≡ replicate places None)
            × (made.rights ≡ replicate places false)) }
    {
        let row = none_own(alloc, places + SHARDS_APART)?;
        Some(Objects {
            directory,
            first,
            places,
            row,
        })
    }

    /// Takes the own places out of the directory, and keeps the words behind them, which are unused, until the close.
    pub fn endow(&mut self, directory: &mut Directory<T>)
        requires at { self.old.directory ≡ directory.old.at }
        requires first { self.old.first ≡ directory.old.next }
        requires count { directory.old.next + length self.old.items + SHARDS_APART ≤ directory.old.count }
        ensures objects { self.new ≡ record self.old
            { items = replicate (length self.old.items) None; rights = replicate (length self.old.items) true } }
        ensures directory { directory.new ≡ record directory.old { next = directory.old.next + length self.old.items + SHARDS_APART } }
    {
        endow_row(&mut self.row, directory, self.places + SHARDS_APART);
    }

    /// Takes an own place out whose object waits there. None where no object waits, which changes nothing.
    #[inline]
    pub fn take(&mut self, start: usize) -> Option<Whole<T>>
        requires { (self.old.first ≤ start) × (start < self.old.first + length self.old.items) }
        ensures some { IfSome result (λ whole. (whole.spot ≡ spot_at self.old.directory start)
            × (slice_get self.old.items (start - self.old.first) ≡ Some (Some whole.object))
            × (self.new ≡ record self.old {
              items = slice_set self.old.items (start - self.old.first) None;
              rights = slice_set self.old.rights (start - self.old.first) false;
            })) }
        ensures none { IsNone result → (slice_get self.old.items (start - self.old.first) ≡ Some None) × (self.new ≡ self.old) }
    {
        let index = start - self.first;
        let at = (self.directory, start);
        replace_with(&mut self.row[index], at, part_with)
    }

    /// The object of an own place comes back with it, and waits there.
    #[inline]
    pub fn keep(&mut self, start: usize, whole: Whole<T>)
        requires start { (self.old.first ≤ start) × (start < self.old.first + length self.old.items) }
        requires spot { whole.spot ≡ spot_at self.old.directory start }
        ensures { self.new ≡ record self.old {
          items = slice_set self.old.items (start - self.old.first) (Some whole.object);
          rights = slice_set self.old.rights
              (start - self.old.first) true;
        } }
    {
        let index = start - self.first;
        self.row[index] = Own::Whole(whole);
    }

    /// Puts an object into an own place that is here, where it waits. The one that stood there is dropped.
    #[inline]
    pub fn fill(&mut self, start: usize, object: T)
        requires start { self.old.first ≤ start }
        requires right { slice_get self.old.rights (start - self.old.first) ≡ Some true }
        ensures { self.new ≡ record self.old { items = slice_set self.old.items (start - self.old.first) (Some object) } }
    {
        let index = start - self.first;
        let Some(mut whole) = claim(&mut self.row, &self.directory, start, index) else {
            unreachable!()
        };
        *whole.get_mut(self.directory, start) = object;
        self.row[index] = Own::Whole(whole);
    }

    /// An own place comes back for the close. Where it is here, this one is let go.
    pub fn bring_back(&mut self, start: usize, whole: Whole<T>)
        requires start { (self.old.first ≤ start) × (start < self.old.first + length self.old.items) }
        requires spot { whole.spot ≡ spot_at self.old.directory start }
        ensures { self.new ≡ self.old }
    {
        let index = start - self.first;
        if !self.row[index].is_here() {
            self.row[index] = Own::Back(whole);
        }
    }

    /// Whether each own place is here.
    pub(crate) fn has_all(&self) -> bool {
        // (Without a way out, so that many are looked at at once.)
        self.row.iter().fold(true, |all, own| all & !own.is_away())
    }

    /// Puts the own places back into the directory, from the last on, which stands below `end`, and answers where the first
    /// stands. None where one isn't here.
    pub(crate) fn put_back(self, directory: &mut Directory<T>, end: usize) -> Option<usize>
        requires at { self.directory ≡ directory.old.at }
        requires end { directory.old.next ≡ end }
        ensures at { directory.new.at ≡ directory.old.at }
        ensures start { IfSome result (λ start. directory.new.next ≡ start) }
    {
        let Objects {
            directory: base,
            first,
            mut row,
            ..
        } = self;
        if end < row.len() || end - row.len() != first {
            return None;
        }
        while let Some(own) = row.pop() {
            directory.put_back(right_in(own, base, first + row.len())?);
        }
        Some(first)
    }
}

impl<T: Clear + Drop> Objects<T> {
    /// Drops the objects of the places that are here, whose memory is then let go: an empty one is left in each.
    pub(crate) fn let_go(self, alloc: Global) {
        let Objects {
            directory: base,
            first,
            mut row,
            ..
        } = self;
        while let Some(own) = row.pop() {
            let start = first + row.len();
            if let Some(mut whole) = right_in(own, base, start) {
                *whole.get_mut(base, start) = T::fresh(alloc);
            }
        }
    }
}
