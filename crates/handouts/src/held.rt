//! What is handed out, and who takes it.
ghost use Rattle.std.specs.Prelude.{◌≡◌, None, Some, option_map};
ghost use Rattle.handouts.specs.Held.{content_in, TookOut};

use shardpool::Emptier;
use slotcell::Clear;
use std::alloc::Global;
use std::marker::Model;

/// A pool's object that is a box, or none. Its content is that of what the box holds, and it promises no room: what a
/// place's object held may be handed out.
#[derive(Drop)]
pub struct Held<U> {
    boxed: Option<Box<U>>,
}

impl<U> Model for Held<U> {
    ghost use Rattle.std.specs.Prelude.{Option, option_map};
    ghost use Rattle.std.specs.Coded.{coded_option};

    ghost Value = { Option U };

    ghost coded = { coded_option U.code };

    ghost view = { λ h. option_map (λ b. b.value) h.boxed };
}

impl<U: Clear + Drop> Clear for Held<U> {
    ghost content = { λ h. content_in U.content h };

    ghost room = { λ _. 0 };

    fn fresh(_alloc: Global) -> Held<U>
        ensures { result ≡ None }
    {
        Held { boxed: None }
    }

    fn clear(&mut self)
        ensures { self.new ≡ None }
    {
        self.boxed = None;
    }

    fn room(&self) -> usize
        ensures { result ≡ 0 }
    {
        0
    }
}

impl<U: Drop> Held<U> {
    /// Puts a spare in, and answers what was held before.
    pub fn put(&mut self, spare: Box<U>) -> Option<Box<U>>
        ensures new { self.new ≡ Some spare.value }
        ensures before { option_map (λ b. b.value) result ≡ self.old }
    {
        self.boxed.replace(spare)
    }

    /// Takes out what is held.
    pub fn take(&mut self) -> Option<Box<U>>
        ensures new { self.new ≡ None }
        ensures out { option_map (λ b. b.value) result ≡ self.old }
    {
        self.boxed.take()
    }

    /// What is held, as a box.
    pub fn into_inner(self) -> Option<Box<U>>
        ensures { option_map (λ b. b.value) result ≡ self }
    {
        self.boxed
    }
}

/// Takes what the object of a reclaimed place held.
#[derive(Drop)]
pub struct HandOut<U> {
    out: Option<Box<U>>,
}

impl<U> Model for HandOut<U> {
    ghost use Rattle.std.specs.Prelude.{Option, option_map};
    ghost use Rattle.std.specs.Coded.{coded_option};

    ghost Value = { Option U };

    ghost coded = { coded_option U.code };

    ghost view = { λ h. option_map (λ b. b.value) h.out };
}

impl<U: Clear + Drop> Emptier<Held<U>> for HandOut<U> {
    ghost takes = { λ old bytes new. TookOut U.content old bytes new };

    fn empty(&mut self, object: &mut Held<U>) {
        self.out = object.take();
    }

    fn retire(&mut self, object: Held<U>) {
        self.out = object.into_inner();
    }
}

impl<U: Drop> HandOut<U> {
    /// Nothing is taken yet.
    pub fn new() -> HandOut<U>
        ensures { result ≡ None }
    {
        HandOut { out: None }
    }

    /// What was taken last.
    pub fn into_inner(self) -> Option<Box<U>>
        ensures { option_map (λ b. b.value) result ≡ self }
    {
        self.out
    }
}
