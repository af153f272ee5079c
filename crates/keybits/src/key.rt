//! Keys of published objects.
ghost use Rattle.std.specs.Prelude.{◌≡◌, ◌+◌, ◌/◌, ◌%◌, ◌<◌, ◌≤◌, ◌↔◌, Some, IsSome, IfSome};

use crate::place::{Place, generation_of, place_of, tag_of};

/// The key of a published object: its pool's tag, its place and its generation, packed into one number.
///
/// The slot has the bits 0 to 11, the page 12 to 15, the shard 16 to 23, the generation 24 to 55 and
/// the tag 56 to 63. That a key packs its place and a generation is taken from sharded-slab's
/// documentation.
#[derive(Clone, Copy, Debug, PartialEq, Eq)]
pub struct Key {
    number: u64,

    // The generation is never 0.
    pub ghost published: { 1 ≤ number / 16777216 % 4294967296 },
}

impl Key {
    ghost use Rattle.std.specs.Prelude.{ℕ, ◌^◌};
    ghost use Rattle.keybits.specs.declared.place.Place.{Place};
    ghost use Rattle.keybits.specs.Places.{number_of};
    ghost use Rattle.keybits.specs.Keys.{key_number, generation_of, tag_of, number_in, IsPackable, IsKeyOf};

    /// The key of a pool with tag 0, at this place and of this generation. None where the page is
    /// over 15, the slot over 4095 or the generation is 0.
    #[inline]
    pub fn pack(place: Place, generation: u32) -> Option<Key>
        ensures some { IsSome result ↔ IsPackable place generation }
        ensures number { IfSome result
            (λ key. number_in key ≡ key_number 0 (number_of place) generation) }
    {
        Key::pack_tagged(0, place, generation)
    }

    /// The key of a pool with this tag, at this place and of this generation. None where the page
    /// is over 15, the slot over 4095 or the generation is 0.
    #[inline]
    pub fn pack_tagged(tag: u8, place: Place, generation: u32) -> Option<Key>
        ensures some { IsSome result ↔ IsPackable place generation }
        ensures number { IfSome result
            (λ key. number_in key ≡ key_number tag (number_of place) generation) }
    {
        if place.page > 15 || place.slot > 4095 || generation == 0 {
            return None;
        }
        let number = u64::from(place.number())
            + (u64::from(generation) << 24)
            + (u64::from(tag) << 56);
        Some(Key { number })
    }

    /// The place and the generation that a key with tag 0 of this number has. None where the bits
    /// 56 to 63 aren't all zero or the generation is 0. It is the inverse of `pack`.
    #[inline]
    pub fn unpack(number: u64) -> Option<(Place, u32)>
        ensures some { IsSome result ↔ ((tag_of number ≡ 0) × (1 ≤ generation_of number)) }

        // Each the other's inverse.
        ensures packed { IfSome result (λ parts. IsKeyOf number 0 parts.0 parts.1) }
        ensures inverse { (place : Place) (generation : ℕ)
            → place.shard < 2 ^ 8 → generation < 2 ^ 32 → IsKeyOf number 0 place generation
            → result ≡ Some (place, generation) }
    {
        match Key::unpack_tagged(number) {
            Some((0, place, generation)) => Some((place, generation)),
            _ => None,
        }
    }

    /// The tag, the place and the generation that the key of this number has. None only where the
    /// generation is 0. It is the inverse of `pack_tagged`.
    #[inline]
    pub fn unpack_tagged(number: u64) -> Option<(u8, Place, u32)>
        ensures some { IsSome result ↔ (1 ≤ generation_of number) }

        // Each the other's inverse.
        ensures packed { IfSome result (λ parts. IsKeyOf number parts.0 parts.1 parts.2) }
        ensures inverse { (tag : ℕ) (place : Place) (generation : ℕ)
            → place.shard < 2 ^ 8 → generation < 2 ^ 32 → IsKeyOf number tag place generation
            → result ≡ Some (tag, place, generation) }
    {
        let generation = generation_of(number);
        if generation == 0 {
            return None;
        }
        let place = Place::of_number(place_of(number));
        Some((tag_of(number), place, generation))
    }

    /// The number into which the key is packed.
    #[inline]
    pub fn number(&self) -> u64
        ensures number { result ≡ number_in self.now }
        ensures generation { 1 ≤ generation_of result }
    {
        self.number
    }
}
