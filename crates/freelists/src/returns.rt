//! The words by which other lanes return places to a shard.
ghost use Rattle.keybits.specs.declared.place.TheConstants.{SHARD_NUMBERS};
ghost use Rattle.keybits.specs.declared.shape.TheConstants.{MOST_LANES};
ghost use Rattle.std.specs.Prelude.{◌<◌};

use crate::shard::place_of_word;
use keybits::{Place, Word, link_to};

/// The words by which other lanes return places to a shard: a stack word for each of these lanes, and a link word for
/// each place. All are 0 at first.
///
/// A returned place is the top of its lane's stack, and its link word leads to the place below. A link or stack word is
/// 0 for the end, else 1 more than the lowest 16 bits of the number of a place of the shard.
#[derive(Clone, Copy, Debug, PartialEq, Eq)]
pub struct Returns {
    /// The shard to which places are returned, 0 to 63.
    pub shard: u8,

    pub ghost in_range: { shard < MOST_LANES },
}

impl Returns {
    ghost use Rattle.std.specs.Prelude.{◌≡◌, ◌<◌, ◌≤◌, ◌↔◌, Some, IsSome, IfSome};
    ghost use Rattle.keybits.specs.declared.place.Place.{Place};
    ghost use Rattle.keybits.specs.declared.step.Word.TheVariants.{Link, Stack};
    ghost use Rattle.keybits.specs.Places.{number_of};
    ghost use Rattle.keybits.specs.Links.{link_to, linked_place};

    /// The stack word of the shard and a returning lane, which is another than the shard's own.
    #[inline]
    pub fn stack(&self, lane: u32) -> Word
        ensures { result ≡ Stack self.now.shard lane }
    {
        Word::Stack {
            shard: u32::from(self.shard),
            lane,
        }
    }

    /// The link word of a place of the shard.
    #[inline]
    pub fn link(&self, place: Place) -> Word
        requires shard { place.shard ≡ self.now.shard }
        requires page { place.page ≤ 15 }
        requires slot { place.slot ≤ 4095 }
        ensures { result ≡ Link (number_of place) }
    {
        Word::Link {
            place: place.number(),
        }
    }

    /// The value of a link or stack word that stands for a place of the shard.
    #[inline]
    pub fn word(&self, place: Place) -> u64
        requires shard { place.shard ≡ self.now.shard }
        requires page { place.page ≤ 15 }
        requires slot { place.slot ≤ 4095 }
        ensures word { result ≡ link_to (number_of place) }
        ensures in_range { (1 ≤ result) × (result ≤ SHARD_NUMBERS) }
    {
        link_to(place.number())
    }

    /// The place that the value of a link or stack word stands for. None where it is 0, the end. It is the inverse of
    /// `word`.
    #[inline]
    pub fn place(&self, word: u64) -> Option<Place>
        requires { word ≤ SHARD_NUMBERS }
        ensures some { IsSome result ↔ (1 ≤ word) }
        ensures shard { IfSome result (λ place. place.shard ≡ self.now.shard) }
        ensures linked { IfSome result (λ place. number_of place ≡ linked_place self.now.shard word) }

        // Each the other's inverse.
        ensures word { IfSome result (λ place. link_to (number_of place) ≡ word) }
        ensures inverse { (place : Place) → place.shard ≡ self.now.shard → place.page ≤ 15 → place.slot ≤ 4095
            → link_to (number_of place) ≡ word → result ≡ Some place }
    {
        if word == 0 {
            return None;
        }
        Some(place_of_word(self.shard, word))
    }
}
