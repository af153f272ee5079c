//! Which numbers are keys of a shape.
ghost use Rattle.std.specs.Prelude.{◌≡◌};
ghost use Rattle.keybits.specs.Keys.{is_key};

use crate::place::{generation_of, place_of, tag_of};
use crate::shape::Shape;

/// Whether this is the number of a key of the shape: the shape's tag, a place of the shape and a
/// generation from 1 to the last. Any other number is outside the shape. The shape need not be
/// checked.
#[inline]
pub fn fits(number: u64, shape: &Shape) -> bool
    ensures { result ≡ is_key shape.now number }
{
    let generation = generation_of(number);
    u32::from(tag_of(number)) == shape.tag
        && shape.is_place(place_of(number))
        && generation != 0
        && generation <= shape.last_generation
}
