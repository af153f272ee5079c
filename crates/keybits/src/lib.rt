//! Keys, places, shapes and lifecycle words of a sharded object pool, and the steps that change its atomic words.
#![tactic(auto)]

mod fit;
mod home_laws;
mod key;
mod place;
mod shape;
mod step;
mod words;

pub use fit::fits;
pub use home_laws::{home_law, push_law, take_law, unchanged_law};
pub use key::Key;
pub use place::{
    GREATEST_PLACE, PAGE_NUMBERS, Place, SHARD_NUMBERS, generation_of, link_to, linked_place,
    place_of, shard_of, tag_of,
};
pub use shape::{
    GREATEST_TAG, LARGEST_FIRST_PAGE, MOST_GUESTS, MOST_LANES, MOST_PAGE_PLACES, MOST_PAGES,
    NARROW_LANES, NARROW_PAGES, Shape, ShapeFault,
};
pub use step::{Kind, Step, Word};
pub use words::{
    Life, MARK_BIT, ONE_COUNT, ONE_GENERATION, PUBLISHED_BIT, State, claimable, claimed, entered,
    is_hit, is_present, left, marked, owes_claim, published,
};
