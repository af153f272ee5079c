//! The places of a row of bits.
ghost use Rattle.std.specs.Prelude.{◌≡◌, ◌<◌, ◌∷◌, false};
ghost use Rattle.seqpool.specs.Pool.{has};
ghost use Rattle.keybits.specs.declared.shape.TheConstants.{MOST_LANES};
ghost use Rattle.keybits.specs.Rows.{set_places};
ghost use Rattle.steplaws.specs.StepLaws.{row_of};

use keybits::SHARD_NUMBERS;

/// How many places have their bits in one word.
pub(crate) const ROW_PLACES: u32 = 64;

/// The row of its shard in which a place has its bit.
#[inline]
pub(crate) fn row_of(place: u32) -> u32
    ensures { result ≡ row_of place }
{
    place % SHARD_NUMBERS / ROW_PLACES
}

/// The place that has the highest bit set in the word of a shard's row. The bit then is clear.
#[inline]
pub(crate) fn next_place(shard: u32, row: u32, word: &mut u64) -> u32
    requires shard { shard < MOST_LANES }
    requires row { row < 1024 }
    requires some { 0 < word.old }
    ensures place { set_places shard row word.old ≡ result ∷ set_places shard row word.new }
    ensures once { has (set_places shard row word.new) result ≡ false }
    ensures less { word.new < word.old }
{
    let bit = word.ilog2();
    *word -= 1 << bit;
    SHARD_NUMBERS * shard + ROW_PLACES * row + bit
}
