//! Where each word of a pool stands among the words of its table, and each slot among its slots: words that different
//! lanes change by themselves stand 128 bytes apart, as a processor may fetch two lines of 64 together, and the words of
//! neighbouring shards farther. No step changes the first words: the very first is read where seats are cut and joined,
//! and behind it each lane has one that it looks at.
ghost use Rattle.std.specs.Prelude.{◌≡◌, ◌+◌, ◌<◌, ℕ, true, None, Option, length, slice_get, Some, IfSome};
ghost use Rattle.keybits.specs.Shapes.{callers, IsShape, position_of, is_place};
ghost use Rattle.keybits.specs.Places.{shard_of};
ghost use Rattle.keybits.specs.declared.step.Word.TheVariants as words;
ghost use Rattle.poolsteps.specs.Share.{Share};
ghost use Rattle.poolsteps.specs.declared.find.TheConstants.{LIVES_START};
ghost use Rattle.poolsteps.specs.Layout.{index_in, links_start, word_count, row_count, bits_index, words_in, page_count, page_row, page_rows, slot_start, slot_row, slot_count, slot_index, shard_start};
ghost use Rattle.steplaws.specs.MomentLaws.{AreFirst};

use crate::cells::Slot;
use crate::find::{LIVES_START, WORDS_APART};
use keybits::{Life, PAGE_NUMBERS, SHARD_NUMBERS, Shape, State, shard_of};
use std::alloc::Global;

/// How many places' words stand unused behind those of each shard in a row, so that those of neighbouring shards don't
/// share two lines of a processor's cache. 16 would be enough for that; with it, by measure, a cycle on four threads takes
/// 6 to 10 ns more. Of 16 to 44 this one is the quickest, and more takes memory.
pub const SHARDS_APART: usize = 22;

/// How many pages the numbers of a shard's places have room for.
pub(crate) const SHARD_PAGES: u32 = SHARD_NUMBERS / PAGE_NUMBERS;

/// How many words there are.
pub(crate) fn word_count(shape: &Shape) -> usize
    requires { IsShape shape.now }
    ensures { result ≡ word_count shape.now }
{
    let lanes = shape.lanes as usize;
    LIVES_START + 2 * slot_row(shape) + WORDS_APART * (lanes * lanes) + lanes * row_count(shape)
}

/// How many rows of bits a shard has room for.
pub(crate) fn row_count(shape: &Shape) -> usize
    requires { IsShape shape.now }
    ensures { result ≡ row_count shape.now }
{
    64 * shape.pages as usize
}

/// Where the word of a shard's row of bits stands.
pub fn bits_word(shape: &Shape, shard: u32, row: u32) -> usize
    requires shape { IsShape shape.now }
    requires row { (shard < shape.now.lanes) × (row < row_count shape.now) }
    ensures word { result ≡ bits_index shape.now shard row }
    ensures inside { result < word_count shape.now }
{
    let lanes = shape.lanes as usize;
    let rows = shard as usize * row_count(shape) + row as usize;
    LIVES_START + 2 * slot_row(shape) + WORDS_APART * (lanes * lanes) + rows
}

/// Where a place stands in each row of words, of slots or of what a lane has of each place; the place has this position
/// among the places of the pool.
pub fn slot_start(shape: &Shape, place: u32, position: usize) -> usize
    requires shape { IsShape shape.now }
    requires place { is_place shape.now place ≡ true }
    requires position { position ≡ position_of shape.now place }
    ensures start { result ≡ slot_start shape.now place }
    ensures inside { result < slot_row shape.now }
    ensures small { result < 4194304 }
{
    let _ = shape;
    position + SHARDS_APART * shard_of(place) as usize
}

/// Where the places of a shard begin in each such row.
pub fn shard_start(shape: &Shape, shard: u32) -> usize
    requires shape { IsShape shape.now }
    requires shard { shard < shape.now.lanes }
    ensures { result ≡ shard_start shape.now shard }
{
    shard as usize * shape.shard_places() as usize + SHARDS_APART * shard as usize
}

/// Where the lifecycle word of a place stands, which has this position among the places of the pool.
pub fn life_word(shape: &Shape, place: u32, position: usize) -> usize
    requires shape { IsShape shape.now }
    requires place { is_place shape.now place ≡ true }
    requires position { position ≡ position_of shape.now place }
    ensures word { result ≡ index_in shape.now (words.Life place) }
    ensures inside { result < word_count shape.now }
{
    life_at(slot_start(shape, place, position))
}

/// Where the lifecycle word of a place stands, which stands there in each row.
#[inline]
pub fn life_at(start: usize) -> usize
    requires { start < 4194304 }
    ensures { result ≡ LIVES_START + start }
{
    LIVES_START + start
}

/// Where the link word of a place stands, which has this position among the places of the pool.
pub fn link_word(shape: &Shape, place: u32, position: usize) -> usize
    requires shape { IsShape shape.now }
    requires place { is_place shape.now place ≡ true }
    requires position { position ≡ position_of shape.now place }
    ensures word { result ≡ index_in shape.now (words.Link place) }
    ensures inside { result < word_count shape.now }
{
    links_start(shape) + slot_start(shape, place, position)
}

/// Where the link words begin, which stand in the order of the lifecycle words.
pub(crate) fn links_start(shape: &Shape) -> usize
    requires { IsShape shape.now }
    ensures start { result ≡ links_start shape.now }
    ensures small { result < 4194304 }
{
    LIVES_START + slot_row(shape)
}

/// Where the stack word of a shard and another lane stands.
pub fn stack_word(shape: &Shape, shard: u32, lane: u32) -> usize
    requires shape { IsShape shape.now }
    requires lanes { (shard < shape.now.lanes) × (lane < shape.now.lanes) }
    ensures word { result ≡ index_in shape.now (words.Stack shard lane) }
    ensures inside { result < word_count shape.now }
{
    let lanes = shape.lanes as usize;
    LIVES_START + 2 * slot_row(shape) + WORDS_APART * (shard as usize * lanes + lane as usize)
}

/// How long each row is: of words, of the slots of one lane, and of what a lane has of each place.
pub fn slot_row(shape: &Shape) -> usize
    requires { IsShape shape.now }
    ensures { result ≡ slot_row shape.now }
{
    shape.all_places() as usize + SHARDS_APART * shape.lanes as usize
}

/// Where the slot of a place stands for a lane; the place has this position among the places of the pool.
pub fn slot_at(shape: &Shape, place: u32, position: usize, lane: u32) -> usize
    requires shape { IsShape shape.now }
    requires place { is_place shape.now place ≡ true }
    requires position { position ≡ position_of shape.now place }
    requires lane { lane < callers shape.now }
    ensures slot { result ≡ slot_index shape.now place lane }
    ensures inside { result < slot_count shape.now }
{
    lane as usize * slot_row(shape) + slot_start(shape, place, position)
}

// Where the places of a page stand: those of its first place.
#[derive(Clone, Copy, Debug, PartialEq, Eq)]
pub(crate) struct PageRow {
    // How many places the page has; 0 where the shape has no such page.
    pub(crate) places: u32,
    // Where its first place stands in each row of words or of slots.
    pub(crate) start: u32,
}

// The rows of all pages, `SHARD_PAGES` to a shard. None where memory was refused.
pub(crate) fn page_rows(alloc: Global, shape: &Shape) -> Option<Vec<PageRow>>
    requires { IsShape shape.now }
    ensures { IfSome result (λ rows. rows.items ≡ page_rows shape.now (page_count shape.now)) }
{
    let count = SHARD_PAGES * shape.lanes;
    let mut rows = Vec::with_capacity(alloc, count as usize).ok()?;
    for page in 0..count {
        rows.push_reserved(page_row(shape, page));
    }
    Some(rows)
}

/// The row of a page, counted over all shards.
fn page_row(shape: &Shape, page: u32) -> PageRow
    requires shape { IsShape shape.now }
    requires page { page < page_count shape.now }
    ensures { result ≡ page_row shape.now page }
{
    if page % SHARD_PAGES >= shape.pages {
        return PageRow {
            places: 0,
            start: 0,
        };
    }
    let first = page * PAGE_NUMBERS;
    PageRow {
        places: shape.page_size(page % SHARD_PAGES),
        start: slot_start(shape, first, shape.position(first)) as u32,
    }
}

/// The words before the first step: each lifecycle word is that of generation 1, idle, with count 0, as are the unused ones
/// behind those of each shard, and every other is 0.
pub(crate) fn first_words(alloc: Global, shape: &Shape) -> Option<Vec<u64>>
    requires { IsShape shape.now }
    ensures count { IfSome result (λ words. length words.items ≡ word_count shape.now) }
    ensures first { IfSome result (λ words. AreFirst shape.now (words_in shape.now words.items)) }
{
    let fresh = Life {
        generation: 1,
        count: 0,
        state: State::Idle,
    };
    let mut words = vec![in alloc; 0; word_count(shape)].ok()?;
    for start in 0..slot_row(shape) {
        words[LIVES_START + start] = fresh.word();
    }
    Some(words)
}

/// The slots before the first step: none has a share.
pub(crate) fn first_slots<T>(alloc: Global, shape: &Shape) -> Option<Vec<Slot<T>>>
    requires { IsShape shape.now }
    ensures count { IfSome result (λ slots. length slots.items ≡ slot_count shape.now) }
    ensures empty { IfSome result (λ slots. (index : ℕ) (slot : Option (Share T)) → slice_get slots.items index ≡ Some slot → slot ≡ None) }
{
    let count = shape.callers() as usize * slot_row(shape);
    let mut slots = Vec::with_capacity(alloc, count).ok()?;
    for _ in 0..count {
        slots.push_reserved(Slot::empty());
    }
    Some(slots)
}
