//! What the places of a pool are when it is closed.
ghost use Rattle.std.specs.Prelude.{◌≡◌, ◌+◌, ◌<◌, ◌≤◌, ℕ, true, List, [], ◌∷◌, map, length, min, All, Contains};
ghost use Rattle.std.specs.Vec.{vec_capacity};
ghost use Rattle.core.specs.Mem.Slots.{slots_items, slots_len, slots_ptr, IsFull};
ghost use Rattle.keybits.specs.declared.place.Place.{Place as Shown};
ghost use Rattle.keybits.specs.Places.{shard_of, page_of, number_of};
ghost use Rattle.keybits.specs.Shapes.{IsShape, is_place, page_start, shard_places, all_places};
ghost use Rattle.freelists.specs.Queues.{AreFree};
ghost use Rattle.keybits.specs.Rows.{set_places};
ghost use Rattle.poolsteps.specs.Layout.{row_count, word_count, words_in, spots_at};
ghost use Rattle.poolsteps.specs.Joins.{IsSlotRow, HasCell};
ghost use Rattle.shardpool.specs.Remains.{HasCells, IsDrained, DrainsShard};
ghost use Rattle.shardpool.specs.Stores.{AreOfShard};
ghost use Rattle.seqpool.specs.declared.act.Act.{Act};
ghost use Rattle.shardpool.specs.Tokens.{LaneOf};
ghost use Rattle.shardpool.specs.Closings.{none_counted, counted, places_counted, IsCensus, AreLast};
ghost use Rattle.shardpool.specs.Marks.{IsRow, Blanks, IsThread, AreThreads, stacked, row_given, ArePlacesOf, AreGiven, AreFreePlaces, returned_places, part_by_word, IsIdleWord, Counts};

use crate::bits::{ROW_PLACES, next_place};
use crate::pool::LaneState;
use core::slots::Slots;
use freelists::LocalFree;
use keybits::{Life, Shape, State, link_to, linked_place};
use poolsteps::{
    Base, Objects, Slot, bits_word, life_at, life_word, link_word, out_cell, shard_start,
    stack_word,
};
use std::alloc::Global;

/// How many places of a pool were what when it was closed. The six numbers add up to all its places.
#[derive(Clone, Copy, Debug, PartialEq, Eq)]
pub struct Census {
    /// Places that a create could have handed out: on a lane's list, taken, or returned.
    pub free: u32,
    /// Places of pages that were never opened.
    pub unopened: u32,
    /// Places that a create handed out and nobody published.
    pub filling: u32,
    /// Published places whose key wasn't cleared.
    pub present: u32,
    /// Published places whose key was cleared, and to which somebody still referred.
    pub marked: u32,
    /// Places that were used up.
    pub retired: u32,
}

/// What a place is when its pool is closed: under which of a census's numbers it is counted.
pub enum Part {
    Free,
    Unopened,
    Filling,
    Present,
    Marked,
    Retired,
}

impl Census {
    /// A census of no place.
    fn none() -> Census
        ensures { result ≡ none_counted }
    {
        Census {
            free: 0,
            unopened: 0,
            filling: 0,
            present: 0,
            marked: 0,
            retired: 0,
        }
    }

    /// One place more is this.
    fn count(&mut self, part: Part)
        requires { places_counted self.old < 4294967295 }
        ensures { self.new ≡ counted self.old part }
    {
        match part {
            Part::Free => self.free += 1,
            Part::Unopened => self.unopened += 1,
            Part::Filling => self.filling += 1,
            Part::Present => self.present += 1,
            Part::Marked => self.marked += 1,
            Part::Retired => self.retired += 1,
        }
    }
}

/// The census of a pool, by its last words and what its lanes keep. The cells in the slots are then with the lanes' own,
/// which are left.
pub(crate) fn take_census<T: Drop>(
    directory: Base<T>,
    shape: &Shape,
    states: Vec<LaneState<T>>,
    words: &mut Slots<u64>,
    slots: &mut Slots<Slot<T>>,
    rights: &mut Vec<Objects<T>>,
) -> Census
    requires shape { IsShape shape.now }
    requires words { IsFull words.old × (slots_len words.old ≡ word_count shape.now) }
    requires slots { IsSlotRow shape.now slots.old }
    requires last { (history : List Act) × (lanes : List LaneOf)
        × AreLast shape.now history lanes states.items (words_in shape.now (slots_items words.old))
        × HasCells (spots_at directory.ptr shape.now) shape.now history lanes (slots_items slots.old) }
    requires objects { All (λ state. (state.objects.directory ≡ directory.ptr)
        × AreOfShard shape.now state.number state.objects) states.items }
    requires rights { (rights.old.items ≡ []) × (length states.items ≤ vec_capacity rights.old) }
    ensures rights { All (λ lane. lane.directory ≡ directory.ptr) rights.new.items }
    ensures census { (history : List Act) (lanes : List LaneOf)
        → AreLast shape.now history lanes states.items (words_in shape.now (slots_items words.old))
        → IsCensus shape.now history lanes result }
    ensures adds { places_counted result ≡ all_places shape.now }
    ensures words { IsFull words.new × (slots_len words.new ≡ slots_len words.old) × (slots_ptr words.new ≡ slots_ptr words.old) }
    ensures slots { IsSlotRow shape.now slots.new × (slots_ptr slots.new ≡ slots_ptr slots.old) }
    ensures gone { (history : List Act) (lanes : List LaneOf)
        → AreLast shape.now history lanes states.items (words_in shape.now (slots_items words.old))
        → (place : ℕ) → is_place shape.now place ≡ true → IsDrained shape.now history lanes (slots_items slots.new) place }
{
    let mut census = Census::none();
    for mut state in states {
        let opened = state.pages.opened();
        mark_returned(shape, state.number, opened, &state.free, words);
        out_cells(
            directory,
            shape,
            state.number,
            opened,
            words,
            slots,
            &mut state.objects,
        );
        mark_list(shape, &mut state.free, words);
        count_shard(shape, state.number, opened, words, &mut census);
        rights.push_reserved(rights_of(state));
    }
    census
}

/// The rights of a lane.
fn rights_of<T: Drop>(state: LaneState<T>) -> Objects<T>
    ensures { result ≡ state.objects }
{
    let LaneState { objects, .. } = state;
    objects
}

/// The places of a shard that were returned are marked: those of its taken chain, those on its stacks, and those that
/// guests returned. So many pages are opened.
fn mark_returned(shape: &Shape, shard: u32, opened: u32, free: &LocalFree, words: &mut Slots<u64>)
    requires shape { IsShape shape.now }
    requires shard { shard < shape.now.lanes }
    requires row { IsRow shape.now words.old }
    requires free { (chain : List ℕ) × (threads : ℕ → List ℕ) × (given : List ℕ)
        × AreFreePlaces shape.now (slots_items words.old) shard opened free.now chain threads given }
    ensures { (chain : List ℕ) (threads : ℕ → List ℕ) (given : List ℕ)
        → AreFreePlaces shape.now (slots_items words.old) shard opened free.now chain threads given
        → Blanks shape.now (returned_places shape.now shard chain threads given) words.old words.new }
{
    if let Some(first) = free.chain() {
        mark_thread(shape, shard, link_to(first.number()), words);
    }
    mark_stacks(shape, shard, words);
    mark_given(shape, shard, opened, words);
}

/// The places of a lane's own list are marked, which then is empty.
fn mark_list(shape: &Shape, free: &mut LocalFree, words: &mut Slots<u64>)
    requires shape { IsShape shape.now }
    requires row { IsRow shape.now words.old }
    requires own { (place : Shown) → Contains free.old.own place → is_place shape.now (number_of place) ≡ true }
    ensures marks { Blanks shape.now (map number_of free.old.own) words.old words.new }
    ensures chain { free.new.chain ≡ free.old.chain }
    ensures free { AreFree free.new }
{
    while let Some(place) = free.pop() {
        mark(shape, place.number(), words);
    }
}

/// The places on the stacks of a shard are marked.
fn mark_stacks(shape: &Shape, shard: u32, words: &mut Slots<u64>)
    requires shape { IsShape shape.now }
    requires shard { shard < shape.now.lanes }
    requires row { IsRow shape.now words.old }
    requires threads { (threads : ℕ → List ℕ) × AreThreads shape.now (slots_items words.old) shard threads }
    ensures { (threads : ℕ → List ℕ) → AreThreads shape.now (slots_items words.old) shard threads
        → Blanks shape.now (stacked shard threads shape.now.lanes) words.old words.new }
{
    for lane in 0..shape.lanes {
        if lane != shard {
            let word = *words.get(stack_word(shape, shard, lane));
            mark_thread(shape, shard, word, words);
        }
    }
}

/// The places of a shard that guests returned are marked. So many pages are opened.
fn mark_given(shape: &Shape, shard: u32, opened: u32, words: &mut Slots<u64>)
    requires shape { IsShape shape.now }
    requires shard { shard < shape.now.lanes }
    requires row { IsRow shape.now words.old }
    requires given { (given : List ℕ) × AreGiven shape.now (slots_items words.old) shard opened given }
    ensures { (given : List ℕ) → AreGiven shape.now (slots_items words.old) shard opened given
        → Blanks shape.now given words.old words.new }
{
    for page in 0..opened.min(shape.pages) {
        let rows = (shape.page_size(page) + ROW_PLACES - 1) / ROW_PLACES;
        mark_rows(shape, shard, 64 * page, rows, words);
    }
}

/// The places of a shard are marked whose bits are set in so many rows, from this one on.
fn mark_rows(shape: &Shape, shard: u32, first: u32, rows: u32, words: &mut Slots<u64>)
    requires shape { IsShape shape.now }
    requires shard { shard < shape.now.lanes }
    requires rows { first + rows ≤ row_count shape.now }
    requires row { IsRow shape.now words.old }
    requires places { ArePlacesOf shape.now shard (row_given shard ((words_in shape.now (slots_items words.old)).bits shard) first rows) }
    ensures { Blanks shape.now (row_given shard ((words_in shape.now (slots_items words.old)).bits shard) first rows) words.old words.new }
{
    for row in 0..rows {
        let word = *words.get(bits_word(shape, shard, first + row));
        mark_row(shape, shard, first + row, word, words);
    }
}

/// The places of a row of a shard are marked whose bits are set in this word.
fn mark_row(shape: &Shape, shard: u32, row: u32, mut word: u64, words: &mut Slots<u64>)
    requires shape { IsShape shape.now }
    requires shard { shard < shape.now.lanes }
    requires number { row < row_count shape.now }
    requires row { IsRow shape.now words.old }
    requires places { ArePlacesOf shape.now shard (set_places shard row word) }
    ensures { Blanks shape.now (set_places shard row word) words.old words.new }
{
    while word != 0 {
        let place = next_place(shard, row, &mut word);
        mark(shape, place, words);
    }
}

/// The places of a shard are marked through which the link words lead from this word.
fn mark_thread(shape: &Shape, shard: u32, mut word: u64, words: &mut Slots<u64>)
    requires shape { IsShape shape.now }
    requires shard { shard < shape.now.lanes }
    requires row { IsRow shape.now words.old }
    requires thread { (thread : List ℕ) × IsThread shape.now (slots_items words.old) shard word thread }
    ensures { (thread : List ℕ) → IsThread shape.now (slots_items words.old) shard word thread
        → Blanks shape.now thread words.old words.new }
{
    while word != 0 {
        let place = linked_place(shard, word);
        mark(shape, place, words);
        word = *words.get(link_word(shape, place, shape.position(place)));
    }
}

/// A place is marked: its lifecycle word becomes 0, which no lifecycle word is.
fn mark(shape: &Shape, place: u32, words: &mut Slots<u64>)
    requires shape { IsShape shape.now }
    requires place { is_place shape.now place ≡ true }
    requires row { IsRow shape.now words.old }
    ensures { Blanks shape.now (place ∷ []) words.old words.new }
{
    words.put(life_word(shape, place, shape.position(place)), 0);
}

/// How many places of a shard are of so many pages, the lowest, or of all pages where it has fewer.
fn places_of_pages(shape: &Shape, pages: u32) -> u32
    requires { IsShape shape.now }
    ensures { result ≡ page_start shape.now (min pages shape.now.pages) }
{
    let mut places = 0;
    for page in 0..pages.min(shape.pages) {
        places += shape.page_size(page);
    }
    places
}

/// The cells that the slots of a shard's places have are taken out: of the places whose lifecycle word is 0, of published
/// places, and of retired ones. They are then with the lane's objects. Places of unopened
/// pages have none.
fn out_cells<T: Drop>(
    directory: Base<T>,
    shape: &Shape,
    shard: u32,
    opened: u32,
    words: &Slots<u64>,
    slots: &mut Slots<Slot<T>>,
    objects: &mut Objects<T>,
)
    requires shape { IsShape shape.now }
    requires shard { shard < shape.now.lanes }
    requires words { IsRow shape.now words.now }
    requires row { IsSlotRow shape.now slots.old }
    requires cells { (place : ℕ) → is_place shape.now place ≡ true → shard_of place ≡ shard
        → HasCell (spots_at directory.ptr shape.now) shape.now (slots_items slots.old) place
        ((words_in shape.now (slots_items words.now)).life place) }
    requires idle { (place : ℕ) → is_place shape.now place ≡ true → shard_of place ≡ shard → opened ≤ page_of place
        → IsIdleWord ((words_in shape.now (slots_items words.now)).life place) }
    requires objects { (objects.old.directory ≡ directory.ptr) × AreOfShard shape.now shard objects.old }
    ensures objects { objects.new ≡ objects.old }
    ensures drains { DrainsShard shape.now shard (words_in shape.now (slots_items words.now)).life slots.old slots.new }
{
    let places = shape.shard_places() as usize;
    let first = shard_start(shape, shard);
    let opened_places = places_of_pages(shape, opened);
    for index in 0..opened_places as usize {
        let position = shard as usize * places + index;
        let place = shape.place_at(position);
        let word = *words.get(life_at(first + index));
        if let Some(whole) = out_cell(directory, shape, place, position, word, slots) {
            objects.bring_back(first + index, whole);
        }
    }
}

/// The places of a shard are counted, of which so many pages are opened, and whose free places are marked.
fn count_shard(shape: &Shape, shard: u32, opened: u32, words: &Slots<u64>, census: &mut Census)
    requires shape { IsShape shape.now }
    requires shard { shard < shape.now.lanes }
    requires row { IsRow shape.now words.now }
    requires room { places_counted census.old + shard_places shape.now ≤ 4294967295 }
    ensures { Counts shape.now shard opened (slots_items words.now) census.old census.new }
{
    let first = shard_start(shape, shard);
    let opened_places = places_of_pages(shape, opened);
    for index in 0..opened_places as usize {
        census.count(part_of(*words.get(life_at(first + index))));
    }
    census.unopened += shape.shard_places() - opened_places;
}

/// What a place of an opened page is, by its lifecycle word, which is 0 where it is marked.
fn part_of(word: u64) -> Part
    ensures { result ≡ part_by_word word }
{
    if word == 0 {
        return Part::Free;
    }
    match Life::of_word(word).state {
        State::Idle => Part::Filling,
        State::Present => Part::Present,
        State::Marked => Part::Marked,
        State::Retired => Part::Retired,
    }
}
