//! How a lane gathers the places that guests returned to its shard.
ghost use Rattle.std.specs.Prelude.{◌≡◌, ◌≢◌, ◌+◌, ◌<◌, ◌≤◌, ℕ, true, false, List, []};
ghost use Rattle.poolsteps.specs.Layout.{row_count};
ghost use Rattle.shardpool.specs.Lanes.{Owns, SameLane, Made};
ghost use Rattle.shardpool.specs.Tokens.{FillingOf};
ghost use Rattle.shardpool.specs.Gathers.{IsGathered, GathersRow, ListsGathered, AfterGather, GathersAll, rows_from, GathersUntil, AfterGatheringCreate};

use crate::bits::{ROW_PLACES, next_place};
use crate::create::{CreateFault, Filling};
use crate::pool::{Lane, Pool};
use crate::stores::keep;
use seatcalls::take_resting;
use slotcell::Clear;

impl<T: Clear + Drop> Pool<T> {
    /// Gathers the places of a row of the lane's shard that guests returned: they go to the end of its own list, the one
    /// with the highest number first. Answers how many they were. A row has 64 places, and each page begins a row: the
    /// rows of page i begin at 64 * i. It takes one step, whoever returns meanwhile, and no memory.
    pub fn gather(&self, lane: &mut Lane<T>, row: u32) -> u32
        requires owns { Owns self.now lane.old }
        requires row { row < row_count self.now.shape }
        ensures gathers { AfterGather row lane.old lane.new result }
        ensures fillings { (filling : FillingOf T) → Made lane.old filling → Made lane.new filling }
    {
        let mut word = self.gather_row(lane, row);
        let number = lane.state.number;
        let mut count = 0;
        while word != 0 {
            let place = next_place(number, row, &mut word);
            self.list_gathered(lane, place);
            count += 1;
        }
        count
    }

    /// A place to be filled, as `create` gives it, where the lane's own list is followed by what guests returned: rows of
    /// the opened pages are gathered, from the first on, until one has places; then the taken chain, what other lanes
    /// returned, and the next page. The places of the own list come first in, first out.
    ///
    /// # Errors
    ///
    /// Those of `create`, each after every row of an opened page was gathered and had no place.
    pub fn create_gathering(&self, lane: &mut Lane<T>) -> Result<Filling<T>, CreateFault>
        requires owns { Owns self.now lane.old }
        ensures { AfterGatheringCreate T.content T.room self.now lane.old lane.new result }
    {
        self.gather_some(lane);
        self.create(lane)
    }

    /// Gathers rows of the opened pages, from the first on, until the lane's own list has a place.
    fn gather_some(&self, lane: &mut Lane<T>)
        requires owns { Owns self.now lane.old }
        ensures gathers { GathersUntil lane.old lane.new }
        ensures fillings { (filling : FillingOf T) → Made lane.old filling → Made lane.new filling }
    {
        if lane.state.free.len() > 0 {
            return;
        }
        for page in 0..lane.state.pages.opened() {
            let rows = (self.grid.shape.page_size(page) + ROW_PLACES - 1) / ROW_PLACES;
            if self.gather_page(lane, 64 * page, rows) {
                return;
            }
        }
    }

    /// Gathers so many rows from this one on, until one has places. Answers whether one had.
    fn gather_page(&self, lane: &mut Lane<T>, first: u32, rows: u32) -> bool
        requires owns { Owns self.now lane.old }
        requires rows { first + rows ≤ row_count self.now.shape }
        requires own { lane.old.free.own ≡ [] }
        ensures none { result ≡ false → GathersAll (rows_from first rows) lane.old lane.new × (lane.new.free.own ≡ []) }
        ensures some { result ≡ true → (gathered : List ℕ) × GathersAll gathered lane.old lane.new × (lane.new.free.own ≢ []) }
        ensures same { SameLane lane.old lane.new × (lane.new.pages ≡ lane.old.pages) }
        ensures fillings { (filling : FillingOf T) → Made lane.old filling → Made lane.new filling }
    {
        // A proof knows the shape's limits once the table is seen.
        let _ = &self.grid;
        for row in 0..rows {
            if self.gather(lane, first + row) > 0 {
                return true;
            }
        }
        false
    }

    /// GATHER of a row: its places are with the lane, and the word tells which.
    fn gather_row(&self, lane: &mut Lane<T>, row: u32) -> u64
        requires owns { Owns self.now lane.old }
        requires row { row < row_count self.now.shape }
        ensures gathers { GathersRow row result lane.old lane.new }
        ensures fillings { (filling : FillingOf T) → Made lane.old filling → Made lane.new filling }
    {
        let number = lane.state.number;
        self.grid.gather_row(&mut lane.hand, number, row)
    }

    /// A gathered place goes to the end of the lane's list, with its object.
    fn list_gathered(&self, lane: &mut Lane<T>, place: u32)
        requires owns { Owns self.now lane.old }
        requires gathered { IsGathered lane.old place }
        ensures lists { ListsGathered place lane.old lane.new }
        ensures fillings { (filling : FillingOf T) → Made lane.old filling → Made lane.new filling }
    {
        let number = lane.state.number;
        let spot = self.grid.spot(place);
        let whole = take_resting(&self.grid, &mut lane.hand, spot, number);
        keep(&mut lane.state, spot, whole);
    }
}
