//! How a lane takes back a place that a guest claimed.
ghost use Rattle.std.specs.Prelude.{◌≡◌, ◌≤◌, []};
ghost use Rattle.keybits.specs.Places.{shard_of};
ghost use Rattle.poolsteps.specs.Shares.{room_of};
ghost use Rattle.seatcalls.specs.Guests.{given_acts};
ghost use Rattle.seatcalls.specs.Visitors.{Visits};
ghost use Rattle.shardpool.specs.Tokens.{FillingOf};
ghost use Rattle.shardpool.specs.Lanes.{Owns, OwnsGuest, Made};
ghost use Rattle.shardpool.specs.Gathers.{AfterTakeBack};

use crate::bits::row_of;
use crate::notes::Note;
use crate::pool::{Lane, Pool};
use seatcalls::{Claimed, Guest};
use slotcell::Clear;

impl<T: Clear + Drop> Pool<T> {
    /// Takes back a place of the lane's own shard that a guest claimed, and whose object is empty and has no less room than it
    /// had when it was published: it goes to the end of the lane's own list, among the places that guests returned to its row.
    /// Answers the guest. Where the place's last generation is over, it gets no object any more; this one is dropped. The guest
    /// makes one step at most and the lane one, whoever steps meanwhile, and it takes no memory.
    pub fn take_back(&self, lane: &mut Lane<T>, claimed: Claimed<T>) -> Guest<T>
        requires owns { Owns self.now lane.old × OwnsGuest self.now claimed.guest }
        requires own { shard_of claimed.place ≡ lane.old.number }
        requires directory { claimed.directory ≡ self.now.directory }
        requires empty { T.content claimed.object ≡ [] }
        requires room { room_of claimed.guest.book.seen claimed.guest.book.rooms claimed.place ≤ T.room claimed.object }
        ensures gives { Visits (given_acts claimed.guest.shape claimed.guest.number claimed.place claimed.generation) 1 4
            claimed.guest result }
        ensures takes { AfterTakeBack claimed.place claimed.generation lane.old lane.new }
        ensures fillings { (filling : FillingOf T) → Made lane.old filling → Made lane.new filling }
    {
        let mut claimed = claimed;
        lane.seen_law();
        let row = row_of(claimed.place());
        // The guest sees what the lane had seen, and then the lane what the guest has: so the return comes behind all that the
        // lane did.
        let note = self.tell(lane);
        claimed.hear(&self.grid, note.hand);
        let mut guest = self.give_back(claimed);
        let hand = guest.tell(&self.grid);
        self.hear(lane, Note { hand });
        self.gather(lane, row);
        guest
    }
}
