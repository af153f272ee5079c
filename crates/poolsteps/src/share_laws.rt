//! The laws of shares, as calls that do nothing: whoever calls one may use its law in a proof. Each says of an act, or
//! of a move of one slot, what it asks of the lane, and that afterwards every share is where it is to be.
ghost use Rattle.std.specs.Prelude.{ℕ};
ghost use Rattle.poolsteps.specs.Spot.{Spot};
ghost use Rattle.poolsteps.specs.ShareLaws.{FirstShareLaw, ActsShareLaw, PublishShareLaw, ReclaimShareLaw, HomeShareLaw, CollectShareLaw, MoveLaw, RightsLaw};
ghost use Rattle.poolsteps.specs.PlaceLaws.{WithLaw, HeldContentLaw};

use slotcell::Clear;

/// Where every slot is empty and nothing was done, the shares are where they are to be.
pub fn first_share_law<T: Clear>()
    ensures { (spots : ℕ → Spot) → FirstShareLaw T.content T.room spots }
{}

/// A get, a clear and a release move no share. The last reference of a lane is given back only where its share is.
pub fn acts_share_law<T: Clear>()
    ensures { (spots : ℕ → Spot) → ActsShareLaw T.content T.room spots }
{}

/// A publish: the shares of its cell stand in the slots, but for that of a lane that gets a reference with it.
pub fn publish_share_law<T: Clear>()
    ensures { (spots : ℕ → Spot) → PublishShareLaw T.content T.room spots }
{}

/// A reclaim: all shares are then with its lane, which knows the cell.
pub fn reclaim_share_law<T: Clear>()
    ensures { (spots : ℕ → Spot) → ReclaimShareLaw T.content T.room spots }
{}

/// A place is returned whole, empty and with at least its room.
pub fn home_share_law<T: Clear>()
    ensures { (spots : ℕ → Spot) → HomeShareLaw T.content T.room spots }
{}

/// Places that are collected have their cells whole, empty and with at least their rooms.
pub fn collect_share_law<T: Clear>()
    ensures { (spots : ℕ → Spot) → CollectShareLaw T.content T.room spots }
{}

/// A lane that may have a share moves it, out of its slot or into it.
pub fn move_law<T: Clear>()
    ensures { (spots : ℕ → Spot) → MoveLaw T.content T.room spots }
{}

/// What a lane may have stays while others act, with whether the place is published, its room, and what is known of its
/// cell.
pub fn rights_law()
    ensures { RightsLaw }
{}

/// A place that is with a lane stays so, in its generation and with its room, until the lane publishes or returns it.
pub fn with_law()
    ensures { WithLaw }
{}

/// A key to which a lane refers was published, and its place has that content.
pub fn held_content_law()
    ensures { HeldContentLaw }
{}
