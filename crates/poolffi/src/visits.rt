//! A put and a get by a lane that a caller has for the one call.
ghost use Rattle.std.specs.Prelude.{◌≡◌, length};
ghost use Rattle.shardpool.specs.Lanes.{Owns, Made};
ghost use Rattle.lanestore.specs.Fillings.{HaveNot};
ghost use Rattle.lanestore.specs.Visits.{lane_of, kept_of};
ghost use Rattle.poolffi.specs.ByteCalls.{Puts, GivesUp, Gets};

use crate::found::Found;
use crate::refusal::Refusal;
use lanestore::Visit;
use shardpool::{CreateFault, Filling, Pool};
use slotcell::ByteBuf;

/// Publishes these bytes in a place of their own, and answers the key.
pub(crate) fn put(
    visit: &mut Visit<ByteBuf>,
    pool: &Pool<ByteBuf>,
    bytes: &[u8],
) -> Result<u64, Refusal>
    requires { Owns pool.now (lane_of visit.old) }
    ensures owns { Owns pool.now (lane_of visit.new) }
    ensures puts { Puts pool.now bytes.now (lane_of visit.old) (lane_of visit.new) result }
{
    match visit.begin(pool) {
        Ok(mut filling) => match filling.value_mut().append(bytes) {
            Ok(()) => Ok(visit.finish(pool, filling)),
            Err(_refused) => {
                give_up(visit, pool, filling);
                Err(Refusal::Memory)
            }
        },
        Err(CreateFault::Full) => Err(Refusal::Full),
        Err(CreateFault::Memory) => Err(Refusal::Memory),
    }
}

/// Gives a place back to which its bytes couldn't be appended: it is published as it is, and cleared.
#[cold]
#[inline(never)]
fn give_up(visit: &mut Visit<ByteBuf>, pool: &Pool<ByteBuf>, filling: Filling<ByteBuf>)
    requires owns { Owns pool.now (lane_of visit.old) }
    requires made { Made (lane_of visit.old) filling }
    requires apart { HaveNot filling.key (kept_of visit.old) }
    ensures owns { Owns pool.now (lane_of visit.new) }
    ensures gives_up { GivesUp pool.now filling (lane_of visit.old) (lane_of visit.new) }
{
    let key = visit.finish(pool, filling);
    visit.clear(pool, key);
}

/// A reference more to a key, which the lane keeps, and where its bytes are.
pub(crate) fn get(
    visit: &mut Visit<ByteBuf>,
    pool: &Pool<ByteBuf>,
    key: u64,
) -> Result<Found, Refusal>
    requires { Owns pool.now (lane_of visit.old) }
    ensures owns { Owns pool.now (lane_of visit.new) }
    ensures gets { Gets pool.now key (lane_of visit.old) (lane_of visit.new) result }
{
    if !visit.has_room() {
        return Err(Refusal::References);
    }
    let Some(lent) = visit.get(pool, key) else {
        return Err(Refusal::Gone);
    };
    let lane = lent.lane();
    lent.forget();
    let Some(object) = visit.read(key) else {
        unreachable!()
    };
    let (at, len) = place_of(object.as_slice());
    Ok(Found { at, len, lane })
}

/// Where bytes are, and how many. Null where there are none.
fn place_of(bytes: &[u8]) -> (*const u8, usize)
    ensures { result.1 ≡ length bytes.now }
{
    if bytes.is_empty() {
        (std::ptr::null(), 0)
    } else {
        (std::ptr::from_ref(&bytes[0]), bytes.len())
    }
}
