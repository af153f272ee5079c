//! What the log's lanes do with entries: a worker publishes them, and the collector reads and clears them.
ghost use Rattle.std.specs.Prelude.{◌≡◌, ◌<◌, ◌≤◌, ◌↔◌, ℕ, false, List, length, IfOk, IfErr, IfSome, IsNone, IsSome, IsErrOf};
ghost use Rattle.keybits.specs.Keys.{is_key};
ghost use Rattle.shardpool.specs.Tokens.{LaneOf};
ghost use Rattle.shardpool.specs.Lanes.{Made};
ghost use Rattle.poollaws.specs.Words.{IsPublished, IsGone};
ghost use Rattle.poollaws.specs.Rooms.{KnowsRoom};
ghost use Rattle.guards.specs.Guarded.{Uses};
ghost use Rattle.guards.specs.Several.{Missed};
ghost use Rattle.guards.specs.Seated.{GoesOn, Keeps, Puts};
ghost use Rattle.logsample.specs.declared.calls.LogFault.TheVariants as faults;
ghost use Rattle.logsample.specs.Requests.{numbers_of, content_of, line_of};
ghost use Rattle.logsample.specs.Histories.{LogsNothing, NobodyFinds, IsNext, Collects};

use crate::entries::{Entry, Line, Request};
use guards::{PoolName, Seat, Told, goes_on_law};
use poollaws::{going_law, gone_law, key_law, room_kept_law};
use shardpool::{CreateFault, Filling};

/// Why a request wasn't logged.
#[derive(Clone, Copy, Debug, PartialEq, Eq)]
pub enum LogFault {
    /// It has no status.
    NoStatus,
    /// No place was given for it.
    NoPlace(CreateFault),
    /// Memory was refused for its path.
    Memory,
    /// The collector is gone.
    Unheard,
}

/// Publishes a request. Answers its key. The place of the entry has room for the path from then on, whenever it is used
/// again.
///
/// # Errors
///
/// `NoStatus`, `NoPlace` as `Pool::create`, or `Memory`. Nothing is then published.
pub fn log<N: PoolName>(
    seat: &mut Seat<'_, N, Entry>,
    request: &Request<'_>,
) -> Result<u64, LogFault>
    ensures published { IfOk result (λ key. IsPublished seat.new.lane.book.seen key (numbers_of request.now)) }
    ensures room { IfOk result (λ key. KnowsRoom seat.new.lane key (length request.now.path.now)) }
    ensures reused { IfOk result (λ key. (last size : ℕ) → KnowsRoom seat.old.lane last size → IsNext key last
        → KnowsRoom seat.new.lane key size) }
    ensures no_status { IsErrOf result faults.NoStatus ↔ (request.now.status ≡ 0) }
    ensures logs { IfOk result (Puts content_of (λ entry. entry.path.room) N.pool.shape (numbers_of request.now) seat.old.lane
        seat.new.lane) }
    ensures none { IfErr result (λ fault. LogsNothing request.now fault seat.old.lane seat.new.lane) }
    ensures keeps { Keeps Entry seat.old.lane seat.new.lane }
    ensures number { seat.new.lane.number ≡ seat.old.lane.number }
    ensures goes { GoesOn seat.old.lane seat.new.lane }
{
    if request.status == 0 {
        return Err(LogFault::NoStatus);
    }
    goes_on_law();
    room_kept_law::<Entry>();
    match seat.create() {
        Ok(filling) => match fill(filling, request) {
            Some(filled) => Ok(seat.publish(filled)),
            None => Err(LogFault::Memory),
        },
        Err(fault) => Err(LogFault::NoPlace(fault)),
    }
}

/// Writes a request into a filling. None where memory was refused for its path: the place is then lost until the pool
/// is closed.
fn fill(mut filling: Filling<Entry>, request: &Request<'_>) -> Option<Filling<Entry>>
    requires { 0 < request.now.status }
    ensures key { IfSome result (λ filled. filled.key ≡ filling.key) }
    ensures made { IfSome result (λ filled. (lane : LaneOf) → Made lane filling → Made lane filled) }
    ensures content { IfSome result (λ filled. content_of filled.object ≡ numbers_of request.now) }
    ensures room { IfSome result (λ filled. filling.object.path.room ≤ filled.object.path.room) }
    ensures roomy { IfSome result (λ filled. length request.now.path.now ≤ filled.object.path.room) }
    ensures none { IsNone result → filling.object.path.room < length request.now.path.now }
{
    if filling.value_mut().write(request).is_err() {
        filling.forget();
        return None;
    }
    Some(filling)
}

/// Reads an entry. None where its key isn't published, or is cleared.
pub fn read<N: PoolName>(seat: &mut Seat<'_, N, Entry>, key: u64) -> Option<Line>
    ensures shown { IfSome result (λ line. (content : List ℕ) → IsPublished seat.old.lane.book.seen key content → line ≡ line_of content) }
    ensures uses { IsSome result → Uses key seat.old.lane seat.new.lane }
    ensures misses { IsNone result → Missed N.pool.shape key seat.old.lane seat.new.lane }
    ensures outside { is_key N.pool.shape key ≡ false → IsNone result }
    ensures missed { IsNone result → IsGone seat.old.lane.book.seen seat.new.lane.book.seen key }
    ensures keeps { Keeps Entry seat.old.lane seat.new.lane }
    ensures number { seat.new.lane.number ≡ seat.old.lane.number }
    ensures goes { GoesOn seat.old.lane seat.new.lane }
{
    seat.with(key, |entry: &Entry| entry.line())
}

/// Hears of an entry, reads it and clears it. What it reads is what was published under the key, which nobody finds
/// from then on. None where another cleared it before.
pub fn collect<N: PoolName>(seat: &mut Seat<'_, N, Entry>, told: Told<N, Entry>) -> Option<Line>
    ensures published { IsPublished seat.new.lane.book.seen told.key told.content }
    ensures shown { IfSome result (λ line. line ≡ line_of told.content) }
    ensures unfound { NobodyFinds N.pool.shape seat.new.lane.book.seen told.key }
    ensures collects { Collects N.pool.shape told.key result seat.old.lane seat.new.lane }
    ensures keeps { Keeps Entry seat.old.lane seat.new.lane }
    ensures number { seat.new.lane.number ≡ seat.old.lane.number }
    ensures goes { GoesOn seat.old.lane seat.new.lane }
{
    let key = seat.hear(told);
    let line = read(seat, key);
    seat.clear(key);
    seat.seen_law();
    key_law();
    going_law();
    goes_on_law();
    gone_law();
    line
}
