//! How loans begin and end among those that are out.
ghost use Rattle.std.specs.Prelude.{◌≡◌, ◌<◌, ◌+◌, ◌-◌, length, slice_index_or, IfSome, IsNone, IfOk, IsTrue, if◌then◌else◌};
ghost use Rattle.std.specs.Vec.{vec_len};
ghost use Rattle.shardpool.specs.Lanes.{Owns, SameLane};
ghost use Rattle.shardpool.specs.Loans.{KeepsLoans, KeepsOtherLoans};
ghost use Rattle.lendings.specs.declared.out.Out.{Out as One};
ghost use Rattle.lendings.specs.Lenders.{HaveNot, AreOut};
ghost use Rattle.lendings.specs.Outs.{loan_of, loans_of, lender_of};
ghost use Rattle.lendings.specs.Owning.{Begun, Shares, IsOwned, Ended};
ghost use Rattle.lendings.specs.Sweeps.{Sweeps};

use crate::out::Out;
use crate::owned::Owned;
use crate::refusal::Refusal;
use shardpool::{LendingLane, MOST_REFERENCES, Pool};
use slotcell::Clear;
use std::alloc::Global;
use std::sync::Arc;

/// Where the loan of a key stands. None where none is out.
pub(crate) fn find<T: Drop>(out: &[Out<T>], key: u64) -> Option<usize>
    ensures some { IfSome result (λ index. (index < length out.now) × ((d : One T) → (slice_index_or out.now index d).key ≡ key)) }
    ensures none { IsNone result → HaveNot key (loans_of out.now) }
{
    for index in 0..out.len() {
        if out[index].key == key {
            return Some(index);
        }
    }
    None
}

/// Gets a key of which no loan is out. Where it is found, its loan is then the last: whether it is.
pub(crate) fn begin<T: Clear + Drop>(
    lane: &mut LendingLane<T>,
    out: &mut Vec<Out<T>>,
    alloc: Global,
    pool: &Pool<T>,
    key: u64,
) -> Result<bool, Refusal>
    requires owns { Owns pool.now lane.old }
    requires out { AreOut T.content T.room lane.old (loans_of out.old.items) }
    requires none { HaveNot key (loans_of out.old.items) }
    ensures owns { Owns pool.now lane.new }
    ensures out { AreOut T.content T.room lane.new (loans_of out.new.items) }
    ensures kept { KeepsLoans T.content T.room lane.old lane.new }
    ensures begun { Begun T.content T.room pool.now key (lender_of lane.old out.old.items) (lender_of lane.new out.new.items) result }
    ensures last { IfOk result (λ found. IsTrue found → (0 < vec_len out.new)
        × ((d : One T) → (slice_index_or out.new.items (vec_len out.new - 1) d).key ≡ key)) }
{
    if lane.refs() >= MOST_REFERENCES {
        return Err(Refusal::References);
    }
    if out.reserve(1).is_err() {
        return Err(Refusal::Memory);
    }
    let Some(loan) = lane.lend(pool, key) else {
        return Ok(false);
    };
    match Arc::new(alloc, loan) {
        Ok(lent) => {
            out.push_reserved(Out { key, held: lent });
            Ok(true)
        }
        Err(refused) => {
            lane.give_back(pool, refused.value);
            Err(Refusal::Memory)
        }
    }
}

/// An owner more of the loan that stands here, of the lane of this number.
fn owner<T: Drop>(number: u32, out: &[Out<T>], index: usize) -> Result<Option<Owned<T>>, Refusal>
    requires { index < length out.now }
    ensures { (one : One T) × (one ≡ slice_index_or out.now index one) × Shares number (loan_of one) result }
{
    match Arc::try_clone(&out[index].held) {
        Ok(held) => Ok(Some(Owned::of(number, held))),
        Err(_) => Err(Refusal::Owners),
    }
}

/// An owner of the loan of a key: of one that is out, or of one that begins by a get. None where the get misses.
pub(crate) fn own<T: Clear + Drop>(
    lane: &mut LendingLane<T>,
    out: &mut Vec<Out<T>>,
    alloc: Global,
    pool: &Pool<T>,
    key: u64,
) -> Result<Option<Owned<T>>, Refusal>
    requires owns { Owns pool.now lane.old }
    requires out { AreOut T.content T.room lane.old (loans_of out.old.items) }
    ensures owns { Owns pool.now lane.new }
    ensures out { AreOut T.content T.room lane.new (loans_of out.new.items) }
    ensures kept { KeepsLoans T.content T.room lane.old lane.new }
    ensures owned { IsOwned T.content T.room pool.now key (lender_of lane.old out.old.items) (lender_of lane.new out.new.items) result }
{
    let number = lane.number();
    if let Some(index) = find(out.as_slice(), key) {
        return owner(number, out.as_slice(), index);
    }
    if !begin(lane, out, alloc, pool, key)? {
        return Ok(None);
    }
    owner(number, out.as_slice(), out.len() - 1)
}

/// Ends the loan that stands here, where no owner is left: the lane gives it back. Else it stays out, behind the others.
/// Whether it ended.
pub(crate) fn end<T: Clear + Drop>(
    lane: &mut LendingLane<T>,
    out: &mut Vec<Out<T>>,
    pool: &Pool<T>,
    index: usize,
) -> bool
    requires owns { Owns pool.now lane.old }
    requires out { AreOut T.content T.room lane.old (loans_of out.old.items) }
    requires index { index < length out.old.items }
    ensures owns { Owns pool.now lane.new }
    ensures same { SameLane lane.old lane.new }
    ensures out { AreOut T.content T.room lane.new (loans_of out.new.items) }
    ensures len { vec_len out.new + (if result then 1 else 0) ≡ vec_len out.old }
    ensures ended { (one : One T) × (one ≡ slice_index_or out.old.items index one)
        × Ended T.content T.room pool.now one.key (lender_of lane.old out.old.items) (lender_of lane.new out.new.items) result
        × KeepsOtherLoans T.content T.room one.key lane.old lane.new }
{
    let Out { key, held } = out.swap_remove(index);
    match Arc::try_unwrap(held) {
        Ok(loan) => {
            lane.give_back(pool, loan);
            true
        }
        Err(held) => {
            out.push_reserved(Out { key, held });
            false
        }
    }
}

/// Ends each loan of which no owner is left. How many ended.
pub(crate) fn end_all<T: Clear + Drop>(
    lane: &mut LendingLane<T>,
    out: &mut Vec<Out<T>>,
    pool: &Pool<T>,
) -> usize
    requires owns { Owns pool.now lane.old }
    requires out { AreOut T.content T.room lane.old (loans_of out.old.items) }
    ensures out { AreOut T.content T.room lane.new (loans_of out.new.items) }
    ensures sweeps { Sweeps T.content T.room pool.now (lender_of lane.old out.old.items) (lender_of lane.new out.new.items) }
    ensures ended { result + vec_len out.new ≡ vec_len out.old }
{
    let before = out.len();
    let mut index = before;
    while index > 0 {
        index -= 1;
        end(lane, out, pool, index);
    }
    before - out.len()
}
