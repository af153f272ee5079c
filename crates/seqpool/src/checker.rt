//! The checker: whether a list of acts is a legal history, and its counts.

ghost use Rattle.std.specs.Prelude.{◌≡◌, ◌≢◌, ◌↔◌, ℕ, IfOk, IsErrOf, count_by};
ghost use Rattle.keybits.specs.Shapes.{IsNarrow};
ghost use Rattle.seqpool.specs.declared.fault.ApplyFault.{ApplyFault};
ghost use Rattle.seqpool.specs.declared.fault.ApplyFault.TheVariants as faults;
ghost use Rattle.seqpool.specs.declared.fault.CheckFault.TheVariants.{Illegal};
ghost use Rattle.seqpool.specs.Pool.{IsLegal, pool_after};
ghost use Rattle.seqpool.specs.Rows.{pool_in};
ghost use Rattle.seqpool.specs.Checker.{IsSummary, HasLaws, IsIllegalAt, is_publish, is_reclaim};

use crate::act::Act;
use crate::fault::{ApplyFault, CheckFault};
use crate::pool::SeqPool;
use crate::row::{Row, Standing};
use crate::summary::{Group, Summary};
use keybits::Shape;
use std::alloc::Global;

/// Whether a list of acts is a legal history of a pool of a shape of the narrow limits, with its counts.
///
/// `Illegal` names the first act that is refused, counted from 0, and the refusal of `SeqPool::apply`. `Memory` comes
/// where a growth was refused.
pub fn check(alloc: Global, shape: Shape, acts: &[Act]) -> Result<Summary, CheckFault>
    requires { IsNarrow shape }
    ensures legal { IfOk result (λ summary. IsLegal shape acts.now) }
    ensures laws { IfOk result (λ summary. HasLaws shape acts.now) }
    ensures counts { IfOk result (λ summary. IsSummary shape acts.now summary) }
    ensures illegal { (i : ℕ) (fault : ApplyFault) → IsErrOf result (Illegal i fault) → IsIllegalAt shape acts.now i fault }
{
    let pool = match pool_of(alloc, shape, acts) {
        Ok(pool) => pool,
        Err(fault) => return Err(fault),
    };
    let (published, reclaimed) = published_and_reclaimed(acts);
    Ok(Summary {
        acts: acts.len(),
        published,
        reclaimed,
        present: pool.count(Group::Present),
        marked: pool.count(Group::Marked),
        home: pool.count(Group::Home),
        retired: pool.count(Group::Retired),
    })
}

/// The pool after a legal history.
fn pool_of(alloc: Global, shape: Shape, acts: &[Act]) -> Result<SeqPool, CheckFault>
    requires { IsNarrow shape }
    ensures legal { IfOk result (λ pool. IsLegal shape acts.now) }
    ensures shape { IfOk result (λ pool. pool.shape ≡ shape) }
    ensures pool { IfOk result (λ pool. pool_in pool ≡ pool_after shape acts.now) }
    ensures illegal { (i : ℕ) (fault : ApplyFault) → IsErrOf result (Illegal i fault) → IsIllegalAt shape acts.now i fault }
{
    let mut pool = SeqPool::new(alloc, shape)?;
    for (index, act) in acts.iter().enumerate() {
        if let Err(fault) = pool.apply(act) {
            return Err(refusal(index, fault));
        }
    }
    Ok(pool)
}

/// Why a history isn't found legal whose act at this index is refused.
fn refusal(index: usize, fault: ApplyFault) -> CheckFault
    ensures { (i : ℕ) (why : ApplyFault) → result ≡ Illegal i why → (i ≡ index) × (why ≡ fault) × (fault ≢ faults.Memory) }
{
    match fault {
        ApplyFault::Memory => CheckFault::Memory,
        _ => CheckFault::Illegal { index, fault },
    }
}

/// How many of the acts publish, and how many reclaim.
fn published_and_reclaimed(acts: &[Act]) -> (usize, usize)
    ensures published { result.0 ≡ count_by is_publish acts.now }
    ensures reclaimed { result.1 ≡ count_by is_reclaim acts.now }
{
    let mut published = 0;
    let mut reclaimed = 0;
    for act in acts {
        match act {
            Act::Publish { .. } => published += 1,
            Act::Reclaim { .. } => reclaimed += 1,
            _ => {}
        }
    }
    (published, reclaimed)
}

impl Row {
    ghost use Rattle.std.specs.Prelude.{◌≡◌};
    ghost use Rattle.seqpool.specs.Rows.{phase_of};
    ghost use Rattle.seqpool.specs.Checker.{is_in};

    /// Whether the place is of the group.
    fn is_in(&self, group: Group) -> bool
        ensures { result ≡ is_in group (phase_of self.now.standing) }
    {
        match (group, &self.standing) {
            (Group::Present, Standing::Published { marked, .. }) => !*marked,
            (Group::Marked, Standing::Published { marked, .. }) => *marked,
            (Group::Home, Standing::Home) | (Group::Retired, Standing::Retired) => true,
            _ => false,
        }
    }
}

impl SeqPool {
    ghost use Rattle.seqpool.specs.Rows.{pool_in};
    ghost use Rattle.seqpool.specs.Checker.{AreIn};

    /// How many places are of the group.
    fn count(&self, group: Group) -> usize
        ensures { AreIn self.now.shape (pool_in self.now) group result }
    {
        let mut count = 0;
        for position in 0..self.shape.all_places() {
            let place = self.shape.place_at(position);
            if self.row(place).is_in(group) {
                count += 1;
            }
        }
        count
    }
}
