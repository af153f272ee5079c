//! Everything that the lanes of a script file can reply.
ghost use Rattle.std.specs.Prelude.{◌≡◌, ◌≢◌, ◌↔◌, true, false, length, IfOk, IfErr, OnOk, IsErrOf};
ghost use Rattle.keybits.specs.Shapes.{IsNarrow};
ghost use Rattle.poolprogram.specs.Outcomes.{fault_of, IsOutcomesOf, IsOutcomesFault, WritesOutcomes, RefusesOutcomes};

use crate::run_fault::RunFault;
use outcomes::{Unlisted, all_outcomes, outcomes_text};
use scripts::{Plan, parse};
use std::alloc::Global;
use std::io::Write;
use streams::{Watched, write_and_flush};

/// The fault of outcomes that aren't listed.
fn fault_of(fault: Unlisted) -> RunFault
    ensures { result ≡ fault_of fault }
{
    match fault {
        Unlisted::TooMany(reached) => RunFault::TooMany(reached),
        Unlisted::Memory => RunFault::Memory,
    }
}

/// The text of every outcome of a plan.
#[tactic(auto, using(crate::proofs::Outcoming::is_fault))]
fn plan_text(alloc: Global, plan: Plan, most: u64, count: bool) -> Result<Vec<u8>, RunFault>
    requires shape { IsNarrow plan.shape }
    requires count { length plan.scripts ≡ plan.shape.lanes }
    ensures ok { IfOk result (λ text. IsOutcomesOf plan most count text.items) }
    ensures err { IfErr result (IsOutcomesFault most) }
{
    let Plan { shape, scripts } = plan;
    match all_outcomes(alloc, &shape, scripts.as_slice(), most) {
        Ok(found) => {
            let text = outcomes_text(alloc, &found, count)?;
            Ok(text)
        }
        Err(fault) => Err(fault_of(fault)),
    }
}

/// Writes how many states, schedules and outcomes the plan has that a script file stands for, and, unless `count` holds,
/// each outcome: how many schedules end so, the first of them, and what the lanes reply. The errors: `Read` as `parse`
/// answers it; `TooMany` where there are more than `most` states; `Memory`. These come before the first byte; `Output`
/// comes exactly where `out` failed, and then it isn't said how much went out.
#[tactic(auto, using(crate::proofs::Outcoming::refuses_outcomes))]
pub fn every_outcome_text<W: Write>(
    alloc: Global,
    file: &[u8],
    most: u64,
    count: bool,
    out: &mut Watched<W>,
) -> Result<(), RunFault>
    requires { out.old.failed ≡ false }
    ensures ok { OnOk result (WritesOutcomes file.now most count (W.contents out.old.inner) (W.contents out.new.inner)) }
    ensures output { IsErrOf result RunFault.Output ↔ (out.new.failed ≡ true) }
    ensures refused { IfErr result (λ fault. fault ≢ RunFault.Output
        → (out.new ≡ out.old) × RefusesOutcomes file.now most fault) }
{
    let plan = parse(alloc, file).map_err(RunFault::Read)?;
    let text = plan_text(alloc, plan, most, count)?;
    write_and_flush(text.as_slice(), out)?;
    Ok(())
}
