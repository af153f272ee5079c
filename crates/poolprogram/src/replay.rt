//! Replays of plans and of script files over a schedule.
ghost use Rattle.std.specs.Prelude.{◌≡◌, ◌≢◌, ◌↔◌, ℕ, List, ◌∷◌, [], ◌++◌, true, false, length, IfOk, IfErr, OnOk, IsErrOf};
ghost use Rattle.keybits.specs.Shapes.{IsShape, IsNarrow};
ghost use Rattle.traces.specs.Lawful.{World, IsLawful};
ghost use Rattle.coresteps.specs.Kept.{IsRun};
ghost use Rattle.seqpool.specs.ActsText.{IsTextOf};
ghost use Rattle.traces.specs.Text.{trace_text};
ghost use Rattle.traces.specs.TurnLaws.{all_acts};
ghost use Rattle.scripts.specs.Readings.{StandsFor};
ghost use Rattle.poolprogram.specs.Replays.{IsText, IsCoreFault, IsReplayOf, RefusesReplayOf, WritesReplayOf, RefusesReplay, WritesReplay};

use crate::meter::Meter;
use crate::run_fault::RunFault;
use coresteps::{Core, CoreFault};
use keybits::Shape;
use scripts::{Plan, parse};
use seqpool::write_acts;
use shortening::acts_of;
use std::alloc::Global;
use std::io::Write;
use streams::{Watched, write_and_flush};
use traces::{Script, Trace, write_trace};

/// One more entry of a schedule: the turn that it makes, if it makes one, goes into the trace.
fn add_turn(core: &mut Core, trace: &mut Trace, lane: u32) -> Result<(), CoreFault>
    ensures run { OnOk result ((w : World) (schedule : List ℕ)
        → IsRun core.old.shared.shape w schedule trace.old core.old
        → IsRun core.old.shared.shape w (schedule ++ lane ∷ []) trace.new core.new) }
    ensures shape { core.new.shared.shape ≡ core.old.shared.shape }
{
    if core.finished(lane) {
        return Ok(());
    }
    let turn = core.turn(lane)?;
    trace.push(turn)?;
    Ok(())
}

/// The trace of scripts over a schedule. Meanwhile it is told how many turns are made.
fn run_told<M: Write>(
    alloc: Global,
    shape: Shape,
    scripts: Vec<Script>,
    schedule: &[u32],
    meter: &mut Meter<M>,
) -> Result<Trace, CoreFault>
    requires shape { IsShape shape }
    requires alone { shape.guests ≡ 0 }
    requires scripts { length scripts.items ≡ shape.lanes }
    ensures { IfOk result (λ trace. IsLawful shape scripts.items schedule.now trace) }
{
    let mut core = Core::new(alloc, shape, scripts)?;
    let mut trace = Trace::empty(alloc);
    for lane in schedule {
        add_turn(&mut core, &mut trace, *lane)?;
        meter.turn();
    }
    meter.end_turns();
    Ok(trace)
}

/// The trace of a plan over a schedule. Meanwhile it is told how many turns are made.
fn run_plan_told<M: Write>(
    alloc: Global,
    plan: Plan,
    schedule: &[u32],
    meter: &mut Meter<M>,
) -> Result<Trace, RunFault>
    requires shape { IsNarrow plan.shape }
    requires count { length plan.scripts ≡ plan.shape.lanes }
    ensures ok { IfOk result (λ trace. IsLawful plan.shape plan.scripts schedule.now trace) }
    ensures err { IfErr result (λ fault. IsCoreFault fault) }
    ensures erased { meter.new.shown ≡ false }
{
    let Plan { shape, scripts } = plan;
    meter.begin(schedule.len());
    let made = run_told(alloc, shape, scripts.into_vec(), schedule, meter);
    meter.clear();
    made.map_err(RunFault::Core)
}

/// The text of a shape and of a trace's acts.
fn acts_text(alloc: Global, shape: &Shape, trace: &Trace) -> Result<Vec<u8>, RunFault>
    ensures ok { IfOk result (λ text. IsTextOf shape.now (all_acts trace.now) text.items) }
    ensures err { IfErr result (λ fault. fault ≡ RunFault.Memory) }
{
    let acts = acts_of(alloc, trace.as_slice())?;
    let mut text = Vec::new(alloc);
    if write_acts(alloc, shape, acts.as_slice(), &mut text).is_err() {
        return Err(RunFault::Memory);
    }
    Ok(text)
}

/// The text of a trace.
fn turns_text(alloc: Global, trace: &Trace) -> Result<Vec<u8>, RunFault>
    ensures ok { IfOk result (λ text. text.items ≡ trace_text trace.now) }
    ensures err { IfErr result (λ fault. fault ≡ RunFault.Memory) }
{
    let mut text = Vec::new(alloc);
    if write_trace(trace, &mut text).is_err() {
        return Err(RunFault::Memory);
    }
    Ok(text)
}

/// The text of a trace, or of its acts.
fn text_of(alloc: Global, shape: &Shape, trace: &Trace, acts: bool) -> Result<Vec<u8>, RunFault>
    ensures ok { IfOk result (λ text. IsText shape.now trace.now acts text.items) }
    ensures err { IfErr result (λ fault. fault ≡ RunFault.Memory) }
{
    if acts {
        acts_text(alloc, shape, trace)
    } else {
        turns_text(alloc, trace)
    }
}

/// The trace of a plan over a schedule, and its text, or that of its acts.
fn replayed<M: Write>(
    alloc: Global,
    plan: Plan,
    schedule: &[u32],
    acts: bool,
    meter: &mut Meter<M>,
) -> Result<(Trace, Vec<u8>), RunFault>
    requires shape { IsNarrow plan.shape }
    requires count { length plan.scripts ≡ plan.shape.lanes }
    ensures ok { IfOk result (λ made. IsReplayOf plan schedule.now acts made.0 made.1.items) }
    ensures err { IfErr result (RefusesReplayOf plan schedule.now) }
{
    let shape = plan.shape;
    let trace = run_plan_told(alloc, plan, schedule, meter)?;
    match text_of(alloc, &shape, &trace, acts) {
        Ok(text) => Ok((trace, text)),
        Err(fault) => Err(fault),
    }
}

/// Replays a plan over a schedule, whose entries are numbers of lanes, and writes the text of the
/// trace, or where `acts` holds the text of its acts. Answers the trace. The errors: `Core` where the core was refused
/// memory for the plan, and `Memory` where it was refused for the text of a trace. These come before
/// the first byte; `Output` comes exactly where `out` failed, and then it isn't said how much went out.
/// Meanwhile `meter` tells how far the replay is.
pub fn replay_plan<W: Write, M: Write>(
    alloc: Global,
    plan: Plan,
    schedule: &[u32],
    acts: bool,
    out: &mut Watched<W>,
    meter: &mut Meter<M>,
) -> Result<Trace, RunFault>
    requires shape { IsNarrow plan.shape }
    requires count { length plan.scripts ≡ plan.shape.lanes }
    requires watched { out.old.failed ≡ false }
    ensures ok { IfOk result (λ trace. WritesReplayOf plan schedule.now acts trace
        (W.contents out.old.inner) (W.contents out.new.inner)) }
    ensures output { IsErrOf result RunFault.Output ↔ (out.new.failed ≡ true) }
    ensures refused { IfErr result (λ fault. fault ≢ RunFault.Output
        → (out.new ≡ out.old) × RefusesReplayOf plan schedule.now fault) }
{
    let (trace, text) = replayed(alloc, plan, schedule, acts, meter)?;
    write_and_flush(text.as_slice(), out)?;
    Ok(trace)
}

/// Replays a script file over a schedule, as `replay_plan` does the plan that it stands for. The errors
/// are those of `replay_plan`, and before these `Read` as `parse` answers it.
#[tactic(auto, using(crate::proofs::Replaying::writes_replay, crate::proofs::Replaying::refuses_replay))]
pub fn replay_text<W: Write, M: Write>(
    alloc: Global,
    file: &[u8],
    schedule: &[u32],
    acts: bool,
    out: &mut Watched<W>,
    meter: &mut Meter<M>,
) -> Result<(), RunFault>
    requires { out.old.failed ≡ false }
    ensures ok { OnOk result (WritesReplay file.now schedule.now acts
        (W.contents out.old.inner) (W.contents out.new.inner)) }
    ensures output { IsErrOf result RunFault.Output ↔ (out.new.failed ≡ true) }
    ensures refused { IfErr result (λ fault. fault ≢ RunFault.Output
        → (out.new ≡ out.old) × RefusesReplay file.now schedule.now fault) }
{
    let plan = parse(alloc, file).map_err(RunFault::Read)?;
    replay_plan(alloc, plan, schedule, acts, out, meter)?;
    Ok(())
}
