//! Replays over turns that are listed or drawn, up to a stop, and their schedules.
ghost use Rattle.std.specs.Prelude.{◌≡◌, ◌≢◌, ◌≤◌, ◌↔◌, true, false, length, IfOk, IfErr, OnOk, IsErrOf};
ghost use Rattle.std.specs.Io.KnownBytes.{Appends};
ghost use Rattle.keybits.specs.Shapes.{IsNarrow};
ghost use Rattle.schedules.specs.Schedules.{schedule_line};
ghost use Rattle.scripts.specs.ScriptPlaces.{out_of_memory};
ghost use Rattle.poolprogram.specs.Turns.{AreKnown, entries_for, IsUpTo, IsPlanned, WritesTurns, WritesSchedule, RefusesEntries, RefusesSchedule, RefusesTurns, RefusesListing};

use crate::half_run::counts_of;
use crate::meter::Meter;
use crate::replay::replay_plan;
use crate::replayed::Replayed;
use crate::run_fault::RunFault;
use commandline::{Stop, Turns};
use schedules::{draw, push_schedule, stop_after};
use scripts::{Plan, ScriptRefusal, parse};
use std::alloc::Global;
use std::io::Write;
use streams::{Unreadable, Watched, write_and_flush};

/// The fault of a want of memory for a schedule.
fn out_of_memory() -> RunFault
    ensures { result ≡ RunFault.Read out_of_memory }
{
    RunFault::Read(ScriptRefusal::out_of_memory())
}

/// The entries of turns for so many lanes. The errors: `Read` with `Memory`, and `File` where the turns are in a file,
/// which isn't read.
fn list_entries(alloc: Global, lanes: u32, turns: Turns) -> Result<Vec<u32>, RunFault>
    requires { 1 ≤ lanes }
    ensures ok { IfOk result (λ entries. AreKnown turns × (entries.items ≡ entries_for lanes turns)) }
    ensures err { IfErr result (RefusesEntries turns) }
{
    match turns {
        Turns::Listed(entries) => Ok(entries),
        Turns::Drawn { seed, turns } => match draw(alloc, seed, lanes, turns) {
            Ok(entries) => Ok(entries),
            Err(_) => Err(out_of_memory()),
        },
        Turns::InFile(_) => Err(RunFault::File(Unreadable::Other)),
    }
}

/// The schedule of these entries, where there is a stop without those that come after it.
fn cut(alloc: Global, entries: Vec<u32>, stop: Option<Stop>) -> Result<Vec<u32>, RunFault>
    ensures ok { IfOk result (λ schedule. IsUpTo stop entries.items schedule.items) }
    ensures err { IfErr result (λ fault. fault ≡ RunFault.Read out_of_memory) }
{
    match stop {
        Some(Stop { lane, after }) => {
            match stop_after(alloc, entries.as_slice(), lane, after) {
                Ok(schedule) => Ok(schedule),
                Err(_) => Err(out_of_memory()),
            }
        }
        None => Ok(entries),
    }
}

/// The schedule of turns for so many lanes, up to the stop.
fn schedule_of(
    alloc: Global,
    lanes: u32,
    turns: Turns,
    stop: Option<Stop>,
) -> Result<Vec<u32>, RunFault>
    requires { 1 ≤ lanes }
    ensures ok { IfOk result (λ schedule. AreKnown turns × IsUpTo stop (entries_for lanes turns) schedule.items) }
    ensures err { IfErr result (RefusesEntries turns) }
{
    let entries = list_entries(alloc, lanes, turns)?;
    cut(alloc, entries, stop)
}

/// The plan of a script file, and the schedule of turns for its lanes: those listed, or so many drawn from
/// a seed; where there is a stop, without the entries of its lane that come after it. The errors: `Read` as
/// `parse` answers it, and with `Memory` where it was refused for the schedule; `File` where the turns are in a file.
pub fn plan_turns(
    alloc: Global,
    file: &[u8],
    turns: Turns,
    stop: Option<Stop>,
) -> Result<(Plan, Vec<u32>), RunFault>
    ensures ok { IfOk result (λ made. IsPlanned file.now turns stop made.0 made.1.items) }
    ensures shape { IfOk result (λ made. IsNarrow made.0.shape) }
    ensures count { IfOk result (λ made. length made.0.scripts ≡ made.0.shape.lanes) }
    ensures err { IfErr result (RefusesSchedule file.now turns) }
{
    let plan = parse(alloc, file).map_err(RunFault::Read)?;
    match schedule_of(alloc, plan.shape.lanes, turns, stop) {
        Ok(schedule) => Ok((plan, schedule)),
        Err(fault) => Err(fault),
    }
}

/// The line of a schedule.
pub(crate) fn line_of(alloc: Global, schedule: &[u32]) -> Result<Vec<u8>, RunFault>
    ensures ok { IfOk result (λ line. line.items ≡ schedule_line schedule.now) }
    ensures err { IfErr result (λ fault. fault ≡ RunFault.Memory) }
{
    let mut line = Vec::new(alloc);
    push_schedule(schedule, &mut line)?;
    Ok(line)
}

/// Writes the line of a schedule. The errors: `Memory` before the first byte, and `Output` exactly where `out` failed.
pub(crate) fn write_line<W: Write>(
    alloc: Global,
    schedule: &[u32],
    out: &mut Watched<W>,
) -> Result<(), RunFault>
    requires { out.old.failed ≡ false }
    ensures ok { OnOk result (Appends (W.contents out.old.inner) (W.contents out.new.inner) (schedule_line schedule.now)) }
    ensures output { IsErrOf result RunFault.Output ↔ (out.new.failed ≡ true) }
    ensures refused { IfErr result (λ fault. fault ≢ RunFault.Output → (out.new ≡ out.old) × (fault ≡ RunFault.Memory)) }
{
    let line = line_of(alloc, schedule)?;
    write_and_flush(line.as_slice(), out)?;
    Ok(())
}

/// Writes the line of the schedule of turns for the lanes of a script file, up to a stop, which is that of
/// `plan_turns`. The errors are those of `plan_turns`, `Memory` and `Output`.
pub fn schedule_text<W: Write>(
    alloc: Global,
    file: &[u8],
    turns: Turns,
    stop: Option<Stop>,
    out: &mut Watched<W>,
) -> Result<(), RunFault>
    requires { out.old.failed ≡ false }
    ensures ok { OnOk result (WritesSchedule file.now turns stop
        (W.contents out.old.inner) (W.contents out.new.inner)) }
    ensures output { IsErrOf result RunFault.Output ↔ (out.new.failed ≡ true) }
    ensures refused { IfErr result (λ fault. fault ≢ RunFault.Output
        → (out.new ≡ out.old) × RefusesListing file.now turns fault) }
{
    let (_, schedule) = plan_turns(alloc, file, turns, stop)?;
    write_line(alloc, schedule.as_slice(), out)
}

/// Replays a script file over turns, up to a stop, as `replay_plan` does the plan and the schedule of
/// `plan_turns`. Answers the replay. The errors are those of `plan_turns`, and after these those of `replay_plan`; `Core`
/// also where memory was refused for how many commands each script has.
#[tactic(auto, using(crate::proofs::Replaying::core_refuses))]
pub fn replay_turns<W: Write, M: Write>(
    alloc: Global,
    file: &[u8],
    turns: Turns,
    stop: Option<Stop>,
    acts: bool,
    out: &mut Watched<W>,
    meter: &mut Meter<M>,
) -> Result<Replayed, RunFault>
    requires { out.old.failed ≡ false }
    ensures ok { IfOk result (λ made. WritesTurns file.now turns stop acts made
        (W.contents out.old.inner) (W.contents out.new.inner)) }
    ensures output { IsErrOf result RunFault.Output ↔ (out.new.failed ≡ true) }
    ensures refused { IfErr result (λ fault. fault ≢ RunFault.Output
        → (out.new ≡ out.old) × RefusesTurns file.now turns stop fault) }
{
    let (plan, schedule) = plan_turns(alloc, file, turns, stop)?;
    let lanes = plan.shape.lanes;
    let counts = counts_of(alloc, plan.scripts.as_slice()).map_err(RunFault::Core)?;
    let trace = replay_plan(alloc, plan, schedule.as_slice(), acts, out, meter)?;
    Ok(Replayed {
        lanes,
        schedule,
        counts,
        trace,
    })
}
