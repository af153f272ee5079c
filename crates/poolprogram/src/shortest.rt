//! Schedules from which entries are left out for as long as a word stands in the replay.
ghost use Rattle.std.specs.Prelude.{◌≡◌, ◌≢◌, ◌↔◌, true, false, length, IfOk, IfErr, IsErrOf};
ghost use Rattle.keybits.specs.Shapes.{IsNarrow};
ghost use Rattle.poolprogram.specs.Shortenings.{fault_of, IsShortOf, IsShortPlanOf, IsShortText, WritesShortPlan, WritesShortening, WritesShortest, RefusesShortestOf, RefusesShortest};

use crate::meter::Meter;
use crate::run_fault::RunFault;
use crate::turns::{line_of, plan_turns, write_line};
use commandline::{Search, Stop, Turns};
use keybits::Shape;
use scripts::{Plan, Scripts, plan_text};
use shortening::{Bounds, Short, ShortPlan, Sought, Unshortened, WordTrial, shorten, shorten_plan};
use std::alloc::Global;
use std::io::Write;
use streams::{Watched, write_and_flush};
use traces::Script;

/// How many entries of schedules are replayed at most, before no more replay is begun.
const MOST_REPLAYED: u64 = 100_000_000;

/// The fault of a schedule that isn't shortened, by whether the word is of decoded lines.
fn fault_of(decoded: bool, fault: Unshortened) -> RunFault
    ensures { result ≡ fault_of decoded fault }
{
    match fault {
        Unshortened::Fails => RunFault::Absent { decoded },
        fault => RunFault::Shortening(fault),
    }
}

/// What is left of a schedule when entries are left out for as long as the word stands in the replay of the plan.
fn shortest_of<M: Write>(
    alloc: Global,
    plan: Plan,
    schedule: Vec<u32>,
    search: Search,
    meter: &mut Meter<M>,
) -> Result<Short, RunFault>
    requires shape { IsNarrow plan.shape }
    requires count { length plan.scripts ≡ plan.shape.lanes }
    ensures ok { IfOk result (IsShortOf plan search schedule.items) }
    ensures err { IfErr result (RefusesShortestOf plan search schedule.items) }
    ensures erased { meter.new.shown ≡ false }
{
    let Plan { shape, scripts } = plan;
    let Search {
        word,
        decoded,
        tries,
        scripts: _,
    } = search;
    let mut trial = WordTrial::new(
        shape,
        scripts.into_vec(),
        word,
        decoded,
        MOST_REPLAYED,
        tries,
    );
    meter.begin(schedule.len());
    let short = shorten(alloc, &mut trial, meter, schedule);
    meter.clear();
    match short {
        Ok(short) => Ok(short),
        Err(fault) => Err(fault_of(decoded, fault)),
    }
}

/// Writes the line of what is left of the schedule of `plan_turns` when entries are left out for as long as the word
/// stands in the replay. Answers whether no single entry more can go, which is so unless as many replays were made as may
/// be. The errors are those of `plan_turns`; `Absent` where the word doesn't stand in the replay of the whole schedule;
/// `Shortening` where too much would have to be replayed, and where a replay was refused memory; `Memory`; and `Output`.
/// Meanwhile `meter` tells how far it is, and at the end how many entries are left.
pub fn shortest_text<W: Write, M: Write>(
    alloc: Global,
    file: &[u8],
    turns: Turns,
    stop: Option<Stop>,
    search: Search,
    out: &mut Watched<W>,
    meter: &mut Meter<M>,
) -> Result<bool, RunFault>
    requires { out.old.failed ≡ false }
    ensures ok { IfOk result (λ least. WritesShortest file.now turns stop search least
        (W.contents out.old.inner) (W.contents out.new.inner)) }
    ensures output { IsErrOf result RunFault.Output ↔ (out.new.failed ≡ true) }
    ensures refused { IfErr result (λ fault. fault ≢ RunFault.Output
        → (out.new ≡ out.old) × RefusesShortest file.now turns stop search fault) }
{
    let (plan, schedule) = plan_turns(alloc, file, turns, stop)?;
    let Short { schedule, least } = shortest_of(alloc, plan, schedule, search, meter)?;
    meter.end_entries(schedule.len());
    write_line(alloc, schedule.as_slice(), out)?;
    Ok(least)
}

/// What is left of the scripts of a plan and of a schedule when commands and entries are left out for as long as the word
/// stands in the replay.
fn short_plan_of<M: Write>(
    alloc: Global,
    plan: Plan,
    schedule: Vec<u32>,
    search: Search,
    meter: &mut Meter<M>,
) -> Result<ShortPlan, RunFault>
    requires shape { IsNarrow plan.shape }
    requires count { length plan.scripts ≡ plan.shape.lanes }
    ensures ok { IfOk result (IsShortPlanOf plan search schedule.items) }
    ensures count { IfOk result (λ short. length short.scripts.items ≡ plan.shape.lanes) }
    ensures err { IfErr result (RefusesShortestOf plan search schedule.items) }
    ensures erased { meter.new.shown ≡ false }
{
    let Plan { shape, scripts } = plan;
    let Search {
        word,
        decoded,
        tries,
        scripts: _,
    } = search;
    let sought = Sought {
        shape,
        scripts: scripts.into_vec(),
        word,
        decoded,
    };
    let bounds = Bounds {
        left: MOST_REPLAYED,
        tries,
    };
    meter.begin(schedule.len());
    let short = shorten_plan(alloc, &sought, bounds, meter, schedule);
    meter.clear();
    match short {
        Ok(short) => Ok(short),
        Err(fault) => Err(fault_of(decoded, fault)),
    }
}

/// The line of a schedule, and behind it the line of a script file of these scripts.
fn short_text(
    alloc: Global,
    shape: Shape,
    scripts: Vec<Script>,
    schedule: &[u32],
) -> Result<Vec<u8>, RunFault>
    requires shape { IsNarrow shape }
    requires count { length scripts.items ≡ shape.lanes }
    ensures ok { IfOk result (λ text. IsShortText shape scripts.items schedule.now text.items) }
    ensures err { IfErr result (λ fault. fault ≡ RunFault.Memory) }
{
    let mut text = line_of(alloc, schedule)?;
    let plan = Plan {
        shape,
        scripts: Scripts::from_vec(scripts),
    };
    let file = plan_text(alloc, &plan)?;
    text.extend_from_slice(file.as_bytes())?;
    text.extend_from_slice(b"\n")?;
    Ok(text)
}

/// Writes the line of what is left of the schedule of `plan_turns`, and the line of a script file with what is left of the
/// scripts, when commands and entries are left out for as long as the word stands in the replay. Answers whether all was
/// tried, which is so unless as many replays were made as may be. The errors are those of `shortest_text`.
pub fn short_plan_text<W: Write, M: Write>(
    alloc: Global,
    file: &[u8],
    turns: Turns,
    stop: Option<Stop>,
    search: Search,
    out: &mut Watched<W>,
    meter: &mut Meter<M>,
) -> Result<bool, RunFault>
    requires { out.old.failed ≡ false }
    ensures ok { IfOk result (λ least. WritesShortPlan file.now turns stop search least
        (W.contents out.old.inner) (W.contents out.new.inner)) }
    ensures output { IsErrOf result RunFault.Output ↔ (out.new.failed ≡ true) }
    ensures refused { IfErr result (λ fault. fault ≢ RunFault.Output
        → (out.new ≡ out.old) × RefusesShortest file.now turns stop search fault) }
{
    let (plan, schedule) = plan_turns(alloc, file, turns, stop)?;
    let shape = plan.shape;
    let ShortPlan {
        scripts,
        schedule,
        least,
    } = short_plan_of(alloc, plan, schedule, search, meter)?;
    meter.end_entries(schedule.len());
    let text = short_text(alloc, shape, scripts, schedule.as_slice())?;
    write_and_flush(text.as_slice(), out)?;
    Ok(least)
}

/// Writes what is left of the schedule, as `shortest_text` does, or where that is asked for of the scripts too, as
/// `short_plan_text` does.
pub fn shortening_text<W: Write, M: Write>(
    alloc: Global,
    file: &[u8],
    turns: Turns,
    stop: Option<Stop>,
    search: Search,
    out: &mut Watched<W>,
    meter: &mut Meter<M>,
) -> Result<bool, RunFault>
    requires { out.old.failed ≡ false }
    ensures ok { IfOk result (λ least. WritesShortening file.now turns stop search least
        (W.contents out.old.inner) (W.contents out.new.inner)) }
    ensures output { IsErrOf result RunFault.Output ↔ (out.new.failed ≡ true) }
    ensures refused { IfErr result (λ fault. fault ≢ RunFault.Output
        → (out.new ≡ out.old) × RefusesShortest file.now turns stop search fault) }
{
    if search.scripts {
        short_plan_text(alloc, file, turns, stop, search, out, meter)
    } else {
        shortest_text(alloc, file, turns, stop, search, out, meter)
    }
}
