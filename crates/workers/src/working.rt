//! A worker.
ghost use Rattle.std.specs.Prelude.{◌≡◌, ◌≤◌, min, length, [], IfOk};
ghost use Rattle.std.specs.Vec.{vec_capacity};
ghost use mathlib.Core.List.{IsPrefix};
ghost use Rattle.shardpool.specs.Lanes.{SameLane};
ghost use Rattle.workers.specs.Tidy.{Tidy, desk};
ghost use Rattle.workers.specs.Steps.{RunsTo};
ghost use Rattle.workers.specs.Works.{MayWork, Works, Passed};

use crate::gate::Gate;
use crate::jobs::{Done, Report};
use crate::lines::run_line;
use crate::registers::{Registers, all_empty};
use shardpool::{Lane, Pool};
use slotcell::ByteBuf;
use std::alloc::Global;
use traces::{Command, Reply, Script};

/// Runs a script on a lane, line by line, as long as the gate lets each line pass. What its registers still hold at the
/// end is left: a filling stays filling, and a reference stays held, until the pool is closed.
///
/// # Errors
///
/// The report is an `AllocError` where the row of replies was refused. Then no line was run.
pub fn work<G: Gate>(
    alloc: Global,
    pool: &Pool<ByteBuf>,
    lane: Lane<ByteBuf>,
    script: Script,
    gate: &G,
) -> Done
    requires may { MayWork pool.now lane }
    ensures same { SameLane lane result.lane }
    ensures seen { IsPrefix lane.book.seen result.lane.book.seen }
    ensures works { Works lane script result }
    ensures passed { IfOk result.report (λ report. Passed (G.says gate.now lane.number) (length report.replies.items) report.stopped_at) }
{
    let mut lane = lane;
    let mut replies = match Vec::with_capacity(alloc, script.as_slice().len()) {
        Ok(replies) => replies,
        Err(refused) => {
            return Done {
                lane,
                report: Err(refused),
            };
        }
    };
    let mut registers = all_empty();
    let stopped_at = run_lines(
        alloc,
        pool,
        &mut lane,
        &mut registers,
        script.as_slice(),
        &mut replies,
        gate,
    );
    Done {
        lane,
        report: Ok(Report {
            replies,
            stopped_at,
        }),
    }
}

/// Runs lines one after another, as long as the gate lets each pass, and answers the one before which it didn't.
fn run_lines<G: Gate>(
    alloc: Global,
    pool: &Pool<ByteBuf>,
    lane: &mut Lane<ByteBuf>,
    registers: &mut Registers,
    commands: &[Command],
    replies: &mut Vec<Reply>,
    gate: &G,
) -> Option<u32>
    requires tidy { Tidy pool.now (desk lane.old registers.old) }
    requires none { replies.old.items ≡ [] }
    requires room { length commands.now ≤ vec_capacity replies.old }
    ensures runs { RunsTo pool.now (desk lane.old registers.old) commands.now result replies.new.items (desk lane.new registers.new) }
    ensures passed { Passed (G.says gate.now lane.old.number) (length replies.new.items) result }
{
    let mut ran = 0;
    while ran < commands.len() {
        let line = line_number(ran);
        if !gate.pass(lane.number(), line) {
            return Some(line);
        }
        replies.push_reserved(run_line(alloc, pool, lane, registers, &commands[ran]));
        ran += 1;
    }
    None
}

/// The number of a line for a report.
fn line_number(ran: usize) -> u32
    ensures { result ≡ min ran 4294967295 }
{
    ran.min(u32::MAX as usize) as u32
}
