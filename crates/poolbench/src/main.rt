//! Does one case so many rounds on so many threads: the pool's calls, and two yardsticks. The program reads no clock,
//! so it is timed from outside.
#![tactic(auto)]

mod cases;
mod fault;
mod fills;
mod openings;
mod owners;
mod passes;
mod plans;
mod pools;
mod rounds;
mod stores;
mod visits;

use crate::cases::{CASES, Case, Plan};
use crate::fault::Fault;
use crate::plans::run_plan;
use std::alloc::Global;
use std::env;
use std::process::ExitCode;
use std::sync::Wait;
use std::thread::Threads;

/// How many rounds each case is done where the words name none.
const FEW_ROUNDS: u64 = 2;

/// The words of the command line, without the program's name.
fn read_words(rt: &HostRuntime) -> Result<Vec<String>, Fault> {
    match env::args(rt) {
        Ok(args) => Ok(args.skip(1).collect(rt.alloc())?),
        Err(_) => Err(Fault::Words),
    }
}

/// Does a plan, and prints its line.
fn show<R: Threads + Wait + Print + Sync>(
    rt: &R,
    alloc: Global,
    name: &str,
    plan: Plan,
) -> Result<(), Fault> {
    let count = run_plan(rt, alloc, plan)?;
    let threads = plan.threads;
    let lanes = plan.case.lanes(threads);
    println!(rt; "{name} (lanes: {lanes}, threads: {threads}): {count}").or(Err(Fault::Output))
}

/// Does each case a few rounds, on one thread and on two.
fn show_all<R: Threads + Wait + Print + Sync>(rt: &R, alloc: Global) -> Result<(), Fault> {
    for (name, case) in &CASES {
        show(rt, alloc, name, few(*case, 1))?;
        show(rt, alloc, name, few(*case, 2))?;
    }
    Ok(())
}

/// A few rounds of a case.
fn few(case: Case, threads: u32) -> Plan {
    Plan {
        case,
        threads,
        rounds: FEW_ROUNDS,
    }
}

/// Does what the words name.
fn run<R: Threads + Wait + Print + Sync>(
    rt: &R,
    alloc: Global,
    words: &[String],
) -> Result<(), Fault> {
    match words {
        [] => show_all(rt, alloc),
        [case, threads, rounds] => {
            let plan = Plan::read(case, threads, rounds).ok_or(Fault::Words)?;
            show(rt, alloc, case, plan)
        }
        _ => Err(Fault::Words),
    }
}

/// Prints why a plan wasn't done.
fn report(rt: &HostRuntime, fault: Fault) -> ExitCode {
    let _ = eprintln!(rt; "{fault}");
    ExitCode::FAILURE
}

fn main(rt: HostRuntime) -> ExitCode {
    let words = match read_words(&rt) {
        Ok(words) => words,
        Err(fault) => return report(&rt, fault),
    };
    match run(&rt, rt.alloc(), &words) {
        Ok(()) => ExitCode::SUCCESS,
        Err(fault) => report(&rt, fault),
    }
}
