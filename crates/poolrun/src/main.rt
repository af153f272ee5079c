//! The program: it replays a script file over a schedule and prints the trace, checks that acts are a
//! legal history, runs a script file on threads, or says what a key or a lifecycle word says. What it does, writes and
//! ends with is `run_program`'s, over any input and writers: here are the streams.
#![tactic(auto)]

use commandline::are_hints_wanted;
use poolprogram::{Meter, run_program};
use std::env;
use std::io::IsTerminal;
use std::process::ExitCode;
use streams::Watched;

fn main(rt: HostRuntime) -> ExitCode {
    let terminal = rt.stderr().is_terminal();
    let hints = are_hints_wanted(&rt, terminal);
    let mut out = Watched::new(rt.stdout());
    let mut errors = Watched::new(rt.stderr());
    let mut meter = Meter::new(rt.stderr(), terminal);
    ExitCode::from(
        run_program(
            &rt,
            env::args(&rt),
            hints,
            &mut rt.stdin(),
            &mut out,
            &mut errors,
            &mut meter,
        )
        .status,
    )
}
