//! The program: it shows a trace that `poolrun replay` printed, as a picture, by its lines with their words
//! decoded, in sum, as JSON, as trace events, or as a page; or says whether its steps follow from one another. On a page it also shows a
//! graph of states.
//! What it shows, writes and ends with is `view_trace`'s, over any input and writers: here are the streams.
#![tactic(auto)]

mod explanation;
mod fault;
mod graphs;
mod showing;
mod streaming;
mod viewing;

use crate::viewing::view_trace;
use commandline::are_hints_wanted;
use std::env;
use std::io::IsTerminal;
use std::process::ExitCode;
use streams::Watched;

fn main(rt: HostRuntime) -> ExitCode {
    let hints = are_hints_wanted(&rt, rt.stderr().is_terminal());
    let mut out = Watched::new(rt.stdout());
    let mut errors = Watched::new(rt.stderr());
    ExitCode::from(view_trace(
        &rt,
        env::args(&rt),
        hints,
        &mut rt.stdin(),
        &mut out,
        &mut errors,
    ))
}
