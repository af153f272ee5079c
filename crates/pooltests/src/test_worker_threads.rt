//! Workers on threads, each with lines of a round. What scripts of other lines reply is tested by runs of script files.
ghost use Rattle.std.specs.Prelude.{◌≡◌, vec_len};

use crate::test_calls::{NO_PLACE, same, shape_of};
use keybits::Shape;
use seqpool::Bytes;
use shardpool::{Census, close, open};
use std::alloc::{AllocError, Global};
use std::process::Abort;
use std::sync::Wait;
use std::sync::atomic::{AtomicBool, Ordering};
use std::thread::Threads;
use traces::{Command, Operand, Register, Reply, Script};
use workers::{Gate, Report, jobs_of, parts_of, run_workers};

/// Stops a worker before this line, and lets all others pass.
#[derive(Drop)]
struct StopsAt {
    worker: u32,
    line: u32,
}

impl Gate for StopsAt {
    ghost use Rattle.std.specs.Prelude.{◌≡◌, ◌↔◌, ◌⊎◌, ◌≢◌, ◌<◌, true};

    ghost says = { λ gate worker line answer. answer ≡ true ↔ (worker ≢ gate.worker) ⊎ (line < gate.line) };

    fn pass(&self, worker: u32, line: u32) -> bool {
        worker != self.worker || line < self.line
    }
}

/// Where two workers wait for each other before each line.
#[derive(Drop)]
struct Barrier {
    first: AtomicBool,
    second: AtomicBool,
}

impl Gate for Barrier {
    ghost says = { λ gate worker line answer. Unit };

    fn pass(&self, worker: u32, _line: u32) -> bool {
        let (own, other) = if worker == 0 {
            (&self.first, &self.second)
        } else {
            (&self.second, &self.first)
        };
        own.store(true, Ordering::SeqCst);
        sees(other)
    }
}

/// Whether a flag is set, which is read until it is, but no more than so many times.
fn sees(flag: &AtomicBool) -> bool {
    for _ in 0..4_000_000_000u32 {
        if flag.load(Ordering::SeqCst) {
            return true;
        }
    }
    false
}

/// The write of a round.
fn write_line<R: Abort>(rt: &R, alloc: Global) -> Command {
    let bytes = Vec::from_slice(alloc, b"ab").expect(rt, "memory for the bytes");
    Command::Write(Register { number: 0 }, Bytes::from_vec(bytes))
}

/// The line of this number, of rounds of seven lines.
fn line_at<R: Abort>(rt: &R, alloc: Global, number: usize) -> Command {
    let (object, reference) = (Register { number: 0 }, Register { number: 1 });
    match number % 7 {
        0 => Command::Create(object),
        1 => write_line(rt, alloc),
        2 => Command::Publish(object),
        3 => Command::Get(reference, Operand::LastOf(object)),
        4 => Command::Read(reference),
        5 => Command::Release(reference),
        _ => Command::Clear(Operand::LastOf(object)),
    }
}

/// The first so many lines of rounds.
fn script_of<R: Abort>(rt: &R, alloc: Global, lines: usize) -> Script {
    let mut commands = Vec::new(alloc);
    for number in 0..lines {
        let command = line_at(rt, alloc, number);
        commands.push(command).expect(rt, "memory for a command");
    }
    Script::from_vec(commands)
}

/// So many scripts, each of so many lines.
fn scripts_of<R: Abort>(rt: &R, alloc: Global, count: usize, lines: usize) -> Vec<Script>
    ensures { vec_len result ≡ count }
{
    let mut scripts = Vec::new(alloc);
    for _ in 0..count {
        let script = script_of(rt, alloc, lines);
        scripts.push(script).expect(rt, "memory for a script");
    }
    scripts
}

/// The reports of workers, one on each lane of a pool of this shape, which all had so many lines; and what the places of
/// the pool were in the end.
fn run_all<R: Threads + Wait + Abort + Sync, G: Gate + Sync>(
    rt: &R,
    alloc: Global,
    shape: Shape,
    lines: usize,
    gate: &G,
) -> (Vec<Result<Report, AllocError>>, Census)
    requires { shape.guests ≡ 0 }
{
    let Ok((pool, lanes)) = open(alloc, shape) else {
        panic!(rt; "no pool")
    };
    let scripts = scripts_of(rt, alloc, lanes.len(), lines);
    let Ok(jobs) = jobs_of(alloc, lanes, scripts) else {
        panic!(rt; "no memory for the jobs")
    };
    let Ok(dones) = run_workers(rt, alloc, &pool, jobs, gate) else {
        panic!(rt; "no memory for the workers")
    };
    let Ok((lanes, reports)) = parts_of(alloc, dones) else {
        panic!(rt; "no memory for the parts")
    };
    let census = close(pool, lanes);
    (reports, census)
}

/// The reports of two workers on a pool of a place for each, with their lines, have this text.
fn tell<R: Threads + Wait + Abort + Sync, G: Gate + Sync>(
    rt: &R,
    alloc: Global,
    lines: usize,
    gate: &G,
    text: &str,
) {
    let (reports, _) = run_all(rt, alloc, shape_of(2, 1, 1), lines, gate);
    let told = format!(in alloc; "{reports:?}").expect(rt, "memory for a text");
    same(rt, &told.as_str(), &text);
}

#[test]
fn workers_run_one_beside_another(rt: HostRuntime) {
    let gate = Barrier {
        first: AtomicBool::new(false),
        second: AtomicBool::new(false),
    };
    let text =
        "[Ok(Report { replies: [Filling(16777216)], stopped_at: None }), Ok(Report { replies: [Filling(16842752)], stopped_at: None })]";
    tell(&rt, rt.alloc(), 1, &gate, text);
}

#[test]
fn workers_answer_in_the_order_of_their_jobs(rt: HostRuntime) {
    let gate = StopsAt { worker: 1, line: 2 };
    let text =
        "[Ok(Report { replies: [Filling(16777216), Done, Key(16777216)], stopped_at: None }), Ok(Report { replies: [Filling(16842752), Done], stopped_at: Some(2) })]";
    tell(&rt, rt.alloc(), 3, &gate, text);
}

/// All 1,000 lines were run, of which the last is a release.
fn ran_to_the_end<R: Abort>(rt: &R, report: &Result<Report, AllocError>) {
    let Ok(report) = report else {
        panic!(rt; "no memory for the replies")
    };
    same(rt, &report.stopped_at, &None);
    same(rt, &report.replies.len(), &1000);
    assert!(rt; matches!(report.replies.last(), Some(Reply::Done)));
}

#[test]
fn sixteen_workers_run_a_thousand_lines(rt: HostRuntime) {
    let gate = StopsAt {
        worker: 16,
        line: 0,
    };
    let (reports, census) = run_all(&rt, rt.alloc(), shape_of(16, 64, 6), 1000, &gate);
    for report in &reports {
        ran_to_the_end(&rt, report);
    }
    let left = Census {
        free: 1008,
        unopened: 63488,
        present: 16,
        ..NO_PLACE
    };
    same(&rt, &census, &left);
}
