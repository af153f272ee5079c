//! What each lane does in a thread of its own: workers log requests, and tell the collector of each through a channel.
ghost use Rattle.std.specs.Prelude.{◌≡◌};
ghost use Rattle.logsample.specs.Tasks.{IsOfWorker, IsOfCollector, Reports};

use crate::calls::{LogFault, collect, log};
use crate::entries::{Entry, Line, Request};
use crossbeam_channel::{Receiver, Sender};
use guards::{Job, PoolName, Seat, Told};
use std::alloc::Global;
use std::sync::Wait;
use std::thread::Threads;

/// How many requests a worker serves.
pub const REQUESTS: u32 = 100;

/// What a lane is to do.
#[derive(Drop)]
pub enum Task<N: PoolName> {
    /// To log the requests of the worker of this number.
    Work(u32, Sender<Told<N, Entry>, Global>),
    /// To collect what is logged until all workers have ended.
    Collect(Receiver<Told<N, Entry>, Global>),
}

/// What came of it.
#[derive(Clone, Copy, Debug)]
pub enum Report {
    /// So many requests were logged, and what stopped the worker before the end.
    Worked(u32, Option<LogFault>),
    Collected(Totals),
}

/// What the collector read.
#[derive(Clone, Copy, Debug, Default)]
pub struct Totals {
    pub requests: u64,
    pub failed: u64,
    pub bytes: u64,
}

impl Totals {
    /// With one line more.
    fn with(self, line: Line) -> Totals {
        Totals {
            requests: self.requests.saturating_add(1),
            failed: self.failed.saturating_add(u64::from(line.status >= 500)),
            bytes: self.bytes.saturating_add(line.bytes),
        }
    }
}

impl<N: PoolName + Send> Job<N, Entry> for Task<N> {
    type Answer = Report;

    ghost does = { λ task _ _ report. Reports task report };

    fn run<R: Threads + Wait + Sync>(self, rt: &R, seat: &mut Seat<'_, N, Entry>) -> Report {
        match self {
            Task::Work(worker, to) => work(rt, seat, worker, to),
            Task::Collect(from) => collect_all(rt, seat, from),
        }
    }
}

/// A request of a worker. One of the first worker's has no status.
fn request(worker: u32, round: u32) -> Request<'static> {
    let path = if round % 2 == 0 {
        b"/".as_slice()
    } else {
        b"/index.html".as_slice()
    };
    let status = match round {
        40 if worker == 0 => 0,
        9 | 19 | 29 => 503,
        _ => 200,
    };
    Request {
        path,
        status,
        bytes: 512,
    }
}

/// Logs a request, and tells of it.
///
/// # Errors
///
/// As `log`; and `Unheard`.
fn log_one<N: PoolName, R: Wait>(
    rt: &R,
    seat: &mut Seat<'_, N, Entry>,
    request: &Request<'_>,
    to: &Sender<Told<N, Entry>, Global>,
) -> Result<(), LogFault>
    ensures { seat.new.lane.number ≡ seat.old.lane.number }
{
    match log(seat, request) {
        Ok(key) => match to.send(rt, seat.tell(key)) {
            Ok(()) => Ok(()),
            Err(_) => Err(LogFault::Unheard),
        },
        Err(fault) => Err(fault),
    }
}

/// Logs a worker's requests, up to the first that isn't logged.
fn work<N: PoolName, R: Wait>(
    rt: &R,
    seat: &mut Seat<'_, N, Entry>,
    worker: u32,
    to: Sender<Told<N, Entry>, Global>,
) -> Report
    ensures all { IsOfWorker result }
    ensures number { seat.new.lane.number ≡ seat.old.lane.number }
{
    for round in 0..REQUESTS {
        if let Err(fault) = log_one(rt, seat, &request(worker, round), &to) {
            return Report::Worked(round, Some(fault));
        }
    }
    Report::Worked(REQUESTS, None)
}

/// Collects what is told, until nobody tells any more.
fn collect_all<N: PoolName, R: Wait>(
    rt: &R,
    seat: &mut Seat<'_, N, Entry>,
    from: Receiver<Told<N, Entry>, Global>,
) -> Report
    ensures all { IsOfCollector result }
    ensures number { seat.new.lane.number ≡ seat.old.lane.number }
{
    let mut totals = Totals::default();
    for _ in rt.forever() {
        let Ok(told) = from.recv(rt) else {
            break;
        };
        if let Some(line) = collect(seat, told) {
            totals = totals.with(line);
        }
    }
    Report::Collected(totals)
}
