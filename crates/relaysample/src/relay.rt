//! Threads that come and go: each has a desk for a while, logs its lines, and hands their keys on.
ghost use Rattle.std.specs.Prelude.{◌≡◌, IfOk, vec_len};
ghost use Rattle.relaysample.specs.Held.{AreShown};

use crate::collector::{Collector, Unheld};
use crate::desks::Desk;
use crate::lines::Line;
use crate::logged::Logged;
use crossbeam_channel::{Receiver, Sender, bounded, unbounded};
use guards::PoolName;
use shardpool::CreateFault;
use std::alloc::{AllocError, Global};
use std::sync::Wait;
use std::thread;
use std::thread::Threads;

/// How many desks there are.
pub const DESKS: u32 = 2;

/// How many threads come and go.
const THREADS: u32 = 10;

/// How many lines each logs.
const LINES: u32 = 5;

/// What a thread has: where desks are free, where they are given back, and where to hand on what was logged.
#[derive(Drop)]
struct Turn<'p, N: PoolName> {
    thread: u32,
    free: Receiver<Desk<'p, N>, Global>,
    back: Sender<Desk<'p, N>, Global>,
    to: Sender<Result<Logged<N>, CreateFault>, Global>,
}

/// Why a line wasn't relayed.
#[derive(Clone, Copy, Debug)]
pub enum Trouble {
    /// No place was given for it.
    NoPlace(CreateFault),
    /// The collector doesn't hold it.
    Unheld(Unheld),
}

/// The free desks, the threads' turns at them, and what they hand on.
#[derive(Drop)]
pub struct Relay<'p, N: PoolName> {
    free: Receiver<Desk<'p, N>, Global>,
    back: Sender<Desk<'p, N>, Global>,
    turns: Vec<Turn<'p, N>>,
    from: Receiver<Result<Logged<N>, CreateFault>, Global>,
}

/// What came of it, once all threads have ended.
#[derive(Drop)]
pub struct Ran<'p, N: PoolName> {
    pub collector: Collector<'p, N>,
    /// Why a line wasn't relayed, if one wasn't.
    pub trouble: Option<Trouble>,
    /// The desks, which nobody has any more.
    pub free: Receiver<Desk<'p, N>, Global>,
}

impl<'p, N: PoolName> Relay<'p, N> {
    /// A relay without a desk.
    ///
    /// # Errors
    ///
    /// Where memory was refused.
    pub fn new(alloc: Global) -> Result<Relay<'p, N>, AllocError>
        ensures { IfOk result (λ relay. vec_len relay.turns ≡ THREADS) }
    {
        let (back, free) = bounded(alloc, DESKS as usize)?;
        let (to, from) = unbounded(alloc)?;
        let mut turns = Vec::new(alloc);
        for thread in 0..THREADS {
            turns.push(Turn {
                thread,
                free: free.clone()?,
                back: back.clone()?,
                to: to.clone()?,
            })?;
        }
        Ok(Relay {
            free,
            back,
            turns,
            from,
        })
    }

    /// A desk more is free.
    pub fn add<R: Wait>(&self, rt: &R, desk: Desk<'p, N>) {
        let _ = self.back.send(rt, desk);
    }

    /// Runs each turn in a thread of its own, and collects what they hand on.
    pub fn run<R: Threads + Wait + Sync>(self, rt: &R, collector: Collector<'p, N>) -> Ran<'p, N>
    where
        N: Send,
        requires shown { AreShown collector.lender.lane.book.seen collector.held.items }
        ensures shown { AreShown result.collector.lender.lane.book.seen result.collector.held.items }
    {
        let Relay {
            free,
            back,
            turns,
            from,
        } = self;
        drop(back);
        let (collector, trouble) = thread::scope(
            thread::scope_env(),
            rt,
            move |scope| -> (Collector<'_, N>, Option<Trouble>)
                requires shown { AreShown collector.lender.lane.book.seen collector.held.items }
                ensures shown { AreShown result.0.lender.lane.book.seen result.0.held.items }
            {
                for turn in turns {
                    let run = move || take_turn(rt, turn);
                    if let Err(refused) = scope.spawn(run) {
                        (refused.value)();
                    }
                }
                collect_all(rt, collector, from)
            },
        );
        Ran {
            collector,
            trouble,
            free,
        }
    }
}

/// Takes a desk that is free, logs the thread's lines, hands on what came of each, and gives the desk back.
fn take_turn<N: PoolName, R: Wait>(rt: &R, turn: Turn<'_, N>) {
    let Ok(mut desk) = turn.free.recv(rt) else {
        return;
    };
    for number in 0..LINES {
        let line = Line {
            thread: turn.thread,
            number,
            millis: number * 10,
        };
        let _ = turn.to.send(rt, desk.log(line));
    }
    let _ = turn.back.send(rt, desk);
}

/// Collects what is handed on until all threads have ended. Why a line wasn't relayed, if one wasn't.
fn collect_all<'p, N: PoolName, R: Wait>(
    rt: &R,
    collector: Collector<'p, N>,
    from: Receiver<Result<Logged<N>, CreateFault>, Global>,
) -> (Collector<'p, N>, Option<Trouble>)
    requires shown { AreShown collector.lender.lane.book.seen collector.held.items }
    ensures shown { AreShown result.0.lender.lane.book.seen result.0.held.items }
{
    let mut collector = collector;
    let mut trouble = None;
    for _ in rt.forever() {
        let Ok(logged) = from.recv(rt) else {
            break;
        };
        if let Err(why) = collect_one(&mut collector, logged) {
            trouble = Some(why);
        }
    }
    (collector, trouble)
}

/// Collects a line that was logged.
fn collect_one<N: PoolName>(
    collector: &mut Collector<'_, N>,
    logged: Result<Logged<N>, CreateFault>,
) -> Result<(), Trouble>
    requires shown { AreShown collector.old.lender.lane.book.seen collector.old.held.items }
    ensures shown { AreShown collector.new.lender.lane.book.seen collector.new.held.items }
{
    let logged = logged.map_err(|fault| Trouble::NoPlace(fault))?;
    collector
        .collect(logged)
        .map_err(|why| Trouble::Unheld(why))
}
