//! A relay of lines: threads that come and go log them by two lanes of a pool, and hand their keys on to a collector,
//! which owns the lines, clears their keys, and has them read without a lane. What was proved of a whole run is in the
//! contract of `serve`.
#![tactic(auto)]

ghost use Rattle.std.specs.Prelude.{◌≡◌, IfOk, List, []};
ghost use Rattle.shardpool.specs.Tokens.{PoolOf, LaneOf};
ghost use Rattle.shardpool.specs.Lanes.{Owns, refs};
ghost use Rattle.poollaws.specs.Cleared.{cleared_by};
ghost use Rattle.guards.specs.Here.{HoldNothing, HaveCleared};
ghost use Rattle.relaysample.specs.Held.{AreShown};
ghost use Rattle.relaysample.specs.Settled.{AreCollected, IsSettled};

mod collector;
mod desks;
mod lines;
mod logged;
mod relay;
mod rows;

use crate::collector::Collector;
use crate::desks::Desk;
use crate::lines::Entry;
use crate::relay::{DESKS, Relay, Trouble};
use crate::rows::Row;
use anyhow::anyhow;
use crossbeam_channel::Receiver;
use guards::{Lanes, Missing, Opened, PoolName, open_lanes};
use keybits::Shape;
use lendings::Lender;
use poollaws::{cleared_law, close_law, going_law};
use shardpool::{Census, Lane, Pool};
use std::alloc::Global;
use std::marker::Brand;
use std::sync::Wait;
use std::thread::Threads;

/// The lanes of the first numbers log; then comes the lane that lends, and then the one that clears. Each lane has pages
/// for all lines.
const SHAPE: Shape = Shape {
    lanes: DESKS + 2,
    first_page: 8,
    pages: 3,
    last_generation: u32::MAX,
    tag: 0,
    guests: 0,
};

/// What came of a run.
#[derive(Drop)]
struct Outcome {
    rows: Vec<Row>,
    /// Why a line wasn't relayed, if one wasn't.
    trouble: Option<Trouble>,
    census: Census,
}

/// Takes a lane that is here. It has no reference and cleared nothing.
fn take_lane(lanes: &mut Lanes<Entry>, number: u32) -> anyhow::Result<Lane<Entry>>
    requires nothing { HoldNothing lanes.old }
    requires cleared { HaveCleared [] lanes.old }
    ensures owns { IfOk result (λ lane. Owns lanes.old.pool lane) }
    ensures none { IfOk result (λ lane. (refs lane ≡ 0) × (cleared_by lane ≡ [])) }
    ensures pool { lanes.new.pool ≡ lanes.old.pool }
    ensures nothing { HoldNothing lanes.new }
    ensures cleared { HaveCleared [] lanes.new }
{
    match lanes.take(number) {
        Some(lane) => Ok(lane),
        None => Err(anyhow!("lane {number} is missing")),
    }
}

/// The collector, with two lanes of the pool.
fn collector_of<'p, N: PoolName>(
    alloc: Global,
    pool: &'p Pool<Entry>,
    lanes: &mut Lanes<Entry>,
) -> anyhow::Result<Collector<'p, N>>
    requires pool { (pool.now ≡ N.pool) × (lanes.old.pool ≡ N.pool) }
    requires nothing { HoldNothing lanes.old }
    requires cleared { HaveCleared [] lanes.old }
    ensures pool { lanes.new.pool ≡ lanes.old.pool }
    ensures nothing { HoldNothing lanes.new }
    ensures cleared { HaveCleared [] lanes.new }
    ensures shown { IfOk result (λ collector. AreShown collector.lender.lane.book.seen collector.held.items) }
{
    let lending = take_lane(lanes, DESKS)?;
    let clearing = take_lane(lanes, DESKS + 1)?;
    match Lender::of(alloc, lending) {
        Ok(lender) => Ok(Collector::new(alloc, pool, lender, clearing)),
        Err(_) => Err(anyhow!("the lane has a reference")),
    }
}

/// Makes a desk of each lane that logs.
fn add_desks<'p, N: PoolName, R: Wait>(
    rt: &R,
    pool: &'p Pool<Entry>,
    lanes: &mut Lanes<Entry>,
    relay: &Relay<'p, N>,
) -> anyhow::Result<()>
    requires pool { (pool.now ≡ N.pool) × (lanes.old.pool ≡ N.pool) }
    requires nothing { HoldNothing lanes.old }
    requires cleared { HaveCleared [] lanes.old }
    ensures pool { lanes.new.pool ≡ lanes.old.pool }
    ensures nothing { HoldNothing lanes.new }
    ensures cleared { HaveCleared [] lanes.new }
{
    for number in 0..DESKS {
        relay.add(rt, Desk::new(pool, take_lane(lanes, number)?));
    }
    Ok(())
}

/// Gives the lanes of the desks back.
fn give_desks<N: PoolName, R: Wait>(
    rt: &R,
    lanes: &mut Lanes<Entry>,
    free: Receiver<Desk<'_, N>, Global>,
)
    requires pool { lanes.old.pool ≡ N.pool }
    requires cleared { HaveCleared [] lanes.old }
    ensures pool { lanes.new.pool ≡ lanes.old.pool }
    ensures cleared { HaveCleared [] lanes.new }
{
    for _ in rt.forever() {
        let Ok(desk) = free.recv(rt) else {
            break;
        };
        lanes.give(desk.into_lane());
    }
}

/// Gives the collector's lanes back, and answers what it read.
///
/// # Errors
///
/// Where memory was refused for the rows, or a reference is left.
fn give_collector<N: PoolName, R: Threads + Sync>(
    rt: &R,
    alloc: Global,
    lanes: &mut Lanes<Entry>,
    collector: Collector<'_, N>,
) -> anyhow::Result<Vec<Row>>
    requires pool { lanes.old.pool ≡ N.pool }
    requires cleared { HaveCleared [] lanes.old }
    requires shown { AreShown collector.lender.lane.book.seen collector.held.items }
    ensures pool { lanes.new.pool ≡ lanes.old.pool }
    ensures collected { IfOk result (λ rows. AreCollected lanes.new rows.items) }
{
    going_law();
    cleared_law::<Entry>();
    let rows = collector.rows(rt, alloc);
    let Some((lending, clearing)) = collector.into_lanes() else {
        return Err(anyhow!("a reference is left"));
    };
    clearing.seen_law();
    lanes.give(clearing);
    lanes.give(lending);
    match rows {
        Ok(rows) => Ok(rows),
        Err(refused) => Err(refused.into()),
    }
}

/// Runs the relay by the lanes of a pool, which are then all here again. What the collector read, and why a line wasn't
/// relayed, if one wasn't.
///
/// # Errors
///
/// Where memory was refused, or a lane isn't here.
fn run_all<N: PoolName + Send, R: Threads + Wait + Sync>(
    rt: &R,
    alloc: Global,
    opened: &mut Opened<Entry>,
) -> anyhow::Result<(Vec<Row>, Option<Trouble>)>
    requires pool { opened.old.pool ≡ N.pool }
    requires nothing { HoldNothing opened.old.lanes }
    requires cleared { HaveCleared [] opened.old.lanes }
    ensures { IfOk result (λ r. AreCollected opened.new.lanes r.0.items) }
{
    let relay = Relay::<N>::new(alloc)?;
    let collector = collector_of(alloc, &opened.pool, &mut opened.lanes)?;
    add_desks(rt, &opened.pool, &mut opened.lanes, &relay)?;
    let ran = relay.run(rt, collector);
    give_desks(rt, &mut opened.lanes, ran.free);
    let rows = give_collector(rt, alloc, &mut opened.lanes, ran.collector)?;
    Ok((rows, ran.trouble))
}

/// Closes the pool, once the collector has these rows.
///
/// # Errors
///
/// As `Opened::close`.
fn close_relay(opened: Opened<Entry>, rows: &[Row]) -> Result<Census, Missing<Entry>>
    requires { AreCollected opened.lanes rows.now }
    ensures { IfOk result (λ census. (lanes : List LaneOf) × IsSettled opened.pool lanes rows.now census) }
{
    close_law();
    opened.close()
}

/// Opens a pool, runs the relay, and closes the pool: what the collector read is what was logged, each line once, and
/// nothing is lost.
fn serve<R: Threads + Wait + Sync>(rt: &R, alloc: Global) -> anyhow::Result<Outcome>
    ensures { IfOk result (λ outcome. (pool : PoolOf) × (lanes : List LaneOf)
        × IsSettled pool lanes outcome.rows.items outcome.census) }
{
    let mut opened = open_lanes(alloc, SHAPE)?;
    match run_all::<Brand, R>(rt, alloc, &mut opened) {
        Ok((rows, trouble)) => match close_relay(opened, rows.as_slice()) {
            Ok(census) => Ok(Outcome {
                rows,
                trouble,
                census,
            }),
            Err(missing) => Err(anyhow!("lane {} is missing", missing.number)),
        },
        Err(error) => {
            drop(opened.close());
            Err(error)
        }
    }
}

// Nothing is printed before the pool is closed: a failed print that ends main would leave the lanes to be dropped.
fn main(rt: HostRuntime) -> anyhow::Result<()> {
    let Outcome {
        rows,
        trouble,
        census,
    } = serve(&rt, rt.alloc())?;
    let millis: u32 = rows
        .iter()
        .fold(0, |sum: u32, row| sum.saturating_add(row.line.millis));
    println!(rt; "{} lines of {millis} ms were read", rows.len())?;
    match trouble {
        Some(why) => println!(rt; "one wasn't relayed: {why:?}")?,
        None => println!(rt; "{} are left", census.present)?,
    }
    Ok(())
}
