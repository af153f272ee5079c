//! References that travel.
ghost use Rattle.std.specs.Prelude.{◌≡◌, IfSome};
ghost use Rattle.shardpool.specs.Lanes.{Owns};

use crate::pools::{Worker, open_pool, put_each, workers};
use lendings::{Lender, Owned};
use shardpool::{Lane, Pool};
use slotcell::ByteBuf;
use std::alloc::Global;

/// An owned reference is cloned, the object is read by the clone, and the clone is dropped. Answers how many bytes.
pub fn read_clones(alloc: Global, rounds: u64) -> u64 {
    let Ok((pool, lanes)) = open_pool(alloc, 1) else {
        return 0;
    };
    let Ok(mut all) = workers(alloc, &pool, lanes) else {
        return 0;
    };
    match own(alloc, &mut all) {
        Some(owned) => clone_often(&owned, rounds),
        None => 0,
    }
}

/// An owned reference to an object that the last of the workers publishes, whose lane then lends it.
fn own(alloc: Global, workers: &mut Vec<Worker>) -> Option<Owned<ByteBuf>> {
    let key = put_each(alloc, workers).ok()?.pop()?;
    let (pool, lane) = workers.pop()?.into_parts();
    let mut lender = lender_of(alloc, lane)?;
    lender.own(pool, key).ok()?
}

fn lender_of(alloc: Global, lane: Lane<ByteBuf>) -> Option<Lender<ByteBuf>>
    ensures { IfSome result (λ lender. lender.lane ≡ lane) }
{
    Lender::of(alloc, lane).ok()
}

fn clone_often(owned: &Owned<ByteBuf>, rounds: u64) -> u64 {
    let mut bytes = 0u64;
    for _ in 0..rounds {
        if let Ok(other) = owned.clone() {
            bytes = bytes.wrapping_add(other.read().len() as u64);
        }
    }
    bytes
}
