//! Names of pools.
use std::marker::Brand;

/// What a type parameter can name: a pool. So the type of a seat, or of a message, says of which pool it is. Whoever
/// calls a function of such a parameter at `Brand` picks the pool, in the proof of that call.
pub trait PoolName {
    ghost use Rattle.shardpool.specs.Tokens.{PoolOf};

    ghost pool: { PoolOf };
}

impl PoolName for Brand {
    ghost use Rattle.guards.specs.Named.{no_pool};

    ghost pool = { no_pool };
}
