//! A loan that is out.
ghost use Rattle.std.specs.Prelude.{◌≡◌};
ghost use Rattle.std.specs.Arc.{arc_value};

use shardpool::Loan;
use std::sync::Arc;

/// A loan that is out, under its key. Its owners have it too.
#[derive(Drop)]
pub struct Out<T> {
    pub(crate) key: u64,
    pub(crate) held: Arc<Loan<T>>,
    ghost under: { key ≡ (arc_value held).key },
}
