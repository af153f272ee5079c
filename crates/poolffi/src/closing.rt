//! How a pool with callers is closed.
ghost use Rattle.std.specs.Prelude.{IfOk, IfErr, IfSome, option_map};
ghost use Rattle.poolffi.specs.Callers.{ClosesPool, ClosesNot};

use crate::caller::Caller;
use crate::refusal::Refusal;
use shardpool::Census;
use std::sync::Arc;

/// Closes the pool of a caller who has it alone.
///
/// # Errors
///
/// The caller, where others have a share of it. Where that is seen late, or a lane isn't there, which doesn't happen, none:
/// his share is then dropped.
pub fn close(caller: Box<Caller>) -> Result<Census, (Refusal, Option<Box<Caller>>)>
    ensures closes { IfOk result (ClosesPool caller.value) }
    ensures stays { IfErr result (λ back. ClosesNot caller.value (option_map (λ same. same.value) back.1) back.0) }
{
    if Arc::strong_count(&caller.store) != 1 {
        return Err((Refusal::Shared, Some(caller)));
    }
    let Some(counts) = close_caller(Box::into_inner(caller)) else {
        return Err((Refusal::Shared, None));
    };
    Ok(counts)
}

/// Closes the pool of a caller who has it alone. None where others have a share of it, or a lane isn't there.
pub(crate) fn close_caller(caller: Caller) -> Option<Census>
    ensures { IfSome result (ClosesPool caller) }
{
    let Caller { store, note, row } = caller;
    Arc::into_inner(store)?.close_in(row, note)
}
