//! How a pool is opened for callers.
ghost use Rattle.std.specs.Prelude.{◌≡◌, ◌↔◌, [], IfOk, IfSome, IsErrOf};
ghost use Rattle.keybits.specs.Shapes.{IsShape};
ghost use Rattle.keybits.specs.ShapeFaults.{IsFirstWideFault};
ghost use Rattle.keybits.specs.declared.shape.ShapeFault.{ShapeFault as Fault};
ghost use Rattle.shardpool.specs.declared.fault.OpenFault.TheVariants as faults;
ghost use Rattle.poolffi.specs.Callers.{pool_of};

use crate::caller::Caller;
use crate::closing::close_caller;
use keybits::Shape;
use lanestore::Store;
use shardpool::{Lane, OpenFault};
use slotcell::ByteBuf;
use std::alloc::Global;
use std::sync::Arc;

/// The first caller of a pool of this shape, which has no guests, that is opened.
///
/// # Errors
///
/// The first fault of the shape, by the wide limits; and the want of memory, for a shape within them alone.
pub fn open_caller(alloc: Global, shape: Shape) -> Result<Box<Caller>, OpenFault>
    requires { shape.guests ≡ 0 }
    ensures opened { IfOk result (λ caller. (pool_of caller.value).shape ≡ shape) }
    ensures faults { (fault : Fault) → IsErrOf result (faults.Shape fault) ↔ IsFirstWideFault shape fault }
    ensures memory { IsErrOf result faults.Memory → IsShape shape }
{
    shape.check_wide()?;
    let Ok(row) = Vec::with_capacity(alloc, shape.lanes as usize) else {
        return Err(OpenFault::Memory);
    };
    match Store::open_wide(alloc, shape) {
        Ok(store) => caller_of(alloc, store, row).ok_or(OpenFault::Memory),
        Err(fault) => Err(fault),
    }
}

/// The first caller of a store, with an empty row. None where memory was refused: the pool is then closed again.
fn caller_of(alloc: Global, store: Store<ByteBuf>, row: Vec<Lane<ByteBuf>>) -> Option<Box<Caller>>
    requires { row.items ≡ [] }
    ensures { IfSome result (λ caller. pool_of caller.value ≡ store.pool) }
{
    let note = store.enter(0)?;
    match Arc::new(alloc, store) {
        Ok(store) => in_box(alloc, Caller { store, note, row }),
        Err(refused) => {
            drop(refused.value.close_in(row, note));
            None
        }
    }
}

/// A caller in a box of its own. None where memory was refused: his pool is then closed again.
fn in_box(alloc: Global, caller: Caller) -> Option<Box<Caller>>
    ensures { IfSome result (λ boxed. boxed.value ≡ caller) }
{
    match Box::new(alloc, caller) {
        Ok(boxed) => Some(boxed),
        Err(refused) => {
            drop(close_caller(refused.value));
            None
        }
    }
}
