//! Calls of a store: a lane that was given back is there again, a call is busy only where all lanes are had, no other lane
//! acts, what one thread puts another finds, a look keeps no reference, and a filling waits with its lane.
ghost use Rattle.std.specs.Prelude.{◌≡◌};
ghost use Rattle.shardpool.specs.Lanes.{Issued};

use crate::test_calls::same;
use keybits::Shape;
use lanestore::{MOST_FILLINGS, Refusal, Store};
use shardpool::{Census, Note};
use slotcell::{ByteBuf, Clear};
use std::alloc::Global;
use std::process::Abort;
use std::test::Fail;
use std::thread;

/// Two lanes, each with places for more fillings than a lane keeps.
const SHAPE: Shape = Shape {
    lanes: 2,
    first_page: 32,
    pages: 2,
    last_generation: u32::MAX,
    tag: 0,
    guests: 0,
};

fn opened<R: Abort>(rt: &R, alloc: Global) -> Store<ByteBuf> {
    let Ok(store) = Store::open_wide(alloc, SHAPE) else {
        panic!(rt; "no store")
    };
    store
}

fn entered<R: Abort>(rt: &R, store: &Store<ByteBuf>) -> Note<ByteBuf>
    ensures { Issued store.now.pool result }
{
    let Some(told) = store.enter(0) else {
        panic!(rt; "all lanes are had")
    };
    told
}

fn closed<R: Abort>(rt: &R, alloc: Global, store: Store<ByteBuf>) -> Census {
    let told = entered(rt, &store);
    let Ok(census) = store.close(alloc, told) else {
        panic!(rt; "a lane is missing")
    };
    census
}

/// Whether all lanes are had.
fn is_busy(store: &Store<ByteBuf>, told: Note<ByteBuf>) -> bool
    requires { Issued store.now.pool told }
{
    match store.visit_any(0, told) {
        Ok(visit) => {
            store.leave(visit);
            false
        }
        Err(_told) => true,
    }
}

/// Has both lanes for a while: their numbers, and whether a third visit is busy meanwhile.
fn have_both(store: &Store<ByteBuf>) -> Option<(u32, u32, bool)> {
    let one = store.enter(0)?;
    let two = store.enter(1)?;
    let three = store.enter(9)?;
    let Ok(first) = store.visit_any(1, one) else {
        return None;
    };
    let had = match store.visit_any(1, two) {
        Ok(second) => {
            let busy = is_busy(store, three);
            let numbers = (first.number(), second.number());
            store.leave(second);
            Some((numbers.0, numbers.1, busy))
        }
        Err(_told) => None,
    };
    store.leave(first);
    had
}

/// Puts a word. Answers its key.
fn put(store: &Store<ByteBuf>, alloc: Global, from: u32) -> Option<u64> {
    let told = store.enter(from)?;
    let mut word = ByteBuf::fresh(alloc);
    word.append(b"word").ok()?;
    match store.put(from, told, &mut word) {
        Ok((Ok(key), _told)) => Some(key),
        _ => None,
    }
}

/// Whether the lane of this number has a reference to the key, which it then gives back.
fn gives_back(store: &Store<ByteBuf>, number: u32, key: u64) -> Option<bool> {
    let told = store.enter(0)?;
    let Ok(mut visit) = store.visit(number, told) else {
        return None;
    };
    let had = visit.release(store.pool(), key);
    store.leave(visit);
    Some(had)
}

/// Gets a key by lane 1, looks at it, clears it, gives the reference back, and gets it once more.
fn take_word(store: &Store<ByteBuf>, key: u64, told: Note<ByteBuf>) -> Option<(bool, bool, bool)>
    requires { Issued store.now.pool told }
{
    let Ok((Some(lent), told)) = store.get(1, told, key) else {
        return None;
    };
    let Ok((shows, told)) = store.read(
        told,
        &lent,
        |word: &ByteBuf| word.as_slice() == b"word".as_slice(),
    ) else {
        lent.forget();
        return None;
    };
    let Ok((cleared, told)) = store.clear(0, told, key) else {
        lent.forget();
        return None;
    };
    let (released, told) = match store.release(told, lent) {
        Ok(released) => released,
        Err((lent, _told)) => {
            lent.forget();
            return None;
        }
    };
    match store.get(0, told, key) {
        Ok((Some(lent), _told)) => {
            lent.forget();
            None
        }
        Ok((None, _told)) => Some((shows == Some(true), cleared, released)),
        Err(_refused) => None,
    }
}

/// Whether a look shows the word under a key. None within where it finds none.
fn look(store: &Store<ByteBuf>, key: u64) -> Option<Option<bool>> {
    let told = store.enter(0)?;
    match store.look(
        0,
        told,
        key,
        |word: &ByteBuf| word.as_slice() == b"word".as_slice(),
    ) {
        Ok((shows, _told)) => Some(shows),
        Err(_refused) => None,
    }
}

/// Whether a clear marked a key.
fn clear(store: &Store<ByteBuf>, key: u64) -> Option<bool> {
    let told = store.enter(0)?;
    match store.clear(0, told, key) {
        Ok((cleared, _told)) => Some(cleared),
        Err(_told) => None,
    }
}

/// Creates a filling by a lane that nobody has, from this number on. Answers its key, or why there is none.
fn create(store: &Store<ByteBuf>, from: u32) -> Option<Result<u64, Refusal>> {
    let told = store.enter(from)?;
    match store.create(from, told) {
        Ok((Ok(key), _told)) => Some(Ok(key)),
        Ok((Err(_fault), _told)) => None,
        Err((refusal, _told)) => Some(Err(refusal)),
    }
}

/// Appends to the filling of a key.
fn write(store: &Store<ByteBuf>, key: u64) -> Option<Result<bool, Refusal>> {
    let told = store.enter(0)?;
    match store.write(told, key, |word: &mut ByteBuf| word.append(b"wo").is_ok()) {
        Ok((written, _told)) => Some(Ok(written)),
        Err((refusal, _told)) => Some(Err(refusal)),
    }
}

/// Publishes the filling of a key.
fn publish(store: &Store<ByteBuf>, key: u64) -> Option<Result<(), Refusal>> {
    let told = store.enter(0)?;
    match store.publish(told, key) {
        Ok(_told) => Some(Ok(())),
        Err((refusal, _told)) => Some(Err(refusal)),
    }
}

/// Publishes the filling of a key with a reference, and reads it.
fn downgrade(store: &Store<ByteBuf>, key: u64) -> Option<Result<bool, Refusal>> {
    let told = store.enter(0)?;
    let (lent, told) = match store.downgrade(told, key) {
        Ok(lent) => lent,
        Err((refusal, _told)) => return Some(Err(refusal)),
    };
    let shows = match store.read(
        told,
        &lent,
        |word: &ByteBuf| word.as_slice() == b"wowo".as_slice(),
    ) {
        Ok((shows, _told)) => shows == Some(true),
        Err(_told) => false,
    };
    lent.forget();
    Some(Ok(shows))
}

/// Publishes the filling of a key while another call has the first lane.
fn publish_meanwhile(store: &Store<ByteBuf>, key: u64) -> Option<Result<(), Refusal>> {
    let one = store.enter(0)?;
    let Ok(first) = store.visit(0, one) else {
        return None;
    };
    let published = publish(store, key);
    store.leave(first);
    published
}

#[test]
fn each_lane_is_had_once_and_is_there_again(rt: HostRuntime) -> Result<(), Fail> {
    let store = opened(&rt, rt.alloc());
    for _ in 0..3u32 {
        same(&rt, &have_both(&store), &Some((1, 0, true)));
    }
    Ok(())
}

#[test]
fn what_one_thread_puts_another_finds(rt: HostRuntime) -> Result<(), Fail> {
    let alloc = rt.alloc();
    let store = opened(&rt, alloc);
    let (one, two) = thread::join(&rt, || put(&store, alloc, 0), || put(&store, alloc, 1));
    let (Some(first), Some(second)) = (one, two) else {
        panic!(rt; "a put was refused")
    };
    for key in [first, second] {
        let told = entered(&rt, &store);
        same(
            &rt,
            &take_word(&store, key, told),
            &Some((true, true, true)),
        );
    }
    let census = closed(&rt, alloc, store);
    assert!(rt; census.present == 0 && census.filling == 0 && census.free == 64);
    Ok(())
}

#[test]
fn no_other_lane_acts(rt: HostRuntime) -> Result<(), Fail> {
    let alloc = rt.alloc();
    let store = opened(&rt, alloc);
    let Some(key) = put(&store, alloc, 1) else {
        panic!(rt; "a put was refused")
    };
    let told = entered(&rt, &store);
    let Ok((Some(lent), _told)) = store.get(1, told, key) else {
        panic!(rt; "a get was refused")
    };
    assert!(rt; lent.lane() == 1 && lent.key() == key);
    lent.forget();
    same(&rt, &gives_back(&store, 0, key), &Some(false));
    same(&rt, &gives_back(&store, 1, key), &Some(true));
    same(&rt, &gives_back(&store, 1, key), &Some(false));
    let census = closed(&rt, alloc, store);
    assert!(rt; census.present == 1 && census.filling == 0 && census.free == 31);
    Ok(())
}

#[test]
fn a_look_shows_what_was_put_and_keeps_no_reference(rt: HostRuntime) -> Result<(), Fail> {
    let alloc = rt.alloc();
    let store = opened(&rt, alloc);
    let Some(key) = put(&store, alloc, 1) else {
        panic!(rt; "a put was refused")
    };
    same(&rt, &look(&store, key), &Some(Some(true)));
    same(&rt, &gives_back(&store, 0, key), &Some(false));
    same(&rt, &look(&store, u64::MAX), &Some(None));
    same(&rt, &clear(&store, key), &Some(true));
    same(&rt, &look(&store, key), &Some(None));
    let census = closed(&rt, alloc, store);
    assert!(rt; census.present == 0 && census.free == 32);
    Ok(())
}

#[test]
fn a_filling_waits_with_its_lane(rt: HostRuntime) -> Result<(), Fail> {
    let alloc = rt.alloc();
    let store = opened(&rt, alloc);
    let (one, two) = thread::join(&rt, || create(&store, 0), || create(&store, 0));
    let (Some(Ok(first)), Some(Ok(second))) = (one, two) else {
        panic!(rt; "a create was refused")
    };
    assert!(rt; first != second);
    same(&rt, &write(&store, first), &Some(Ok(true)));
    same(&rt, &write(&store, second), &Some(Ok(true)));
    same(&rt, &write(&store, first), &Some(Ok(true)));
    same(&rt, &downgrade(&store, first), &Some(Ok(true)));
    same(&rt, &publish(&store, second), &Some(Ok(())));
    same(
        &rt,
        &publish(&store, second),
        &Some(Err(Refusal::NoFilling)),
    );
    same(
        &rt,
        &downgrade(&store, first),
        &Some(Err(Refusal::NoFilling)),
    );
    same(
        &rt,
        &write(&store, u64::MAX),
        &Some(Err(Refusal::NoFilling)),
    );
    let census = closed(&rt, alloc, store);
    assert!(rt; census.present == 2 && census.filling == 0);
    Ok(())
}

#[test]
fn a_lane_keeps_so_many_fillings(rt: HostRuntime) -> Result<(), Fail> {
    let alloc = rt.alloc();
    let store = opened(&rt, alloc);
    let Some(Ok(key)) = create(&store, 0) else {
        panic!(rt; "a create was refused")
    };
    same(
        &rt,
        &publish_meanwhile(&store, key),
        &Some(Err(Refusal::Busy)),
    );
    for _ in 1..MOST_FILLINGS {
        assert!(rt; matches!(create(&store, 0), Some(Ok(_))));
    }
    same(&rt, &create(&store, 0), &Some(Err(Refusal::Fillings)));
    same(&rt, &publish(&store, key), &Some(Ok(())));
    assert!(rt; matches!(create(&store, 0), Some(Ok(_))));
    let census = closed(&rt, alloc, store);
    assert!(rt; census.present == 1 && census.filling == 64);
    Ok(())
}
