//! Objects that are cleared, and cells that are split into shares and joined again.
ghost use Rattle.std.specs.Prelude.{◌≡◌, ◌<◌, ◌≤◌, [], ◌∷◌, ◌++◌, length, All, Some, IsSome};

use crate::test_texts;
use crate::test_texts::same;
use arrayvec::ArrayVec;
use slotcell::{ByteBuf, Clear, Memory, Record, Share, Whole, join};
use std::alloc::Global;
use std::cell::Cell;
use std::process::Abort;
use std::snapshot::Snapshot;
use std::thread;
use std::thread::{Promise, PromisedHandle, Threads};

// The last of the shares.
fn take_last<T: Drop>(shares: &mut ArrayVec<Option<Share<T>>, 16>) -> Share<T>
    requires { (0 < length shares.old.items) × All IsSome shares.old.items }
    ensures { shares.old.items ≡ shares.new.items ++ Some result ∷ [] }
{
    shares.pop().unwrap().unwrap()
}

fn round_trip<T: Drop>(alloc: Global, whole: Whole<T>, n: usize) -> Whole<T>
    requires { (0 < n) × (n ≤ 16) }
    ensures { result ≡ whole }
{
    join(alloc, whole.split(n))
}

fn put<T: Drop>(whole: &mut Whole<T>, object: T)
    ensures { whole.new ≡ object }
{
    *whole.get_mut() = object;
}

fn emptied<T: Clear>(object: &mut T) -> usize
    ensures empty { T.content object.new ≡ [] }
    ensures room { (T.room object.old ≤ result) × (T.room object.new ≡ result) }
{
    object.clear();
    object.room()
}

// A cell that is split, joined and emptied holds an object that is empty and has its room.
fn refilled<T: Clear + Drop>(alloc: Global, whole: Whole<T>, n: usize) -> Whole<T>
    requires { (0 < n) × (n ≤ 16) }
    ensures empty { T.content result ≡ [] }
    ensures room { T.room whole ≤ T.room result }
{
    let mut whole = round_trip(alloc, whole, n);
    whole.get_mut().clear();
    whole
}

// The value may be sent to a thread, and be shared with one.
fn crosses<S: Send + Sync>(_value: &S) {}

fn cells_cross<T: Send + Sync>(share: &Share<T>, whole: &Whole<T>) {
    crosses(share);
    crosses(whole);
}

// Where memory is refused the buffer is as it was, and the call may be made again.
fn append_to(rt: &impl Abort, buffer: &mut ByteBuf, more: &[u8])
    ensures { buffer.new.bytes ≡ buffer.old.bytes ++ more.now }
{
    let (len, room) = (buffer.len(), buffer.room());
    if buffer.append(more).is_err() {
        same(rt, &buffer.len(), &len);
        same(rt, &buffer.room(), &room);
        buffer.append(more).expect(rt, "memory for the bytes");
    }
}

// Where memory is refused the object comes back.
fn cell_of<T: Drop>(rt: &impl Abort, alloc: Global, object: T) -> Whole<T>
    ensures { result ≡ object }
{
    match Whole::new(alloc, object) {
        Ok(whole) => whole,
        Err(back) => Whole::new(alloc, back).ok().expect(rt, "memory for a cell"),
    }
}

/// The buffer has these bytes.
fn has_bytes<R: Abort>(rt: &R, buffer: &ByteBuf, bytes: &[u8]) {
    same(rt, &buffer.len(), &bytes.len());
    same(rt, &buffer.as_slice(), &bytes);
}

/// The record has these numbers.
fn has_numbers<R: Abort>(rt: &R, record: &Record, numbers: &[u64]) {
    same(rt, &record.as_slice(), &numbers);
}

/// A buffer that had these bytes, or more, is cleared, and takes them again without more memory.
fn take_again<R: Abort>(rt: &R, buffer: &mut ByteBuf, bytes: &[u8]) {
    let room = emptied(buffer);
    same(rt, &buffer.len(), &0);
    assert!(rt; room >= bytes.len());
    buffer.append(bytes).unwrap();
    same(rt, &buffer.room(), &room);
}

static FIVES: [u8; 4096] = [5; 4096];

#[test]
fn a_cleared_buffer_keeps_its_room(rt: HostRuntime) {
    let bytes = FIVES.as_slice();
    let mut buffer = ByteBuf::fresh(rt.alloc());
    assert!(rt; buffer.is_empty());
    same(&rt, &buffer.room(), &0);
    buffer.append(bytes).expect(&rt, "memory for the bytes");
    has_bytes(&rt, &buffer, bytes);
    take_again(&rt, &mut buffer, bytes);
    has_bytes(&rt, &buffer, bytes);
}

#[test]
fn zeros_are_appended_and_dropped(rt: HostRuntime) {
    let mut buffer = ByteBuf::fresh(rt.alloc());
    buffer.append(b"ab").expect(&rt, "memory for the bytes");
    buffer.append_zeros(3).expect(&rt, "memory for the zeros");
    has_bytes(&rt, &buffer, b"ab\0\0\0");
    if buffer.len() > 2 {
        buffer.drop_last(2);
    }
    has_bytes(&rt, &buffer, b"ab\0");
}

/// An empty record takes the numbers from 0 to 7, and no more.
fn take_eight<R: Abort>(rt: &R, record: &mut Record) {
    for number in 0..8 {
        assert!(rt; record.push(number));
    }
    assert!(rt; !record.push(8));
    has_numbers(rt, record, &[0, 1, 2, 3, 4, 5, 6, 7]);
}

#[test]
fn a_record_takes_eight_numbers(rt: HostRuntime) {
    let mut record = Record::fresh(rt.alloc());
    same(&rt, &record.room(), &8);
    take_eight(&rt, &mut record);
    same(&rt, &emptied(&mut record), &8);
    has_numbers(&rt, &record, &[]);
    assert!(rt; record.push(9));
    has_numbers(&rt, &record, &[9]);
}

// Who reads a share hands on the very share.
#[derive(Drop)]
struct SameShare(Snapshot<Share<ByteBuf>>);

impl Promise<(Share<ByteBuf>, bool)> for SameShare {
    ghost kept_by = { λ same answer. answer.0 ≡ same.0.value };
}

fn shows(share: Share<ByteBuf>, bytes: &'static [u8]) -> (Share<ByteBuf>, bool)
    ensures { result.0 ≡ share }
{
    let same = share.read().as_slice() == bytes;
    (share, same)
}

fn read_in_thread<R: Threads + Abort>(
    rt: &R,
    share: Share<ByteBuf>,
    bytes: &'static [u8],
) -> PromisedHandle<(Share<ByteBuf>, bool), SameShare>
    ensures { result.promise.0.value ≡ share }
{
    let same = SameShare(Snapshot::of(&share));
    let child = thread::spawn_with(rt, same, move || shows(share, bytes));
    child.ok().expect(rt, "a thread")
}

// Each share is read in a thread of its own, both at once.
fn read_in_threads<R: Threads + Abort>(
    rt: &R,
    one: Share<ByteBuf>,
    other: Share<ByteBuf>,
    bytes: &'static [u8],
) -> (Share<ByteBuf>, Share<ByteBuf>)
    ensures { (result.0 ≡ one) × (result.1 ≡ other) }
{
    let one_thread = read_in_thread(rt, one, bytes);
    let other_thread = read_in_thread(rt, other, bytes);
    let (one, seen) = one_thread.join(rt);
    let (other, also_seen) = other_thread.join(rt);
    assert!(rt; seen && also_seen);
    (one, other)
}

// Splits the cell, has two of its shares read, and joins all, these two in the other order.
fn read_by_two_threads<R: Threads + Abort>(
    rt: &R,
    alloc: Global,
    whole: Whole<ByteBuf>,
    bytes: &'static [u8],
) -> Whole<ByteBuf>
    ensures { result ≡ whole }
{
    let mut shares = whole.split(16);
    let last = take_last(&mut shares);
    let before = take_last(&mut shares);
    let (last, before) = read_in_threads(rt, last, before, bytes);
    shares.push(Some(last));
    shares.push(Some(before));
    join(alloc, shares)
}

#[test]
fn a_cell_is_written_again_once_two_threads_have_read_it(rt: HostRuntime) {
    let mut whole = cell_of(&rt, rt.alloc(), ByteBuf::fresh(rt.alloc()));
    append_to(&rt, whole.get_mut(), b"abc");
    let mut whole = read_by_two_threads(&rt, rt.alloc(), whole, b"abc");
    append_to(&rt, whole.get_mut(), b"de");
    let whole = read_by_two_threads(&rt, rt.alloc(), whole, b"abcde");
    has_bytes(&rt, whole.get(), b"abcde");
    is_refilled(&rt, rt.alloc(), whole);
}

/// Another object of a cell that is split and joined is emptied, and has room.
fn is_refilled<R: Abort>(rt: &R, alloc: Global, whole: Whole<ByteBuf>) {
    let mut whole = whole;
    put(&mut whole, ByteBuf::fresh(alloc));
    append_to(rt, whole.get_mut(), b"f");
    let whole = refilled(alloc, whole, 3);
    assert!(rt; whole.get().room() >= 1);
    assert!(rt; whole.into_inner().is_empty());
}

// Counts how often it is dropped.
struct Probe<'a> {
    drops: &'a Cell<u32>,
}

impl Drop for Probe<'_> {
    fn drop(self) {
        let Probe { drops } = self;
        drops.set(drops.get().wrapping_add(1));
    }
}

/// A probe of the count, in a cell.
fn probed<'a, R: Abort>(rt: &R, alloc: Global, drops: &'a Cell<u32>) -> Whole<Probe<'a>> {
    cell_of(rt, alloc, Probe { drops })
}

/// So many probes of the count were dropped.
fn were_dropped<R: Abort>(rt: &R, drops: &Cell<u32>, count: u32) {
    same(rt, &drops.get(), &count);
}

#[test]
fn a_whole_drops_its_object_and_a_share_drops_nothing(rt: HostRuntime) {
    let drops = Cell::new(0);
    drop(probed(&rt, rt.alloc(), &drops));
    were_dropped(&rt, &drops, 1);
    drop(probed(&rt, rt.alloc(), &drops).into_inner());
    were_dropped(&rt, &drops, 2);

    let mut shares = probed(&rt, rt.alloc(), &drops).split(2);
    drop(take_last(&mut shares));
    were_dropped(&rt, &drops, 2);
    let left = take_last(&mut shares);
    were_dropped(&rt, left.read().drops, 2);
    drop(left);
    were_dropped(&rt, &drops, 2);
}

#[test]
fn memory_is_printed(rt: HostRuntime) {
    test_texts::shows(&rt, rt.alloc(), &Memory, "out of memory");
}
