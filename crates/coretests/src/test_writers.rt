//! Writers that are watched.
use crate::fake_writers::{Clogged, Deaf, Halting};
use crate::test_texts::same;
use std::io::Write;
use streams::Watched;

/// Whether a write succeeds, and whether one failed so far.
fn write_to<W: Write>(out: &mut Watched<W>, bytes: &[u8]) -> (bool, bool) {
    let succeeds = out.write(bytes).is_ok();
    (succeeds, out.failed())
}

#[test]
fn watches_one_that_halts(rt: HostRuntime) {
    let mut out = Watched::new(Halting { room: 3 });
    same(&rt, &write_to(&mut out, b"ab"), &(true, false));
    same(&rt, &write_to(&mut out, b"cd"), &(true, false));
    same(&rt, &write_to(&mut out, b""), &(false, true));
}

#[test]
fn watches(rt: HostRuntime) {
    let mut out = Watched::new(Deaf);
    same(&rt, &write_to(&mut out, b""), &(true, false));
    same(&rt, &write_to(&mut out, b"a"), &(true, true));
    let mut out = Watched::new(Clogged);
    same(&rt, &write_to(&mut out, b"a"), &(true, false));
    assert!(rt; out.flush().is_err() && out.failed());
}
