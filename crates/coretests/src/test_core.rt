//! The core, turn by turn.
ghost use Rattle.std.specs.Prelude.{◌≡◌, length};
ghost use Rattle.keybits.specs.Shapes.{IsShape};

use crate::test_texts::{reads, same};
use coresteps::{Core, Script, Trace, Turn, write_trace};
use keybits::Shape;
use scripts::{Plan, parse};
use std::alloc::{AllocGlobal, Global};
use std::process::Abort;

// One lane publishes, gets and reads.
const ROW: &str =
    "{\"shape\":{\"lanes\":1,\"first_page\":2,\"pages\":1,\"last_generation\":4294967295},\"scripts\":[[[\"create\",0],[\"write\",0,\"6869\"],[\"publish\",0],[\"get\",1,16777216],[\"read\",1]]]}";

// A TAKE between a LINK and its PUSH.
const RETURNS: &str =
    "{\"shape\":{\"lanes\":2,\"first_page\":2,\"pages\":1,\"last_generation\":4294967295},\"scripts\":[[[\"create\",0],[\"publish\",0],[\"create\",1],[\"publish\",1],[\"clear\",16777216],[\"clear\",16777217],[\"create\",2],[\"create\",3]],[[\"get\",0,16777216],[\"get\",1,16777217],[\"release\",0],[\"release\",1]]]}";

const RETURNS_SCHEDULE: [u32; 24] = [
    0, 0, 1, 1, 0, 0, 0, 0, 0, 0, 1, 1, 1, 1, 1, 1, 1, 0, 0, 1, 1, 1, 0, 0,
];

/// The shape of a script file, and a script for each of its lanes.
fn plan_of<R: Abort + AllocGlobal>(rt: &R, file: &str) -> (Shape, Vec<Script>)
    ensures shape { IsShape result.0 }
    ensures alone { result.0.guests ≡ 0 }
    ensures lanes { length result.1.items ≡ result.0.lanes }
{
    let Plan { shape, scripts } = parse(rt.alloc(), file.as_bytes()).expect(rt, "a plan");
    let scripts = scripts.into_vec();
    assert!(rt;
        shape.guests == 0 && shape.check().is_ok() && scripts.len() == shape.lanes as usize
    );
    (shape, scripts)
}

/// The core of a script file.
fn core_of<R: Abort + AllocGlobal>(rt: &R, file: &str) -> Core {
    let (shape, scripts) = plan_of(rt, file);
    Core::new(rt.alloc(), shape, scripts).expect(rt, "memory for a core")
}

/// The text of the trace is this.
fn is_text<R: Abort>(rt: &R, alloc: Global, trace: &Trace, text: &str) {
    let mut out = Vec::new(alloc);
    write_trace(trace, &mut out).expect(rt, "memory for the text");
    reads(rt, out.as_slice(), text);
}

fn turn_of<R: Abort>(rt: &R, core: &mut Core, lane: u32) -> Turn {
    core.turn(lane).expect(rt, "memory for a turn")
}

/// The next turn of lane 0 has these lines, and the lane is finished by it or not.
fn steps<R: Abort>(rt: &R, alloc: Global, core: &mut Core, lines: &str, finished: bool) {
    let mut trace = Trace::empty(alloc);
    let turn = turn_of(rt, core, 0);
    trace.push(turn).expect(rt, "memory for a turn");
    is_text(rt, alloc, &trace, lines);
    same(rt, &core.finished(0), &finished);
}

#[test]
fn steps_a_core(rt: HostRuntime) {
    let mut core = core_of(&rt, ROW);
    assert!(rt; !core.finished(0));
    let lines =
        "0 = filling 16777216\n0 = ok\n0 PUBLISH 0 4294967296 4294967297\n0 = key 16777216\n";
    steps(&rt, rt.alloc(), &mut core, lines, false);
    let lines = "0 ENTER 0 4294967297 4294967301\n0 = some 6869\n0 = 6869\n";
    steps(&rt, rt.alloc(), &mut core, lines, true);
}

/// The turns of a schedule.
fn take_all<R: Abort>(rt: &R, core: &mut Core, schedule: &[u32]) {
    for lane in schedule {
        drop(turn_of(rt, core, *lane));
    }
}

#[test]
fn tells_the_most_steps(rt: HostRuntime) {
    let mut core = core_of(&rt, RETURNS);
    same(&rt, &core.most(0), &(0, 0));
    take_all(&rt, &mut core, &RETURNS_SCHEDULE);
    let most = [
        core.most(0),
        core.most(1),
        core.most(2),
        core.most(4294967295),
    ];
    same(&rt, &most, &[(2, 3), (0, 6), (0, 0), (0, 0)]);
}
