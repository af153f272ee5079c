//! The texts of faults and of refusals.
use crate::test_texts::shows;
use keybits::ShapeFault;
use seqpool::{ActsFault, ApplyFault, CheckFault, Memory};

#[test]
fn faults_have_texts(rt: HostRuntime) {
    for (fault, want) in [
        (ActsFault::ActsLine, "a line is none of a shape or an act"),
        (
            ActsFault::Shape(ShapeFault::Generation),
            "the shape is refused: the last generation is 0",
        ),
        (ActsFault::Memory, "no memory was left"),
    ] {
        shows(&rt, rt.alloc(), &fault, want);
    }
    shows(&rt, rt.alloc(), &Memory, "no memory was left");
    shows(&rt, rt.alloc(), &CheckFault::Memory, "no memory was left");
}

#[test]
fn refusals_have_texts(rt: HostRuntime) {
    for (fault, want) in [
        (
            ApplyFault::NotWithLane,
            "act 7 is refused: there is no such lane, or the place isn't with it",
        ),
        (
            ApplyFault::WrongGeneration,
            "act 7 is refused: the place's next generation isn't the key's",
        ),
        (
            ApplyFault::WrongReply,
            "act 7 is refused: the reply isn't that of the pool",
        ),
        (
            ApplyFault::NotHeld,
            "act 7 is refused: the lane has no reference to the key",
        ),
        (
            ApplyFault::StillHeld,
            "act 7 is refused: a lane has a reference to the key",
        ),
        (
            ApplyFault::NotMarked,
            "act 7 is refused: the key isn't in the pool, or isn't marked",
        ),
        (
            ApplyFault::NotHome,
            "act 7 is refused: the places are none, or one isn't home or came before",
        ),
        (ApplyFault::Memory, "act 7 is refused: no memory was left"),
    ] {
        let fault = CheckFault::Illegal { index: 7, fault };
        shows(&rt, rt.alloc(), &fault, want);
    }
}
