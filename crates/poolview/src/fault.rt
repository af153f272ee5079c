//! Why a trace isn't shown.
ghost use Rattle.std.specs.Prelude.{◌≡◌, codes};
ghost use Rattle.streams.specs.Saying.{Says};
ghost use Rattle.poolview.specs.Faults.{fault_text, stray_text, unread_fault, wrong_text};
ghost use Rattle.poolview.specs.declared.fault.Fault.TheVariants as faults;

use itoa::Buffer;
use std::alloc::AllocError;
use std::io::Write;
use streams::{Unread, Unreadable, Watched, WriteFailed, write_text};
use traceviews::{ReadFault, Stray, Wanted, Wrong};

/// Why a trace isn't shown.
#[derive(Clone, Copy)]
pub(crate) enum Fault {
    /// The file can't be opened or read to its end, for this reason.
    File(Unreadable),
    /// A write failed.
    Output,
    /// Memory was refused.
    Memory,
    /// The line of this number, counted from 1, is the first that is none.
    Line { number: usize, wanted: Wanted },
    /// This step doesn't follow from those before it.
    Stray(Stray),
    /// The picture that is asked for is larger than viewers open.
    Large,
    /// What is to be a graph of states is none.
    Graph,
}

impl From<Unread> for Fault {
    ghost from_gives = { λ unread fault. fault ≡ unread_fault unread };

    fn from(unread: Unread) -> Fault {
        match unread {
            Unread::Memory => Fault::Memory,
            Unread::File(why) => Fault::File(why),
        }
    }
}

impl From<AllocError> for Fault {
    ghost from_gives = { λ _ fault. fault ≡ faults.Memory };

    fn from(_refused: AllocError) -> Fault {
        Fault::Memory
    }
}

impl From<WriteFailed> for Fault {
    ghost from_gives = { λ _ fault. fault ≡ faults.Output };

    fn from(_failed: WriteFailed) -> Fault {
        Fault::Output
    }
}

/// Writes why a line is none: its number, and what is wanted there.
fn write_line<E: Write>(number: usize, wanted: Wanted, errors: &mut Watched<E>)
    ensures { Says E.contents errors.old errors.new (fault_text (Fault.Line number wanted)) }
{
    write_text(b"line ", errors);
    write_text(Buffer::new().format(number).as_bytes(), errors);
    write_text(b": ", errors);
    write_text(wanted.text().as_bytes(), errors);
    write_text(b" is wanted\n", errors);
}

/// Writes why a step doesn't follow.
fn write_wrong<E: Write>(wrong: Wrong, errors: &mut Watched<E>)
    ensures { Says E.contents errors.old errors.new (wrong_text wrong) }
{
    match wrong {
        Wrong::Before { had } => {
            write_text(b"before it its word is ", errors);
            write_text(Buffer::new().format(had).as_bytes(), errors);
        }
        Wrong::After => write_text(b"such a step leaves another word", errors),
    }
}

/// Writes which line's step doesn't follow, and why.
fn write_stray<E: Write>(stray: Stray, errors: &mut Watched<E>)
    ensures { Says E.contents errors.old errors.new (stray_text stray) }
{
    write_text(b"line ", errors);
    write_text(Buffer::new().format(stray.number).as_bytes(), errors);
    write_text(b": ", errors);
    write_wrong(stray.wrong, errors);
    write_text(b"\n", errors);
}

/// Writes the line of a fault.
pub(crate) fn write_fault<E: Write>(fault: Fault, errors: &mut Watched<E>)
    ensures { Says E.contents errors.old errors.new (fault_text fault) }
{
    match fault {
        Fault::File(_) => write_text(b"fault 41 File\n", errors),
        Fault::Output => write_text(b"fault 42 Output\n", errors),
        Fault::Memory => write_text(b"fault 43 Memory\n", errors),
        Fault::Line { number, wanted } => write_line(number, wanted, errors),
        Fault::Stray(stray) => write_stray(stray, errors),
        Fault::Large => write_text(
            b"the picture needs more than 32767 pixels, which no viewer opens: leave out --whole, or give --turns\n",
            errors,
        ),
        Fault::Graph => write_text(
            b"no graph of states: an object with script, lanes, states and outcomes is wanted\n",
            errors,
        ),
    }
}
