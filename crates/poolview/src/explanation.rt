//! Where a fault is, and what stands there, in words.
ghost use Rattle.std.specs.Prelude.{◌≡◌, ◌≤◌, length};
ghost use Rattle.streams.specs.Saying.{Says};
ghost use Rattle.streams.specs.Shown.{IsSafeLine};
ghost use Rattle.poolview.specs.Faults.{wrong_line_text, wrong_file_text, output_text, explanation_text, refusal_text};

use crate::fault::{Fault, write_fault};
use itoa::Buffer;
use std::io::Write;
use streams::{Unreadable, Unwritable, Watched, line_at, write_bytes, write_cut, write_text};

/// What is said of a line that is none.
const NO_LINE: &[u8] =
    b"\" is no line of a trace: LANE = REPLY, LANE KIND PLACE BEFORE AFTER, or LANE PUSH (or TAKE) SHARD.LANE BEFORE AFTER";

/// What is said of a line whose step doesn't follow.
const NO_STEP: &[u8] =
    b"\": a step finds what the last one on its word left (at first 4294967296 in a lifecycle word, else 0), and leaves what its kind makes of that";

/// Writes what stands in the line of this number, and this behind it.
fn explain_line<E: Write>(number: usize, what: &[u8], bytes: &[u8], errors: &mut Watched<E>)
    requires { length what.now ≤ 200 }
    ensures says { Says E.contents errors.old errors.new (wrong_line_text what.now number bytes.now) }
    ensures safe { IsSafeLine (wrong_line_text what.now number bytes.now) }
{
    write_bytes(b"line ", errors);
    write_bytes(Buffer::new().format(number).as_bytes(), errors);
    write_bytes(b": \"", errors);
    write_cut(line_at(bytes, number.saturating_sub(1)), errors);
    write_bytes(what, errors);
    write_text(b"\n", errors);
}

/// Writes why the file at this path isn't read, by the system's reason.
fn explain_file<E: Write>(path: &str, why: Unreadable, errors: &mut Watched<E>)
    ensures says { Says E.contents errors.old errors.new (wrong_file_text path.now why) }
    ensures safe { IsSafeLine (wrong_file_text path.now why) }
{
    write_bytes(b"\"", errors);
    write_cut(path.as_bytes(), errors);
    write_bytes(b"\" can't be opened, or not read to its end: ", errors);
    write_bytes(why.text().as_bytes(), errors);
    write_text(b"\n", errors);
}

/// Writes why the output can't be written, by the system's reason.
fn explain_output<E: Write>(why: Unwritable, errors: &mut Watched<E>)
    ensures says { Says E.contents errors.old errors.new (output_text why) }
    ensures safe { IsSafeLine (output_text why) }
{
    write_bytes(b"standard output can't be written: ", errors);
    write_bytes(why.text().as_bytes(), errors);
    write_text(b"\n", errors);
}

/// Writes the explanation of a fault, by the path of the file and its bytes, and by why the output can't be written.
fn explain<E: Write>(
    fault: Fault,
    why: Unwritable,
    path: &str,
    bytes: &[u8],
    errors: &mut Watched<E>,
)
    ensures { Says E.contents errors.old errors.new (explanation_text path.now bytes.now why fault) }
{
    match fault {
        Fault::File(unread) => explain_file(path, unread, errors),
        Fault::Output => explain_output(why, errors),
        Fault::Memory | Fault::Large | Fault::Graph => {}
        Fault::Line { number, wanted: _ } => explain_line(number, NO_LINE, bytes, errors),
        Fault::Stray(stray) => explain_line(stray.number, NO_STEP, bytes, errors),
    }
}

/// Writes the line of a fault, and with `explained` its explanation, by the path of the file and its bytes, and by why the
/// output can't be written.
pub(crate) fn write_refusal<E: Write>(
    fault: Fault,
    why: Unwritable,
    explained: bool,
    path: &str,
    bytes: &[u8],
    errors: &mut Watched<E>,
)
    ensures { Says E.contents errors.old errors.new (refusal_text explained path.now bytes.now why fault) }
{
    write_fault(fault, errors);
    if explained {
        explain(fault, why, path, bytes, errors);
    }
}
