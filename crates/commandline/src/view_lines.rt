//! The command line of `poolview`.
ghost use Rattle.std.specs.Prelude.{◌≡◌, IfOk, map, string_bytes};
ghost use Rattle.clap.specs.Words.{subcommand_of, subcommand_rows_of};
ghost use Rattle.commandline.specs.ViewLines.{view_line};

use crate::lines::{Argument, Help, Kind, Line, Program, read_by_lines};
use crate::run_lines::VERSION;
use clap::{ArgMatches, Error as ClapError};
use std::alloc::Global;

/// What help says of the program.
static PROGRAM_HELP: Help<'static> = Help {
    example: "\
Example, which runs as it stands: the words of three lines of a trace, decoded
  printf '0 = filling 16777216\\n0 PUBLISH 0 4294967296 4294967297\\n0 = key 16777216\\n' | poolview words - --explain
Example: poolrun replay first.json --schedule 0,0 | poolview picture - > first.svg

With --explain, a line after each error says where it is and what is expected there. This is on by default if standard
error is a terminal; --explain=never, or POOL_EXPLAIN=never in the environment, turns it off.",
    about: "Shows a trace that `poolrun replay` printed",
    usage: None,
    more: "\
A FILE of - means standard input; ./- is a file of that name.

Exit status:
  0    success; help or the version was printed
  1    a fault, reported on standard error; a step that doesn't follow
  2    a usage error
  141  the reader of the output is gone, as in `poolview words trace | head`; nothing is reported",
};

/// What help says of the status after a view.
const STATUS: &str =
    "Exit status: 0 on success, 1 after a fault, 2 after a usage error, 141 if the reader of the output is gone";

/// The file of each subcommand.
const FILE: Argument<'static> = Argument {
    kind: Kind::Positional("FILE"),
    name: "file",
    help: "The file of the trace, or - for standard input",
};

/// The option with the first turn that is shown.
const FROM: Argument<'static> = Argument {
    kind: Kind::Valued("N"),
    name: "from",
    help: "The first turn, counted from 0, as `words --numbers` has them",
};

/// The option with the number of turns that are shown.
const TURNS: Argument<'static> = Argument {
    kind: Kind::Valued("M"),
    name: "turns",
    help: "How many turns at most",
};

/// The option by which mistakes are explained.
const EXPLAIN: Argument<'static> = Argument {
    kind: Kind::Flag,
    name: "explain",
    help: "Explains each error on standard error: where it is, and what is expected there. On by default at a terminal; --explain=never, =always or =auto sets when",
};

/// The subcommand `picture`.
static PICTURE: Line<'static> = Line {
    name: "picture",
    help: Help {
        example: "Example: poolview picture trace --from 10 --turns 20",
        about: "Draws turns of a trace as an SVG",
        usage: None,
        more: STATUS,
    },
    arguments: &[
        FILE,
        FROM,
        TURNS,
        Argument {
            kind: Kind::Flag,
            name: "fit",
            help: "Ends before 32767 pixels, and says where: so it is without --whole",
        },
        Argument {
            kind: Kind::Flag,
            name: "whole",
            help: "Draws all turns, unless they need more than 32767 pixels, which no viewer opens",
        },
        EXPLAIN,
    ],
};

/// The subcommand `words`.
static WORDS: Line<'static> = Line {
    name: "words",
    help: Help {
        example: "Example: poolview words trace",
        about: "Prints a trace with its words decoded",
        usage: None,
        more: STATUS,
    },
    arguments: &[
        FILE,
        Argument {
            kind: Kind::Flag,
            name: "keys",
            help: "Decodes the keys of replies too",
        },
        Argument {
            kind: Kind::Flag,
            name: "numbers",
            help: "Prints each line behind the number of its turn, counted from 0",
        },
        EXPLAIN,
    ],
};

/// The subcommand `summary`.
static SUMMARY: Line<'static> = Line {
    name: "summary",
    help: Help {
        example: "Example: poolview summary trace",
        about: "Prints what a trace has in sum",
        usage: None,
        more: STATUS,
    },
    arguments: &[FILE, EXPLAIN],
};

/// The subcommand `json`.
static JSON: Line<'static> = Line {
    name: "json",
    help: Help {
        example: "Example: poolview json trace",
        about: "Prints a trace as JSON, an object for each turn",
        usage: None,
        more: STATUS,
    },
    arguments: &[FILE, EXPLAIN],
};

/// The subcommand `events`.
static EVENTS: Line<'static> = Line {
    name: "events",
    help: Help {
        example: "Example: poolview events trace > trace.json",
        about: "Prints a trace in the trace-event form, which Perfetto opens",
        usage: None,
        more: STATUS,
    },
    arguments: &[FILE, EXPLAIN],
};

/// The subcommand `page`.
static PAGE: Line<'static> = Line {
    name: "page",
    help: Help {
        example: "Example: poolview page trace > trace.html",
        about: "Prints an HTML page that shows a trace turn by turn",
        usage: None,
        more: STATUS,
    },
    arguments: &[FILE, FROM, TURNS, EXPLAIN],
};

/// The subcommand `check`.
static CHECK: Line<'static> = Line {
    name: "check",
    help: Help {
        example: "Example: poolview check trace",
        about: "Says whether the steps of a trace follow from one another",
        usage: None,
        more: STATUS,
    },
    arguments: &[FILE, EXPLAIN],
};

/// What `clap` reads in the words of `poolview`.
pub(crate) fn read_view_words<'a>(
    alloc: Global,
    words: &'a [String],
) -> Result<ArgMatches<'a>, ClapError>
    ensures { IfOk result (λ m. subcommand_rows_of m ≡ subcommand_of view_line (map string_bytes words.now)) }
{
    let program = Program {
        name: "poolview",
        version: VERSION,
        help: PROGRAM_HELP,
    };
    let lines = [&PICTURE, &WORDS, &SUMMARY, &JSON, &EVENTS, &PAGE, &CHECK];
    read_by_lines(alloc, program, &lines, words)
}
