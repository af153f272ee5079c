//! The command line of `poolrun`.
ghost use Rattle.std.specs.Prelude.{◌≡◌, IfOk, map, string_bytes};
ghost use Rattle.clap.specs.Words.{subcommand_of, subcommand_rows_of};
ghost use Rattle.commandline.specs.CommandLines.{command_line};

use crate::lines::{Argument, Help, Kind, Line, Program, read_by_lines};
use clap::{ArgMatches, Error as ClapError};
use std::alloc::Global;

/// The version of the programs.
pub(crate) const VERSION: &str = "0.2.0";

/// What help says of the program.
static PROGRAM_HELP: Help<'static> = Help {
    example: "\
Example, which runs as it stands: three turns of a lane that publishes an object, reads it and clears it
  echo '{\"shape\":{\"lanes\":1,\"first_page\":2,\"pages\":1,\"last_generation\":9},
    \"scripts\":[[[\"create\",0],[\"write\",0,\"6869\"],[\"publish\",0],[\"get\",1,\"@0\"],[\"clear\",\"@0\"],[\"release\",1]]]}' |
    poolrun replay - --schedule 0,0,0 --explain
Example: poolrun replay first.json --schedule 0,0

With --explain, a line after each error says where it is and what is expected there. This is on by default if standard
error is a terminal; --explain=never, or POOL_EXPLAIN=never in the environment, turns it off.",
    about: "A pool of objects that are cleared and used again in place: replays scripts on it step by step, runs them on threads,\nchecks what was recorded of it, and decodes its keys.",
    usage: Some("poolrun <COMMAND>"),
    more: "\
Script files are JSON texts: a shape, and for each lane a list of commands, as
  {\"shape\":{\"lanes\":1,\"first_page\":2,\"pages\":1,\"last_generation\":4294967295},
   \"scripts\":[[[\"create\",0],[\"write\",0,\"6869\"],[\"publish\",0],[\"get\",1,\"@0\"],[\"read\",1]]]}
  The shape: lanes 1 to 16; first_page 1, 2, 4, 8, 16, 32 or 64; pages 1 to 6;
    last_generation 1 to 4294967295; and, if wanted, tag, 0 to 255.
  The commands: create R, write R BYTES, publish R, downgrade R, get R KEY, read R, release R,
    clear KEY. R is 0 to 15, BYTES are pairs of hexadecimal digits in quotes, KEY is a number,
    or \"@R\" for the last key of R.

A FILE of - means standard input; ./- is a file of that name.

Exit status:
  0  success; help or the version was printed
  1  a fault, reported on standard error; an illegal act; a number that is no key
  2  a usage error, in these words or in a schedule's file",
};

/// What help says of the option by which mistakes are explained.
const EXPLAIN: &str =
    "Explains each error on standard error: where it is, and what is expected there. On by default at a terminal; --explain=never, =always or =auto sets when";

/// What help says of the option by which progress is told.
const PROGRESS: &str =
    "Reports progress on standard error. On by default at a terminal; --progress=never, =always or =auto sets when";

/// The lanes that take turns.
const SCHEDULE: Argument<'static> = Argument {
    kind: Kind::Valued("LANES"),
    name: "schedule",
    help: "The lanes that take turns, as 0,1,1: numbers of at most 255; @PATH for those in a file, - for those on standard input",
};

/// The seed of turns that are drawn.
const SEED: Argument<'static> = Argument {
    kind: Kind::Valued("N"),
    name: "seed",
    help: "The seed that turns are drawn from, at most 18446744073709551615",
};

/// How many turns are drawn.
const TURNS: Argument<'static> = Argument {
    kind: Kind::Valued("M"),
    name: "turns",
    help: "How many turns are drawn, at most 1000000",
};

/// Where a lane stops.
const STOP: Argument<'static> = Argument {
    kind: Kind::Valued("L:K"),
    name: "stop",
    help: "Stops lane L after its K-th turn",
};

/// The subcommand `replay`.
static REPLAY: Line<'static> = Line {
    name: "replay",
    help: Help {
        example: "Example: poolrun replay first.json --schedule 0,0",
        about: "Replays the scripts of a file by a schedule, step by step, and prints what each step did",
        usage: Some(
            "poolrun replay <FILE> --schedule <LANES> [--stop <L:K>] [--acts | --print-schedule] [--progress] [--explain]\n       poolrun replay <FILE> --seed <N> --turns <M> [--stop <L:K>] [--acts | --print-schedule] [--progress] [--explain]",
        ),
        more: "\
Give either --schedule, or both --seed and --turns. The same words print the same text each time.

Prints a line for each reply of a command and for each atomic step, in the order of the turns. With
--acts, prints the acts, as `poolrun check` reads them; with --print-schedule, the schedule, as --schedule
reads it from a file: numbers separated by single commas or line feeds. A fault prints `fault NUMBER NAME` on standard
error, and nothing on standard output.

With --progress, a line on standard error says how many turns are done, after every 50000 of them. At a terminal the
line is overwritten, and erased at the end.

Exit status: 0 on success, 1 after a fault, 2 after a usage error.",
    },
    arguments: &[
        Argument {
            kind: Kind::Positional("FILE"),
            name: "file",
            help: "The script file, or - for standard input",
        },
        SCHEDULE,
        SEED,
        TURNS,
        STOP,
        Argument {
            kind: Kind::Flag,
            name: "acts",
            help: "Prints the acts instead of the trace",
        },
        Argument {
            kind: Kind::Flag,
            name: "print-schedule",
            help: "Prints the schedule instead of the trace",
        },
        Argument {
            kind: Kind::Flag,
            name: "progress",
            help: PROGRESS,
        },
        Argument {
            kind: Kind::Flag,
            name: "explain",
            help: EXPLAIN,
        },
    ],
};

/// The subcommand `shorten`.
static SHORTEN: Line<'static> = Line {
    name: "shorten",
    help: Help {
        example: "Example: poolrun shorten first.json --seed 1 --turns 100 --until PUBLISH",
        about: "Shortens a schedule while WORD still appears in its replay, and prints the result",
        usage: Some(
            "poolrun shorten <FILE> --schedule <LANES> [--stop <L:K>] --until <WORD> [--words] [--tries <T>] [--scripts] [--progress] [--explain]\n       poolrun shorten <FILE> --seed <N> --turns <M> [--stop <L:K>] --until <WORD> [--words] [--tries <T>] [--scripts] [--progress] [--explain]",
        ),
        more: "\
WORD is one or more whole fields of a line of the trace or of the acts, such as full, CLAIM or
'clear 16777216 true'. With --words, it is one or more whole fields of a line as `poolview words` shows it,
such as failed or 'MARKED count 1'. No single entry can be removed from the schedule that is printed.

With --scripts, commands are removed from the scripts too, and a second line has the script file that is left:
  poolrun shorten first.json --seed 1 --turns 100 --until PUBLISH --scripts > short
  sed 1d short > short.json; sed 1q short | poolrun replay short.json --schedule -

Each trial is a replay. The command gives up after replays of 100000000 entries in all. With --tries, it stops
after T replays and prints the shortest schedule found so far; more entries may be removable from that one,
which --explain says.

With --progress, a line on standard error reports progress after every 50000 entries replayed, and at the end
how many entries are left of how many, and after how many trials.

Exit status: 0 on success; 1 after a fault, also if WORD appears nowhere; 2 after a usage error.",
    },
    arguments: &[
        Argument {
            kind: Kind::Positional("FILE"),
            name: "file",
            help: "The script file, or - for standard input",
        },
        Argument {
            kind: Kind::Needed("WORD"),
            name: "until",
            help: "What must still appear in the replay",
        },
        SCHEDULE,
        SEED,
        TURNS,
        STOP,
        Argument {
            kind: Kind::Valued("T"),
            name: "tries",
            help: "The most replays to make, 1 to 18446744073709551615",
        },
        Argument {
            kind: Kind::Flag,
            name: "words",
            help: "Looks for WORD in the trace as `poolview words` shows it",
        },
        Argument {
            kind: Kind::Flag,
            name: "scripts",
            help: "Removes commands from the scripts too, and prints the remaining script file on a second line",
        },
        Argument {
            kind: Kind::Flag,
            name: "progress",
            help: PROGRESS,
        },
        Argument {
            kind: Kind::Flag,
            name: "explain",
            help: EXPLAIN,
        },
    ],
};

/// The subcommand `outcomes`.
static OUTCOMES: Line<'static> = Line {
    name: "outcomes",
    help: Help {
        example: "Example: poolrun outcomes first.json",
        about: "Prints everything that the lanes of a script file can reply, over whatever schedule",
        usage: Some("poolrun outcomes <FILE> [--most <N>] [--count] [--explain]"),
        more: "\
Goes through every schedule that runs all scripts to their ends, without a turn that nobody makes. Schedules
after which the same can come, and in which the lanes got the same replies so far, are followed as one state.

The first line says how many states, schedules and different outcomes there are. For each outcome there
follow: how many schedules end so; the first of them by the order of lane numbers, which `poolrun replay`
takes; and the replies of lane 0, then those of lane 1, and so on, as a trace has them.

The command gives up if there are more than N states; --explain says how many it had found.

Exit status: 0 on success, 1 after a fault, 2 after a usage error.",
    },
    arguments: &[
        Argument {
            kind: Kind::Positional("FILE"),
            name: "file",
            help: "The script file, or - for standard input",
        },
        Argument {
            kind: Kind::Valued("N"),
            name: "most",
            help: "The most states to go through, 1 to 18446744073709551615; 100000 unless given",
        },
        Argument {
            kind: Kind::Flag,
            name: "count",
            help: "Prints the first line alone",
        },
        Argument {
            kind: Kind::Flag,
            name: "explain",
            help: EXPLAIN,
        },
    ],
};

/// The subcommand `check`.
static CHECK: Line<'static> = Line {
    name: "check",
    help: Help {
        example: "Example: poolrun check first.acts",
        about: "Checks that acts are a legal history of a pool, and prints its summary",
        usage: Some("poolrun check <ACTS> [--explain]"),
        more: "\
Reads acts as `poolrun replay --acts` prints them: a line `shape LANES FIRST_PAGE PAGES
LAST_GENERATION`, then a line for each act. Prints the counts of a legal history, or `illegal I N NAME`:
the first act that is refused, counted from 0, and why.

Exit status: 0 for a legal history; 1 for an illegal one, or after a fault, such as a line that is no
act; 2 after a usage error.",
    },
    arguments: &[
        Argument {
            kind: Kind::Positional("ACTS"),
            name: "acts",
            help: "The file of acts, or - for standard input",
        },
        Argument {
            kind: Kind::Flag,
            name: "explain",
            help: EXPLAIN,
        },
    ],
};

/// The subcommand `run`.
static RUN: Line<'static> = Line {
    name: "run",
    help: Help {
        example: "Example: poolrun run first.json",
        about: "Runs each script of a file on a thread of its own, on one pool, and prints the replies",
        usage: Some("poolrun run <FILE> [--explain]"),
        more: "\
Prints the replies of lane 0, then those of lane 1, and so on; then the state of each place when the pool
was closed. What lanes see of one another may differ from run to run.

Exit status: 0 on success, 1 after a fault, 2 after a usage error.",
    },
    arguments: &[
        Argument {
            kind: Kind::Positional("FILE"),
            name: "file",
            help: "The script file, or - for standard input",
        },
        Argument {
            kind: Kind::Flag,
            name: "explain",
            help: EXPLAIN,
        },
    ],
};

/// The subcommand `key`.
static KEY: Line<'static> = Line {
    name: "key",
    help: Help {
        example: "Example: poolrun key 16777216\nExample: poolrun key --word 4294967301",
        about: "Decodes a number as a key, or as a lifecycle word of a trace",
        usage: Some("poolrun key <N> [--hex] [--word] [--explain]"),
        more: "\
Prints the shard, the page, the slot and the generation of a key, and its tag unless that is 0; or
`no key`. With --word, prints the state, the count and the generation of a lifecycle word, as it stands in a
trace after ENTER, LEAVE, PUBLISH, MARK or CLAIM.

Exit status: 0 on success, 1 if there is no key or after a fault, 2 after a usage error.",
    },
    arguments: &[
        Argument {
            kind: Kind::Positional("N"),
            name: "number",
            help: "The number: one to twenty decimal digits, at most 18446744073709551615",
        },
        Argument {
            kind: Kind::Flag,
            name: "hex",
            help: "Reads N as one to sixteen hexadecimal digits, with or without a leading 0x",
        },
        Argument {
            kind: Kind::Flag,
            name: "word",
            help: "Reads N as a lifecycle word",
        },
        Argument {
            kind: Kind::Flag,
            name: "explain",
            help: EXPLAIN,
        },
    ],
};

/// What `clap` reads in the words of `poolrun`.
pub(crate) fn read_words<'a>(
    alloc: Global,
    words: &'a [String],
) -> Result<ArgMatches<'a>, ClapError>
    ensures { IfOk result (λ m. subcommand_rows_of m ≡ subcommand_of command_line (map string_bytes words.now)) }
{
    let program = Program {
        name: "poolrun",
        version: VERSION,
        help: PROGRAM_HELP,
    };
    let lines = [&REPLAY, &SHORTEN, &OUTCOMES, &CHECK, &RUN, &KEY];
    read_by_lines(alloc, program, &lines, words)
}
