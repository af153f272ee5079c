//! Commands for `clap`, from tables of what each takes.
ghost use Rattle.std.specs.Prelude.{◌≡◌, IfOk, false, true, map, string_bytes};
ghost use Rattle.clap.specs.Words.{app_of, rule_of, new_app, is_simple, subcommand_of, subcommand_rows_of};
ghost use Rattle.clap.specs.declared.builder.command.Command.TheViews.{out-Command as fields_of};
ghost use Rattle.commandline.specs.CommandLines.{program_named};
ghost use Rattle.commandline.specs.Lines.{rule_for, line_for, with_lines};

use clap::{Arg, ArgAction, ArgMatches, Command, Error as ClapError};
use std::alloc::{AllocError, Global};

/// How an argument is given, with the name that help has for its value.
#[derive(Clone, Copy)]
pub(crate) enum Kind<'a> {
    /// By its place, and it must be there.
    Positional(&'a str),
    /// By its name, with a value behind it.
    Valued(&'a str),
    /// By its name, with a value behind it, and it must be there.
    Needed(&'a str),
    /// By its name alone.
    Flag,
}

/// An argument of a subcommand: how it is given, its name, and what help says of it.
pub(crate) struct Argument<'a> {
    pub(crate) kind: Kind<'a>,
    pub(crate) name: &'a str,
    pub(crate) help: &'a str,
}

/// What help says of a command, around its arguments: it begins with an example. The usage is told by `clap` where none
/// is said.
#[derive(Clone, Copy)]
pub(crate) struct Help<'a> {
    pub(crate) example: &'a str,
    pub(crate) about: &'a str,
    pub(crate) usage: Option<&'a str>,
    pub(crate) more: &'a str,
}

/// A program: its name, its version, and what help says of it.
#[derive(Clone, Copy)]
pub(crate) struct Program<'a> {
    pub(crate) name: &'a str,
    pub(crate) version: &'a str,
    pub(crate) help: Help<'a>,
}

/// A subcommand: its name, what help says of it, and its arguments.
pub(crate) struct Line<'a> {
    pub(crate) name: &'a str,
    pub(crate) help: Help<'a>,
    pub(crate) arguments: &'a [Argument<'a>],
}

/// An argument for `clap`.
fn argument_of<'a>(alloc: Global, argument: &Argument<'a>) -> Arg<'a>
    ensures rule { rule_of result ≡ rule_for argument.now }
    ensures local { result.global ≡ false }
{
    let arg = Arg::new(alloc, argument.name).help(argument.help);
    match argument.kind {
        Kind::Positional(value_name) => arg.value_name(value_name).required(true),
        Kind::Valued(value_name) => arg.long(argument.name).value_name(value_name),
        Kind::Needed(value_name) => arg
            .long(argument.name)
            .value_name(value_name)
            .required(true),
        Kind::Flag => arg.long(argument.name).action(ArgAction::SetTrue),
    }
}

/// A command without arguments: its name, and what help says of it.
fn command_named<'a>(alloc: Global, name: &'a str, help: Help<'a>) -> Command<'a>
    ensures app { app_of result ≡ new_app name.now }
    ensures local { (fields_of result).has_globals ≡ false }
{
    let Help {
        example,
        about,
        usage,
        more,
    } = help;
    let command = Command::new(alloc, name)
        .before_help(example)
        .about(about)
        .after_help(more);
    match usage {
        Some(usage) => command.override_usage(usage),
        None => command,
    }
}

/// A subcommand for `clap`.
fn subcommand_of<'a>(alloc: Global, line: &Line<'a>) -> Result<Command<'a>, AllocError>
    ensures { IfOk result
        (λ c. (app_of c ≡ line_for line.now) × ((fields_of c).has_globals ≡ false)) }
{
    let mut command = command_named(alloc, line.name, line.help);
    for argument in line.arguments {
        command = command.arg(argument_of(alloc, argument))?;
    }
    Ok(command)
}

/// A command with these subcommands.
fn with_subcommands<'a>(
    alloc: Global,
    program: Command<'a>,
    lines: &[&Line<'a>],
) -> Result<Command<'a>, AllocError>
    ensures { IfOk result (λ c. app_of c ≡ with_lines (app_of program.entry) (map (λ line. line.now) lines.now)) }
{
    let mut command = program;
    for line in lines {
        let subcommand = subcommand_of(alloc, line)?;
        command = command.subcommand(subcommand)?;
    }
    Ok(command)
}

/// What `clap` reads in the words of a program that has these subcommands, one of which must be there.
pub(crate) fn read_by_lines<'a>(
    alloc: Global,
    program: Program<'a>,
    lines: &[&Line<'a>],
    words: &'a [String],
) -> Result<ArgMatches<'a>, ClapError>
    requires { is_simple (with_lines (program_named program.name.now) (map (λ line. line.now) lines.now)) ≡ true }
    ensures { IfOk result (λ m. subcommand_rows_of m
        ≡ subcommand_of (with_lines (program_named program.entry.name.now) (map (λ line. line.now) lines.now))
        (map string_bytes words.now)) }
{
    let Program {
        name,
        version,
        help,
    } = program;
    let program = command_named(alloc, name, help)
        .version(version)
        .subcommand_required(true);
    let command = with_subcommands(alloc, program, lines)?;
    command.try_get_matches_from(words)
}
