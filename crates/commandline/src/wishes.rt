//! When mistakes are explained and progress is told, by words of the command line and by where the program runs.
ghost use Rattle.std.specs.Prelude.{◌≡◌, false, IfOk, map, string_bytes};
ghost use Rattle.commandline.specs.Wishes.{flag_of, alone, said_behind, wish_of, wish_in, is_end, options_of, plain_word, plain_words, is_wanted, is_quiet, IsCallOf};

use std::alloc::{AllocError, Global};
use std::env;
use std::env::{Env, VarError};

/// When mistakes are explained, or progress is told.
#[derive(Clone, Copy, Debug)]
pub enum Wish {
    /// Never.
    Never,
    /// Always.
    Always,
    /// Where someone reads them at a terminal.
    Auto,
}

/// What a program was called with.
#[derive(Drop)]
pub struct Call {
    /// The words, the program's name first, as `clap` reads them: `--explain` in place of `--explain=never`, and so on,
    /// before the first `--`.
    pub words: Vec<String>,
    /// What such a word says of explanations.
    pub wish: Option<Wish>,
    /// What a word says of progress.
    pub progress: Option<Wish>,
}

impl Call {
    ghost use Rattle.std.specs.Prelude.{◌≡◌, map, string_bytes};
    ghost use Rattle.commandline.specs.Readings.{text_of};
    ghost use Rattle.commandline.specs.Wishes.{command_in};

    /// The word behind the program's name, where there is one.
    pub fn command(&self) -> Option<&str>
        ensures { text_of result ≡ command_in (map string_bytes self.now.words.items) }
    {
        match self.words.as_slice() {
            [_, command, ..] => Some(command.as_str()),
            _ => None,
        }
    }
}

/// What is told where it is wished.
#[derive(Clone, Copy)]
enum Matter {
    /// Where a mistake is, and what is wanted there.
    Mistakes,
    /// How far a long task is.
    Progress,
}

/// The flag by which a matter is asked for.
fn flag_of(matter: Matter) -> &'static str
    ensures { result.now ≡ flag_of matter }
{
    match matter {
        Matter::Mistakes => "--explain",
        Matter::Progress => "--progress",
    }
}

/// What the flag alone says; that of mistakes is read by `clap`.
fn alone(matter: Matter) -> Option<Wish>
    ensures { result ≡ alone matter }
{
    match matter {
        Matter::Mistakes => None,
        Matter::Progress => Some(Wish::Always),
    }
}

/// What is said of a matter by what stands behind its flag.
fn said_behind(matter: Matter, behind: &[u8]) -> Option<Wish>
    ensures { result ≡ said_behind matter behind.now }
{
    if behind.is_empty() {
        return alone(matter);
    }
    if behind == b"=never".as_slice() {
        return Some(Wish::Never);
    }
    if behind == b"=always".as_slice() {
        return Some(Wish::Always);
    }
    if behind == b"=auto".as_slice() {
        return Some(Wish::Auto);
    }
    None
}

/// What a word says of a matter.
fn wish_of(matter: Matter, word: &str) -> Option<Wish>
    ensures { result ≡ wish_of matter word.now }
{
    let behind = word.as_bytes().strip_prefix(flag_of(matter).as_bytes())?;
    said_behind(matter, behind)
}

/// A word as `clap` reads it.
fn plain_word(word: &str) -> &str
    ensures { result.now ≡ plain_word word.now }
{
    match (
        wish_of(Matter::Mistakes, word),
        wish_of(Matter::Progress, word),
    ) {
        (Some(_), _) => flag_of(Matter::Mistakes),
        (None, Some(_)) => flag_of(Matter::Progress),
        (None, None) => word,
    }
}

/// What the first of some words says of a matter that says something of it.
fn wish_in(matter: Matter, words: &[String]) -> Option<Wish>
    ensures { result ≡ wish_in matter (map string_bytes words.now) }
{
    for word in words {
        let wish = wish_of(matter, word.as_str());
        if wish.is_some() {
            return wish;
        }
    }
    None
}

/// The words before the first `--`, behind which no word is an option.
fn options_of(words: &[String]) -> &[String]
    ensures { map string_bytes result.now ≡ options_of (map string_bytes words.now) }
{
    for (count, word) in words.iter().enumerate() {
        if word.as_str() == "--" {
            return &words[..count];
        }
    }
    words
}

/// Some words as `clap` reads them. The error is want of memory.
fn plain_words(alloc: Global, words: &[String]) -> Result<Vec<String>, AllocError>
    ensures { IfOk result (λ plain. map string_bytes plain.items ≡ plain_words (map string_bytes words.now)) }
{
    let mut plain = Vec::new(alloc);
    let mut ended = false;
    for word in words {
        ended = ended || word.as_str() == "--";
        let read = if ended {
            word.as_str()
        } else {
            plain_word(word.as_str())
        };
        plain.push(String::from_str(alloc, read)?)?;
    }
    Ok(plain)
}

/// What a program was called with, by its words. The error is want of memory.
pub(crate) fn call_of(alloc: Global, words: &[String]) -> Result<Call, AllocError>
    ensures { IfOk result (IsCallOf (map string_bytes words.now)) }
{
    let options = options_of(words);
    let wish = wish_in(Matter::Mistakes, options);
    let progress = wish_in(Matter::Progress, options);
    let words = plain_words(alloc, words)?;
    Ok(Call {
        words,
        wish,
        progress,
    })
}

/// Whether mistakes are explained, or progress is told: by a word, or else where the flag was used or hints are wanted.
pub fn is_wanted(wish: Option<Wish>, flag: bool, hints: bool) -> bool
    ensures { result ≡ is_wanted wish flag hints }
{
    match wish {
        None => flag || hints,
        Some(Wish::Never) => false,
        Some(Wish::Always) => true,
        Some(Wish::Auto) => hints,
    }
}

/// The variable of the environment that says whether more is said at a terminal.
const VARIABLE: &str = "POOL_EXPLAIN";

/// Whether a variable of the environment, as `env::var` answers it, says that nothing more is to be said at a terminal.
fn is_quiet(said: Result<String, VarError>) -> bool
    ensures { result ≡ is_quiet said }
{
    match said {
        Ok(text) => text.as_str() == "never",
        Err(_) => false,
    }
}

/// Whether hints are wanted: at a terminal, unless the environment says otherwise.
pub fn are_hints_wanted<R: Env + AllocGlobal>(rt: &R, terminal: bool) -> bool
    ensures elsewhere { terminal ≡ false → result ≡ false }
{
    terminal && !is_quiet(env::var(rt, VARIABLE))
}
