//! Scripts and schedules of which commands and entries are left out, for as long as a word stands in the replay.
ghost use Rattle.std.specs.Prelude.{◌≡◌, ◌<◌, ◌^◌, ◌&&◌, ℕ, true, length, Err, None, IfOk, IfErr, string_bytes};
ghost use Rattle.shortening.specs.Choices.{chosen_scripts, commands_in};
ghost use Rattle.shortening.specs.Parts.{without};
ghost use Rattle.shortening.specs.Plans.{IsFound, IsShortPlan};
ghost use Rattle.shortening.specs.Replays.{AreScriptsOf, Shows, Lacks};

use crate::bounds::Bounds;
use crate::choices::{choose_scripts, count_commands, numbers_to};
use crate::command_trial::CommandTrial;
use crate::copies::copy_scripts;
use crate::fault::Unshortened;
use crate::short::{Short, ShortPlan};
use crate::shorter::{shorten, shorten_passed};
use crate::watch::Watch;
use crate::word_trial::WordTrial;
use keybits::Shape;
use std::alloc::{AllocError, Global};
use traces::Script;

/// Scripts, and the word that is to stand in their replay, decoded or not.
#[derive(Drop)]
pub struct Sought {
    pub shape: Shape,
    pub scripts: Vec<Script>,
    pub word: String,
    pub decoded: bool,
}

/// What a search found, and how much may be tried after it.
#[derive(Drop)]
struct Found {
    short: Short,
    bounds: Bounds,
}

/// Is told nothing.
#[derive(Drop)]
struct Untold;

impl Watch for Untold {
    fn tries(&mut self, _entries: usize, _left: usize) {}
}

/// The trial of schedules by the word, over these scripts.
fn entry_trial(
    alloc: Global,
    sought: &Sought,
    scripts: &[Script],
    bounds: Bounds,
) -> Result<WordTrial, AllocError>
    requires { AreScriptsOf sought.now.shape scripts.now }
    ensures { IfOk result (λ trial. trial ≡ record {
      shape = sought.now.shape;
      scripts = scripts.now;
      word = string_bytes sought.now.word;
      decoded = sought.now.decoded;
      left = bounds.left;
      tries = bounds.tries;
    }) }
{
    let Bounds { left, tries } = bounds;
    let scripts = copy_scripts(alloc, scripts)?;
    let word = String::from_str(alloc, sought.word.as_str())?;
    Ok(WordTrial::new(sought.shape, scripts, word, sought.decoded, left, tries))
}

/// What is left of a schedule over all commands.
fn fewer_entries<W: Watch>(
    alloc: Global,
    sought: &Sought,
    bounds: Bounds,
    watch: &mut W,
    schedule: Vec<u32>,
) -> Result<Found, Unshortened>
    requires { AreScriptsOf sought.now.shape sought.now.scripts.items }
    ensures ok { IfOk result (λ found. IsFound
        (Shows sought.now.shape sought.now.scripts.items sought.now.decoded (string_bytes sought.now.word))
        (Lacks sought.now.shape sought.now.scripts.items sought.now.decoded (string_bytes sought.now.word))
        bounds.tries found.bounds.tries schedule.items found.short) }
    ensures fails { result ≡ Err Unshortened.Fails
        → Lacks sought.now.shape sought.now.scripts.items sought.now.decoded (string_bytes sought.now.word) schedule.items }
{
    let mut trial = entry_trial(alloc, sought, sought.scripts.as_slice(), bounds)?;
    let short = shorten(alloc, &mut trial, watch, schedule)?;
    let bounds = trial.bounds();
    Ok(Found { short, bounds })
}

/// What is left of a schedule over these scripts, in whose replay the word stands.
fn fewer_entries_of<W: Watch>(
    alloc: Global,
    sought: &Sought,
    scripts: &[Script],
    bounds: Bounds,
    watch: &mut W,
    schedule: Vec<u32>,
) -> Result<Found, Unshortened>
    requires scripts { AreScriptsOf sought.now.shape scripts.now }
    requires shown { Shows sought.now.shape scripts.now sought.now.decoded (string_bytes sought.now.word) schedule.items }
    ensures ok { IfOk result (λ found. IsFound (Shows sought.now.shape scripts.now sought.now.decoded (string_bytes sought.now.word))
        (Lacks sought.now.shape scripts.now sought.now.decoded (string_bytes sought.now.word))
        bounds.tries found.bounds.tries schedule.items found.short) }
    ensures err { IfErr result (λ fault. fault ≡ Unshortened.Fails → ⊥) }
{
    let mut trial = entry_trial(alloc, sought, scripts, bounds)?;
    let short = shorten_passed(alloc, &mut trial, watch, schedule)?;
    let bounds = trial.bounds();
    Ok(Found { short, bounds })
}

/// The trial of commands by the word, over this schedule.
fn command_trial(
    alloc: Global,
    sought: &Sought,
    bounds: Bounds,
    schedule: &[u32],
) -> Result<CommandTrial, AllocError>
    requires scripts { AreScriptsOf sought.now.shape sought.now.scripts.items }
    requires few { commands_in sought.now.scripts.items < 2 ^ 32 }
    ensures { IfOk result (λ trial. trial ≡ record {
      shape = sought.now.shape;
      scripts = sought.now.scripts.items;
      word = string_bytes sought.now.word;
      decoded = sought.now.decoded;
      schedule = schedule.now;
      left = bounds.left;
      tries = bounds.tries;
    }) }
{
    let scripts = copy_scripts(alloc, sought.scripts.as_slice())?;
    let word = String::from_str(alloc, sought.word.as_str())?;
    let schedule = Vec::from_slice(alloc, schedule)?;
    Ok(CommandTrial::new(
        sought.shape,
        scripts,
        word,
        sought.decoded,
        schedule,
        bounds,
    ))
}

/// The numbers of the commands that are left over a schedule, in whose replay the word stands.
fn fewer_commands(
    alloc: Global,
    sought: &Sought,
    count: u32,
    bounds: Bounds,
    schedule: &[u32],
) -> Result<Found, Unshortened>
    requires scripts { AreScriptsOf sought.now.shape sought.now.scripts.items }
    requires count { count ≡ commands_in sought.now.scripts.items }
    requires shown { Shows sought.now.shape sought.now.scripts.items sought.now.decoded (string_bytes sought.now.word) schedule.now }
    ensures shown { IfOk result (λ found. Shows sought.now.shape (chosen_scripts found.short.schedule.items 0 sought.now.scripts.items)
        sought.now.decoded (string_bytes sought.now.word) schedule.now) }
    ensures least { IfOk result (λ found. found.short.least ≡ true → (at : ℕ) → at < length found.short.schedule.items
        → Lacks sought.now.shape (chosen_scripts (without at 1 found.short.schedule.items) 0 sought.now.scripts.items)
        sought.now.decoded (string_bytes sought.now.word) schedule.now) }
    ensures endless { IfOk result (λ found. bounds.tries ≡ None → (found.short.least ≡ true) × (found.bounds.tries ≡ None)) }
    ensures err { IfErr result (λ fault. fault ≡ Unshortened.Fails → ⊥) }
{
    let mut trial = command_trial(alloc, sought, bounds, schedule)?;
    let numbers = numbers_to(alloc, count)?;
    let short = shorten_passed(alloc, &mut trial, &mut Untold, numbers)?;
    let bounds = trial.bounds();
    Ok(Found { short, bounds })
}

/// Whether both hold.
fn are_both(one: bool, other: bool) -> bool
    ensures { result ≡ (one && other) }
{
    one && other
}

/// What is left of scripts and of a schedule when commands and entries are left out for as long as the word stands in the
/// replay: first entries, then commands over the schedule that is left, and at last entries again. The errors: `Fails`
/// where the word doesn't stand in the whole replay; `Limit` where no more may be tried, or no try is left for the whole
/// schedule, or there are more commands than can be counted; `Memory`.
pub fn shorten_plan<W: Watch>(
    alloc: Global,
    sought: &Sought,
    bounds: Bounds,
    watch: &mut W,
    schedule: Vec<u32>,
) -> Result<ShortPlan, Unshortened>
    requires { AreScriptsOf sought.now.shape sought.now.scripts.items }
    ensures ok { IfOk result (IsShortPlan sought.now.shape sought.now.scripts.items sought.now.decoded (string_bytes sought.now.word)
        bounds.tries schedule.items) }
    ensures count { IfOk result (λ short. length short.scripts.items ≡ length sought.now.scripts.items) }
    ensures fails { result ≡ Err Unshortened.Fails
        → Lacks sought.now.shape sought.now.scripts.items sought.now.decoded (string_bytes sought.now.word) schedule.items }
{
    let Some(count) = count_commands(sought.scripts.as_slice()) else {
        return Err(Unshortened::Limit);
    };
    let Found { short, bounds } = fewer_entries(alloc, sought, bounds, watch, schedule)?;
    let schedule = short.schedule;
    let kept = fewer_commands(alloc, sought, count, bounds, schedule.as_slice())?;
    let numbers = kept.short.schedule.as_slice();
    let scripts = choose_scripts(alloc, sought.scripts.as_slice(), numbers)?;
    let last = fewer_entries_of(
        alloc,
        sought,
        scripts.as_slice(),
        kept.bounds,
        watch,
        schedule,
    )?;
    let least = are_both(kept.short.least, last.short.least);
    Ok(ShortPlan {
        scripts,
        schedule: last.short.schedule,
        least,
    })
}
