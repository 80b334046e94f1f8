ghost use Rattle.std.specs.Prelude.{◌≡◌, ◌≤◌, false, IfOk, IfSome, map, string_bytes};
ghost use Rattle.clap.specs.Matches.{found_of};
ghost use Rattle.clap.specs.Simple.{app_of};
ghost use Rattle.clap.specs.Walk.{rows_of, rule_of};
ghost use Rattle.command_words.specs.Words.{IsInRange, bare, command_of, meant, task_in, task_of, task_rule, number_between, number_in, option_rule, program};

use crate::command::{Command, Task};
use clap::error::ErrorKind;
use clap::{Arg, ArgAction, ArgMatches};
use flow_types::read_number;
use out_of_memory::OutOfMemory;
use std::alloc::{AllocError, Global};

/// What the words after the program's name ask for, or `None` where they are no command: `MODE`, which is `replay`,
/// `storm` or `grind`, and each at most once the options `--workers` (1..=64, by default 4), `--lanes` (1..=8, by default
/// 2) and `--seed` (0..=4294967295, by default 1). A number is decimal digits without sign or leading zero.
pub fn read_command(alloc: Global, words: &[String]) -> Result<Option<Command>, OutOfMemory>
    ensures meaning { IfOk result (λ read. read ≡ meant (map string_bytes words.now)) }
    ensures ranges { IfOk result (λ read. IfSome read IsInRange) }
{
    let line = command_line(alloc)?;
    match line.try_get_matches_from(words) {
        Ok(matches) => Ok(command_of(&matches)),
        Err(error) if error.kind() == ErrorKind::OutOfMemory => Err(OutOfMemory),
        Err(_) => Ok(None),
    }
}

/// The command line, as `clap` is told it.
fn command_line<'a>(alloc: Global) -> Result<clap::Command<'a>, AllocError>
    ensures { IfOk result (λ made. app_of made ≡ program) }
{
    bare_line(alloc)
        .arg(task_word(alloc))?
        .arg(option(alloc, "workers", "4"))?
        .arg(option(alloc, "lanes", "2"))?
        .arg(option(alloc, "seed", "1"))
}

/// The program's name alone. The words begin after it, and `--help` is no option.
fn bare_line<'a>(alloc: Global) -> clap::Command<'a>
    ensures { app_of result ≡ bare }
{
    clap::Command::new(alloc, "scalebricks")
        .no_binary_name(true)
        .disable_help_flag(true)
}

fn task_word<'a>(alloc: Global) -> Arg<'a>
    ensures rule { rule_of result ≡ task_rule }
    ensures local { result.global ≡ false }
{
    Arg::new(alloc, "MODE").required(true)
}

/// The option of this name, which takes a value and may be left out.
fn option<'a>(alloc: Global, name: &'a str, default: &'a str) -> Arg<'a>
    ensures rule { rule_of result ≡ option_rule name.entry.now default.entry.now }
    ensures local { result.global ≡ false }
{
    Arg::new(alloc, name)
        .long(name)
        .action(ArgAction::Set)
        .default_value(default)
}

/// What the matches of the words ask for.
#[tactic(auto, unfolding(crate::specs::Words::command_of))]
fn command_of(matches: &ArgMatches<'_>) -> Option<Command>
    ensures value { result ≡ command_of (rows_of (found_of matches.now)) }
    ensures ranges { IfSome result IsInRange }
{
    let task = task_in(matches)?;
    let workers = number_in(matches, "workers", 1, 64)?;
    let lanes = number_in(matches, "lanes", 1, 8)?;
    let seed = number_in(matches, "seed", 0, 4_294_967_295)?;
    Some(Command {
        task,
        workers: workers as u8,
        lanes: lanes as u8,
        seed: seed as u32,
    })
}

/// The task that the words name.
fn task_in(matches: &ArgMatches<'_>) -> Option<Task>
    ensures { result ≡ task_in (rows_of (found_of matches.now)) }
{
    task_of(matches.get_str("MODE")?)
}

/// The task of this name.
fn task_of(name: &str) -> Option<Task>
    ensures { result ≡ task_of name.now }
{
    match name {
        "replay" => Some(Task::Replay),
        "storm" => Some(Task::Storm),
        "grind" => Some(Task::Grind),
        _ => None,
    }
}

/// The number from `low` to `high` that the option of this name has.
fn number_in(matches: &ArgMatches<'_>, name: &str, low: u64, high: u64) -> Option<u64>
    ensures value { result ≡ number_in low high name.now (rows_of (found_of matches.now)) }
    ensures least { IfSome result (λ number. low ≤ number) }
    ensures most { IfSome result (λ number. number ≤ high) }
{
    number_between(low, high, matches.get_str(name)?)
}

/// The number from `low` to `high` that the text writes.
fn number_between(low: u64, high: u64, text: &str) -> Option<u64>
    ensures value { result ≡ number_between low high text.now }
    ensures least { IfSome result (λ number. low ≤ number) }
    ensures most { IfSome result (λ number. number ≤ high) }
{
    let number = read_number(text.as_bytes(), high)?;
    if low <= number { Some(number) } else { None }
}
