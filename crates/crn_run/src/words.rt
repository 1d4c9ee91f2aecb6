ghost use Rattle.std.specs.Prelude.{◌≡◌, ℕ, List, IfOk, MatchOption, None, Some, map, drop, string_bytes};
ghost use Rattle.std.specs.List.{list_any};
ghost use Rattle.clap.specs.Words.{app_of};
ghost use Rattle.crn_run.specs.Inner.Parse.{IsRead, Gives, Means, MeansBudget, crnt_app, is_two_dashes, text_in};
ghost use Rattle.crn_run.specs.Words.{IsCommand, IsNumberWithin, part_name};
ghost use Rattle.crn_run.specs.declared.words.Command.{Command};
ghost use Rattle.crn_run.specs.declared.words.PartName.{PartName};

use clap::error::ErrorKind;
use clap::{Arg, ArgAction};
use crn_sample::{MAX_SAMPLE, MAX_SAMPLE_DIGITS};
use crn_vec::{DEFAULT_BUDGET, MAX_BUDGET, MAX_BUDGET_DIGITS, NoMemory};
use std::alloc::Global;

/// A part that is built: a question with documents of its own.
#[derive(Clone, Copy, Debug, PartialEq, Eq)]
pub enum PartName {
    /// Whether each siphon contains the species of a conservation law.
    Persist,
    /// Whether the structural hypotheses on robustness hold.
    Robust,
    /// The finest independent decomposition of the reactions.
    Decomposition,
    /// Whether the network is endotactic.
    Endo,
}

/// What the words of a command line ask for.
///
/// `budget` bounds the visits of each search, and `number` is that of a sample network, from 1 to 19.
#[derive(Clone, Copy, Debug, PartialEq, Eq)]
pub enum Command {
    Report { budget: u32 },
    Certify { budget: u32 },
    Check,
    Sample { number: u32, budget: u32 },
    Prove { part: PartName, budget: u32 },
    Verify { part: PartName },
}

/// The command that the words say, or none if they say none. Takes memory.
///
/// The words begin with the program's name. They are read with clap, as a positional `command`, a
/// positional `count` that may be left out and is also the name of a part, and an option `--budget`. A word `--` is in no command.
pub fn command_of(alloc: Global, words: &[String]) -> Result<Option<Command>, NoMemory>
    ensures { let said = map string_bytes words.now in IfOk result (λ found.
        MatchOption found ((c : Command) → IsCommand said c → ⊥) (λ c. IsCommand said c)) }
{
    if has_two_dashes(words) {
        return Ok(None);
    }
    match parse(alloc, words)? {
        Some(said) => Ok(command_meant(&said)),
        None => Ok(None),
    }
}

// The values that clap reads from the words.
#[derive(Drop)]
struct Said<'a> {
    command: Option<&'a str>,
    count: Option<&'a str>,
    budget: Option<&'a str>,
}

// Whether `--` is a word after the program's name.
fn has_two_dashes(words: &[String]) -> bool
    ensures { result ≡ list_any is_two_dashes (drop 1 (map string_bytes words.now)) }
{
    match words {
        [_, rest @ ..] => rest.iter().any(|word| word.as_str() == "--"),
        [] => false,
    }
}

// The one command, as clap reads it.
#[tactic(auto, unfolding(crate::specs::Inner::Parse::crnt_app))]
fn parser<'a>(alloc: Global) -> Result<clap::Command<'a>, NoMemory>
    ensures app { IfOk result (λ c. app_of c ≡ crnt_app) }
{
    let command = Arg::new(alloc, "command")
        .required(true)
        .action(ArgAction::Set);
    let count = Arg::new(alloc, "count").action(ArgAction::Set);
    let budget = Arg::new(alloc, "budget")
        .long("budget")
        .action(ArgAction::Set);
    clap::Command::new(alloc, "crnt")
        .arg(command)?
        .arg(count)?
        .arg(budget)
}

// The values that clap reads from the words, or none if it refuses them.
fn parse<'a>(alloc: Global, words: &'a [String]) -> Result<Option<Said<'a>>, NoMemory>
    ensures { let said = map string_bytes words.now in IfOk result (λ found.
        MatchOption found (IsRead said → ⊥) (λ s. IsRead said
        × Gives said (text_in s.command) (text_in s.count) (text_in s.budget))) }
{
    let parser = parser(alloc)?;
    match parser.try_get_matches_from(words) {
        Ok(matches) => Ok(Some(Said {
            command: matches.get_str("command"),
            count: matches.get_str("count"),
            budget: matches.get_str("budget"),
        })),
        Err(error) => match error.kind() {
            ErrorKind::OutOfMemory => Err(NoMemory),
            _ => Ok(None),
        },
    }
}

// The command that the values mean.
fn command_meant(said: &Said<'_>) -> Option<Command>
    ensures { let command = text_in said.now.command in
        let count = text_in said.now.count in
        let budget = text_in said.now.budget in
        MatchOption result
        ((c : Command) → Means command count budget c → ⊥)
        (Means command count budget) }
{
    match said.count {
        Some(count) => counted_meant(said.command, count, said.budget),
        None => named_meant(said.command, said.budget),
    }
}

// The command that a name and a budget mean, without a count.
fn named_meant(command: Option<&str>, budget: Option<&str>) -> Option<Command>
    ensures { let name = text_in command.entry in
        let word = text_in budget.entry in
        MatchOption result
        ((c : Command) → Means name None word c → ⊥)
        (Means name None word) }
{
    match command {
        Some("report") => {
            let budget = budget_meant(budget)?;
            Some(Command::Report { budget })
        }
        Some("certify") => {
            let budget = budget_meant(budget)?;
            Some(Command::Certify { budget })
        }
        Some("check") if budget.is_none() => Some(Command::Check),
        _ => None,
    }
}

// The command that a name, a count and a budget mean.
fn counted_meant(command: Option<&str>, count: &str, budget: Option<&str>) -> Option<Command>
    ensures { let name = text_in command.entry in
        let word = text_in budget.entry in
        MatchOption result
        ((c : Command) → Means name (Some count.now) word c → ⊥)
        (Means name (Some count.now) word) }
{
    match command {
        Some("sample") => {
            let number = number_within(count, MAX_SAMPLE_DIGITS, MAX_SAMPLE)?;
            let budget = budget_meant(budget)?;
            Some(Command::Sample { number, budget })
        }
        Some("prove") => {
            let part = part_meant(count)?;
            let budget = budget_meant(budget)?;
            Some(Command::Prove { part, budget })
        }
        Some("verify") if budget.is_none() => {
            let part = part_meant(count)?;
            Some(Command::Verify { part })
        }
        _ => None,
    }
}

// The part that has this name.
fn part_meant(name: &str) -> Option<PartName>
    ensures { MatchOption result
        ((part : PartName) → name.now ≡ part_name part → ⊥) (λ part. name.now ≡ part_name part) }
{
    match name {
        "persist" => Some(PartName::Persist),
        "robust" => Some(PartName::Robust),
        "parts" => Some(PartName::Decomposition),
        "endo" => Some(PartName::Endo),
        _ => None,
    }
}

// The budget that a word writes, or the default if there is no word.
fn budget_meant(word: Option<&str>) -> Option<u32>
    ensures { let text = text_in word.entry in
        MatchOption result ((b : ℕ) → MeansBudget text b → ⊥) (MeansBudget text) }
{
    match word {
        Some(digits) => number_within(digits, MAX_BUDGET_DIGITS, MAX_BUDGET),
        None => Some(DEFAULT_BUDGET),
    }
}

// The number that digits write, if they are not more than this many and it is from 1 to the greatest.
fn number_within(digits: &str, most_digits: usize, greatest: u32) -> Option<u32>
    ensures { MatchOption result
        ((n : ℕ) → IsNumberWithin most_digits greatest digits.now n → ⊥)
        (IsNumberWithin most_digits greatest digits.now) }
{
    if digits.len() > most_digits || digits.as_bytes().first() == Some(&b'+') {
        return None;
    }
    match digits.parse::<u32>() {
        Ok(number) if 1 <= number && number <= greatest => Some(number),
        _ => None,
    }
}
