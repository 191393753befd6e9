//! The task that the words of a command line ask for.

ghost use Rattle.std.specs.Prelude.{◌≡◌, IfErr, IfOk, None, Some, map, option_and_then, option_map};
ghost use Rattle.std.specs.String.{string_bytes};
ghost use Rattle.clap.specs.Words.{first_of, found_of, rows_of, subcommand_rows_of};
ghost use Rattle.pd_words.specs.Found.{fault_by, task_by};
ghost use Rattle.pd_words.specs.Tasks.{asked, task_of};

use crate::program::program;
use clap::ArgMatches;
use clap::error::ErrorKind;
use std::alloc::Global;

/// What a command line asks for.
#[derive(Clone, Copy, Debug, PartialEq, Eq)]
pub enum Task<'a> {
    /// A session over the edit script of the second file, for the scenario of the first.
    Run { scenario: &'a str, edits: &'a str },
    /// Whether a file has a scenario.
    Check { scenario: &'a str },
    /// What these codes come to.
    Decode { symbols: &'a str },
}

/// Why a command line asks for nothing.
#[derive(Clone, Copy, Debug, PartialEq, Eq)]
pub enum WordsFault {
    /// The words are none of the program's; a wish for help or for the version is among these.
    Usage,
    /// There is no memory to read them.
    Memory,
}

/// Why a command line asks for nothing that the library for command lines refuses.
fn fault_by(kind: ErrorKind) -> WordsFault
    ensures { result ≡ fault_by kind }
{
    if kind == ErrorKind::OutOfMemory {
        WordsFault::Memory
    } else {
        WordsFault::Usage
    }
}

/// The first value of an argument.
pub fn first<'a>(matches: &ArgMatches<'a>, id: &str) -> Option<&'a str>
    ensures { option_map (λ x. x.now) result ≡ first_of id.now (rows_of (found_of matches.now)) }
{
    matches.get_str(id)
}

/// The task of a subcommand of this name.
fn task_by<'a>(name: &str, matches: &ArgMatches<'a>) -> Option<Task<'a>>
    ensures { option_map asked result ≡ task_by (name.now, rows_of (found_of matches.now)) }
{
    match name {
        "run" => Some(Task::Run {
            scenario: first(matches, "SCENARIO")?,
            edits: first(matches, "EDITS")?,
        }),
        "check" => Some(Task::Check {
            scenario: first(matches, "SCENARIO")?,
        }),
        "decode" => Some(Task::Decode {
            symbols: first(matches, "SYMBOLS")?,
        }),
        _ => None,
    }
}

/// The task of the subcommand that a command line names.
fn task_named<'a>(matches: &ArgMatches<'a>) -> Option<Task<'a>>
    ensures { option_map asked result ≡ option_and_then task_by (subcommand_rows_of matches.now) }
{
    let (name, matches) = matches.subcommand()?;
    task_by(name, matches)
}

/// Reads what the words of a command line ask for; the first is the program's name.
///
/// # Errors
/// The words ask for nothing, or there is no memory to read them.
pub fn read_task<'a>(alloc: Global, words: &'a [String]) -> Result<Task<'a>, WordsFault>
    ensures ok { IfOk result (λ task. task_of (map string_bytes words.now) ≡ Some (asked task)) }
    ensures usage { IfErr result (λ fault. fault ≡ WordsFault.Usage → task_of (map string_bytes words.now) ≡ None) }
{
    let Ok(command) = program(alloc) else {
        return Err(WordsFault::Memory);
    };
    match command.try_get_matches_from(words) {
        Ok(matches) => task_named(&matches).ok_or(WordsFault::Usage),
        Err(error) => Err(fault_by(error.kind())),
    }
}
