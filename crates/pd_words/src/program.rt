//! The program, as the library for command lines is told of it.

ghost use Rattle.std.specs.Prelude.{◌≡◌, IfOk, false};
ghost use Rattle.clap.specs.Words.{app_of, rule_of};
ghost use Rattle.clap.specs.declared.builder.command.Command.TheViews.{out-Command as fields_of};
ghost use Rattle.pd_words.specs.Program.{program, required, with_word};

use clap::{Arg, ArgAction, Command};
use std::alloc::{AllocError, Global};

/// A word that has to be there.
fn required<'a>(alloc: Global, name: &'a str) -> Arg<'a>
    ensures rule { rule_of result ≡ required name.entry.now }
    ensures local { result.global ≡ false }
{
    Arg::new(alloc, name).required(true).action(ArgAction::Set)
}

/// A command with one word more behind it.
fn with_word<'a>(
    alloc: Global,
    command: Command<'a>,
    word: &'a str,
) -> Result<Command<'a>, AllocError>
    ensures app { IfOk result (λ c. app_of c ≡ with_word (app_of command.entry) word.entry.now) }
    ensures local { IfOk result (λ c. (fields_of c).has_globals ≡ (fields_of command.entry).has_globals) }
{
    command.arg(required(alloc, word))
}

/// `pdbench run SCENARIO EDITS`, `pdbench check SCENARIO` and `pdbench decode SYMBOLS`.
pub fn program<'a>(alloc: Global) -> Result<Command<'a>, AllocError>
    ensures { IfOk result (λ c. app_of c ≡ program) }
{
    let run = with_word(alloc, Command::new(alloc, "run"), "SCENARIO")?;
    let run = with_word(alloc, run, "EDITS")?;
    let check = with_word(alloc, Command::new(alloc, "check"), "SCENARIO")?;
    let decode = with_word(alloc, Command::new(alloc, "decode"), "SYMBOLS")?;
    Command::new(alloc, "pdbench")
        .subcommand(run)?
        .subcommand(check)?
        .subcommand(decode)
}
