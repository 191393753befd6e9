//! `pdlab`, as the library for command lines is told of it.

ghost use Rattle.std.specs.Prelude.{◌≡◌, IfOk, false, map};
ghost use Rattle.clap.specs.Words.{app_of, rule_of, shape_of};
ghost use Rattle.clap.specs.declared.builder.command.Command.TheViews.{out-Command as fields_of};
ghost use Rattle.pd_words.specs.Help.{choice_rule, shape, word_rule};
ghost use Rattle.pd_words.specs.Lab.{command, lab, with_commands, with_version};

use crate::page::{Choice, Page, Word};
use crate::pages::pages;
use Choice::{Any, Flag, Letter, Switch, Value, Values};
use Word::{May, Must, Several};
use clap::{Arg, ArgAction, Command};
use std::alloc::{AllocError, Global};

/// The version of both programs, as CHANGELOG has it.
pub const VERSION: &str = "1.0.0";

/// A word, as the library has it.
fn word_argument<'a>(alloc: Global, word: Word<'a>) -> Arg<'a>
    ensures rule { rule_of result ≡ word_rule word.entry }
    ensures local { result.global ≡ false }
{
    match word {
        Must(name) => Arg::new(alloc, name).required(true).action(ArgAction::Set),
        May(name) => Arg::new(alloc, name).action(ArgAction::Set),
        Several(name) => Arg::new(alloc, name)
            .required(true)
            .action(ArgAction::Append),
    }
}

/// An option, as the library has it.
fn argument<'a>(alloc: Global, choice: Choice<'a>) -> Arg<'a>
    ensures rule { rule_of result ≡ choice_rule choice.entry }
    ensures local { result.global ≡ false }
{
    match choice {
        Value(name, _, _) => Arg::new(alloc, name).long(name).action(ArgAction::Set),
        Values(name, _, _) => Arg::new(alloc, name)
            .long(name)
            .required(true)
            .action(ArgAction::Append),
        Any(name, _, _) => Arg::new(alloc, name).long(name).action(ArgAction::Append),
        Letter(letter, name, _) => Arg::new(alloc, name).short(letter).action(ArgAction::Set),
        Flag(name, _) => Arg::new(alloc, name).long(name).action(ArgAction::SetTrue),
        Switch(letter, name, _) => Arg::new(alloc, name)
            .short(letter)
            .long(name)
            .action(ArgAction::SetTrue),
    }
}

/// A command of this name, with its words.
fn with_words<'a>(
    alloc: Global,
    name: &'a str,
    words: &[Word<'a>],
) -> Result<Command<'a>, AllocError>
    ensures shape { IfOk result (λ c. shape_of c ≡ command name.now (map word_rule words.now)) }
    ensures local { IfOk result (λ c. (fields_of c).has_globals ≡ false) }
{
    let mut command = Command::new(alloc, name);
    for word in words {
        command = command.arg(word_argument(alloc, *word))?;
    }
    Ok(command)
}

/// A command, with its words and options.
fn command<'a>(alloc: Global, page: &Page<'a>) -> Result<Command<'a>, AllocError>
    ensures shape { IfOk result (λ c. shape_of c ≡ shape page.now) }
    ensures local { IfOk result (λ c. (fields_of c).has_globals ≡ false) }
{
    let mut command = with_words(alloc, page.name, page.words)?;
    for choice in page.options {
        command = command.arg(argument(alloc, *choice))?;
    }
    Ok(command)
}

/// A program that tells its version.
fn with_version<'a>(program: Command<'a>) -> Command<'a>
    ensures { app_of result ≡ with_version (app_of program.entry) }
{
    program.version(VERSION)
}

/// A program with commands more.
fn with_pages<'a>(
    alloc: Global,
    mut program: Command<'a>,
    pages: &[&'static Page<'static>],
) -> Result<Command<'a>, AllocError>
    ensures { IfOk result (λ c. app_of c ≡ with_commands (app_of program.entry) (map (λ page. shape page.now) pages.now)) }
{
    for page in pages {
        program = program.subcommand(command(alloc, page)?)?;
    }
    Ok(program)
}

/// The program with its commands.
pub fn lab<'a>(alloc: Global) -> Result<Command<'a>, AllocError>
    ensures { IfOk result (λ c. app_of c ≡ lab) }
{
    let table = pages();
    with_pages(alloc, with_version(Command::new(alloc, "pdlab")), &table)
}
