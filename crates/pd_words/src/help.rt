//! What `--help` prints: of each command all its options, by the table by which the command line is read.

ghost use Rattle.std.specs.Prelude.{◌≡◌, ◌++◌, IfOk, OnOk, bytes_eq, codes, find, map, option_map, replicate};
ghost use Rattle.std.specs.Char.{encode_utf8};
ghost use Rattle.std.specs.List.{flat_map};
ghost use Rattle.std.specs.String.{string_bytes};
ghost use Rattle.pd_words.specs.Help.{IsHelp, IsProgramHelp, IsUsage, at_column, below, choice_line, choice_names, entry, gap};
ghost use Rattle.pd_words.specs.Help.{page_help, said, shape, shape_of_name, summary_line};

use crate::page::{Choice, Page};
use crate::pages::{BACK, FRONT, USAGE, pages};
use std::alloc::{AllocError, Global};

/// Adds texts.
fn push_all(text: &mut String, parts: &[&str]) -> Result<(), AllocError>
    ensures { OnOk result (string_bytes text.new ≡ string_bytes text.old ++ flat_map (λ part. part.now) parts.now) }
{
    for part in parts {
        text.push_str(part)?;
    }
    Ok(())
}

/// Adds so many blanks.
fn push_blanks(text: &mut String, count: usize) -> Result<(), AllocError>
    ensures { OnOk result (string_bytes text.new ≡ string_bytes text.old ++ replicate count 32) }
{
    for _i in 0..count {
        text.push_str(" ")?;
    }
    Ok(())
}

/// Adds lines, each from a column on.
fn push_below(text: &mut String, column: usize, lines: &[&str]) -> Result<(), AllocError>
    ensures { OnOk result (string_bytes text.new ≡ string_bytes text.old ++ below column (map (λ line. line.now) lines.now)) }
{
    for line in lines {
        push_blanks(text, column)?;
        push_all(text, &[line, "\n"])?;
    }
    Ok(())
}

/// Adds lines of which the first has begun already.
fn push_at_column(text: &mut String, column: usize, lines: &[&str]) -> Result<(), AllocError>
    ensures { OnOk result (string_bytes text.new ≡ string_bytes text.old ++ at_column column (map (λ line. line.now) lines.now)) }
{
    match lines {
        [] => text.push_str("\n"),
        [line, others @ ..] => {
            push_all(text, &[line, "\n"])?;
            push_below(text, column, others)
        }
    }
}

/// Adds what leads to a column: where the line is too wide for two blanks, a new line.
fn push_gap(text: &mut String, column: usize, width: usize) -> Result<(), AllocError>
    ensures { OnOk result (string_bytes text.new ≡ string_bytes text.old ++ gap column width) }
{
    let room = column.saturating_sub(width);
    if 1 < room {
        return push_blanks(text, room);
    }
    text.push_str("\n")?;
    push_blanks(text, column)
}

/// Adds what is said of some words, from a column on.
fn push_entry(
    text: &mut String,
    column: usize,
    words: &str,
    lines: &[&str],
) -> Result<(), AllocError>
    ensures { OnOk result (string_bytes text.new
        ≡ string_bytes text.old ++ entry column words.now (map (λ line. line.now) lines.now)) }
{
    push_all(text, &["  ", words])?;
    push_gap(text, column, words.len() + 2)?;
    push_at_column(text, column, lines)
}

/// Texts as one.
fn joined(alloc: Global, parts: &[&str]) -> Result<String, AllocError>
    ensures { IfOk result (λ text. string_bytes text ≡ flat_map (λ part. part.now) parts.now) }
{
    let mut text = String::new(alloc);
    push_all(&mut text, parts)?;
    Ok(text)
}

/// An option of a letter, and texts behind it.
fn lettered(alloc: Global, letter: char, parts: &[&str]) -> Result<String, AllocError>
    ensures { IfOk result (λ text. string_bytes text ≡ codes "-" ++ (encode_utf8 letter ++ flat_map (λ part. part.now) parts.now)) }
{
    let mut text = String::new(alloc);
    text.push_str("-")?;
    text.push(letter)?;
    push_all(&mut text, parts)?;
    Ok(text)
}

/// How an option is written.
fn choice_names(alloc: Global, choice: Choice<'_>) -> Result<String, AllocError>
    ensures { IfOk result (λ text. string_bytes text ≡ choice_names choice.entry) }
{
    match choice {
        Choice::Value(name, word, _) => joined(alloc, &["--", name, " ", word]),
        Choice::Values(name, word, _) => joined(alloc, &["--", name, " ", word]),
        Choice::Any(name, word, _) => joined(alloc, &["--", name, " ", word]),
        Choice::Letter(letter, word, _) => lettered(alloc, letter, &[" ", word]),
        Choice::Flag(name, _) => joined(alloc, &["--", name]),
        Choice::Switch(letter, name, _) => lettered(alloc, letter, &[", --", name]),
    }
}

/// What an option does, line by line.
fn said<'a>(choice: Choice<'a>) -> &'a [&'a str]
    ensures { map (λ line. line.now) result.now ≡ said choice.entry }
{
    match choice {
        Choice::Value(_, _, said)
        | Choice::Values(_, _, said)
        | Choice::Any(_, _, said)
        | Choice::Letter(_, _, said)
        | Choice::Flag(_, said)
        | Choice::Switch(_, _, said) => said,
    }
}

/// Adds the list of options.
fn push_options(
    alloc: Global,
    text: &mut String,
    column: usize,
    options: &[Choice<'_>],
) -> Result<(), AllocError>
    ensures { OnOk result (string_bytes text.new ≡ string_bytes text.old ++ flat_map (choice_line column) options.now) }
{
    for choice in options {
        let names = choice_names(alloc, *choice)?;
        push_entry(text, column, names.as_str(), said(*choice))?;
    }
    Ok(())
}

/// What `pdlab COMMAND --help` prints.
fn page_help(alloc: Global, page: &Page<'_>) -> Result<String, AllocError>
    ensures { IfOk result (λ text. string_bytes text ≡ page_help page.now) }
{
    let mut text = String::new(alloc);
    push_all(
        &mut text,
        &[
            "pdlab ",
            page.name,
            ": ",
            page.title,
            "\n\nusage: pdlab ",
            page.usage,
            "\n\n",
            page.about,
        ],
    )?;
    push_options(alloc, &mut text, page.column, page.options)?;
    text.push_str(page.end)?;
    Ok(text)
}

/// From where on the program's help says what a command does.
const COLUMN: usize = 28;

/// Adds what the commands do.
fn push_summaries(text: &mut String, pages: &[&'static Page<'static>]) -> Result<(), AllocError>
    ensures { OnOk result (string_bytes text.new
        ≡ string_bytes text.old ++ flat_map summary_line (map (λ page. page.now) pages.now)) }
{
    for page in pages {
        push_entry(text, COLUMN, page.usage, page.summary)?;
    }
    Ok(())
}

/// What `pdlab --help` prints.
fn program_help(alloc: Global) -> Result<String, AllocError>
    ensures { IfOk result (λ text. IsProgramHelp (string_bytes text)) }
{
    let table = pages();
    let mut text = String::new(alloc);
    text.push_str(FRONT)?;
    push_summaries(&mut text, &table)?;
    text.push_str(BACK)?;
    Ok(text)
}

/// The first of some commands with this name.
fn page_named(name: &str, pages: &[&'static Page<'static>]) -> Option<&'static Page<'static>>
    ensures { result ≡ find (λ page. bytes_eq page.now.name.now name.now) pages.now }
{
    pages.iter().copied().find(|page| page.name == name)
}

/// The command of this name.
pub(crate) fn page_of(name: &str) -> Option<&'static Page<'static>>
    ensures { option_map (λ page. shape page.now) result ≡ shape_of_name name.now }
{
    let table = pages();
    page_named(name, &table)
}

/// What tells how a command is used, or the program where the word is no command.
///
/// # Errors
/// There is no memory for it.
pub fn help_of(alloc: Global, name: &str) -> Result<String, AllocError>
    ensures { IfOk result (λ text. IsHelp (shape_of_name name.now) (string_bytes text)) }
{
    match page_of(name) {
        Some(page) => page_help(alloc, page),
        None => program_help(alloc),
    }
}

/// What stands behind `usage: pdlab ` of a command, or of the program where the word is no command.
pub fn usage_of(name: &str) -> &'static str
    ensures { IsUsage (shape_of_name name.now) result.now }
{
    match page_of(name) {
        Some(page) => page.usage,
        None => USAGE,
    }
}
