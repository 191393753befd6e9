//! The lines of an edit script.

ghost use Rattle.std.specs.Prelude.{◌≡◌, ◌<◌, ◌==◌};
ghost use Rattle.pd_edit_lines.specs.Words.{words};
ghost use Rattle.pd_edit_lines.specs.Grammar.{show_from, show_of, command_from, command_of, is_comment, are_spaces, line_of, one_number};
ghost use Rattle.pd_edit_lines.specs.declared.line.Show.TheVariants as shows;

use crate::event_lines::{change_of, insert_of, move_of, remove_of};
use crate::keywords::{Command, ShowWord, command_word, show_word};
use crate::setting_lines::{budget_of, cable_of, caps_of, end_edit_of, floor_of, sink_of};
use crate::words::{end_of, next, number_at};
use crate::{Edit, EditFault};

/// The most bytes of a line that isn't skipped.
const LONGEST_LINE: usize = 256;

/// What is to be shown.
#[derive(Clone, Copy, Debug, PartialEq, Eq)]
pub enum Show {
    /// The packets of a port.
    Transcript { port: u64 },
    /// The contracts of all ports.
    Contracts,
    /// What went wrong on each port.
    Faults,
    /// What the contracts leave of the budget.
    Margins,
}

/// What a line is.
#[derive(Drop)]
pub enum Line {
    Skip,
    Edit(Edit),
    Show(Show),
}

fn transcript_of(line: &[u8]) -> Option<Show>
    ensures { result ≡ one_number shows.Transcript (words line.now) }
{
    let (port, line) = number_at(line)?;
    end_of(line)?;
    Some(Show::Transcript { port })
}

fn show_from(word: ShowWord, line: &[u8]) -> Option<Show>
    ensures { result ≡ show_from word (words line.now) }
{
    match word {
        ShowWord::Transcript => transcript_of(line),
        ShowWord::Contracts => end_of(line).map(|_| Show::Contracts),
        ShowWord::Faults => end_of(line).map(|_| Show::Faults),
        ShowWord::Margins => end_of(line).map(|_| Show::Margins),
    }
}

fn show_of(line: &[u8]) -> Option<Show>
    ensures { result ≡ show_of (words line.now) }
{
    let (word, line) = next(line)?;
    show_from(show_word(word)?, line)
}

fn command_from(word: Command, line: &[u8]) -> Option<Line>
    ensures { result ≡ command_from word (words line.now) }
{
    match word {
        Command::Insert => insert_of(line).map(Line::Edit),
        Command::Remove => remove_of(line).map(Line::Edit),
        Command::Move => move_of(line).map(Line::Edit),
        Command::Change => change_of(line).map(Line::Edit),
        Command::Cable => cable_of(line).map(Line::Edit),
        Command::Sink => sink_of(line).map(Line::Edit),
        Command::Caps => caps_of(line).map(Line::Edit),
        Command::Floor => floor_of(line).map(Line::Edit),
        Command::Budget => budget_of(line).map(Line::Edit),
        Command::End => end_edit_of(line).map(Line::Edit),
        Command::Show => show_of(line).map(Line::Show),
    }
}

fn command_of(line: &[u8]) -> Option<Line>
    ensures { result ≡ command_of (words line.now) }
{
    let (word, line) = next(line)?;
    command_from(command_word(word)?, line)
}

fn is_comment(line: &[u8]) -> bool
    ensures { result ≡ is_comment line.now }
{
    matches!(line, [b'#', ..])
}

fn are_spaces(line: &[u8]) -> bool
    ensures { result ≡ are_spaces line.now }
{
    line.iter().all(|byte| *byte == b' ')
}

impl Line {
    /// What a line is, without its line end: the spaces before its first and after its last word don't count.
    ///
    /// # Errors
    /// `Syntax` where the line is none of an edit script.
    pub fn read(line: &[u8]) -> Result<Line, EditFault>
        ensures { result ≡ line_of line.now }
    {
        if is_comment(line) || are_spaces(line) {
            return Ok(Line::Skip);
        }
        if line.len() > LONGEST_LINE {
            return Err(EditFault::Syntax);
        }
        command_of(line).ok_or(EditFault::Syntax)
    }
}
