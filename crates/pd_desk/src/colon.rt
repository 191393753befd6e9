//! What a line of the desk's own asks for.

ghost use Rattle.std.specs.Prelude.{◌≡◌, option_map};
ghost use Rattle.pd_edit_lines.specs.Words.{words};
ghost use Rattle.pd_desk.specs.Commands.{all_of, alone, asked, asked_by, asked_run, asked_save, colon_of, diff_of, is_colon, is_quit};
ghost use Rattle.pd_desk.specs.Commands.{meant, meant_run, number_first, reading, save_of, second, show_of, sweep_of, time_first, undo_of};
ghost use Rattle.pd_desk.specs.Commands.{why_of};

use pd_edit_lines::{next, number};
use pd_units::{Unit, number_in};

/// The most bytes of a line.
const LONGEST_LINE: usize = 256;

/// What a line has written to a file.
#[derive(Clone, Copy, Debug, PartialEq, Eq)]
pub enum Saved {
    /// The scenario that stands.
    Scenario,
    /// The accepted edits that led to it, as an edit script.
    Edits,
    /// The picture of its run.
    Picture,
}

/// Which packets of the run are lost, each in turn, and which of them are told.
#[derive(Clone, Copy, Debug, PartialEq, Eq)]
pub struct Losses {
    /// Those of this port, or of all.
    pub port: Option<u64>,
    /// Those from this time on, in microseconds.
    pub from: u64,
    /// Those up to this time, in microseconds.
    pub to: u64,
    /// Each is told, or each whose loss makes a difference.
    pub all: bool,
}

/// What a line of the desk's own asks for.
#[derive(Clone, Copy, Debug, PartialEq, Eq)]
pub enum Colon {
    /// What there is.
    Help,
    /// The scenario as edit lines.
    Listing,
    /// Takes back the last accepted edit, and then so many before it.
    Undo { before: u64 },
    /// Makes the edit again that was taken back last.
    Redo,
    /// What the last accepted edit changed.
    Diff,
    /// What all accepted edits changed since the start.
    DiffAll,
    /// Writes a file, which the line names, where none is there; or in the place of one that is.
    Save { what: Saved, is_over: bool },
    /// What bounds a port: each offer up to a time in microseconds, or the last one.
    Why { port: u64, to: Option<u64> },
    /// The transcript of the run: of a port, or of all.
    Show { port: Option<u64> },
    /// What the scenario that stands is warned of.
    Warn,
    /// What is sure for each port of its charger.
    Guarantee,
    /// What losing packets of its run leads to.
    Sweep(Losses),
    /// What values of edit lines, which the line names, come to.
    Vary,
    /// What the expectations of a file, which the line names, come to.
    Test,
    /// Makes the edits of a file, which the line names, or none of them.
    Load,
    /// Ends the session.
    Quit,
}

/// Whether a line is the desk's own.
pub fn is_colon(line: &[u8]) -> bool
    ensures { result ≡ is_colon line.now }
{
    match line {
        [] => false,
        [byte, ..] => *byte == b':',
    }
}

/// Whether a line ends the session.
pub(crate) fn is_quit(line: &[u8]) -> bool
    ensures { result ≡ is_quit line.now }
{
    if !is_colon(line) {
        return false;
    }
    match Colon::read(line) {
        Some(Colon::Quit) => true,
        _ => false,
    }
}

/// A command, where no word stands behind it.
fn alone(colon: Colon, rest: &[u8]) -> Option<Colon>
    ensures { result ≡ alone colon (words rest.now) }
{
    match next(rest) {
        Some(_) => None,
        None => Some(colon),
    }
}

/// `:save` and the others that write a file, by the words behind it.
fn save_of(what: Saved, is_over: bool, rest: &[u8]) -> Option<Colon>
    ensures { result ≡ save_of what is_over (words rest.now) }
{
    let (_, rest) = next(rest)?;
    alone(Colon::Save { what, is_over }, rest)
}

/// `:undo`, by the words behind it.
fn undo_of(rest: &[u8]) -> Option<Colon>
    ensures { result ≡ undo_of (words rest.now) }
{
    let Some((count, rest)) = next(rest) else {
        return Some(Colon::Undo { before: 0 });
    };
    if next(rest).is_some() {
        return None;
    }
    let count = number(count)?;
    if count == 0 {
        return None;
    }
    Some(Colon::Undo { before: count - 1 })
}

/// `:diff`, by the words behind it.
fn diff_of(rest: &[u8]) -> Option<Colon>
    ensures { result ≡ diff_of (words rest.now) }
{
    let Some((word, rest)) = next(rest) else {
        return Some(Colon::Diff);
    };
    if next(rest).is_some() || word != b"all".as_slice() {
        return None;
    }
    Some(Colon::DiffAll)
}

/// `:why`, by the words behind it.
fn why_of(rest: &[u8]) -> Option<Colon>
    ensures { result ≡ why_of (words rest.now) }
{
    let (port, rest) = next(rest)?;
    let Some((at, rest)) = next(rest) else {
        let port = number(port)?;
        return Some(Colon::Why { port, to: None });
    };
    if next(rest).is_some() {
        return None;
    }
    let port = number(port)?;
    let to = number_in(Unit::Microseconds, at)?;
    Some(Colon::Why { port, to: Some(to) })
}

/// `:show`, by the words behind it.
fn show_of(rest: &[u8]) -> Option<Colon>
    ensures { result ≡ show_of (words rest.now) }
{
    let Some((port, rest)) = next(rest) else {
        return Some(Colon::Show { port: None });
    };
    if next(rest).is_some() {
        return None;
    }
    let port = number(port)?;
    Some(Colon::Show { port: Some(port) })
}

/// The number that the first word is, where it is one, and what stands behind it.
fn number_first(rest: &[u8]) -> (Option<u64>, &[u8])
    ensures { (result.0, words result.1.now) ≡ number_first (words rest.now) }
{
    let Some((word, behind)) = next(rest) else {
        return (None, rest);
    };
    match number(word) {
        None => (None, rest),
        Some(number) => (Some(number), behind),
    }
}

/// The time that the first word is, where it is one, and what stands behind it.
fn time_first(rest: &[u8]) -> (Option<u64>, &[u8])
    ensures { (result.0, words result.1.now) ≡ time_first (words rest.now) }
{
    let Some((word, behind)) = next(rest) else {
        return (None, rest);
    };
    match number_in(Unit::Microseconds, word) {
        None => (None, rest),
        Some(time) => (Some(time), behind),
    }
}

/// Whether the word `all` stands there, alone; none where another does.
fn all_of(rest: &[u8]) -> Option<bool>
    ensures { result ≡ all_of (words rest.now) }
{
    let Some((word, rest)) = next(rest) else {
        return Some(false);
    };
    if next(rest).is_some() || word != b"all".as_slice() {
        return None;
    }
    Some(true)
}

/// `:sweep`, by the words behind it.
fn sweep_of(rest: &[u8]) -> Option<Colon>
    ensures { result ≡ sweep_of (words rest.now) }
{
    let (port, rest) = number_first(rest);
    let (from, rest) = time_first(rest);
    let (to, rest) = time_first(rest);
    let losses = Losses {
        port,
        from: from.unwrap_or(0),
        to: to.unwrap_or(u64::MAX),
        all: all_of(rest)?,
    };
    Some(Colon::Sweep(losses))
}

/// A command that reads a file, by the words behind it.
fn reading(colon: Colon, rest: &[u8]) -> Option<Colon>
    ensures { result ≡ reading colon (words rest.now) }
{
    let (_, rest) = next(rest)?;
    alone(colon, rest)
}

/// What a word asks for that is another command's too, by the words behind it.
#[tactic(auto, unfolding(crate::specs::Commands::asked_run))]
fn asked_run(word: &[u8], rest: &[u8]) -> Option<Colon>
    ensures { result ≡ asked_run word.now (words rest.now) }
{
    if word == b":show".as_slice() {
        return show_of(rest);
    }
    if word == b":warn".as_slice() {
        return alone(Colon::Warn, rest);
    }
    if word == b":guarantee".as_slice() {
        return alone(Colon::Guarantee, rest);
    }
    if word == b":sweep".as_slice() {
        return sweep_of(rest);
    }
    if word == b":vary".as_slice() {
        return Some(Colon::Vary);
    }
    if word == b":test".as_slice() {
        return reading(Colon::Test, rest);
    }
    if word == b":draw".as_slice() {
        return save_of(Saved::Picture, false, rest);
    }
    if word == b":draw!".as_slice() {
        return save_of(Saved::Picture, true, rest);
    }
    None
}

/// What a word asks for that has what is edited written to a file, or read from one, by the words behind it.
#[tactic(auto, unfolding(crate::specs::Commands::asked_save))]
fn asked_save(word: &[u8], rest: &[u8]) -> Option<Colon>
    ensures { result ≡ asked_save word.now (words rest.now) }
{
    if word == b":save".as_slice() {
        return save_of(Saved::Scenario, false, rest);
    }
    if word == b":save!".as_slice() {
        return save_of(Saved::Scenario, true, rest);
    }
    if word == b":save-edits".as_slice() {
        return save_of(Saved::Edits, false, rest);
    }
    if word == b":save-edits!".as_slice() {
        return save_of(Saved::Edits, true, rest);
    }
    if word == b":load".as_slice() {
        return reading(Colon::Load, rest);
    }
    asked_run(word, rest)
}

/// What a word with a colon asks for, by the words behind it.
#[tactic(auto, unfolding(crate::specs::Commands::asked))]
fn asked(word: &[u8], rest: &[u8]) -> Option<Colon>
    ensures { result ≡ asked word.now (words rest.now) }
{
    if word == b":help".as_slice() {
        return alone(Colon::Help, rest);
    }
    if word == b":list".as_slice() {
        return alone(Colon::Listing, rest);
    }
    if word == b":undo".as_slice() {
        return undo_of(rest);
    }
    if word == b":redo".as_slice() {
        return alone(Colon::Redo, rest);
    }
    if word == b":diff".as_slice() {
        return diff_of(rest);
    }
    if word == b":why".as_slice() {
        return why_of(rest);
    }
    if word == b":quit".as_slice() {
        return alone(Colon::Quit, rest);
    }
    asked_save(word, rest)
}

/// What the words of a line ask for.
fn asked_by(line: &[u8]) -> Option<Colon>
    ensures { result ≡ asked_by (words line.now) }
{
    let (word, rest) = next(line)?;
    asked(word, rest)
}

impl Colon {
    /// What a line asks for, or none where it is none of the desk's own, or has more than 256 bytes.
    pub fn read(line: &[u8]) -> Option<Colon>
        ensures { result ≡ colon_of line.now }
    {
        if line.len() > LONGEST_LINE {
            return None;
        }
        asked_by(line)
    }
}

/// The second word of a line, which names the file of `:save`, `:draw`, `:test` or `:load`.
pub fn file_of(line: &[u8]) -> Option<&[u8]>
    ensures { option_map (λ x. x.now) result ≡ second (words line.now) }
{
    let (_, rest) = next(line)?;
    let (file, _) = next(rest)?;
    Some(file)
}

/// The command that is meant by a word of another command's name, or of another program's, where one is.
#[tactic(auto, unfolding(crate::specs::Commands::meant_run))]
fn meant_run(word: &[u8]) -> Option<&'static [u8]>
    ensures { option_map (λ x. x.now) result ≡ meant_run word.now }
{
    if word == b"why".as_slice() {
        return Some(b":why");
    }
    if word == b"warn".as_slice() {
        return Some(b":warn");
    }
    if word == b"guarantee".as_slice() {
        return Some(b":guarantee");
    }
    if word == b"sweep".as_slice() {
        return Some(b":sweep");
    }
    if word == b"vary".as_slice() {
        return Some(b":vary SET");
    }
    if word == b"test".as_slice() {
        return Some(b":test FILE");
    }
    if word == b"draw".as_slice() {
        return Some(b":draw FILE");
    }
    if word == b"load".as_slice() || word == b"source".as_slice() {
        return Some(b":load FILE");
    }
    None
}

/// The command that is meant by a word without a colon, as `quit`, where one is.
#[tactic(auto, unfolding(crate::specs::Commands::meant))]
pub(crate) fn meant(word: &[u8]) -> Option<&'static [u8]>
    ensures { option_map (λ x. x.now) result ≡ meant word.now }
{
    if word == b"quit".as_slice() || word == b"exit".as_slice() {
        return Some(b":quit");
    }
    if word == b"help".as_slice() || word == b"?".as_slice() {
        return Some(b":help");
    }
    if word == b"list".as_slice() {
        return Some(b":list");
    }
    if word == b"undo".as_slice() {
        return Some(b":undo");
    }
    if word == b"redo".as_slice() {
        return Some(b":redo");
    }
    if word == b"diff".as_slice() {
        return Some(b":diff");
    }
    if word == b"save".as_slice() {
        return Some(b":save FILE");
    }
    meant_run(word)
}
