//! The words that a command, what is shown and a revision are written by.

ghost use Rattle.std.specs.Prelude.{◌≡◌, bytes_eq};
ghost use Rattle.pd_edit_lines.specs.Keywords.{command_word, show_word, revision_word};

use pd_setup::SinkRevision;

/// The word that a command begins with.
#[derive(Clone, Copy)]
pub(crate) enum Command {
    Insert,
    Remove,
    Move,
    Change,
    Cable,
    Sink,
    Caps,
    Floor,
    Budget,
    End,
    Show,
}

/// The word that what is to be shown begins with.
#[derive(Clone, Copy)]
pub(crate) enum ShowWord {
    Transcript,
    Contracts,
    Faults,
    Margins,
}

/// Whether a word is another.
pub(crate) fn is_word(word: &[u8], other: &[u8]) -> bool
    ensures { result ≡ bytes_eq word.now other.now }
{
    word == other
}

pub(crate) fn command_word(word: &[u8]) -> Option<Command>
    ensures { result ≡ command_word word.now }
{
    if is_word(word, b"insert") {
        return Some(Command::Insert);
    }
    if is_word(word, b"remove") {
        return Some(Command::Remove);
    }
    if is_word(word, b"move") {
        return Some(Command::Move);
    }
    if is_word(word, b"change") {
        return Some(Command::Change);
    }
    if is_word(word, b"cable") {
        return Some(Command::Cable);
    }
    if is_word(word, b"sink") {
        return Some(Command::Sink);
    }
    if is_word(word, b"caps") {
        return Some(Command::Caps);
    }
    if is_word(word, b"floor") {
        return Some(Command::Floor);
    }
    if is_word(word, b"budget") {
        return Some(Command::Budget);
    }
    if is_word(word, b"end") {
        return Some(Command::End);
    }
    if is_word(word, b"show") {
        return Some(Command::Show);
    }
    None
}

pub(crate) fn show_word(word: &[u8]) -> Option<ShowWord>
    ensures { result ≡ show_word word.now }
{
    if is_word(word, b"transcript") {
        return Some(ShowWord::Transcript);
    }
    if is_word(word, b"contracts") {
        return Some(ShowWord::Contracts);
    }
    if is_word(word, b"faults") {
        return Some(ShowWord::Faults);
    }
    if is_word(word, b"margins") {
        return Some(ShowWord::Margins);
    }
    None
}

/// The revision of a sink that a word stands for.
pub(crate) fn revision_word(word: &[u8]) -> Option<SinkRevision>
    ensures { result ≡ revision_word word.now }
{
    if is_word(word, b"rev2") {
        return Some(SinkRevision::Revision2);
    }
    if is_word(word, b"rev3") {
        return Some(SinkRevision::Revision3);
    }
    None
}
