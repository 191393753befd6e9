//! Which command, and which option, is meant by words that ask for nothing.

ghost use Rattle.std.specs.Prelude.{◌≡◌, bytes_eq, find, map, option_map};
ghost use Rattle.std.specs.String.{string_bytes};
ghost use Rattle.pd_words.specs.Meant.{behind_name, front, meant, names, topic};

use crate::help::page_of;
use crate::page::Choice;
use pd_hints::{is_slip, nearest};

const COMMANDS: [&str; 13] = [
    "live",
    "show",
    "why",
    "guarantee",
    "sweep",
    "vary",
    "test",
    "draw",
    "page",
    "explain",
    "decode",
    "new",
    "schema",
];

/// The names of the commands.
#[tactic(auto, unfolding(crate::specs::Meant::names, crate::specs::Lab::lab))]
fn names() -> &'static [&'static str]
    ensures { map (λ x. x.now) result.now ≡ names }
{
    &COMMANDS
}

/// The first word, or none.
fn front(words: &[String]) -> &str
    ensures { result.now ≡ front (map string_bytes words.now) }
{
    match words {
        [word, ..] => word.as_str(),
        [] => "",
    }
}

fn behind_name(words: &[String]) -> &str
    ensures { result.now ≡ behind_name (map string_bytes words.now) }
{
    match words {
        [word, others @ ..] if word.as_str() == "help" => front(others),
        _ => front(words),
    }
}

/// The word of a command line that is to name a command: the first behind the program's name, or the one behind `help`.
pub fn topic_of(words: &[String]) -> &str
    ensures { result.now ≡ topic (map string_bytes words.now) }
{
    match words {
        [_, others @ ..] => behind_name(others),
        [] => "",
    }
}

/// The name that a word is.
fn first_named(word: &str, names: &[&'static str]) -> Option<&'static str>
    ensures { result ≡ find (λ name. bytes_eq word.now name.now) names.now }
{
    names.iter().copied().find(|name| word == *name)
}

/// The same, by the names' bytes.
fn named(word: &str, names: &[&'static str]) -> Option<&'static str>
    ensures { option_map (λ x. x.now) result ≡ find (bytes_eq word.now) (map (λ x. x.now) names.now) }
{
    first_named(word, names)
}

/// The command that a word of a command line names, or of whose name it is a slip.
pub fn meant_command(word: &str) -> Option<&'static str>
    ensures { option_map (λ x. x.now) result ≡ meant word.now }
{
    let names = names();
    match named(word, names) {
        Some(name) => Some(name),
        None => nearest(word.as_bytes(), names),
    }
}

/// The name of an option of several letters.
fn long_name(choice: Choice<'static>) -> Option<&'static str> {
    match choice {
        Choice::Value(name, _, _)
        | Choice::Values(name, _, _)
        | Choice::Any(name, _, _)
        | Choice::Flag(name, _)
        | Choice::Switch(_, name, _) => Some(name),
        Choice::Letter(_, _, _) => None,
    }
}

/// The option of which a word is a slip, where it begins with two dashes.
fn near_option(options: &[Choice<'static>], word: &str) -> Option<&'static str> {
    let bare = word.strip_prefix("--")?;
    options
        .iter()
        .filter_map(|choice| long_name(*choice))
        .find(|name| is_slip(bare.as_bytes(), name.as_bytes()))
}

/// The first option of a command of which one of the words is a slip.
pub fn meant_option(command: &str, words: &[String]) -> Option<&'static str> {
    let options = page_of(command)?.options;
    words
        .iter()
        .find_map(|word| near_option(options, word.as_str()))
}
