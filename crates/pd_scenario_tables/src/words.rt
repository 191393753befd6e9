//! The words of a scenario file alone, and its numbers that stand for a choice.

ghost use Rattle.std.specs.Prelude.{◌≡◌};
ghost use Rattle.pd_scenario_tables.specs.Words.{revision_of, version_of, event_named, other_event};

use crate::schema::{EventName, Version};
use pd_scenario::kind_of;
use pd_setup::SinkRevision;

/// The revision of a number.
pub fn revision_of(number: i64) -> Option<SinkRevision>
    ensures { result ≡ revision_of number }
{
    if number == 2 {
        return Some(SinkRevision::Revision2);
    }
    if number == 3 {
        return Some(SinkRevision::Revision3);
    }
    None
}

/// The version of a number.
pub fn version_of(number: i64) -> Option<Version>
    ensures { result ≡ version_of number }
{
    if number == 1 {
        return Some(Version::One);
    }
    if number == 2 {
        return Some(Version::Two);
    }
    None
}

/// What the word of an event's kind says in a file of a version.
pub fn event_named(version: Version, word: &str) -> EventName
    ensures { result ≡ event_named version word.now }
{
    match kind_of(word.as_bytes()) {
        Some(kind) => EventName::OnPort(kind),
        None => other_event(version, word),
    }
}

/// What a word says that is no kind of event of a port.
fn other_event(version: Version, word: &str) -> EventName
    ensures { result ≡ other_event version word.now }
{
    match (version, word) {
        (Version::Two, "budget") => EventName::Budget,
        _ => EventName::Unknown,
    }
}
