//! The words by which scenario files and edit scripts write plugs, modes and kinds of events, and the numbers by which they
//! write a cable's rating and a sink's revision.

ghost use Rattle.std.specs.Prelude.{◌≡◌};
ghost use Rattle.pd_save.specs.Words.{plug_word, mode_word, kind_word, rating_number, revision_number};

use pd_identity::{CablePlug, Rating};
use pd_scenario::ScenarioEventKind;
use pd_setup::{EventKind, SinkMode, SinkRevision};

/// The word of a cable's plug.
pub fn plug_word(plug: CablePlug) -> &'static str
    ensures { result.now ≡ plug_word plug }
{
    match plug {
        CablePlug::Absent => "none",
        CablePlug::Ack => "ack",
        CablePlug::Nak => "nak",
        CablePlug::Busy => "busy",
        CablePlug::Silent => "silent",
    }
}

/// The word of a sink's mode.
pub fn mode_word(mode: SinkMode) -> &'static str
    ensures { result.now ≡ mode_word mode }
{
    match mode {
        SinkMode::PowerDelivery => "pd",
        SinkMode::Plain => "plain",
        SinkMode::Greedy => "greedy",
    }
}

/// The word of a kind of event.
pub fn kind_word(kind: &ScenarioEventKind) -> &'static str
    ensures { result.now ≡ kind_word kind.now }
{
    match kind {
        EventKind::Attach { .. } => "attach",
        EventKind::Detach => "detach",
        EventKind::Demand(_) => "demand",
        EventKind::Lose => "lose",
        EventKind::Damage(_) => "damage",
        EventKind::GetSource => "get_source",
        EventKind::GetSink => "get_sink",
    }
}

/// The current in mA by which a cable's rating is written.
pub fn rating_number(rating: Rating) -> u64
    ensures { result ≡ rating_number rating }
{
    match rating {
        Rating::ThreeAmperes => 3_000,
        Rating::FiveAmperes => 5_000,
    }
}

/// The number by which a sink's revision is written.
pub fn revision_number(revision: SinkRevision) -> u64
    ensures { result ≡ revision_number revision }
{
    match revision {
        SinkRevision::Revision2 => 2,
        SinkRevision::Revision3 => 3,
    }
}
