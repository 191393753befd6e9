//! The format of a scenario file: which keys each kind of table has, what their values are, and what stands for a key
//! that is absent.

ghost use Rattle.std.specs.Prelude.{◌≡◌};
ghost use Rattle.pd_scenario_tables.specs.Schema.{text_of, kind_rules, event_rules, sink_rules, rules_of};

use pd_scenario::Quantity;
use pd_setup::{EventKind, KindWord, SinkMode};

/// The version of a file: events that change the budget, and sinks of Revision 2.0, are known to the second alone.
#[derive(Clone, Copy, Debug, PartialEq, Eq)]
pub enum Version {
    One,
    Two,
}

/// What the word at the key `kind` of an event says; `Unknown` where it is none of a file's version.
#[derive(Clone, Copy, Debug, PartialEq, Eq)]
pub enum EventName {
    /// Something that happens on a port.
    OnPort(KindWord),
    /// A change of the budget.
    Budget,
    Unknown,
}

/// What a table of a file stands for.
#[derive(Clone, Copy, Debug, PartialEq, Eq)]
pub enum TableKind {
    Top,
    Port,
    Cable,
    Sink,
    Event(EventName),
}

/// The keys of all tables.
#[derive(Clone, Copy, Debug, PartialEq, Eq)]
pub enum Key {
    Version,
    End,
    Budget,
    Port,
    Cable,
    Sink,
    Event,
    Floor,
    Supplies,
    IdentityTries,
    Unconstrained,
    Name,
    Plug,
    Rating,
    Max,
    Demand,
    Mode,
    Revision,
    Id,
    At,
    Kind,
    Mw,
    Place,
    Mask,
}

impl Key {
    /// The key as it is written.
    pub fn text(self) -> &'static str
        ensures { result.now ≡ text_of self }
    {
        match self {
            Key::Version => "version",
            Key::End => "end",
            Key::Budget => "budget",
            Key::Port => "port",
            Key::Cable => "cable",
            Key::Sink => "sink",
            Key::Event => "event",
            Key::Floor => "floor",
            Key::Supplies => "supplies",
            Key::IdentityTries => "identity_tries",
            Key::Unconstrained => "unconstrained",
            Key::Name => "name",
            Key::Plug => "plug",
            Key::Rating => "rating",
            Key::Max => "max",
            Key::Demand => "demand",
            Key::Mode => "mode",
            Key::Revision => "revision",
            Key::Id => "id",
            Key::At => "at",
            Key::Kind => "kind",
            Key::Mw => "mw",
            Key::Place => "place",
            Key::Mask => "mask",
        }
    }
}

/// How often a cable is asked who it is, where no key says so.
pub const DEFAULT_TRIES: i64 = 3;

/// Whether a port's power is unconstrained, where no key says so.
pub const DEFAULT_UNCONSTRAINED: bool = false;

/// How a sink behaves, where no key says so.
pub const DEFAULT_MODE: SinkMode = SinkMode::PowerDelivery;

/// The revision that a sink speaks, where no key says so: 3.0.
pub const DEFAULT_REVISION: i64 = 3;

/// What stands where a key is absent.
#[derive(Clone, Copy)]
pub enum Need {
    /// Nothing may: the key is needed.
    Required,
    /// No tables, or nothing.
    Nothing,
    Number(i64),
    Truth(bool),
    Mode(SinkMode),
}

/// What a value has to be.
#[derive(Clone, Copy)]
pub enum Form {
    /// A whole number within the limits of a quantity.
    Number(Quantity),
    /// 1 or 2.
    VersionNumber,
    /// One of the ports.
    PortNumber,
    /// 3000 or 5000.
    RatingNumber,
    /// 2 or 3.
    RevisionNumber,
    /// A text that is a name.
    Name,
    /// The word of a plug, of a mode, or of a kind of event.
    PlugWord,
    ModeWord,
    EventWord,
    Truth,
    /// A list of pairs of whole numbers: 1 to 7 supplies with rising voltages.
    Supplies,
    /// A list of tables.
    Tables,
}

/// A key of a table, what stands where it is absent, and what its value has to be.
#[derive(Clone, Copy)]
pub struct Rule {
    pub key: Key,
    pub need: Need,
    pub form: Form,
}

macro_rules! rules {
    ($($key:ident, $need:expr, $form:expr;)*) => {
        &[$(Rule { key: Key::$key, need: $need, form: $form }),*]
    };
}

/// The keys of each event, after those of its kind.
macro_rules! any_event {
    ($($rules:tt)*) => {
        rules! {
            $($rules)*
            Id, Need::Required, Form::Number(Quantity::EventId);
            At, Need::Required, Form::Number(Quantity::Time);
            Kind, Need::Required, Form::EventWord;
        }
    };
}

/// The keys of each event of a port, after those of its kind.
macro_rules! on_port {
    ($($rules:tt)*) => {
        any_event! {
            $($rules)*
            Port, Need::Required, Form::PortNumber;
        }
    };
}

/// The keys of an event of a port, by its kind.
fn kind_rules(kind: KindWord) -> &'static [Rule]
    ensures { result.now ≡ kind_rules kind }
{
    match kind {
        EventKind::Attach { .. } => on_port! {
            Cable, Need::Required, Form::Name;
            Sink, Need::Required, Form::Name;
        },
        EventKind::Demand(()) => on_port! {
            Mw, Need::Required, Form::Number(Quantity::Demand);
        },
        EventKind::Damage(()) => on_port! {
            Place, Need::Required, Form::Number(Quantity::DamagePlace);
            Mask, Need::Required, Form::Number(Quantity::DamageMask);
        },
        _ => on_port! {},
    }
}

/// The keys of an event.
pub fn event_rules(name: EventName) -> &'static [Rule]
    ensures { result.now ≡ event_rules name }
{
    match name {
        EventName::OnPort(kind) => kind_rules(kind),
        EventName::Budget => any_event! {
            Mw, Need::Required, Form::Number(Quantity::Budget);
        },
        EventName::Unknown => on_port! {
            Cable, Need::Nothing, Form::Name;
            Sink, Need::Nothing, Form::Name;
            Mw, Need::Nothing, Form::Number(Quantity::Demand);
            Place, Need::Nothing, Form::Number(Quantity::DamagePlace);
            Mask, Need::Nothing, Form::Number(Quantity::DamageMask);
        },
    }
}

fn sink_rules(version: Version) -> &'static [Rule]
    ensures { result.now ≡ sink_rules version }
{
    match version {
        Version::One => rules! {
            Name, Need::Required, Form::Name;
            Max, Need::Required, Form::Number(Quantity::Voltage);
            Demand, Need::Required, Form::Number(Quantity::Demand);
            Mode, Need::Mode(DEFAULT_MODE), Form::ModeWord;
        },
        Version::Two => rules! {
            Name, Need::Required, Form::Name;
            Max, Need::Required, Form::Number(Quantity::Voltage);
            Demand, Need::Required, Form::Number(Quantity::Demand);
            Mode, Need::Mode(DEFAULT_MODE), Form::ModeWord;
            Revision, Need::Number(DEFAULT_REVISION), Form::RevisionNumber;
        },
    }
}

/// The keys of a table.
pub fn rules_of(version: Version, kind: TableKind) -> &'static [Rule]
    ensures { result.now ≡ rules_of version kind }
{
    match kind {
        TableKind::Top => rules! {
            Version, Need::Required, Form::VersionNumber;
            End, Need::Required, Form::Number(Quantity::Time);
            Budget, Need::Required, Form::Number(Quantity::Budget);
            Port, Need::Required, Form::Tables;
            Cable, Need::Nothing, Form::Tables;
            Sink, Need::Nothing, Form::Tables;
            Event, Need::Nothing, Form::Tables;
        },
        TableKind::Port => rules! {
            Floor, Need::Required, Form::Number(Quantity::Floor);
            Supplies, Need::Required, Form::Supplies;
            IdentityTries, Need::Number(DEFAULT_TRIES), Form::Number(Quantity::IdentityTries);
            Unconstrained, Need::Truth(DEFAULT_UNCONSTRAINED), Form::Truth;
        },
        TableKind::Cable => rules! {
            Name, Need::Required, Form::Name;
            Plug, Need::Required, Form::PlugWord;
            Rating, Need::Required, Form::RatingNumber;
        },
        TableKind::Sink => sink_rules(version),
        TableKind::Event(name) => event_rules(name),
    }
}
