//! What may stand at a place of a line: a word, or a word of some form.

ghost use Rattle.std.specs.Prelude.{◌≡◌};
ghost use Rattle.pd_edit_lines.specs.Slots.{fits, keyword_of, text_of};

use crate::number;
use pd_scenario::{is_name, mode_of, plug_of};

/// What may stand at a place of a line. The words of docs/FORMATS.md in small letters stand for themselves, those in
/// capitals for a number or a name.
#[derive(Clone, Copy, Debug, PartialEq, Eq)]
pub enum Slot {
    Insert,
    Remove,
    Move,
    Change,
    Cable,
    Sink,
    Caps,
    Floor,
    Budget,
    End,
    Show,
    Attach,
    Detach,
    Demand,
    Lose,
    Damage,
    GetSource,
    GetSink,
    Drop,
    Rev2,
    Rev3,
    Transcript,
    Contracts,
    Faults,
    Margins,
    Id,
    At,
    Port,
    Mw,
    Place,
    Mask,
    Rating,
    Max,
    Wanted,
    Mv,
    Ma,
    Name,
    CableName,
    SinkName,
    Plug,
    Mode,
}

impl Slot {
    /// How it is told: the word itself, or what form it has.
    pub fn text(self) -> &'static str
        ensures { result.now ≡ text_of self }
    {
        match self {
            Slot::Id => "ID in 1 to 10 digits",
            Slot::At => "AT in 1 to 10 digits",
            Slot::Port => "PORT in 1 to 10 digits",
            Slot::Mw => "MW in 1 to 10 digits",
            Slot::Place => "PLACE in 1 to 10 digits",
            Slot::Mask => "MASK in 1 to 10 digits",
            Slot::Rating => "RATING in 1 to 10 digits",
            Slot::Max => "MAX in 1 to 10 digits",
            Slot::Wanted => "DEMAND in 1 to 10 digits",
            Slot::Mv => "MV in 1 to 10 digits",
            Slot::Ma => "MA in 1 to 10 digits",
            Slot::Name => "NAME in 1 to 16 letters and digits",
            Slot::CableName => "CABLE in 1 to 16 letters and digits",
            Slot::SinkName => "SINK in 1 to 16 letters and digits",
            Slot::Plug => "none, ack, nak, busy, silent",
            Slot::Mode => "pd, plain, greedy",
            word => word.keyword(),
        }
    }

    /// The word that stands for itself; of another form none.
    pub fn keyword(self) -> &'static str
        ensures { result.now ≡ keyword_of self }
    {
        match self {
            Slot::Insert => "insert",
            Slot::Remove => "remove",
            Slot::Move => "move",
            Slot::Change => "change",
            Slot::Cable => "cable",
            Slot::Sink => "sink",
            Slot::Caps => "caps",
            Slot::Floor => "floor",
            Slot::Budget => "budget",
            Slot::End => "end",
            Slot::Show => "show",
            Slot::Attach => "attach",
            Slot::Detach => "detach",
            Slot::Demand => "demand",
            Slot::Lose => "lose",
            Slot::Damage => "damage",
            Slot::GetSource => "get_source",
            Slot::GetSink => "get_sink",
            Slot::Drop => "drop",
            Slot::Rev2 => "rev2",
            Slot::Rev3 => "rev3",
            Slot::Transcript => "transcript",
            Slot::Contracts => "contracts",
            Slot::Faults => "faults",
            Slot::Margins => "margins",
            _ => "",
        }
    }

    /// Whether a word may stand there.
    pub fn fits(self, word: &[u8]) -> bool
        ensures { result ≡ fits self word.now }
    {
        match self {
            Slot::Id
            | Slot::At
            | Slot::Port
            | Slot::Mw
            | Slot::Place
            | Slot::Mask
            | Slot::Rating
            | Slot::Max
            | Slot::Wanted
            | Slot::Mv
            | Slot::Ma => number(word).is_some(),
            Slot::Name | Slot::CableName | Slot::SinkName => is_name(word),
            Slot::Plug => plug_of(word).is_some(),
            Slot::Mode => mode_of(word).is_some(),
            _ => word == self.keyword().as_bytes(),
        }
    }
}
