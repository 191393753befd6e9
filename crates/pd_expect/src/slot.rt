//! What may stand at a place of a line that a test script has beside those of an edit script: a word, or a word of some form.

ghost use Rattle.std.specs.Prelude.{◌≡◌};
ghost use Rattle.pd_expect.specs.Lines.{cut, quoted};
ghost use Rattle.pd_expect.specs.Slots.{ends_there, fits, is_closing, is_inner, is_opening, is_text, keyword_of, text_of};

use crate::lines::{kind_named, opens, quoted, side_named, with_unit_of};
use crate::span::{Span, cut};
use pd_edit_lines::number;
use pd_units::{Unit, number_in};

/// What may stand at a place of a line: a word that stands for itself, or one of some form.
#[derive(Clone, Copy, Debug, PartialEq, Eq)]
pub(crate) enum Slot {
    Expect,
    Lose,
    Contract,
    No,
    Margin,
    Faults,
    Fault,
    Packet,
    At,
    From,
    To,
    Voltage,
    Current,
    Power,
    AtLeast,
    NoFaults,
    AtMost,
    But,
    Between,
    Of,
    OnPort,
    Port,
    Nth,
    Number,
    Time,
    Volts,
    Amperes,
    Watts,
    Side,
    Name,
    /// A word with both quotation marks.
    Text,
    /// The first of several between quotation marks.
    Opening,
    /// One between the first and the last of these.
    Inner,
    /// The last.
    Closing,
}

/// Whether a word has both its quotation marks.
fn is_text(word: &[u8]) -> bool
    ensures { result ≡ is_text word.now }
{
    match quoted(word) {
        Some((_, behind)) => opens(word) && behind.is_empty(),
        None => false,
    }
}

/// Whether a word begins with a quotation mark and has no other.
fn is_opening(word: &[u8]) -> bool
    ensures { result ≡ is_opening word.now }
{
    opens(word) && quoted(word).is_none()
}

/// Whether a word ends with a quotation mark and has no other.
fn is_closing(word: &[u8]) -> bool
    ensures { result ≡ is_closing word.now }
{
    match cut(b'"', word) {
        Some((_, behind)) => behind.is_empty(),
        None => false,
    }
}

/// Whether a word has no quotation mark.
fn is_inner(word: &[u8]) -> bool
    ensures { result ≡ is_inner word.now }
{
    cut(b'"', word).is_none()
}

impl Slot {
    /// How it is told: the word itself, or what form it has.
    pub(crate) fn text(self) -> &'static str
        ensures { result.now ≡ text_of self }
    {
        match self {
            Slot::Port => "PORT in 1 to 10 digits",
            Slot::Nth => "NTH in 1 to 10 digits",
            Slot::Number => "NUMBER in 1 to 10 digits",
            Slot::Time => "a time in us, ms or s",
            Slot::Volts => "RANGE as 9V or 9V..15V",
            Slot::Amperes => "RANGE as 3A or 1A..3A",
            Slot::Watts => "POWER in uW, mW or W",
            Slot::Side => "src, snk, cbl",
            Slot::Name => "the name of a message",
            Slot::Text => "WORDS in quotation marks",
            Slot::Closing => "a closing quotation mark",
            word => word.keyword(),
        }
    }

    /// The word that stands for itself; of another form none.
    pub(crate) fn keyword(self) -> &'static str
        ensures { result.now ≡ keyword_of self }
    {
        match self {
            Slot::Expect => "expect",
            Slot::Lose => "lose",
            Slot::Contract => "contract",
            Slot::No => "no",
            Slot::Margin => "margin",
            Slot::Faults => "faults",
            Slot::Fault => "fault",
            Slot::Packet => "packet",
            Slot::At => "at",
            Slot::From => "from",
            Slot::To => "to",
            Slot::Voltage => "voltage",
            Slot::Current => "current",
            Slot::Power => "power",
            Slot::AtLeast => "at_least",
            Slot::NoFaults => "none",
            Slot::AtMost => "at_most",
            Slot::But => "but",
            Slot::Between => "between",
            Slot::Of => "of",
            Slot::OnPort => "port",
            _ => "",
        }
    }

    /// Whether a word may stand there.
    pub(crate) fn fits(self, word: &[u8]) -> bool
        ensures { result ≡ fits self word.now }
    {
        match self {
            Slot::Port | Slot::Nth | Slot::Number => number(word).is_some(),
            Slot::Time => number_in(Unit::Microseconds, word).is_some(),
            Slot::Volts => Span::read(Unit::Millivolts, word).is_some(),
            Slot::Amperes => Span::read(Unit::Milliamperes, word).is_some(),
            Slot::Watts => with_unit_of(word).is_some(),
            Slot::Side => side_named(word).is_some(),
            Slot::Name => kind_named(word).is_some(),
            Slot::Text => is_text(word),
            Slot::Opening => is_opening(word),
            Slot::Inner => is_inner(word),
            Slot::Closing => is_closing(word),
            _ => word == self.keyword().as_bytes(),
        }
    }
}
