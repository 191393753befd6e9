//! What is shown of a run.

ghost use Rattle.std.specs.Prelude.{◌≡◌};
ghost use Rattle.pd_show.specs.Choices.{good_crc, hides, is_chosen, is_of_port};

use pd_header::{Kind, header_kind};
use pd_line::Start;

/// The form in which a run is shown.
#[derive(Clone, Copy, Debug, PartialEq, Eq)]
pub enum Form {
    /// Lines of words.
    Words,
    /// A JSON object for each line.
    Json,
    /// A head, and comma-separated values for each line.
    Csv,
}

/// What is shown of a run, and how.
#[derive(Clone, Copy, Debug)]
pub struct Choice {
    /// The port that is shown, numbered from 1, or all of them.
    pub port: Option<usize>,
    /// The first time that is shown, in microseconds.
    pub from: u64,
    /// The last time that is shown, in microseconds.
    pub to: u64,
    /// Whether GoodCRC messages are shown.
    pub good_crc: bool,
    /// Whether packets are shown with their codes.
    pub codes: bool,
    /// The form of the lines.
    pub form: Form,
}

impl Choice {
    fn is_of_port(&self, port: usize) -> bool
        ensures { result ≡ is_of_port self.now.port port }
    {
        match self.port {
            None => true,
            Some(chosen) => chosen == port,
        }
    }

    /// Whether what a port says at a time is shown.
    pub(crate) fn has(&self, port: usize, at: u64) -> bool
        ensures { result ≡ is_chosen self.now port at }
    {
        self.is_of_port(port) && self.from <= at && at <= self.to
    }

    /// Whether what starts on the line is passed over.
    pub(crate) fn hides(&self, start: &Start) -> bool
        ensures { result ≡ hides self.now start.now }
    {
        match start {
            Start::Packet {
                side: _,
                packet,
                fate: _,
            } => !self.good_crc && is_good_crc(header_kind(packet.header())),
            Start::HardReset { side: _ } => false,
        }
    }
}

fn is_good_crc(kind: Kind) -> bool
    ensures { result ≡ good_crc kind }
{
    matches!(kind, Kind::GoodCrc)
}
