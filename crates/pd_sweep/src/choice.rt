//! Which packets are tried, and how each is harmed.

ghost use Rattle.std.specs.Prelude.{◌≡◌};
ghost use Rattle.pd_sweep.specs.Choices.{is_chosen, is_of_kind, is_of_port};

use crate::Target;
use pd_header::{Kind, header_kind};

/// What a sweep does.
#[derive(Clone, Copy, Debug)]
pub struct Campaign {
    /// Which packets it harms, each in a run of its own.
    pub choice: Choice,
    /// How it harms them.
    pub loss: Loss,
    /// How many of the packets that start behind each on its port it harms too.
    pub behind: u8,
    /// How many of the packets that are chosen are lost in one run at most: 1 to 3.
    pub any: u8,
    /// How many of these runs are made at most.
    pub most: u64,
    /// What each of these runs is to leave of the budget at the end of every instant, in milliwatts, where that is asked.
    pub reserve: Option<u64>,
}

/// How a packet is harmed.
#[derive(Clone, Copy, Debug, PartialEq, Eq)]
pub enum Loss {
    /// It is lost.
    Lost,
    /// Its first code after the ordered set is changed in its lowest bit.
    Damaged,
}

/// Which packets of a run are tried.
#[derive(Clone, Copy, Debug)]
pub struct Choice {
    /// Those of this port, numbered from 1, or of all.
    pub port: Option<usize>,
    /// Those from this time on, in microseconds.
    pub from: u64,
    /// Those up to this time, in microseconds.
    pub to: u64,
    /// Those of messages of this kind, or of all.
    pub kind: Option<Kind>,
}

impl Choice {
    fn is_of_port(&self, port: usize) -> bool
        ensures { result ≡ is_of_port self.now.port port }
    {
        match self.port {
            None => true,
            Some(chosen) => chosen == port,
        }
    }

    fn is_of_kind(&self, kind: Kind) -> bool
        ensures { result ≡ is_of_kind self.now.kind kind }
    {
        match self.kind {
            None => true,
            Some(chosen) => chosen.name().as_str() == kind.name().as_str(),
        }
    }

    /// Whether a packet is tried.
    pub(crate) fn has(&self, target: &Target) -> bool
        ensures { result ≡ is_chosen self.now target.now }
    {
        self.is_of_port(target.port)
            && self.from <= target.at
            && target.at <= self.to
            && self.is_of_kind(header_kind(target.header))
    }
}
