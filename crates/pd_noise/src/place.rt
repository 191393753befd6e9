//! Places in a run.

ghost use Rattle.std.specs.Prelude.{◌≡◌};
ghost use Rattle.pd_noise.specs.Losses.{first_place, is_behind, is_drawn, place_of};

use pd_sweep::Target;

/// Up to where numbers have been drawn in a run: a time in microseconds, and a port, numbered from 1.
#[derive(Clone, Copy, Debug, PartialEq, Eq)]
pub struct Place {
    pub at: u64,
    pub port: usize,
}

impl Place {
    /// Before the run.
    pub(crate) fn first() -> Place
        ensures { result ≡ first_place }
    {
        Place { at: 0, port: 0 }
    }

    /// That of a packet.
    pub(crate) fn of(target: &Target) -> Place
        ensures { result ≡ place_of target.now }
    {
        Place {
            at: target.at,
            port: target.port,
        }
    }

    /// Whether a packet is later, or at the time on a higher port.
    fn is_before(&self, target: &Target) -> bool
        ensures { result ≡ is_behind self.now target.now }
    {
        self.at < target.at || (target.at == self.at && self.port < target.port)
    }

    /// Whether a number is drawn for a packet: it is behind, and arrives as it was sent.
    pub(crate) fn is_drawn(&self, target: &Target) -> bool
        ensures { result ≡ is_drawn self.now target.now }
    {
        self.is_before(target) && !target.disturbed
    }
}
