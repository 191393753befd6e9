//! How many steps were taken.

ghost use Rattle.std.specs.Prelude.{◌≡◌, ℕ, ◌<◌, ◌^◌};
ghost use Rattle.pd_port.specs.Meter.{raised};

use std::marker::Model;

/// How many steps were taken. It stays at its greatest value, 2^64 - 1. A caller that is no program of ours keeps it as such a number.
#[derive(Debug, Drop)]
#[repr(C)]
pub struct Meter {
    steps: u64,
}

impl Model for Meter {
    ghost Value = { ℕ };

    ghost view = { λ m. m.steps };

    ghost inverse = { λ n. record { steps = n } };
}

impl Meter {
    /// A meter at 0.
    pub fn new() -> Meter
        ensures { result ≡ 0 }
    {
        Meter { steps: 0 }
    }

    /// How many steps were taken.
    pub fn count(&self) -> u64
        ensures value { result ≡ self.now }
        ensures fits { self.now < 2 ^ 64 }
    {
        self.steps
    }

    /// One more step was taken.
    pub(crate) fn rise(&mut self)
        ensures { self.new ≡ raised self.old 1 }
    {
        let steps = &mut self.steps;
        *steps = steps.saturating_add(1);
    }
}
