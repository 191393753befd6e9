//! What a port is set to.

ghost use Rattle.std.specs.Prelude.{◌≡◌, ℕ, ◌↔◌, IsTrue};
ghost use Rattle.pd_setup.specs.Settings.{SettingsData, IsSettings};

use arrayvec::ArrayVec;
use pd_objects::{Supply, SupplyList, same_supplies};
use std::marker::Model;

/// What a port is set to: its floor in mW, 500 to 100,000; 1 to 7 supplies, the first of 5 V and the voltages rising;
/// how often its cable is asked who it is, 0 to 20; and whether its power is unconstrained.
#[derive(Clone, Copy)]
pub struct Settings {
    floor_mw: u32,
    supplies: SupplyList,
    identity_tries: u8,
    unconstrained: bool,
}

impl Model for Settings {
    ghost Value = { SettingsData };

    ghost view = { λ s. record {
      floor_mw = s.floor_mw;
      supplies = s.supplies;
      identity_tries = s.identity_tries;
      unconstrained = s.unconstrained;
    } };

    ghost invariant = { λ s. IsSettings (record {
      floor_mw = s.floor_mw;
      supplies = s.supplies;
      identity_tries = s.identity_tries;
      unconstrained = s.unconstrained;
    }) };

    ghost inverse = { λ v. record {
      floor_mw = v.floor_mw;
      supplies = v.supplies;
      identity_tries = v.identity_tries;
      unconstrained = v.unconstrained;
    } };
}

impl Settings {
    /// A port of this floor in mW, with these supplies.
    pub fn new(
        floor_mw: u32,
        supplies: ArrayVec<Supply, 7>,
        identity_tries: u8,
        unconstrained: bool,
    ) -> Settings
        requires { IsSettings
            (record { floor_mw = floor_mw; supplies = supplies.items; identity_tries = identity_tries; unconstrained = unconstrained }) }
        ensures { result ≡ record {
          floor_mw = floor_mw;
          supplies = supplies.items;
          identity_tries = identity_tries;
          unconstrained = unconstrained;
        } }
    {
        Settings {
            floor_mw,
            supplies: SupplyList::of(supplies.as_slice()),
            identity_tries,
            unconstrained,
        }
    }

    /// The floor in mW.
    pub fn floor_mw(&self) -> u32
        ensures value { result ≡ self.now.floor_mw }
        ensures is_settings { IsSettings self.now }
    {
        let _tries = self.identity_tries;
        self.floor_mw
    }

    /// The supplies, their voltages rising from 5 V.
    pub fn supplies(&self) -> &[Supply]
        ensures value { result.now ≡ self.now.supplies }
        ensures is_settings { IsSettings self.now }
    {
        let _floor = self.floor_mw;
        self.supplies.as_slice()
    }

    /// How often the cable is asked who it is.
    pub fn identity_tries(&self) -> u8
        ensures value { result ≡ self.now.identity_tries }
        ensures is_settings { IsSettings self.now }
    {
        let _floor = self.floor_mw;
        self.identity_tries
    }

    /// Whether the port's power is unconstrained.
    pub fn unconstrained(&self) -> bool
        ensures { result ≡ self.now.unconstrained }
    {
        self.unconstrained
    }

    /// Whether both are the same.
    pub fn same(&self, other: &Settings) -> bool
        ensures { IsTrue result ↔ (self.now ≡ other.now) }
    {
        other.floor_mw == self.floor_mw
            && same_supplies(self.supplies.as_slice(), other.supplies.as_slice())
            && self.identity_tries == other.identity_tries
            && self.unconstrained == other.unconstrained
    }

    /// The same settings.
    pub fn copy(&self) -> Settings
        ensures { result ≡ self.now }
    {
        *self
    }
}
