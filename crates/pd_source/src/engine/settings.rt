//! What the engine is set to.

ghost use Rattle.std.specs.Prelude.{◌≡◌, ◌≤◌, ◌↔◌, IsTrue, length};

use super::Source;
use pd_objects::{Supply, same_supplies};

impl Source {
    /// The supplies of the port, at most 7.
    pub fn supplies(&self) -> &[Supply]
        ensures value { result.now ≡ self.now.settings.supplies }
        ensures few { length result.now ≤ 7 }
    {
        self.supplies.as_slice()
    }

    /// How often the engine asks its cable who it is.
    pub fn identity_tries(&self) -> u8
        ensures { result ≡ self.now.settings.identity_tries }
    {
        self.identity_tries
    }

    /// Whether the port's power is unconstrained.
    pub fn unconstrained(&self) -> bool
        ensures { result ≡ self.now.settings.unconstrained }
    {
        self.unconstrained
    }

    /// Whether both are set to the same, whatever their records.
    pub fn same_settings(&self, other: &Source) -> bool
        ensures { IsTrue result ↔ (self.now.settings ≡ other.now.settings) }
    {
        same_supplies(self.supplies.as_slice(), other.supplies.as_slice())
            && self.identity_tries == other.identity_tries
            && self.unconstrained == other.unconstrained
    }
}
