//! Cables and sinks by name.

ghost use Rattle.std.specs.Prelude.{◌≡◌};

use crate::Name;
use pd_identity::Cable;
use pd_setup::SinkSettings;

/// A cable and its name.
#[derive(Drop)]
pub struct NamedCable {
    pub name: Name,
    pub cable: Cable,
}

/// A sink and its name.
#[derive(Drop)]
pub struct NamedSink {
    pub name: Name,
    pub sink: SinkSettings,
}

impl NamedCable {
    /// A copy of the cable and its name.
    pub fn copy(&self) -> NamedCable
        ensures { result ≡ self.now }
    {
        NamedCable {
            name: self.name.copy(),
            cable: self.cable,
        }
    }
}

impl NamedSink {
    /// A copy of the sink and its name.
    pub fn copy(&self) -> NamedSink
        ensures { result ≡ self.now }
    {
        NamedSink {
            name: self.name.copy(),
            sink: self.sink,
        }
    }
}
