//! The units of places.

ghost use Rattle.std.specs.Prelude.{◌≡◌, ◌≤◌, IfSome};
ghost use Rattle.pd_units.specs.Quantities.{scale};

/// The unit of a number that stands bare.
#[derive(Clone, Copy, Debug, PartialEq, Eq)]
pub enum Unit {
    Microseconds,
    Millivolts,
    Milliamperes,
    Milliwatts,
    Microwatts,
}

impl Unit {
    /// How many of this unit the one of a name is, where it has one of the same kind: of microseconds `ms` is 1000.
    pub(crate) fn scale(self, name: &[u8]) -> Option<u64>
        ensures value { result ≡ scale self name.now }
        ensures fits { IfSome result (λ scale. scale ≤ 1000000) }
    {
        match (self, name) {
            (Unit::Microseconds, b"us") => Some(1),
            (Unit::Microseconds, b"ms") => Some(1_000),
            (Unit::Microseconds, b"s") => Some(1_000_000),
            (Unit::Millivolts, b"mV") => Some(1),
            (Unit::Millivolts, b"V") => Some(1_000),
            (Unit::Milliamperes, b"mA") => Some(1),
            (Unit::Milliamperes, b"A") => Some(1_000),
            (Unit::Milliwatts, b"mW") => Some(1),
            (Unit::Milliwatts, b"W") => Some(1_000),
            (Unit::Microwatts, b"uW") => Some(1),
            (Unit::Microwatts, b"mW") => Some(1_000),
            (Unit::Microwatts, b"W") => Some(1_000_000),
            _ => None,
        }
    }
}
