//! The limits of a scenario's numbers.

ghost use Rattle.std.specs.Prelude.{◌≡◌, ◌<◌, ◌&&◌, ◌%◌, ◌==◌, nat_le};
ghost use Rattle.pd_scenario.specs.Limits.{allows};

/// The most cables of a scenario, and the most sinks.
pub const MOST_NAMES: usize = 64;

/// The most events of a scenario.
pub const MOST_EVENTS: usize = 4_096;

/// The voltage of a port's first supply, in mV.
pub const FIRST_MV: u32 = 5_000;

/// A number of a scenario that has limits.
#[derive(Clone, Copy, Debug, PartialEq, Eq)]
pub enum Quantity {
    /// An event's id.
    EventId,
    /// An event's time or the end, in microseconds.
    Time,
    /// The budget that the ports share, in mW.
    Budget,
    /// The power that a port always has, in mW.
    Floor,
    /// A supply's voltage, or the greatest that a sink accepts, in mV.
    Voltage,
    /// A supply's current in mA.
    Current,
    /// The power that a sink wants, in mW.
    Demand,
    /// How often a cable is asked who it is.
    IdentityTries,
    /// Where a packet is damaged, counted from its first code after the ordered set.
    DamagePlace,
    /// The bits of a code that damage turns.
    DamageMask,
}

impl Quantity {
    /// Whether a number is within the limits of the quantity.
    pub fn allows(self, number: u64) -> bool
        ensures { result ≡ allows self number }
    {
        match self {
            Quantity::EventId => is_between(number, 1, 1_000_000),
            Quantity::Time => is_between(number, 0, 120_000_000),
            Quantity::Budget => is_between(number, 500, 1_000_000),
            Quantity::Floor => is_between(number, 500, 100_000),
            Quantity::Voltage => is_between(number, 5_000, 20_000) && number % 50 == 0,
            Quantity::Current => is_between(number, 10, 5_000) && number % 10 == 0,
            Quantity::Demand => is_between(number, 50, 100_000),
            Quantity::IdentityTries => is_between(number, 0, 20),
            Quantity::DamagePlace => is_between(number, 0, 68),
            Quantity::DamageMask => is_between(number, 1, 31),
        }
    }
}

fn is_between(number: u64, low: u64, high: u64) -> bool
    ensures { result ≡ (nat_le low number && nat_le number high) }
{
    low <= number && number <= high
}
