//! Why a scenario file is refused.

ghost use Rattle.std.specs.Prelude.{◌≡◌, ℕ};
ghost use Rattle.pd_scenario_tables.specs.declared.fault.ScenarioFault.TheVariants.{Memory};
ghost use Rattle.pd_scenario_tables.specs.Numbers.{number_of};

use std::alloc::AllocError;
use thiserror::Error;

/// Why a scenario file is refused: the first of these that applies anywhere in it.
#[derive(Clone, Copy, Debug, PartialEq, Eq, Error)]
pub enum ScenarioFault {
    #[error("the file is no TOML")]
    Toml,
    #[error("a table has a key that it doesn't know")]
    UnknownKey,
    #[error("a value is of another type")]
    WrongType,
    #[error("a key is missing")]
    MissingKey,
    #[error("a number or a word is none of those allowed")]
    Range,
    #[error("a name isn't 1 to 16 ASCII letters and digits")]
    Name,
    #[error("two cables or two sinks have one name, or two events one id")]
    Duplicate,
    #[error("a port's supplies aren't 1 to 7 with rising voltages from 5,000 mV")]
    Supplies,
    #[error("the floors add to more than the least budget")]
    Floors,
    #[error("an event names a cable or a sink that isn't there")]
    UnknownName,
    #[error("there are other numbers of ports, or more events, cables or sinks than may be")]
    Limit,
    #[error("there is no memory")]
    Memory,
}

impl ScenarioFault {
    /// The number that a refusal is shown by.
    pub fn number(&self) -> u8
        ensures { result ≡ number_of self.now }
    {
        match self {
            ScenarioFault::Toml => 1,
            ScenarioFault::UnknownKey => 2,
            ScenarioFault::WrongType => 3,
            ScenarioFault::MissingKey => 4,
            ScenarioFault::Range => 5,
            ScenarioFault::Name => 6,
            ScenarioFault::Duplicate => 7,
            ScenarioFault::Supplies => 8,
            ScenarioFault::Floors => 9,
            ScenarioFault::UnknownName => 10,
            ScenarioFault::Limit => 11,
            ScenarioFault::Memory => 12,
        }
    }
}

impl From<AllocError> for ScenarioFault {
    ghost from_gives = { λ _ fault. fault ≡ Memory };

    fn from(_: AllocError) -> ScenarioFault {
        Self::Memory
    }
}
