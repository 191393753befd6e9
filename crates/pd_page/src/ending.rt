//! How a call ended.

ghost use Rattle.std.specs.Prelude.{◌≡◌};
ghost use Rattle.pd_page.specs.Endings.{number_of, scenario_ending, scene_ending};

use pd_scene::{ScenarioFault, SceneFault};

/// How a call ended.
#[derive(Clone, Copy, Debug, PartialEq, Eq)]
pub enum Ending {
    /// It has an answer.
    Done,
    /// The scenario is refused.
    Refused,
    /// The scenario has no such port.
    NoSuchPort,
    /// There was no memory.
    NoMemory,
    /// The script has more bytes than a session reads.
    TooLong,
}

impl Ending {
    /// The number that it is told by.
    pub fn number(self) -> u32
        ensures { result ≡ number_of self }
    {
        match self {
            Ending::Done => 0,
            Ending::Refused => 1,
            Ending::NoSuchPort => 2,
            Ending::NoMemory => 3,
            Ending::TooLong => 4,
        }
    }
}

/// How a call ends for which a text has no scenario.
pub(crate) fn scenario_ending(fault: ScenarioFault) -> Ending
    ensures { result ≡ scenario_ending fault }
{
    match fault {
        ScenarioFault::Memory => Ending::NoMemory,
        _ => Ending::Refused,
    }
}

/// How a call ends whose job on a scenario wasn't done. What a job writes to takes all that there is memory for.
pub(crate) fn scene_ending(fault: SceneFault) -> Ending
    ensures { result ≡ scene_ending fault }
{
    match fault {
        SceneFault::Scenario(fault) => scenario_ending(fault),
        SceneFault::NoSuchPort => Ending::NoSuchPort,
        SceneFault::Lines => Ending::Refused,
        SceneFault::Job(_) => Ending::NoMemory,
    }
}
