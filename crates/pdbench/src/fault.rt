//! Faults, as the program tells them.

use crate::Ending;
use pd_device::BenchFault;
use pd_scenario_text::ScenarioFault;

/// Tells a fault on standard error.
pub fn tell(rt: &impl Eprint, fault: BenchFault) -> Ending {
    let _ = eprintln!(rt; "fault {}", fault.number());
    Ending::Fault
}

/// Tells on standard error that a scenario is refused.
pub fn tell_refused(rt: &impl Eprint, fault: ScenarioFault) -> Ending {
    let _ = eprintln!(rt; "scenario refused {}", fault.number());
    Ending::Refused
}
