//! A scenario as a text that reads back.

ghost use Rattle.std.specs.Prelude.{◌≡◌, Ok, Err, IfOk};
ghost use Rattle.pd_scenario.specs.Scenarios.{IsValid};
ghost use Rattle.pd_scenario_text.specs.Reading.{Reads};
ghost use Rattle.pd_save.specs.Files.{file_text, ReadsOtherwise};
ghost use Rattle.pd_save.specs.declared.saved.SaveFault.TheVariants.{Memory as memory, Differs as differs};

use crate::file::push_file;
use crate::same::is_same;
use pd_scenario::Scenario;
use pd_scenario_text::{ScenarioFault, scenario_from_text};
use std::alloc::{AllocError, Global};

/// Why a scenario wasn't written.
#[derive(Clone, Copy, Debug, PartialEq, Eq)]
pub enum SaveFault {
    /// There was no memory.
    Memory,
    /// The text would read as something else than the scenario.
    Differs,
}

impl From<AllocError> for SaveFault {
    ghost from_gives = { λ _ fault. fault ≡ memory };

    fn from(_: AllocError) -> SaveFault {
        Self::Memory
    }
}

/// The text of a scenario file for a scenario. It was read back, and gave the same scenario.
///
/// # Errors
/// `Memory` where there is none; `Differs` where the text reads as something else. No scenario is known whose text does.
pub fn scenario_text<const N: usize>(
    alloc: Global,
    scenario: &Scenario<N>,
) -> Result<Vec<u8>, SaveFault>
    ensures text { IfOk result (λ v. v.items ≡ file_text scenario.now) }
    ensures reads_back { IfOk result (λ v. Reads N v.items (Ok scenario.now)) }
    ensures differs { result ≡ Err differs → ReadsOtherwise N (file_text scenario.now) scenario.now }
{
    let mut text = Vec::new(alloc);
    push_file(&mut text, scenario)?;
    // For the proof, which knows from it how many ports there may be.
    let _ports = scenario.ports();
    let read = match scenario_from_text::<N>(alloc, text.as_slice()) {
        Ok(read) => read,
        Err(ScenarioFault::Memory) => return Err(SaveFault::Memory),
        Err(_) => return Err(SaveFault::Differs),
    };
    if is_same(&read, scenario) {
        Ok(text)
    } else {
        Err(SaveFault::Differs)
    }
}
