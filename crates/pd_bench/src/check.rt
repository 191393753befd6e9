//! Texts that may be scenarios.

ghost use Rattle.std.specs.Prelude.{◌≡◌, ◌≤◌, Ok};
ghost use Rattle.pd_scenario_tables.specs.Ports.{counted};
ghost use Rattle.pd_scenario_text.specs.File.{members_of};
ghost use Rattle.pd_scenario_text.specs.Texts.{ForTexts, ChecksText};

use pd_scenario_text::{ScenarioFault, ScenarioFile};
use std::alloc::Global;

// Reads a file as a scenario of as many ports as it has.
macro_rules! check_by {
    ($alloc:ident, $file:ident; $($n:literal)*) => {
        match $file.port_count()? {
            $($n => check_as::<$n>($alloc, $file),)*
            _ => Err(ScenarioFault::Limit),
        }
    };
}

/// Whether a text is a scenario, of 1 to 8 ports.
///
/// # Errors
/// The first refusal of the two readers: that of its ports, else that of the whole text; or there is no memory.
pub fn check_text(alloc: Global, text: &[u8]) -> Result<(), ScenarioFault>
    ensures { ChecksText result text.now }
{
    let file = ScenarioFile::parse(alloc, text)?;
    check_by!(alloc, file; 1 2 3 4 5 6 7 8)
}

// Whether a file is a scenario of N ports.
fn check_as<const N: usize>(alloc: Global, file: ScenarioFile) -> Result<(), ScenarioFault>
    requires from_one { 1 ≤ N }
    requires to_eight { N ≤ 8 }
    requires counts { counted (members_of file) ≡ Ok N }
    ensures { ForTexts file (λ text. ChecksText result text) }
{
    let _scenario = file.scenario::<N>(alloc)?;
    Ok(())
}
