//! The texts of scenario files.

ghost use Rattle.std.specs.Prelude.{◌≤◌};
ghost use Rattle.pd_scenario_text.specs.Reading.{Reads, Counts};

use crate::file::ScenarioFile;
use pd_scenario::Scenario;
use pd_scenario_tables::ScenarioFault;
use std::alloc::Global;

/// The scenario of a text, for N ports.
///
/// # Errors
/// The first refusal that applies anywhere in it, or `Memory`.
pub fn scenario_from_text<const N: usize>(
    alloc: Global,
    text: &[u8],
) -> Result<Scenario<N>, ScenarioFault>
    requires from_one { 1 ≤ N }
    requires to_eight { N ≤ 8 }
    ensures { Reads N text.now result }
{
    ScenarioFile::parse(alloc, text)?.scenario(alloc)
}

/// How many ports a text has.
///
/// # Errors
/// The text is no TOML; it has no ports; they are no tables; there are more than eight or none; or `Memory`.
pub fn port_count(alloc: Global, text: &[u8]) -> Result<usize, ScenarioFault>
    ensures { Counts text.now result }
{
    ScenarioFile::parse(alloc, text)?.port_count()
}
